//! Whether two lists of diagnostics are the same.
ghost use Rattle.std.specs.Prelude.{◌≡◌, ◌↔◌, IsTrue, true};

use jn_lsp_text::{Diagnostic, Related, Said};

fn is_same_related(one: &Related, other: &Related) -> bool
    ensures { IsTrue result ↔ (one.now ≡ other.now) }
{
    one.range == other.range
        && one.name.as_str() == other.name.as_str()
        && one.words.as_str() == other.words.as_str()
}

fn are_same_related(one: &[Related], other: &[Related]) -> bool
    ensures { IsTrue result ↔ (one.now ≡ other.now) }
{
    if one.len() != other.len() {
        return false;
    }
    for at in 0..one.len() {
        if !is_same_related(&one[at], &other[at]) {
            return false;
        }
    }
    true
}

fn is_same_said(one: &Said, other: &Said) -> bool
    ensures { IsTrue result ↔ (one.now ≡ other.now) }
{
    match (one, other) {
        (Said::Row(one), Said::Row(other)) => *one == *other,
        (Said::Unchecked(one), Said::Unchecked(other)) => one.as_str() == other.as_str(),
        (Said::Row(_), Said::Unchecked(_)) => false,
        (Said::Unchecked(_), Said::Row(_)) => false,
    }
}

/// Whether range and what is said are the same.
fn has_same_head(one: &Diagnostic, other: &Diagnostic) -> bool
    ensures { IsTrue result
        ↔ ((one.now.range ≡ other.now.range) × (one.now.said ≡ other.now.said)) }
{
    one.range == other.range && is_same_said(&one.said, &other.said)
}

fn is_same(one: &Diagnostic, other: &Diagnostic) -> bool
    ensures { IsTrue result ↔ (one.now ≡ other.now) }
{
    has_same_head(one, other) && are_same_related(one.related.as_slice(), other.related.as_slice())
}

/// Whether the diagnostics are the same, in the same order.
pub(crate) fn are_same(one: &[Diagnostic], other: &[Diagnostic]) -> bool
    ensures { IsTrue result ↔ (one.now ≡ other.now) }
{
    if one.len() != other.len() {
        return false;
    }
    for at in 0..one.len() {
        if !is_same(&one[at], &other[at]) {
            return false;
        }
    }
    true
}
