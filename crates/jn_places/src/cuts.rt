//! Where members of a type are cut into shares, by the places that they have from before. Nothing is claimed of these: what
//! was placed over the wrong tokens is placed once more.
ghost use Rattle.std.specs.Prelude.{◌≤◌, length, IfSome};

use jn_base::Span;
use jn_trees::{Member, Token};

/// The fewest tokens that are worth a worker: to start one costs some tens of microseconds, in which the places of some
/// thousand tokens are set.
const FEWEST: usize = 4096;

/// A cut of members into those before it and those after it.
#[derive(Drop)]
pub struct Cut {
    /// How many members stand before it.
    pub members: usize,
    /// How many tokens seem to stand before it.
    pub tokens: usize,
}

/// The place that a member has.
fn span_of(member: &Member) -> Span {
    match member {
        Member::Field { span, .. } => *span,
        Member::Method { span, .. } => *span,
        Member::Constructor { span, .. } => *span,
    }
}

/// How many tokens begin before a byte of the text.
fn tokens_before(tokens: &[Token], place: u32) -> usize
    ensures { result ≤ length tokens.now }
{
    tokens.partition_point(|token| token.span.from < place)
}

/// How many members begin before a byte of the text.
fn members_before(members: &[Member], place: u32) -> usize
    ensures { result ≤ length members.now }
{
    members.partition_point(|member| span_of(member).from < place)
}

/// Where the last of as many shares as there are workers begins, at a member: after the token at which it would be as large
/// as the others, or where the last member begins. None where shares would be too small.
pub fn last_share(tokens: &[Token], members: &[Member], more: u32) -> Option<Cut>
    ensures { IfSome result
        (λ cut. (cut.members ≤ length members.now) × (cut.tokens ≤ length tokens.now)) }
{
    if members.len() < 2 {
        return None;
    }
    let last = members.len() - 1;
    let end = tokens_before(tokens, span_of(&members[last]).to);
    let workers = (more as usize).saturating_add(1).min(end / FEWEST);
    if workers < 2 {
        return None;
    }
    let even = end.saturating_sub(end / workers);
    if even >= tokens.len() {
        return None;
    }
    let at = members_before(members, tokens[even].span.from).min(last);
    let begins = tokens_before(tokens, span_of(&members[at]).from);
    Some(Cut {
        members: at,
        tokens: begins,
    })
}
