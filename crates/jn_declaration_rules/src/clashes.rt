//! T5 by an index of the program: bad overrides, and statics that are hidden badly (JLS 8.4.8).
ghost use Rattle.std.specs.Prelude.{◌≡◌, ◌<◌, ◌^◌, ◌++◌, ◌&&◌, not, length, Some, IfOk, IfSome, OnOk};
ghost use Rattle.jn_base.specs.declared.code.Code.TheVariants.{T5};
ghost use Rattle.jn_points.specs.declared.program.Method.{Method as MethodOf};
ghost use Rattle.jn_points.specs.Lookup.{method_at};
ghost use Rattle.jn_points.specs.Members as members;
ghost use Rattle.jn_member_tables.specs.Numbers.{places_of, passes};
ghost use Rattle.jn_index.specs.Index.{owners};
ghost use Rattle.jn_index.specs.Users.{AreUsers};
ghost use Rattle.jn_declaration_rules.specs.Rows as spec;

use crate::candidates::candidates;
use crate::overrides::{override_rows, same_bases};
use crate::rows::push_if;
use jn_base::{ClassNo, Code, Row, Seq};
use jn_index::fits::is_sub;
use jn_index::index::Index;
use jn_index::indexed::{Indexed, IndexedProgram};
use jn_index::lookup::is_subclass;
use jn_index::overridden::has_partner;
use jn_index::pairs::{is_pair_of, users};
use jn_points::Method;
use jn_points::lookup::method_at;
use jn_points::members::is_named;
use std::alloc::{AllocError, Global};

fn agrees(program: &Indexed, over: &Method, under: &Method) -> bool
    ensures { result ≡ spec.agrees program.now over.now under.now }
{
    same_bases(over.params.as_slice(), under.params.as_slice())
        && is_sub(program, over.result, under.result)
        && !under.is_final
        && !(over.is_static || under.is_static)
}

fn over_static(program: &Indexed, over: &Method, under: &Method) -> bool
    ensures { result ≡ spec.over_static program.now over.now under.now }
{
    !over.ctor
        && is_named(under, over.name, over.params.len())
        && under.is_static
        && !under.is_private
        && !(over.owner.0 == under.owner.0)
        && is_subclass(program, over.owner, under.owner)
}

fn hides_well(program: &Indexed, over: &Method, under: &Method) -> bool
    ensures { result ≡ spec.hides_well program.now over.now under.now }
{
    over.is_static
        && same_bases(over.params.as_slice(), under.params.as_slice())
        && is_sub(program, over.result, under.result)
        && !under.is_final
}

/// Whether the method overrides the other one without agreeing with it, which is looked at first.
fn clashes(program: &Indexed, users: &[u32], m: u32, over: &Method, k: u32) -> bool
    requires there { method_at program.now m ≡ Some over.now }
    requires users { AreUsers program.now m over.now users.now }
    ensures { result
        ≡ passes (λ y. members.is_pair program.now m k && not (spec.agrees program.now over.now y))
        (method_at program.now k) }
{
    match method_at(program.program(), k as usize) {
        None => false,
        Some(under) => {
            if agrees(program, over, under) {
                return false;
            }
            is_pair_of(program, users, m, over, k, under)
        }
    }
}

#[tactic(auto, using(crate::proofs::ByName::clashes_named))]
fn overrides_named(program: &Indexed, users: &[u32], m: u32, over: &Method) -> bool
    requires there { method_at program.now m ≡ Some over.now }
    requires users { AreUsers program.now m over.now users.now }
    ensures { result ≡ spec.overrides_badly program.now m over.now }
{
    let index = program.index();
    let named = index.named(over.name.0);
    for k in named {
        if clashes(program, users, m, over, *k) {
            return true;
        }
    }
    false
}

fn hides_one_badly(program: &Indexed, over: &Method, k: u32) -> bool
    ensures { result
        ≡ passes
        (λ y. spec.over_static program.now over.now y
        && not (spec.hides_well program.now over.now y))
        (method_at program.now k) }
{
    match method_at(program.program(), k as usize) {
        None => false,
        Some(under) => { over_static(program, over, under) && !hides_well(program, over, under) }
    }
}

#[tactic(auto, using(crate::proofs::ByName::hides_named))]
fn hides_named(program: &Indexed, over: &Method) -> bool
    ensures { result ≡ spec.hides_badly program.now over.now }
{
    let index = program.index();
    let named = index.named(over.name.0);
    for k in named {
        if hides_one_badly(program, over, *k) {
            return true;
        }
    }
    false
}

fn overrides_own(program: &Indexed, users: &[u32], m: u32, over: &Method, own: &[u32]) -> bool
    requires there { method_at program.now m ≡ Some over.now }
    requires users { AreUsers program.now m over.now users.now }
    ensures { result
        ≡ members.some_of
        (λ k. passes
        (λ y. members.is_pair program.now m k && not (spec.agrees program.now over.now y))
        (method_at program.now k))
        own.now }
{
    for k in own {
        if clashes(program, users, m, over, *k) {
            return true;
        }
    }
    false
}

fn overrides_among(program: &Indexed, users: &[u32], m: u32, over: &Method, classes: &[u32]) -> bool
    requires there { method_at program.now m ≡ Some over.now }
    requires users { AreUsers program.now m over.now users.now }
    ensures { result
        ≡ members.some_of
        (λ d. members.some_of
        (λ k. passes
        (λ y.
        members.is_pair program.now m k && not (spec.agrees program.now over.now y))
        (method_at program.now k))
        (places_of d 0 (owners program.now.methods)))
        classes.now }
{
    for class in classes {
        if overrides_own(program, users, m, over, program.own(*class)) {
            return true;
        }
    }
    false
}

fn hides_own(program: &Indexed, over: &Method, own: &[u32]) -> bool
    ensures { result
        ≡ members.some_of
        (λ k. passes
        (λ y. spec.over_static program.now over.now y
        && not (spec.hides_well program.now over.now y))
        (method_at program.now k))
        own.now }
{
    for k in own {
        if hides_one_badly(program, over, *k) {
            return true;
        }
    }
    false
}

fn hides_among(program: &Indexed, over: &Method, classes: &[u32]) -> bool
    ensures { result
        ≡ members.some_of
        (λ d. members.some_of
        (λ k. passes
        (λ y. spec.over_static program.now over.now y
        && not (spec.hides_well program.now over.now y))
        (method_at program.now k))
        (places_of d 0 (owners program.now.methods)))
        classes.now }
{
    for class in classes {
        if hides_own(program, over, program.own(*class)) {
            return true;
        }
    }
    false
}

/// Looks among the methods of the candidates' classes.
fn is_bad_along(
    alloc: Global,
    program: &Indexed,
    users: &[u32],
    m: u32,
    over: &Method,
) -> Result<bool, AllocError>
    requires there { method_at program.now m ≡ Some over.now }
    requires users { AreUsers program.now m over.now users.now }
    requires inside { over.now.owner.0 < length program.now.classes }
    ensures { IfOk result (λ bad. bad ≡ spec.is_bad_override program.now m over.now) }
{
    let index = program.index();
    let classes = candidates(alloc, index, over.owner, users)?;
    let overrides = overrides_among(program, users, m, over, classes.as_slice());
    let hides = hides_among(program, over, classes.as_slice());
    Ok(overrides || hides)
}

/// How many methods and classes stand along a walk, counted on from those before, and no further than to the limit.
fn count_along(index: &Index, walk: &[u32], before: usize, limit: usize) -> usize {
    let mut count = before;
    for class in walk {
        if count >= limit {
            return count;
        }
        count = count.saturating_add(index.own(*class).len() + 1);
    }
    count
}

/// Whether the candidates' classes and their methods together are fewer than the limit. It decides which of two
/// ways is shorter, and nothing else.
fn are_fewer(index: &Index, owner: ClassNo, users: &[u32], limit: usize) -> bool {
    let mut count = count_along(index, index.walk(owner.0), index.own(0).len(), limit);
    for user in users {
        if count >= limit {
            return false;
        }
        count = count_along(index, index.walk(*user), count, limit);
    }
    count < limit
}

/// Looks among the methods of the name, or among those along the walks of the classes that have the method,
/// where these are fewer. A method that is alone with its name and arity is soon done.
#[tactic(auto, using(crate::proofs::Partners::alone_is_well))]
fn is_bad_override(
    alloc: Global,
    program: &Indexed,
    m: u32,
    over: &Method,
) -> Result<bool, AllocError>
    requires there { method_at program.now m ≡ Some over.now }
    ensures { IfOk result (λ bad. bad ≡ spec.is_bad_override program.now m over.now) }
{
    let index = program.index();
    if !has_partner(program.program(), index, m, over) {
        return Ok(false);
    }
    let users = users(alloc, program, m, over)?;
    let named = index.named(over.name.0).len();
    let is_shorter = are_fewer(index, over.owner, users.as_slice(), named);
    if is_shorter && (over.owner.0 as usize) < program.program().classes.len() {
        return is_bad_along(alloc, program, users.as_slice(), m, over);
    }
    Ok(overrides_named(program, users.as_slice(), m, over) || hides_named(program, over))
}

fn found_rows(alloc: Global, program: &Indexed, rows: &mut Seq<Row>) -> Result<(), AllocError>
    ensures { OnOk result (rows.new
        ≡ rows.old
        ++ spec.rows_at T5 (λ (x : MethodOf). x.span) (spec.is_bad_override program.now) 0
        program.now.methods) }
{
    program.facts();
    let methods = program.program().methods.as_slice();
    for (m, method) in methods.iter().enumerate() {
        let bad = is_bad_override(alloc, program, m as u32, method)?;
        push_if(rows, bad, Code::T5, method.span)?;
    }
    Ok(())
}

/// T5: bad overrides, and statics that are hidden badly.
pub fn clash_rows(
    alloc: Global,
    program: &IndexedProgram,
    rows: &mut Seq<Row>,
) -> Result<(), AllocError>
    ensures { OnOk result (rows.new
        ≡ rows.old
        ++ spec.rows_at T5 (λ (x : MethodOf). x.span) (spec.is_bad_override program.now) 0
        program.now.methods) }
{
    match program.indexed() {
        None => override_rows(program, rows),
        Some(indexed) => found_rows(alloc, &indexed, rows),
    }
}
