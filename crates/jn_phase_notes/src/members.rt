//! The other member of which a row T5, T6 or T7 speaks, by an index of the program where there is one (JLS 8.2, 8.3, 8.4.8).
ghost use Rattle.std.specs.Prelude.{◌≡◌, ◌<◌, ◌^◌, length, find, option_map, IfOk, IfSome, MatchOption, None, Some};
ghost use Rattle.jn_points.specs.Lookup.{method_at};
ghost use Rattle.jn_points.specs.Members as members;
ghost use Rattle.jn_index.specs.Users.{AreUsers};
ghost use Rattle.jn_declaration_rules.specs.Rows as rules;
ghost use Rattle.jn_phase_notes.specs.Others as spec;

use crate::places::{class_there, field_name, field_there, method_name, method_there};
use jn_base::{ClassNo, MethodNo, NameNo, Span};
use jn_declaration_rules::overrides::same_bases;
use jn_index::indexed::IndexedProgram;
use jn_index::lookup;
use jn_index::pairs::{is_pair_of, users};
use jn_points::lookup::{field_at, method_at};
use jn_points::members::is_named;
use jn_points::{Field, Method};
use jn_trees::Identifier;
use std::alloc::{AllocError, Global};

fn is_subclass(program: &IndexedProgram, c: ClassNo, d: ClassNo) -> bool
    ensures { result ≡ members.sub program.now c.0 d.0 }
{
    match program.indexed() {
        None => jn_points::is_subclass(program.program(), c, d),
        Some(indexed) => lookup::is_subclass(&indexed, c, d),
    }
}

fn method_of(
    program: &IndexedProgram,
    class: ClassNo,
    name: NameNo,
    arity: usize,
) -> Option<MethodNo>
    requires short { arity < 2 ^ 32 }
    ensures { MatchOption result (members.method_of program.now class.0 name.0 arity ≡ None)
        (λ m. members.method_of program.now class.0 name.0 arity ≡ Some m.0) }
{
    program.facts();
    match program.indexed() {
        None => jn_points::method_of(program.program(), class, name, arity as u32),
        Some(indexed) => lookup::method_of(&indexed, class, name, arity),
    }
}

/// The classes that have or inherit a method, where there is an index to ask.
fn users_of(
    alloc: Global,
    program: &IndexedProgram,
    m: u32,
    over: &Method,
) -> Result<Option<Vec<u32>>, AllocError>
    requires there { method_at program.now m ≡ Some over.now }
    ensures { IfOk result
        (λ o. IfSome o (λ users. AreUsers program.now m over.now users.items)) }
{
    match program.indexed() {
        None => Ok(None),
        Some(indexed) => {
            let found = users(alloc, &indexed, m, over)?;
            Ok(Some(found))
        }
    }
}

/// Whether the first method, of which these are the users, overrides the second.
fn is_pair(
    program: &IndexedProgram,
    users: &Option<Vec<u32>>,
    m: u32,
    over: &Method,
    k: u32,
    under: &Method,
) -> bool
    requires users { IfSome users.now (λ u. AreUsers program.now m over.now u.items) }
    requires over_there { method_at program.now m ≡ Some over.now }
    requires under_there { method_at program.now k ≡ Some under.now }
    ensures { result ≡ members.is_pair program.now m k }
{
    program.facts();
    let (Some(indexed), Some(users)) = (program.indexed(), users) else {
        return jn_points::is_pair(program.program(), MethodNo(m), MethodNo(k));
    };
    is_pair_of(&indexed, users, m, over, k, under)
}

fn agrees(program: &IndexedProgram, over: &Method, under: &Method) -> bool
    ensures { result ≡ rules.agrees program.now over.now under.now }
{
    same_bases(over.params.as_slice(), under.params.as_slice())
        && program.is_sub(over.result, under.result)
        && !under.is_final
        && !(over.is_static || under.is_static)
}

fn over_static(program: &IndexedProgram, over: &Method, under: &Method) -> bool
    ensures { result ≡ rules.over_static program.now over.now under.now }
{
    !over.ctor
        && is_named(under, over.name, over.params.len())
        && under.is_static
        && !under.is_private
        && !(over.owner.0 == under.owner.0)
        && is_subclass(program, over.owner, under.owner)
}

fn hides_well(program: &IndexedProgram, over: &Method, under: &Method) -> bool
    ensures { result ≡ rules.hides_well program.now over.now under.now }
{
    over.is_static
        && same_bases(over.params.as_slice(), under.params.as_slice())
        && program.is_sub(over.result, under.result)
        && !under.is_final
}

/// Whether the first method doesn't agree with the second, or hides it badly. Names are looked at first.
#[tactic(auto, using(crate::proofs::Clashing::other_names))]
fn clashes(
    program: &IndexedProgram,
    users: &Option<Vec<u32>>,
    m: u32,
    over: &Method,
    k: u32,
    under: &Method,
) -> bool
    requires users { IfSome users.now (λ u. AreUsers program.now m over.now u.items) }
    requires over_there { method_at program.now m ≡ Some over.now }
    requires under_there { method_at program.now k ≡ Some under.now }
    ensures { result ≡ spec.clashes program.now m over.now k under.now }
{
    if !is_named(under, over.name, over.params.len()) {
        return false;
    }
    is_pair(program, users, m, over, k, under) && !agrees(program, over, under)
        || over_static(program, over, under) && !hides_well(program, over, under)
}

/// The first method with which this one clashes.
fn clashing_with(
    program: &IndexedProgram,
    users: &Option<Vec<u32>>,
    m: u32,
    over: &Method,
) -> Option<Identifier>
    requires users { IfSome users.now (λ u. AreUsers program.now m over.now u.items) }
    requires there { method_at program.now m ≡ Some over.now }
    ensures { result
        ≡ option_map spec.method_name
        (spec.first_passing (spec.clashes program.now m over.now) 0 program.now.methods) }
{
    program.facts();
    let methods = program.program().methods.as_slice();
    for (k, under) in methods.iter().enumerate() {
        if clashes(program, users, m, over, k as u32, under) {
            return Some(method_name(under));
        }
    }
    None
}

/// T5 of the method of this number.
fn clashing_at(
    alloc: Global,
    program: &IndexedProgram,
    m: u32,
    over: &Method,
) -> Result<Option<Identifier>, AllocError>
    requires there { method_at program.now m ≡ Some over.now }
    ensures { IfOk result (λ other. other
        ≡ option_map spec.method_name
        (spec.first_passing (spec.clashes program.now m over.now) 0 program.now.methods)) }
{
    let users = users_of(alloc, program, m, over)?;
    Ok(clashing_with(program, &users, m, over))
}

/// T5: the first method with which the one that is declared there clashes.
pub(crate) fn clashing(
    alloc: Global,
    program: &IndexedProgram,
    span: Span,
) -> Result<Option<Identifier>, AllocError>
    ensures { IfOk result (λ other. other ≡ spec.clashing program.now span) }
{
    program.facts();
    let Some(m) = method_there(program.program().methods.as_slice(), span) else {
        return Ok(None);
    };
    let Some(over) = method_at(program.program(), m) else {
        return Ok(None);
    };
    clashing_at(alloc, program, m as u32, over)
}

/// Whether the class has the method, which is abstract.
fn has_abstract(program: &IndexedProgram, class: ClassNo, m: usize, method: &Method) -> bool
    requires short { length method.now.params < 2 ^ 32 }
    ensures { result ≡ spec.has_abstract program.now class.0 m method.now }
{
    if !method.is_abstract {
        return false;
    }
    match method_of(program, class, method.name, method.params.len()) {
        None => false,
        Some(found) => found.0 as usize == m,
    }
}

/// The first abstract method that the class has.
fn lacking_of(program: &IndexedProgram, class: ClassNo) -> Option<Identifier>
    ensures { result
        ≡ option_map spec.method_name
        (spec.first_passing (spec.has_abstract program.now class.0) 0 program.now.methods) }
{
    program.facts();
    let methods = program.program().methods.as_slice();
    for (m, method) in methods.iter().enumerate() {
        if has_abstract(program, class, m, method) {
            return Some(method_name(method));
        }
    }
    None
}

/// T6: the first abstract method that the class that is declared there has.
pub(crate) fn lacking(program: &IndexedProgram, span: Span) -> Option<Identifier>
    ensures { result ≡ spec.lacking program.now span }
{
    program.facts();
    let c = class_there(program.program().classes.as_slice(), span)?;
    lacking_of(program, ClassNo(c as u32))
}

fn hides(program: &IndexedProgram, field: &Field, other: &Field) -> bool
    ensures { result ≡ spec.hides program.now field.now other.now }
{
    field.name.0 == other.name.0
        && !(field.owner.0 == other.owner.0)
        && is_subclass(program, field.owner, other.owner)
}

fn hidden_by(program: &IndexedProgram, field: &Field) -> Option<Identifier>
    ensures { result
        ≡ option_map spec.field_name (find (spec.hides program.now field.now) program.now.fields) }
{
    for other in program.program().fields.as_slice() {
        if hides(program, field, other) {
            return Some(field_name(other));
        }
    }
    None
}

/// T7: the first field of a supertype with the name of the one that is declared there.
pub(crate) fn hidden(program: &IndexedProgram, span: Span) -> Option<Identifier>
    ensures { result ≡ spec.hidden program.now span }
{
    let f = field_there(program.program().fields.as_slice(), span)?;
    let field = field_at(program.program(), f)?;
    hidden_by(program, field)
}
