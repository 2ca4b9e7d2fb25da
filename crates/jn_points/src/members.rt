//! Subtypes, members, dispatch and overriding pairs (JLS 8, 4.10, 8.2, 8.4.8, 9.4.1 and 15.12.4.4).
ghost use Rattle.std.specs.Prelude.{◌≡◌, ◌<◌, ◌^◌, ◌&&◌, ◌||◌, not, eqb, length, IfSome, MatchOption, None, Some};
ghost use Rattle.jn_points.specs.Members as spec;
ghost use Rattle.jn_points.specs.Sought.{count_of, declared};

use crate::lookup::{class_info, method_at};
use crate::point::{BaseType, Elem};
use crate::program::{Field, Method, Program};
use jn_base::{ClassNo, FieldNo, MethodNo, NameNo};

/// Whether class `c` reaches class `d` along the supertypes that classes name, in at most so many
/// steps.
fn reaches(program: &Program, steps: usize, c: ClassNo, d: ClassNo) -> bool
    ensures { result ≡ spec.reaches program.now steps c.0 d.0 }
{
    if c.0 == d.0 {
        return true;
    }
    if steps == 0 {
        return false;
    }
    let Some(class) = class_info(program, c) else {
        return false;
    };
    let supers = class.supers.as_slice();
    for parent in supers {
        if reaches(program, steps - 1, *parent, d) {
            return true;
        }
    }
    false
}

/// Whether class `c` is class `d` or one of its subtypes (JLS 8, 4.10.2); each is within Object.
pub fn is_subclass(program: &Program, c: ClassNo, d: ClassNo) -> bool
    ensures { result ≡ spec.sub program.now c.0 d.0 }
{
    d.0 == 0 || reaches(program, program.classes.len(), c, d)
}

/// Whether objects of the class have the field.
pub fn has_field(program: &Program, class: ClassNo, field: FieldNo) -> bool
    ensures { result ≡ spec.has_field program.now class.0 field.0 }
{
    match program.fields.as_slice().get(field.0 as usize) {
        None => false,
        Some(info) => !info.is_static && is_subclass(program, class, info.owner),
    }
}

fn elem_within(program: &Program, low: Elem, high: Elem) -> bool
    ensures { result ≡ spec.elem_within (spec.sub program.now) low high }
{
    match (low, high) {
        (Elem::Int, Elem::Int) => true,
        (Elem::Bool, Elem::Bool) => true,
        (Elem::Ref(low), Elem::Ref(high)) => is_subclass(program, low, high),
        _ => false,
    }
}

/// Whether the flags are the same.
pub fn same_flag(left: bool, right: bool) -> bool
    ensures { result ≡ spec.same_flag left right }
{
    left == right
}

/// Whether one base type is within another (JLS 8, 4.10): Null within all reference types, an array
/// of references as its elements where element nullity is equal.
pub fn is_sub(program: &Program, low: BaseType, high: BaseType) -> bool
    ensures { result ≡ spec.fits program.now low high }
{
    match (low, high) {
        (BaseType::Int, BaseType::Int) => true,
        (BaseType::Bool, BaseType::Bool) => true,
        (BaseType::Void, BaseType::Void) => true,
        (BaseType::Null, BaseType::Null) => true,
        (BaseType::Null, BaseType::Ref(_)) => true,
        (BaseType::Null, BaseType::Array(_, _)) => true,
        (BaseType::Ref(low), BaseType::Ref(high)) => is_subclass(program, low, high),
        (BaseType::Array(_, _), BaseType::Ref(high)) => high.0 == 0,
        (BaseType::Array(low, m), BaseType::Array(high, n)) => {
            same_flag(m, n) && elem_within(program, low, high)
        }
        _ => false,
    }
}

/// What a class is asked for.
#[derive(Clone, Copy)]
enum Sought {
    /// A field of the name.
    Field(NameNo),
    /// A method, and no constructor, of the name with so many parameters.
    Method(NameNo, usize),
}

/// Whether this is a method, and no constructor, of the name with so many parameters.
pub fn is_named(method: &Method, name: NameNo, arity: usize) -> bool
    ensures { result ≡ spec.is_named method.now name.0 arity }
{
    !method.ctor && method.name.0 == name.0 && method.params.len() == arity
}

/// Whether class `d` declares the method for class `c`.
fn declares_method(method: &Method, name: NameNo, arity: usize, c: ClassNo, d: ClassNo) -> bool
    ensures { result
        ≡ (spec.is_named method.now name.0 arity && eqb method.now.owner.0 d.0
        && (not method.now.is_private || eqb d.0 c.0)) }
{
    is_named(method, name, arity) && method.owner.0 == d.0 && (!method.is_private || d.0 == c.0)
}

fn declared_method(
    program: &Program,
    name: NameNo,
    arity: usize,
    c: ClassNo,
    d: ClassNo,
) -> Option<usize>
    ensures is { result ≡ spec.declared_method program.now c.0 name.0 arity d.0 }
    ensures inside { IfSome result (λ n. n < length program.now.methods) }
{
    let methods = program.methods.as_slice();
    for (number, method) in methods.iter().enumerate() {
        if declares_method(method, name, arity, c, d) {
            return Some(number);
        }
    }
    None
}

/// Whether class `d` declares the field for class `c`.
fn declares_field(field: &Field, name: NameNo, c: ClassNo, d: ClassNo) -> bool
    ensures { result
        ≡ (eqb field.now.name.0 name.0 && eqb field.now.owner.0 d.0
        && (not field.now.is_private || eqb d.0 c.0)) }
{
    field.name.0 == name.0 && field.owner.0 == d.0 && (!field.is_private || d.0 == c.0)
}

fn declared_field(program: &Program, name: NameNo, c: ClassNo, d: ClassNo) -> Option<usize>
    ensures is { result ≡ spec.declared_field program.now c.0 name.0 d.0 }
    ensures inside { IfSome result (λ n. n < length program.now.fields) }
{
    let fields = program.fields.as_slice();
    for (number, field) in fields.iter().enumerate() {
        if declares_field(field, name, c, d) {
            return Some(number);
        }
    }
    None
}

/// The number of what class `d` declares for class `c`, where a private member counts at its own
/// class alone.
fn declared(program: &Program, sought: Sought, c: ClassNo, d: ClassNo) -> Option<usize>
    ensures is { result ≡ declared program.now sought c.0 d.0 }
    ensures inside { IfSome result (λ n. n < count_of program.now sought) }
{
    match sought {
        Sought::Field(name) => declared_field(program, name, c, d),
        Sought::Method(name, arity) => declared_method(program, name, arity, c, d),
    }
}

/// The first that is found along the walk from class `d`, by at most so many steps.
#[tactic(auto, using(crate::proofs::Walks::walk_parent_found, crate::proofs::Walks::walk_rest, crate::proofs::Walks::walk_orphan, crate::proofs::Walks::along_parent, crate::proofs::Walks::along_interface))]
fn find_along(
    program: &Program,
    steps: usize,
    sought: Sought,
    c: ClassNo,
    d: ClassNo,
) -> Option<usize>
    ensures is { result
        ≡ spec.first_some (declared program.now sought c.0) (spec.walk_by program.now steps d.0) }
    ensures inside { IfSome result (λ n. n < count_of program.now sought) }
{
    if steps == 0 {
        return None;
    }
    if let Some(found) = declared(program, sought, c, d) {
        return Some(found);
    }
    let class = class_info(program, d)?;
    if let Some(parent) = class.parent {
        if let Some(found) = find_along(program, steps - 1, sought, c, parent) {
            return Some(found);
        }
    }
    let supers = class.supers.as_slice();
    for interface in supers {
        if is_class(class.parent, *interface) {
            continue;
        }
        if let Some(found) = find_along(program, steps - 1, sought, c, *interface) {
            return Some(found);
        }
    }
    None
}

/// Whether the class that may be missing is this one.
pub fn is_class(parent: Option<ClassNo>, class: ClassNo) -> bool
    ensures { result ≡ spec.is_class parent class }
{
    match parent {
        None => false,
        Some(other) => other.0 == class.0,
    }
}

/// The place of the method that a class has for a name and so many parameters.
pub(crate) fn method_for(
    program: &Program,
    class: ClassNo,
    name: NameNo,
    arity: usize,
) -> Option<usize>
    ensures is { result ≡ spec.method_of program.now class.0 name.0 arity }
    ensures inside { IfSome result (λ n. n < length program.now.methods) }
{
    let sought = Sought::Method(name, arity);
    find_along(program, program.classes.len(), sought, class, class)
}

/// The place of the field that a class has for a name.
fn field_for(program: &Program, class: ClassNo, name: NameNo) -> Option<usize>
    ensures is { result ≡ spec.field_of program.now class.0 name.0 }
    ensures inside { IfSome result (λ n. n < length program.now.fields) }
{
    find_along(
        program,
        program.classes.len(),
        Sought::Field(name),
        class,
        class,
    )
}

/// The field that a class has for a name (JLS 8, 8.2): the first one declared along the class, its
/// parent's walk and those of its interfaces, where a private one counts at its own class alone.
pub fn field_of(program: &Program, class: ClassNo, name: NameNo) -> Option<FieldNo>
    requires few { length program.now.fields < 2 ^ 32 }
    ensures { MatchOption result (spec.field_of program.now class.0 name.0 ≡ None)
        (λ f. spec.field_of program.now class.0 name.0 ≡ Some f.0) }
{
    match field_for(program, class, name) {
        None => None,
        Some(place) => Some(FieldNo(place as u32)),
    }
}

/// The method, and no constructor, that a class has for a name and so many parameters (JLS 8, 8.2
/// and 8.4.8), found as a field is.
pub fn method_of(program: &Program, class: ClassNo, name: NameNo, arity: u32) -> Option<MethodNo>
    requires few { length program.now.methods < 2 ^ 32 }
    ensures { MatchOption result (spec.method_of program.now class.0 name.0 arity ≡ None)
        (λ m. spec.method_of program.now class.0 name.0 arity ≡ Some m.0) }
{
    match method_for(program, class, name, arity as usize) {
        None => None,
        Some(place) => Some(MethodNo(place as u32)),
    }
}

/// The place of the method with a body that a class has for a method's name and arity.
pub fn selected(program: &Program, class: ClassNo, method: MethodNo) -> Option<usize>
    ensures { result ≡ spec.dispatch program.now class.0 method.0 }
{
    let named = method_at(program, method.0 as usize)?;
    let found = method_for(program, class, named.name, named.params.len())?;
    match method_at(program, found) {
        None => None,
        Some(own) => match own.body {
            None => None,
            Some(_) => Some(found),
        },
    }
}

/// The method that an object of the class runs for a method (JLS 8, 15.12.4.4); None where there is
/// none with a body.
pub fn dispatch(program: &Program, class: ClassNo, method: MethodNo) -> Option<MethodNo>
    requires few { length program.now.methods < 2 ^ 32 }
    ensures { MatchOption result (spec.dispatch program.now class.0 method.0 ≡ None)
        (λ m. spec.dispatch program.now class.0 method.0 ≡ Some m.0) }
{
    match selected(program, class, method) {
        None => None,
        Some(place) => Some(MethodNo(place as u32)),
    }
}
