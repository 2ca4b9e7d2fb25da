//! Members of classes, by their names: the one place where a program is searched, by its index where there is one and else by its lists.
ghost use Rattle.std.specs.Prelude.{◌≡◌, ◌<◌, ◌&&◌, ◌||◌, eqb, not, MatchOption, None, Some};
ghost use Rattle.jn_points.specs.Members as spec;
ghost use Rattle.jn_points.specs.Lookup.{class_info, field_base, method_at, parent_of, private_of, result_base_of, static_of};
ghost use Rattle.jn_lowering.specs.Calls as calls;
ghost use Rattle.jn_lowering.specs.Scopes as scopes;
ghost use Rattle.jn_index.specs.Sizes.{Few};

use crate::heads::{class_at, method_at};
use jn_base::{ClassNo, FieldNo, MethodNo, NameNo};
use jn_index::indexed::IndexedProgram;
use jn_index::{fields, lookup};
use jn_points::{BaseType, Field, Program};

/// The field that the class has for the name (JLS 8.2).
pub fn field_of(program: &IndexedProgram, class: ClassNo, name: NameNo) -> Option<FieldNo>
    ensures { MatchOption result (spec.field_of program.now class.0 name.0 ≡ None)
        (λ f. spec.field_of program.now class.0 name.0 ≡ Some f.0) }
{
    program.facts();
    match program.indexed() {
        Some(indexed) => fields::field_of(&indexed, class, name),
        None => jn_points::field_of(program.program(), class, name),
    }
}

fn declares(field: &Field, class: ClassNo, name: NameNo) -> bool
    ensures { result
        ≡ (eqb field.now.name.0 name.0 && eqb field.now.owner.0 class.0
        && (not field.now.is_private || eqb class.0 class.0)) }
{
    field.name.0 == name.0 && field.owner.0 == class.0
}

/// The field of the name that the class itself declares, by the program's lists.
fn listed_field(program: &Program, class: ClassNo, name: NameNo) -> Option<FieldNo>
    requires few { Few program.now }
    ensures { MatchOption result (spec.declared_field program.now class.0 name.0 class.0 ≡ None)
        (λ f. spec.declared_field program.now class.0 name.0 class.0 ≡ Some f.0) }
{
    let fields = program.fields.as_slice();
    for (number, field) in fields.iter().enumerate() {
        if declares(field, class, name) {
            return Some(FieldNo(number as u32));
        }
    }
    None
}

/// The field of the name that the class itself declares (JLS 8.3).
pub fn declared_field(program: &IndexedProgram, class: ClassNo, name: NameNo) -> Option<FieldNo>
    ensures { MatchOption result (spec.declared_field program.now class.0 name.0 class.0 ≡ None)
        (λ f. spec.declared_field program.now class.0 name.0 class.0 ≡ Some f.0) }
{
    program.facts();
    match program.indexed() {
        Some(indexed) => match fields::declared_field(&indexed, class, name, class.0) {
            None => None,
            Some(number) => Some(FieldNo(number)),
        },
        None => listed_field(program.program(), class, name),
    }
}

/// The method of the name and so many parameters, by the program's lists.
fn listed_method(program: &Program, class: ClassNo, name: NameNo, arity: usize) -> Option<MethodNo>
    requires few { Few program.now }
    ensures { MatchOption result (spec.method_of program.now class.0 name.0 arity ≡ None)
        (λ m. spec.method_of program.now class.0 name.0 arity ≡ Some m.0) }
{
    if arity > 0xFFFF_FFFF {
        return None;
    }
    jn_points::method_of(program, class, name, arity as u32)
}

/// The method, and no constructor, that the class has for the name and so many parameters (JLS 8.2 and 8.4.8).
pub fn method_of(
    program: &IndexedProgram,
    class: ClassNo,
    name: NameNo,
    arity: usize,
) -> Option<MethodNo>
    ensures { MatchOption result (spec.method_of program.now class.0 name.0 arity ≡ None)
        (λ m. spec.method_of program.now class.0 name.0 arity ≡ Some m.0) }
{
    program.facts();
    match program.indexed() {
        Some(indexed) => lookup::method_of(&indexed, class, name, arity),
        None => listed_method(program.program(), class, name, arity),
    }
}

/// The constructor for so many parameters, by the program's lists.
fn listed_constructor(program: &Program, class: ClassNo, arity: usize) -> Option<MethodNo>
    requires few { Few program.now }
    ensures { MatchOption result (spec.constructor_of program.now class.0 arity ≡ None)
        (λ m. spec.constructor_of program.now class.0 arity ≡ Some m.0) }
{
    let methods = program.methods.as_slice();
    for (number, method) in methods.iter().enumerate() {
        if lookup::constructs(method, class, arity) {
            return Some(MethodNo(number as u32));
        }
    }
    None
}

/// The constructor that the class declares for so many parameters (JLS 8.8).
pub fn constructor_of(program: &IndexedProgram, class: ClassNo, arity: usize) -> Option<MethodNo>
    ensures { MatchOption result (spec.constructor_of program.now class.0 arity ≡ None)
        (λ m. spec.constructor_of program.now class.0 arity ≡ Some m.0) }
{
    program.facts();
    match program.indexed() {
        Some(indexed) => lookup::constructor_of(&indexed, class, arity),
        None => listed_constructor(program.program(), class, arity),
    }
}

/// The first class of the name, by the program's lists.
fn listed_class(program: &Program, name: NameNo) -> Option<ClassNo>
    requires few { Few program.now }
    ensures { MatchOption result (scopes.class_named program.now name.0 ≡ None)
        (λ c. scopes.class_named program.now name.0 ≡ Some c.0) }
{
    let classes = program.classes.as_slice();
    for (number, class) in classes.iter().enumerate() {
        if class.name.0 == name.0 {
            return Some(ClassNo(number as u32));
        }
    }
    None
}

/// The first class of the name.
pub fn class_named(program: &IndexedProgram, name: NameNo) -> Option<ClassNo>
    ensures { MatchOption result (scopes.class_named program.now name.0 ≡ None)
        (λ c. scopes.class_named program.now name.0 ≡ Some c.0) }
{
    program.facts();
    match program.indexed() {
        Some(indexed) => lookup::class_named(&indexed, name),
        None => listed_class(program.program(), name),
    }
}

/// The first class of the name, or Object where none has it.
pub fn class_or_object(program: &IndexedProgram, name: NameNo) -> ClassNo
    ensures { result.0 ≡ scopes.or_zero (scopes.class_named program.now name.0) }
{
    match class_named(program, name) {
        Some(class) => class,
        None => ClassNo(0),
    }
}

/// The superclass, or Object where the class has none.
pub fn parent_or_object(program: &IndexedProgram, class: ClassNo) -> ClassNo
    ensures { result.0
        ≡ scopes.parent_class program.now (parent_of (class_info program.now class.0)) }
{
    match class_at(program, class) {
        None => ClassNo(0),
        Some(info) => match info.parent {
            None => ClassNo(0),
            Some(parent) => parent,
        },
    }
}

/// The method that the superclass has (JLS 15.12.1).
pub fn super_method(
    program: &IndexedProgram,
    class: ClassNo,
    name: NameNo,
    arity: usize,
) -> Option<MethodNo>
    ensures { MatchOption result (scopes.super_method program.now class.0 name.0 arity ≡ None)
        (λ m. scopes.super_method program.now class.0 name.0 arity ≡ Some m.0) }
{
    method_of(program, parent_or_object(program, class), name, arity)
}

/// The type of a field.
pub fn field_base(program: &IndexedProgram, field: FieldNo) -> BaseType
    ensures { result ≡ field_base program.now field.0 }
{
    jn_points::lookup::field_base(program.program(), field)
}

/// The type of a method's result.
pub fn result_base(program: &IndexedProgram, method: MethodNo) -> BaseType
    ensures { result ≡ result_base_of (method_at program.now method.0) }
{
    match method_at(program, method) {
        None => BaseType::Void,
        Some(info) => info.result,
    }
}

/// Whether a field is static.
pub fn is_static_field(program: &IndexedProgram, field: FieldNo) -> bool
    ensures { result ≡ calls.is_static program.now field.0 }
{
    match jn_points::lookup::field_info(program.program(), field) {
        None => false,
        Some(info) => info.is_static,
    }
}

/// Whether a method is static.
pub fn is_static(program: &IndexedProgram, method: MethodNo) -> bool
    ensures { result ≡ static_of (method_at program.now method.0) }
{
    match method_at(program, method) {
        None => true,
        Some(info) => info.is_static,
    }
}

/// Whether a method is private.
pub fn is_private(program: &IndexedProgram, method: MethodNo) -> bool
    ensures { result ≡ private_of (method_at program.now method.0) }
{
    match method_at(program, method) {
        None => false,
        Some(info) => info.is_private,
    }
}
