//! Rows of the members that names mean: none of that name (J2), static or not where it must be the other (J2), private in another class
//! (J3).
ghost use Rattle.std.specs.Prelude.{◌≡◌, ◌++◌, ◌||◌, ◌&&◌, not, eqb, OnOk, None, Some};
ghost use Rattle.jn_points.specs.Lookup.{class_info, class_of, field_info, interface_of, method_at, owner, private_of};
ghost use Rattle.jn_points.specs.Members as members;
ghost use Rattle.jn_lowering.specs.Annotations as annotated;
ghost use Rattle.jn_lowering.specs.Scopes.{class_named, super_method, text_callee};
ghost use Rattle.jn_lowering.specs.ExpressionRows as spec;
ghost use Rattle.jn_lower_rows.specs.Views.{setting_of};

use crate::row::{push, push_if};
use crate::setting::Setting;
use jn_base::{ClassNo, Code, FieldNo, MethodNo, NameNo, Row, Seq, Span};
use jn_index::indexed::IndexedProgram;
use jn_known::{EQUALS, IS_EMPTY, LENGTH};
use jn_points::BaseType;
use jn_points::lookup::{field_info, is_string};
use jn_scopes::Context;
use jn_scopes::heads::{class_at, method_at};
use jn_scopes::members::{
    class_named, constructor_of, field_of, is_static, is_static_field, method_of, super_method,
};
use jn_trees::Identifier;
use std::alloc::AllocError;

/// Whether a field is final (JLS 8.3.1.2).
pub fn is_final(program: &IndexedProgram, field: FieldNo) -> bool
    ensures { result ≡ spec.final_field (field_info program.now field.0) }
{
    match field_info(program.program(), field) {
        None => false,
        Some(info) => info.is_final,
    }
}

/// Whether a field is the class's own.
pub fn is_own(c: &Context, field: FieldNo) -> bool
    ensures { result ≡ eqb (owner c.now.program.now field.0) c.now.class.0 }
{
    match field_info(c.program.program(), field) {
        None => c.class.0 == 0,
        Some(info) => info.owner.0 == c.class.0,
    }
}

fn is_closed_field(c: &Context, field: FieldNo) -> bool
    ensures { result
        ≡ (spec.private_field (field_info c.now.program.now field.0)
        && not (eqb (owner c.now.program.now field.0) c.now.class.0)) }
{
    match field_info(c.program.program(), field) {
        None => false,
        Some(info) => info.is_private && info.owner.0 != c.class.0,
    }
}

fn is_closed_method(c: &Context, method: MethodNo) -> bool
    ensures { result
        ≡ (private_of (method_at c.now.program.now method.0)
        && not (eqb (class_of (method_at c.now.program.now method.0)) c.now.class.0)) }
{
    match method_at(c.program, method) {
        None => false,
        Some(info) => info.is_private && info.owner.0 != c.class.0,
    }
}

fn is_abstract(c: &Context, method: MethodNo) -> bool
    ensures { result ≡ spec.abstract_method (method_at c.now.program.now method.0) }
{
    match method_at(c.program, method) {
        None => false,
        Some(info) => info.is_abstract,
    }
}

fn field_private(
    rows: &mut Seq<Row>,
    c: &Context,
    field: FieldNo,
    span: Span,
) -> Result<(), AllocError>
    ensures { OnOk result
        (rows.new ≡ rows.old ++ spec.field_private c.now.program.now c.now.class.0 field.0 span) }
{
    push_if(rows, is_closed_field(c, field), Code::J3, span)
}

fn method_private(
    rows: &mut Seq<Row>,
    c: &Context,
    method: MethodNo,
    span: Span,
) -> Result<(), AllocError>
    ensures { OnOk result
        (rows.new ≡ rows.old ++ spec.method_private c.now.program.now c.now.class.0 method.0 span) }
{
    push_if(rows, is_closed_method(c, method), Code::J3, span)
}

/// `C.f` (JLS 15.11.1): a static field.
pub fn class_field_rows(
    rows: &mut Seq<Row>,
    c: &Context,
    class: ClassNo,
    name: Identifier,
) -> Result<(), AllocError>
    ensures { OnOk result (rows.new
        ≡ rows.old
        ++ spec.class_field_rows c.now.program.now c.now.class.0
        (members.field_of c.now.program.now class.0 name.name.0) name.span) }
{
    match field_of(c.program, class, name.name) {
        None => push(rows, Code::J2, name.span),
        Some(field) => {
            field_private(rows, c, field, name.span)?;
            push_if(
                rows,
                !is_static_field(c.program, field),
                Code::J2,
                name.span,
            )
        }
    }
}

fn object_field_rows(
    rows: &mut Seq<Row>,
    c: &Context,
    class: ClassNo,
    name: Identifier,
) -> Result<(), AllocError>
    ensures { OnOk result (rows.new
        ≡ rows.old
        ++ spec.object_field_rows c.now.program.now c.now.class.0
        (members.field_of c.now.program.now class.0 name.name.0) name.span) }
{
    match field_of(c.program, class, name.name) {
        None => push(rows, Code::J2, name.span),
        Some(field) => {
            field_private(rows, c, field, name.span)?;
            push_if(rows, is_static_field(c.program, field), Code::J2, name.span)
        }
    }
}

/// `e.f` (JLS 15.11.1) of a value of the type: a field that isn't static; of an array its length (10.7).
pub fn value_field_rows(
    rows: &mut Seq<Row>,
    c: &Context,
    base: BaseType,
    name: Identifier,
) -> Result<(), AllocError>
    ensures { OnOk result (rows.new
        ≡ rows.old
        ++ spec.value_field_rows c.now.program.now c.now.class.0 base name.name.0 name.span) }
{
    match base {
        BaseType::Ref(class) => {
            if class.0 == 1 {
                push(rows, Code::J5, name.span)
            } else {
                object_field_rows(rows, c, class, name)
            }
        }
        BaseType::Array(_, _) => push_if(rows, name.name.0 != LENGTH.0, Code::J2, name.span),
        _ => push(rows, Code::J2, name.span),
    }
}

/// `C.m(..)` (JLS 15.12.3): a static method.
pub fn class_method_rows(
    rows: &mut Seq<Row>,
    c: &Context,
    class: ClassNo,
    name: Identifier,
    arity: usize,
) -> Result<(), AllocError>
    ensures { OnOk result (rows.new
        ≡ rows.old
        ++ spec.class_method_rows c.now.program.now c.now.class.0
        (members.method_of c.now.program.now class.0 name.name.0 arity) name.span) }
{
    match method_of(c.program, class, name.name, arity) {
        None => push(rows, Code::J2, name.span),
        Some(method) => {
            method_private(rows, c, method, name.span)?;
            push_if(rows, !is_static(c.program, method), Code::J2, name.span)
        }
    }
}

fn object_method_rows(
    rows: &mut Seq<Row>,
    c: &Context,
    class: ClassNo,
    name: Identifier,
    arity: usize,
) -> Result<(), AllocError>
    ensures { OnOk result (rows.new
        ≡ rows.old
        ++ spec.object_method_rows c.now.program.now c.now.class.0
        (members.method_of c.now.program.now class.0 name.name.0 arity) name.span) }
{
    match method_of(c.program, class, name.name, arity) {
        None => push(rows, Code::J2, name.span),
        Some(method) => {
            method_private(rows, c, method, name.span)?;
            push_if(rows, is_static(c.program, method), Code::J2, name.span)
        }
    }
}

/// Whether a name and so many arguments are one of String's three methods.
pub fn is_text_method(name: NameNo, arity: usize) -> bool
    ensures { result ≡ spec.is_text (text_callee name.0 arity) }
{
    if arity == 0 {
        name.0 == LENGTH.0 || name.0 == IS_EMPTY.0
    } else {
        arity == 1 && name.0 == EQUALS.0
    }
}

fn reference_method_rows(
    rows: &mut Seq<Row>,
    c: &Context,
    base: BaseType,
    name: Identifier,
    arity: usize,
) -> Result<(), AllocError>
    ensures { OnOk result (rows.new
        ≡ rows.old
        ++ spec.reference_method_rows c.now.program.now c.now.class.0 base name.name.0 arity
        name.span) }
{
    match base {
        BaseType::Ref(class) => object_method_rows(rows, c, class, name, arity),
        _ => push(rows, Code::J2, name.span),
    }
}

/// `e.m(..)` (JLS 15.12.3) of a value of the type: a method that isn't static, or one of String's three.
pub fn value_method_rows(
    rows: &mut Seq<Row>,
    c: &Context,
    base: BaseType,
    name: Identifier,
    arity: usize,
) -> Result<(), AllocError>
    ensures { OnOk result (rows.new
        ≡ rows.old
        ++ spec.value_method_rows c.now.program.now c.now.class.0 base name.name.0 arity
        name.span) }
{
    if is_string(base) {
        push_if(rows, !is_text_method(name.name, arity), Code::J5, name.span)
    } else if name.name.0 == EQUALS.0 {
        push(rows, Code::J5, name.span)
    } else {
        reference_method_rows(rows, c, base, name, arity)
    }
}

/// `m(..)` (JLS 15.12.1): one of the class's methods, which needs `this` unless it is static (J1).
pub fn own_method_rows(
    rows: &mut Seq<Row>,
    c: &Context,
    at: Setting,
    name: Identifier,
    arity: usize,
) -> Result<(), AllocError>
    ensures { OnOk result (rows.new
        ≡ rows.old
        ++ spec.own_method_rows c.now.program.now (setting_of at)
        (members.method_of c.now.program.now c.now.class.0 name.name.0 arity) name.span) }
{
    match method_of(c.program, c.class, name.name, arity) {
        None => push(rows, Code::J2, name.span),
        Some(method) => {
            let wrong = !is_static(c.program, method) && !at.this_stands;
            push_if(rows, wrong, Code::J1, name.span)
        }
    }
}

/// `super.m(..)` (JLS 15.12.3): a method of the superclass, neither abstract nor static.
pub fn super_method_rows(
    rows: &mut Seq<Row>,
    c: &Context,
    name: Identifier,
    arity: usize,
) -> Result<(), AllocError>
    ensures { OnOk result (rows.new
        ≡ rows.old
        ++ spec.super_method_rows c.now.program.now c.now.class.0
        (super_method c.now.program.now c.now.class.0 name.name.0 arity) name.span) }
{
    match super_method(c.program, c.class, name.name, arity) {
        None => push(rows, Code::J2, name.span),
        Some(method) => {
            method_private(rows, c, method, name.span)?;
            let wrong = is_abstract(c, method) || is_static(c.program, method);
            push_if(rows, wrong, Code::J2, name.span)
        }
    }
}

/// A constructor of the class (JLS 15.9.3).
pub fn ctor_rows(
    rows: &mut Seq<Row>,
    c: &Context,
    class: ClassNo,
    arity: usize,
    span: Span,
) -> Result<(), AllocError>
    ensures { OnOk result (rows.new
        ≡ rows.old
        ++ spec.ctor_rows c.now.program.now c.now.class.0
        (members.constructor_of c.now.program.now class.0 arity) span) }
{
    match constructor_of(c.program, class, arity) {
        None => push(rows, Code::J2, span),
        Some(method) => method_private(rows, c, method, span),
    }
}

fn is_open_class(c: &Context, class: ClassNo) -> bool
    ensures { result
        ≡ (interface_of (class_info c.now.program.now class.0)
        || spec.abstract_class (class_info c.now.program.now class.0)) }
{
    match class_at(c.program, class) {
        None => false,
        Some(info) => info.interface || info.is_abstract,
    }
}

/// `new C(..)` (JLS 15.9.1): a class that is neither an interface nor abstract, and its constructor.
pub fn new_rows(
    rows: &mut Seq<Row>,
    c: &Context,
    class: Identifier,
    arity: usize,
) -> Result<(), AllocError>
    ensures { OnOk result (rows.new
        ≡ rows.old
        ++ spec.new_rows c.now.program.now c.now.class.0
        (class_named c.now.program.now class.name.0) arity class.span) }
{
    match class_named(c.program, class.name) {
        None => push(rows, Code::J1, class.span),
        Some(number) => {
            push_if(rows, is_open_class(c, number), Code::J2, class.span)?;
            ctor_rows(rows, c, number, arity, class.span)
        }
    }
}

/// J1: the name of a class that isn't there.
pub fn known_class(rows: &mut Seq<Row>, c: &Context, class: Identifier) -> Result<(), AllocError>
    ensures { OnOk result (rows.new
        ≡ rows.old
        ++ annotated.known_class c.now.program.now (class_named c.now.program.now class.name.0)
        class.span) }
{
    match class_named(c.program, class.name) {
        None => push(rows, Code::J1, class.span),
        Some(_) => Ok(()),
    }
}
