//! Rows of the method that a call names, where its receiver and its arguments are done.
ghost use Rattle.std.specs.Prelude.{◌≡◌, ◌++◌, ◌&&◌, [], cond, not, eqb, OnOk};
ghost use Rattle.jn_base.specs.declared.code.Code.TheVariants.{J5};
ghost use Rattle.jn_known.specs.Known.{equals_name, is_object_member};
ghost use Rattle.jn_points.specs.Members as members;
ghost use Rattle.jn_lowering.specs.Annotations as annotated;
ghost use Rattle.jn_lowering.specs.ExpressionRows as spec;
ghost use Rattle.jn_lowering.specs.Scopes.{super_method};
ghost use Rattle.jn_lower_rows.specs.Views.{setting_of};

use crate::annotations::is_object_member;
use crate::members::{
    class_method_rows, is_text_method, own_method_rows, super_method_rows, value_method_rows,
};
use crate::row::push;
use crate::setting::Setting;
use jn_base::{ClassNo, Code, Row, Seq};
use jn_known::EQUALS;
use jn_points::BaseType;
use jn_scopes::Context;
use jn_trees::Identifier;
use std::alloc::AllocError;

/// A method that a class names: a member of Object and other members of String are J5.
pub fn class_call_rows(
    rows: &mut Seq<Row>,
    c: &Context,
    class: ClassNo,
    name: Identifier,
    arity: usize,
) -> Result<(), AllocError>
    ensures { OnOk result (rows.new
        ≡ rows.old
        ++ cond (eqb class.0 1)
        (spec.string_method_rows c.now.program.now name.name.0 arity name.span)
        (cond (is_object_member name.name.0) (annotated.row J5 name.span)
        (spec.class_method_rows c.now.program.now c.now.class.0
        (members.method_of c.now.program.now class.0 name.name.0 arity)
        name.span))) }
{
    if class.0 == 1 {
        if is_text_method(name.name, arity) {
            push(rows, Code::J2, name.span)
        } else {
            push(rows, Code::J5, name.span)
        }
    } else if is_object_member(name.name) {
        push(rows, Code::J5, name.span)
    } else {
        class_method_rows(rows, c, class, name, arity)
    }
}

/// A method of a value, whose type counts only where the value has no row.
pub fn value_call_rows(
    rows: &mut Seq<Row>,
    c: &Context,
    clean: bool,
    base: BaseType,
    name: Identifier,
    arity: usize,
) -> Result<(), AllocError>
    ensures { OnOk result (rows.new
        ≡ rows.old
        ++ cond (is_object_member name.name.0 && not (eqb name.name.0 equals_name))
        (annotated.row J5 name.span)
        (cond clean
        (spec.value_method_rows c.now.program.now c.now.class.0 base name.name.0 arity
        name.span)
        [])) }
{
    if is_object_member(name.name) && name.name.0 != EQUALS.0 {
        push(rows, Code::J5, name.span)
    } else if clean {
        value_method_rows(rows, c, base, name, arity)
    } else {
        Ok(())
    }
}

/// A method by its name alone.
pub fn own_call_rows(
    rows: &mut Seq<Row>,
    c: &Context,
    at: Setting,
    name: Identifier,
    arity: usize,
) -> Result<(), AllocError>
    ensures { OnOk result (rows.new
        ≡ rows.old
        ++ cond (is_object_member name.name.0) (annotated.row J5 name.span)
        (spec.own_method_rows c.now.program.now (setting_of at)
        (members.method_of c.now.program.now c.now.class.0 name.name.0 arity)
        name.span)) }
{
    if is_object_member(name.name) {
        push(rows, Code::J5, name.span)
    } else {
        own_method_rows(rows, c, at, name, arity)
    }
}

/// A method of the superclass, which is looked at where `this` stands.
pub fn super_call_rows(
    rows: &mut Seq<Row>,
    c: &Context,
    at: Setting,
    name: Identifier,
    arity: usize,
) -> Result<(), AllocError>
    ensures { OnOk result (rows.new
        ≡ rows.old
        ++ cond (is_object_member name.name.0) (annotated.row J5 name.span) (annotated.when
        at.this_stands
        (spec.super_method_rows c.now.program.now c.now.class.0
        (super_method c.now.program.now c.now.class.0 name.name.0 arity) name.span))) }
{
    if is_object_member(name.name) {
        push(rows, Code::J5, name.span)
    } else if at.this_stands {
        super_method_rows(rows, c, name, arity)
    } else {
        Ok(())
    }
}
