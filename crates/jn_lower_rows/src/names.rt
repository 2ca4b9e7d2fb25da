//! Rows of identifiers and of what is assigned: unknown names and `this` where it can't stand (J1), what can't be assigned (J4).
ghost use Rattle.std.specs.Prelude.{◌≡◌, ◌++◌, ◌&&◌, ◌||◌, true, eqb, not, OnOk};
ghost use Rattle.jn_points.specs.Lookup.{field_info, owner};
ghost use Rattle.jn_lowering.specs.Calls.{is_static};
ghost use Rattle.jn_lowering.specs.Annotations as annotated;
ghost use Rattle.jn_lowering.specs.ExpressionRows as spec;
ghost use Rattle.jn_places.specs.PlacedView.{placed_view};
ghost use Rattle.jn_scopes.specs.Views.{access_of, faults_of, meaning_of};
ghost use Rattle.jn_lower_rows.specs.Views.{setting_of};

use crate::annotations::{NULLITY_ALONE, annotation_rows};
use crate::members::{is_final, is_own, known_class};
use crate::row::{push, push_if};
use crate::setting::Setting;
use jn_base::{Code, FieldNo, Row, Seq, Span};
use jn_points::BaseType;
use jn_points::lookup::is_reference;
use jn_scopes::forms::span_of;
use jn_scopes::members::is_static_field;
use jn_scopes::types::{is_class_use, is_equality};
use jn_scopes::{Access, Context, Faults, Meaning};
use jn_trees::{Annotation, Base, BinaryOperator, Expr};
use std::alloc::AllocError;

/// Whether the expression is `this`, perhaps in parentheses.
pub fn is_this(tree: &Expr) -> bool
    ensures { result ≡ spec.is_this (placed_view tree.now) }
{
    match tree {
        Expr::This { .. } => true,
        Expr::Paren { inner, .. } => is_this(inner),
        _ => false,
    }
}

/// The span of the expression without its parentheses.
pub fn inner_span(tree: &Expr) -> Span
    ensures { result ≡ spec.inner_span (placed_view tree.now) }
{
    match tree {
        Expr::Paren { inner, .. } => inner_span(inner),
        _ => span_of(tree),
    }
}

fn fault_rows(rows: &mut Seq<Row>, c: &Context, faults: Faults) -> Result<(), AllocError>
    ensures { OnOk result (rows.new ≡ rows.old ++ faults_of c.now.faults.now faults) }
{
    let all = c.faults;
    let mut at = faults.from;
    while at < faults.to && at < all.len() {
        rows.push(all[at])?;
        at += 1;
    }
    Ok(())
}

fn own_field_rows(
    rows: &mut Seq<Row>,
    c: &Context,
    at: Setting,
    field: FieldNo,
    span: Span,
) -> Result<(), AllocError>
    ensures { OnOk result (rows.new
        ≡ rows.old
        ++ spec.own_field_rows c.now.program.now c.now.class.0 (setting_of at) field.0 span) }
{
    let wrong = !is_static_field(c.program, field) && !at.this_stands;
    push_if(rows, wrong, Code::J1, span)
}

/// An identifier that is read (JLS 6.5.6).
pub fn name_rows(
    rows: &mut Seq<Row>,
    c: &Context,
    at: Setting,
    meaning: Meaning,
    span: Span,
) -> Result<(), AllocError>
    ensures { OnOk result (rows.new
        ≡ rows.old
        ++ spec.name_rows c.now.program.now c.now.class.0 (setting_of at)
        (meaning_of c.now.faults.now meaning) span) }
{
    match meaning {
        Meaning::Local(variable) => fault_rows(rows, c, variable.faults),
        Meaning::Field(field) => own_field_rows(rows, c, at, field, span),
        _ => push(rows, Code::J1, span),
    }
}

fn is_closed(c: &Context, at: Setting, field: FieldNo, through_this: bool) -> bool
    ensures { result
        ≡ (spec.final_field (field_info c.now.program.now field.0)
        && not (not (is_static c.now.program.now field.0)
        && (at.own_fields
        && (eqb (owner c.now.program.now field.0) c.now.class.0 && through_this)))) }
{
    let open = !is_static_field(c.program, field)
        && at.own_fields
        && is_own(c, field)
        && through_this;
    is_final(c.program, field) && !open
}

fn final_rows(
    rows: &mut Seq<Row>,
    c: &Context,
    at: Setting,
    field: FieldNo,
    through_this: bool,
    span: Span,
) -> Result<(), AllocError>
    ensures { OnOk result (rows.new
        ≡ rows.old
        ++ spec.final_rows c.now.program.now c.now.class.0 (setting_of at) field.0 through_this
        span) }
{
    push_if(rows, is_closed(c, at, field, through_this), Code::J4, span)
}

fn assigned_field_rows(
    rows: &mut Seq<Row>,
    c: &Context,
    at: Setting,
    field: FieldNo,
    span: Span,
) -> Result<(), AllocError>
    ensures { OnOk result (rows.new
        ≡ rows.old
        ++ (spec.own_field_rows c.now.program.now c.now.class.0 (setting_of at) field.0 span
        ++ annotated.unless
        (spec.own_field_rows c.now.program.now c.now.class.0 (setting_of at) field.0
        span)
        (spec.final_rows c.now.program.now c.now.class.0 (setting_of at) field.0 true
        span))) }
{
    let wrong = !is_static_field(c.program, field) && !at.this_stands;
    if wrong {
        push(rows, Code::J1, span)
    } else {
        final_rows(rows, c, at, field, true, span)
    }
}

/// An identifier that is assigned (JLS 4.12.4).
pub fn assigned_name_rows(
    rows: &mut Seq<Row>,
    c: &Context,
    at: Setting,
    meaning: Meaning,
    span: Span,
) -> Result<(), AllocError>
    ensures { OnOk result (rows.new
        ≡ rows.old
        ++ spec.assigned_name_rows c.now.program.now c.now.class.0 (setting_of at)
        (meaning_of c.now.faults.now meaning) span) }
{
    match meaning {
        Meaning::Local(variable) => {
            push_if(rows, variable.fixed, Code::J4, span)?;
            fault_rows(rows, c, variable.faults)
        }
        Meaning::Field(field) => assigned_field_rows(rows, c, at, field, span),
        _ => push(rows, Code::J1, span),
    }
}

/// A member after a dot that is assigned: a final field, but in a constructor of its class through `this`, or an array's length (JLS 10.7).
pub fn assigned_access_rows(
    rows: &mut Seq<Row>,
    c: &Context,
    at: Setting,
    access: Access,
    through_this: bool,
    span: Span,
) -> Result<(), AllocError>
    ensures { OnOk result (rows.new
        ≡ rows.old
        ++ spec.assigned_access_rows c.now.program.now c.now.class.0 (setting_of at)
        (access_of access) through_this span) }
{
    match access {
        Access::Class(field) => final_rows(rows, c, at, field, false, span),
        Access::Object(field) => final_rows(rows, c, at, field, through_this, span),
        Access::Length => push(rows, Code::J4, span),
        Access::Nothing => Ok(()),
    }
}

/// J1: the type without brackets that is written is a class that isn't there.
pub fn base_rows(rows: &mut Seq<Row>, c: &Context, base: Base) -> Result<(), AllocError>
    ensures { OnOk result (rows.new ≡ rows.old ++ annotated.base_rows c.now.program.now base) }
{
    match base {
        Base::Class(name) => known_class(rows, c, name),
        _ => Ok(()),
    }
}

/// The type of an array creation (JLS 15.10.1).
pub fn array_rows(
    rows: &mut Seq<Row>,
    c: &Context,
    base: Base,
    annotations: &[Annotation],
) -> Result<(), AllocError>
    ensures { OnOk result
        (rows.new ≡ rows.old ++ spec.array_rows c.now.program.now base annotations.now) }
{
    annotation_rows(rows, NULLITY_ALONE, is_class_use(base), annotations)?;
    base_rows(rows, c, base)
}

fn is_wide(c: &Context, base: BaseType) -> bool
    ensures { result ≡ spec.is_wide c.now.program.now base }
{
    match base {
        BaseType::Ref(class) => class.0 == 0 || class.0 == 1,
        _ => false,
    }
}

fn are_wide_references(c: &Context, left: BaseType, right: BaseType) -> bool
    ensures { result ≡ spec.wide_references c.now.program.now left right }
{
    is_reference(left) && is_reference(right) && (is_wide(c, left) || is_wide(c, right))
}

/// J5: references are compared of which one may be a String (JLS 15.21.3), but not with `null`.
pub fn equality_rows(
    rows: &mut Seq<Row>,
    c: &Context,
    operator: BinaryOperator,
    null: bool,
    left: BaseType,
    right: BaseType,
    span: Span,
) -> Result<(), AllocError>
    ensures { OnOk result (rows.new
        ≡ rows.old ++ spec.equality_rows c.now.program.now operator null left right span) }
{
    let wrong = is_equality(operator) && (!null && are_wide_references(c, left, right));
    push_if(rows, wrong, Code::J5, span)
}
