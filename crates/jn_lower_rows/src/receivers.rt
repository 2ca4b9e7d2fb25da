//! Rows of members after a dot, of elements and of operators, where what stands before them is done.
ghost use Rattle.std.specs.Prelude.{◌≡◌, ◌++◌, ◌&&◌, ◌||◌, [], cond, eqb, not, true, OnOk};
ghost use Rattle.jn_base.specs.declared.code.Code.TheVariants.{J2, J5};
ghost use Rattle.jn_points.specs.declared.point.BaseType.TheVariants.{Void};
ghost use Rattle.jn_points.specs.Lookup.{is_array as is_array_base};
ghost use Rattle.jn_points.specs.Members.{field_of};
ghost use Rattle.jn_lowering.specs.Annotations as annotated;
ghost use Rattle.jn_lowering.specs.Bases.{callee_type as type_of_callee};
ghost use Rattle.jn_lowering.specs.Expressions.{is_null as is_null_tree};
ghost use Rattle.jn_lowering.specs.ExpressionRows as spec;
ghost use Rattle.jn_lowering.specs.Scopes.{callee_by as callee_behind};
ghost use Rattle.jn_places.specs.PlacedView.{placed_view};
ghost use Rattle.jn_scopes.specs.Views.{access_of, meaning_of};
ghost use Rattle.jn_lower_rows.specs.Views.{setting_of};
ghost use Rattle.jn_lower_rows.specs.Before.{field_behind, method_behind};

use crate::calls::{class_call_rows, value_call_rows};
use crate::members::{class_field_rows, value_field_rows};
use crate::names::{assigned_access_rows, equality_rows, inner_span, is_this};
use crate::row::{push, push_if};
use crate::setting::Setting;
use jn_base::{ClassNo, Code, NameNo, Row, Seq, Span};
use jn_points::BaseType;
use jn_points::lookup::is_array;
use jn_scopes::forms::is_null;
use jn_scopes::lookup::callee_by;
use jn_scopes::types::callee_type;
use jn_scopes::{Access, Context, Meaning};
use jn_trees::{BinaryOperator, Expr, Identifier};
use std::alloc::AllocError;

/// An expression's type, and whether it has no rows.
#[derive(Clone, Copy)]
pub struct Looked {
    pub base: BaseType,
    pub clean: bool,
}

/// What stands before a dot: whether it is `System.out` of a `println`, what it means where it is an identifier, its type, and
/// whether it has no rows.
#[derive(Clone, Copy)]
pub struct Before {
    pub prints: bool,
    pub meaning: Meaning,
    pub base: BaseType,
    pub clean: bool,
}

/// What a field access names, and whether it has no rows.
#[derive(Clone, Copy)]
pub struct Found {
    pub access: Access,
    pub clean: bool,
}

/// What is no value.
pub fn unseen(meaning: Meaning, prints: bool) -> Before
    ensures { (result.prints ≡ prints) × (result.meaning ≡ meaning) × (result.base ≡ Void)
        × (result.clean ≡ true) }
{
    Before {
        prints,
        meaning,
        base: BaseType::Void,
        clean: true,
    }
}

fn named_field_rows(
    rows: &mut Seq<Row>,
    c: &Context,
    class: ClassNo,
    name: Identifier,
) -> Result<(), AllocError>
    ensures { OnOk result (rows.new
        ≡ rows.old
        ++ cond (eqb class.0 1) (annotated.row J5 name.span) (spec.class_field_rows
        c.now.program.now c.now.class.0 (field_of c.now.program.now class.0 name.name.0)
        name.span)) }
{
    if class.0 == 1 {
        push(rows, Code::J5, name.span)
    } else {
        class_field_rows(rows, c, class, name)
    }
}

/// A field after a dot (JLS 15.11).
pub fn access_rows(
    rows: &mut Seq<Row>,
    c: &Context,
    before: Before,
    name: Identifier,
) -> Result<(), AllocError>
    ensures { OnOk result (rows.new
        ≡ rows.old
        ++ field_behind c.now.program.now c.now.class.0
        (meaning_of c.now.faults.now before.meaning) before.base before.clean name.name.0
        name.span) }
{
    match before.meaning {
        Meaning::Class(class) => named_field_rows(rows, c, class, name),
        Meaning::System => push(rows, Code::J5, name.span),
        _ => {
            if before.clean {
                value_field_rows(rows, c, before.base, name)
            } else {
                Ok(())
            }
        }
    }
}

fn method_rows(
    rows: &mut Seq<Row>,
    c: &Context,
    before: Before,
    name: Identifier,
    arity: usize,
) -> Result<(), AllocError>
    ensures { OnOk result (rows.new
        ≡ rows.old
        ++ method_behind c.now.program.now c.now.class.0
        (meaning_of c.now.faults.now before.meaning) before.base before.clean name.name.0
        arity name.span) }
{
    match before.meaning {
        Meaning::Class(class) => class_call_rows(rows, c, class, name, arity),
        Meaning::System => push(rows, Code::J5, name.span),
        _ => value_call_rows(rows, c, before.clean, before.base, name, arity),
    }
}

/// A method after a dot (JLS 15.12).
pub fn call_rows(
    rows: &mut Seq<Row>,
    c: &Context,
    before: Before,
    name: Identifier,
    arity: usize,
) -> Result<(), AllocError>
    ensures { OnOk result (rows.new
        ≡ rows.old
        ++ cond before.prints [] (method_behind c.now.program.now c.now.class.0
        (meaning_of c.now.faults.now before.meaning) before.base before.clean name.name.0
        arity name.span)) }
{
    if before.prints {
        Ok(())
    } else {
        method_rows(rows, c, before, name, arity)
    }
}

/// The type of a call with a dot.
pub fn called_type(c: &Context, before: Before, name: NameNo, arity: usize) -> BaseType
    ensures { result
        ≡ cond before.prints Void (type_of_callee c.now.program.now (callee_behind c.now.program.now
        (meaning_of c.now.faults.now before.meaning) before.base name.0 arity)) }
{
    if before.prints {
        BaseType::Void
    } else {
        callee_type(c, callee_by(c, before.meaning, before.base, name, arity))
    }
}

/// A field after a dot that is assigned.
pub fn found_rows(
    rows: &mut Seq<Row>,
    c: &Context,
    at: Setting,
    found: Found,
    target: &Expr,
    span: Span,
) -> Result<(), AllocError>
    ensures { OnOk result (rows.new
        ≡ rows.old
        ++ cond found.clean
        (spec.assigned_access_rows c.now.program.now c.now.class.0 (setting_of at)
        (access_of found.access) (spec.is_this (placed_view target.now)) span)
        []) }
{
    if found.clean {
        assigned_access_rows(rows, c, at, found.access, is_this(target), span)
    } else {
        Ok(())
    }
}

/// An index into what must be an array (JLS 15.10.3).
pub fn index_rows(rows: &mut Seq<Row>, of: Looked, array: &Expr) -> Result<(), AllocError>
    ensures { OnOk result (rows.new
        ≡ rows.old
        ++ cond of.clean
        (annotated.when (not (is_array_base of.base))
        (annotated.row J2 (spec.inner_span (placed_view array.now))))
        []) }
{
    let wrong = of.clean && !is_array(of.base);
    push_if(rows, wrong, Code::J2, inner_span(array))
}

/// An operator between two sides.
pub fn both_rows(
    rows: &mut Seq<Row>,
    c: &Context,
    operator: BinaryOperator,
    null: bool,
    one: Looked,
    other: Looked,
    span: Span,
) -> Result<(), AllocError>
    ensures { OnOk result (rows.new
        ≡ rows.old
        ++ cond (one.clean && other.clean)
        (spec.equality_rows c.now.program.now operator null one.base other.base span) []) }
{
    if one.clean && other.clean {
        equality_rows(rows, c, operator, null, one.base, other.base, span)
    } else {
        Ok(())
    }
}

/// Whether one of the sides is `null`, perhaps in parentheses.
pub fn either_null(left: &Expr, right: &Expr) -> bool
    ensures { result
        ≡ (is_null_tree (placed_view left.now) || is_null_tree (placed_view right.now)) }
{
    is_null(left) || is_null(right)
}
