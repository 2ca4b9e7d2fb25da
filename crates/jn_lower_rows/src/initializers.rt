//! Rows of the initializers of a class's fields (JLS 8.3.2 and 12.5).
ghost use Rattle.std.specs.Prelude.{◌≡◌, ◌++◌, [], not, OnOk, Some};
ghost use Rattle.jn_places.specs.PlacedView.{placed_declarators, placed_member, placed_members, placed_optional, placed_view};
ghost use Rattle.jn_lowering.specs.Annotations as annotated;
ghost use Rattle.jn_lowering.specs.Bodies as bodies;
ghost use Rattle.jn_lowering.specs.BodyRows as spec;
ghost use Rattle.jn_lowering.specs.Calls.{is_static};
ghost use Rattle.jn_lowering.specs.ExpressionRows.{rows_of};

use crate::entry::Whole;
use crate::setting::{INITIALIZER, Setting};
use crate::standing::{Names, Place};
use crate::statements::look;
use jn_base::{FieldNo, NameNo, Row, Seq};
use jn_scopes::heads::class_of;
use jn_scopes::members::{declared_field, is_static_field};
use jn_trees::{Declarator, Expr, Member};
use std::alloc::AllocError;

/// What is the same in a body, or in an initializer.
pub fn place_of<'a>(whole: &Whole<'a>, at: Setting) -> Place<'a>
    ensures { (result.program.now ≡ whole.now.program.now)
        × (result.class.0 ≡ bodies.class whole.now.program.now whole.now.method.0)
        × (result.at ≡ at) }
{
    Place {
        program: whole.program,
        class: class_of(whole.program, whole.method),
        at,
        alloc: whole.alloc,
    }
}

/// The initializer of a field that isn't static; one of a static field is not lowered.
fn field_rows(
    whole: &Whole,
    none: &Names,
    field: FieldNo,
    value: &Expr,
    rows: &mut Seq<Row>,
) -> Result<(), AllocError>
    requires none { none.now.scope ≡ [] }
    ensures { OnOk result (rows.new
        ≡ rows.old
        ++ annotated.when (not (is_static whole.now.program.now field.0)) (rows_of
        whole.now.program.now (bodies.class whole.now.program.now whole.now.method.0)
        spec.in_initializer [] (placed_view value.now))) }
{
    if is_static_field(whole.program, field) {
        return Ok(());
    }
    look(value, &place_of(whole, INITIALIZER), none, rows)?;
    Ok(())
}

fn value_rows(
    whole: &Whole,
    none: &Names,
    name: NameNo,
    value: &Expr,
    rows: &mut Seq<Row>,
) -> Result<(), AllocError>
    requires none { none.now.scope ≡ [] }
    ensures { OnOk result (rows.new
        ≡ rows.old
        ++ spec.initializer_rows whole.now.program.now whole.now.method.0 name.0
        (Some (placed_view value.now))) }
{
    let class = class_of(whole.program, whole.method);
    match declared_field(whole.program, class, name) {
        None => Ok(()),
        Some(field) => field_rows(whole, none, field, value, rows),
    }
}

/// A declarator's initializer, where it has one.
fn initializer(
    whole: &Whole,
    none: &Names,
    declared: &Declarator,
    rows: &mut Seq<Row>,
) -> Result<(), AllocError>
    requires none { none.now.scope ≡ [] }
    ensures { OnOk result (rows.new
        ≡ rows.old
        ++ spec.initializer_rows whole.now.program.now whole.now.method.0
        declared.now.name.name.0 (placed_optional declared.now.value)) }
{
    match &declared.value {
        None => Ok(()),
        Some(value) => value_rows(whole, none, declared.name.name, value, rows),
    }
}

fn initializers(
    whole: &Whole,
    none: &Names,
    more: &[Declarator],
    rows: &mut Seq<Row>,
) -> Result<(), AllocError>
    requires none { none.now.scope ≡ [] }
    ensures { OnOk result (rows.new
        ≡ rows.old
        ++ spec.initializers_rows whole.now.program.now whole.now.method.0
        (placed_declarators more.now)) }
{
    for declared in more {
        initializer(whole, none, declared, rows)?;
    }
    Ok(())
}

fn member_initializers(
    whole: &Whole,
    none: &Names,
    member: &Member,
    rows: &mut Seq<Row>,
) -> Result<(), AllocError>
    requires none { none.now.scope ≡ [] }
    ensures { OnOk result (rows.new
        ≡ rows.old
        ++ spec.initializers_rows whole.now.program.now whole.now.method.0
        (bodies.declarators_of (placed_member member.now))) }
{
    match member {
        Member::Field { first, more, .. } => {
            initializer(whole, none, first, rows)?;
            initializers(whole, none, more, rows)
        }
        Member::Method { .. } => Ok(()),
        Member::Constructor { .. } => Ok(()),
    }
}

/// The initializers of all fields of a class that aren't static, in textual order. No name is in scope there but the class's.
pub fn all_initializers(
    whole: &Whole,
    none: &Names,
    members: &[Member],
    rows: &mut Seq<Row>,
) -> Result<(), AllocError>
    requires none { none.now.scope ≡ [] }
    ensures { OnOk result (rows.new
        ≡ rows.old
        ++ spec.member_rows whole.now.program.now whole.now.method.0
        (placed_members members.now)) }
{
    for member in members {
        member_initializers(whole, none, member, rows)?;
    }
    Ok(())
}
