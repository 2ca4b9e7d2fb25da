//! Rows J1 to J5 of whole bodies (JLS 8.4.7, 8.8.7 and 12.5).
ghost use Rattle.std.specs.Prelude.{◌≡◌, ◌++◌, not, OnOk};
ghost use Rattle.jn_points.specs.Lookup.{class_info, ctor_of, method_at, parent_of};
ghost use Rattle.jn_places.specs.Placed.{PlacedStatements, MorePlacedStatements, NoPlacedTrees};
ghost use Rattle.jn_places.specs.PlacedView.{placed_members, placed_parameters, placed_statement, placed_statements, placed_views};
ghost use Rattle.jn_lowering.specs.Annotations as annotated;
ghost use Rattle.jn_lowering.specs.Bodies as bodies;
ghost use Rattle.jn_lowering.specs.BodyRows as spec;
ghost use Rattle.jn_lowering.specs.Locals.{State};
ghost use Rattle.jn_lower_rows.specs.Views.{setting_of};
ghost use Rattle.jn_lower_rows.specs.Standing.{Stands};

use crate::entry::{Whole, entry, no_names};
use crate::initializers::{all_initializers, place_of};
use crate::members::ctor_rows;
use crate::setting::{NO_THIS, Setting};
use crate::standing::{Names, context};
use crate::statements::{look_all, statements};
use jn_base::{ClassNo, MethodNo, Row, Seq, Span};
use jn_index::indexed::IndexedProgram;
use jn_scopes::forms::count;
use jn_scopes::heads::{class_of, is_ctor, is_under_object, name_span};
use jn_scopes::members::{is_static, parent_or_object};
use jn_trees::{Expr, Member, Parameter, Stmt};
use std::alloc::{AllocError, Global};

/// `this(..)` or `super(..)` (JLS 8.8.7.1): its arguments, and the constructor.
fn ctor_call(
    whole: &Whole,
    names: &Names,
    class: ClassNo,
    arguments: &[Expr],
    span: Span,
    rows: &mut Seq<Row>,
) -> Result<(), AllocError>
    ensures { OnOk result ((st : State) → Stands st names.now
        → rows.new
        ≡ rows.old
        ++ spec.ctor_call_rows whole.now.program.now whole.now.method.0 st class.0
        (placed_views arguments.now) span) }
{
    let place = place_of(whole, NO_THIS);
    look_all(arguments, &place, names, rows)?;
    ctor_rows(rows, &context(&place, names), class, count(arguments), span)?;
    Ok(())
}

/// `super()` where neither is written (JLS 8.8.7).
fn unwritten_call(whole: &Whole, names: &Names, rows: &mut Seq<Row>) -> Result<(), AllocError>
    ensures { OnOk result ((st : State) → Stands st names.now
        → rows.new
        ≡ rows.old
        ++ annotated.when
        (not (bodies.is_under_object (parent_of (class_info whole.now.program.now
        (bodies.class whole.now.program.now whole.now.method.0)))))
        (spec.ctor_call_rows whole.now.program.now whole.now.method.0 st
        (bodies.parent whole.now.program.now whole.now.method.0) NoPlacedTrees
        (bodies.name_span whole.now.program.now whole.now.method.0))) }
{
    let class = class_of(whole.program, whole.method);
    if is_under_object(whole.program, class) {
        return Ok(());
    }
    let parent = parent_or_object(whole.program, class);
    let span = name_span(whole.program, whole.method);
    ctor_call(whole, names, parent, &[], span, rows)
}

/// The constructor's call with which a constructor begins, written or not, by its first statement.
fn begin_rows(
    whole: &Whole,
    names: &Names,
    first: &Stmt,
    rows: &mut Seq<Row>,
) -> Result<(), AllocError>
    ensures { OnOk result ((st : State) (more : PlacedStatements) → Stands st names.now
        → rows.new
        ≡ rows.old
        ++ spec.construction_rows whole.now.program.now whole.now.method.0 st
        (MorePlacedStatements (placed_statement first.now) more)) }
{
    match first {
        Stmt::ThisCall { arguments, span } => {
            let class = class_of(whole.program, whole.method);
            ctor_call(whole, names, class, arguments, *span, rows)
        }
        Stmt::SuperCall { arguments, span } => {
            let class = class_of(whole.program, whole.method);
            let parent = parent_or_object(whole.program, class);
            ctor_call(whole, names, parent, arguments, *span, rows)
        }
        _ => unwritten_call(whole, names, rows),
    }
}

/// The constructor's call with which a constructor begins, written or not (JLS 8.8.7).
fn construction(
    whole: &Whole,
    names: &Names,
    body: &[Stmt],
    rows: &mut Seq<Row>,
) -> Result<(), AllocError>
    ensures { OnOk result ((st : State) → Stands st names.now
        → rows.new
        ≡ rows.old
        ++ spec.construction_rows whole.now.program.now whole.now.method.0 st
        (placed_statements body.now)) }
{
    match body.first() {
        None => unwritten_call(whole, names, rows),
        Some(first) => begin_rows(whole, names, first, rows),
    }
}

fn is_own_call(first: &Stmt) -> bool
    ensures { (more : PlacedStatements)
        → result ≡ bodies.calls_own (MorePlacedStatements (placed_statement first.now) more) }
{
    match first {
        Stmt::ThisCall { .. } => true,
        _ => false,
    }
}

/// Whether a body begins with `this(..)`.
fn calls_own(body: &[Stmt]) -> bool
    ensures { result ≡ bodies.calls_own (placed_statements body.now) }
{
    match body.first() {
        None => false,
        Some(first) => is_own_call(first),
    }
}

/// What a constructor does before its statements: a constructor's call, and the class's initializers unless another
/// constructor of the class is called (JLS 12.5).
fn before_statements(
    whole: &Whole,
    names: &Names,
    body: &[Stmt],
    members: &[Member],
    rows: &mut Seq<Row>,
) -> Result<(), AllocError>
    ensures { OnOk result ((st : State) → Stands st names.now
        → rows.new
        ≡ rows.old
        ++ (spec.construction_rows whole.now.program.now whole.now.method.0 st
        (placed_statements body.now)
        ++ annotated.when (not (bodies.calls_own (placed_statements body.now)))
        (spec.member_rows whole.now.program.now whole.now.method.0
        (placed_members members.now)))) }
{
    construction(whole, names, body, rows)?;
    if calls_own(body) {
        return Ok(());
    }
    let none = no_names(whole.alloc);
    all_initializers(whole, &none, members, rows)
}

fn constructed(
    whole: &Whole,
    names: &Names,
    body: &[Stmt],
    members: &[Member],
    rows: &mut Seq<Row>,
) -> Result<(), AllocError>
    ensures { OnOk result ((st : State) → Stands st names.now
        → rows.new
        ≡ rows.old
        ++ annotated.when (ctor_of (method_at whole.now.program.now whole.now.method.0))
        (spec.construction_rows whole.now.program.now whole.now.method.0 st
        (placed_statements body.now)
        ++ annotated.when (not (bodies.calls_own (placed_statements body.now)))
        (spec.member_rows whole.now.program.now whole.now.method.0
        (placed_members members.now)))) }
{
    if is_ctor(whole.program, whole.method) {
        before_statements(whole, names, body, members, rows)
    } else {
        Ok(())
    }
}

fn in_body(program: &IndexedProgram, method: MethodNo) -> Setting
    ensures { setting_of result ≡ spec.in_body program.now method.0 }
{
    Setting {
        this_stands: !is_static(program, method),
        own_fields: is_ctor(program, method),
    }
}

/// Adds the rows J1 to J5 of a body: those of a constructor's call and of the initializers, then those of the statements.
///
/// `members` are all members of the method's class.
///
/// # Errors
/// No memory was found.
pub fn body_rows(
    alloc: Global,
    program: &IndexedProgram,
    method: MethodNo,
    parameters: &[Parameter],
    body: &[Stmt],
    members: &[Member],
    rows: &mut Seq<Row>,
) -> Result<(), AllocError>
    ensures { OnOk result (rows.new
        ≡ rows.old
        ++ spec.rows_of_source program.now (record {
          method = method.0;
          parameters = placed_parameters parameters.now;
          body = placed_statements body.now;
          members = placed_members members.now;
        })) }
{
    let whole = Whole {
        program,
        method,
        alloc,
    };
    let mut names = entry(&whole, parameters)?;
    constructed(&whole, &names, body, members, rows)?;
    let place = place_of(&whole, in_body(program, method));
    statements(body, &place, &mut names, rows)?;
    Ok(())
}
