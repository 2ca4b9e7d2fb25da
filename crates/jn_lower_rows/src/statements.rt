//! Rows J1 to J5 of statements (JLS 14).
ghost use Rattle.std.specs.Prelude.{◌≡◌, ◌++◌, ◌≤◌, ◌&&◌, length, IfOk, OnOk, Option, Some, None};
ghost use Rattle.jn_quals.specs.Qualifier.{Qualifier};
ghost use Rattle.jn_lowering.specs.Bases.{type_of as type_in_scope};
ghost use Rattle.jn_lowering.specs.ExpressionRows.{rows_of, rows_of_all};
ghost use Rattle.jn_lowering.specs.Locals.{has_value};
ghost use Rattle.jn_lowering.specs.Statements as lowered;
ghost use Rattle.jn_lowering.specs.StatementRows as spec;
ghost use Rattle.jn_places.specs.PlacedView.{placed_declarator, placed_declarators, placed_init, placed_local, placed_optional, placed_statement, placed_statements, placed_view, placed_views};
ghost use Rattle.jn_scopes.specs.Views.{faults_of, scope_of};
ghost use Rattle.jn_lower_rows.specs.Views.{setting_of};
ghost use Rattle.jn_lower_rows.specs.Standing.{Walks, WellKept};

use crate::expressions::{all, expression};
use crate::notes::local_notes;
use crate::receivers::{Looked, index_rows};
use crate::standing::{Names, Place, back_to, context, declare, declare_type, mark_of};
use jn_base::{Row, Seq};
use jn_points::BaseType;
use jn_scopes::Faults;
use jn_scopes::types::{has_final, type_of_use};
use jn_trees::{Declarator, Expr, ForInit, LocalDeclaration, Stmt};
use std::alloc::AllocError;

/// An expression of a statement, and its type.
pub fn look(
    tree: &Expr,
    place: &Place,
    names: &Names,
    rows: &mut Seq<Row>,
) -> Result<BaseType, AllocError>
    ensures { IfOk result (λ base. (base
        ≡ type_in_scope place.now.program.now place.now.class.0
        (scope_of names.now.faults.items names.now.scope) (placed_view tree.now))
        × (rows.new
        ≡ rows.old
        ++ rows_of place.now.program.now place.now.class.0 (setting_of place.now.at)
        (scope_of names.now.faults.items names.now.scope)
        (placed_view tree.now))) }
{
    let base = expression(tree, &context(place, names), place.at, rows)?;
    Ok(base)
}

/// Expressions of a statement, one after the other.
pub fn look_all(
    trees: &[Expr],
    place: &Place,
    names: &Names,
    rows: &mut Seq<Row>,
) -> Result<(), AllocError>
    ensures { OnOk result (rows.new
        ≡ rows.old
        ++ rows_of_all place.now.program.now place.now.class.0 (setting_of place.now.at)
        (scope_of names.now.faults.items names.now.scope) (placed_views trees.now)) }
{
    all(trees, &context(place, names), place.at, rows)?;
    Ok(())
}

/// An expression that may be absent.
fn optional(
    tree: &Option<Box<Expr>>,
    place: &Place,
    names: &Names,
    rows: &mut Seq<Row>,
) -> Result<(), AllocError>
    requires kept { WellKept names.now }
    ensures { OnOk result (Walks
        (λ f st. spec.optional_rows place.now.program.now place.now.class.0 f
        (setting_of place.now.at) st (placed_optional tree.now))
        (λ f st. st) names.now names.now rows.old rows.new) }
{
    match tree {
        None => Ok(()),
        Some(given) => {
            look(given, place, names, rows)?;
            Ok(())
        }
    }
}

/// Whether nothing may be assigned to what is declared (JLS 4.12.4).
fn is_fixed(is_final: bool, declared: &Declarator) -> bool
    ensures { result ≡ (is_final && has_value (placed_declarator declared.now)) }
{
    if is_final {
        match &declared.value {
            None => false,
            Some(_) => true,
        }
    } else {
        false
    }
}

/// A declared name and its initializer, in whose scope it is (JLS 6.3).
fn declarator(
    declared: &Declarator,
    place: &Place,
    names: &mut Names,
    rows: &mut Seq<Row>,
    base: BaseType,
    is_final: bool,
    faults: Faults,
) -> Result<(), AllocError>
    requires kept { WellKept names.old }
    requires within { faults.to ≤ length names.old.faults.items }
    ensures walks { OnOk result ((bound : Option Qualifier)
        → Walks
        (λ f st. spec.declarator_rows place.now.program.now place.now.class.0 f
        (setting_of place.now.at) base bound is_final
        (faults_of names.old.faults.items faults) st (placed_declarator declared.now))
        (λ f st. (lowered.declarator place.now.program.now place.now.class.0 f base bound
        is_final (faults_of names.old.faults.items faults) st
        (placed_declarator declared.now)).behind)
        names.old names.new rows.old rows.new) }
    ensures kept { OnOk result (WellKept names.new) }
    ensures same { OnOk result (names.new.faults.items ≡ names.old.faults.items) }
{
    let fixed = is_fixed(is_final, declared);
    declare(names, place, rows, declared.name, base, fixed, faults)?;
    optional(&declared.value, place, names, rows)?;
    Ok(())
}

/// Declared names one after the other.
fn declarators(
    more: &[Declarator],
    place: &Place,
    names: &mut Names,
    rows: &mut Seq<Row>,
    base: BaseType,
    is_final: bool,
    faults: Faults,
) -> Result<(), AllocError>
    requires kept { WellKept names.old }
    requires within { faults.to ≤ length names.old.faults.items }
    ensures { OnOk result ((bound : Option Qualifier)
        → Walks
        (λ f st. spec.declarators_rows place.now.program.now place.now.class.0 f
        (setting_of place.now.at) base bound is_final
        (faults_of names.old.faults.items faults) st (placed_declarators more.now))
        (λ f st. (lowered.declarators place.now.program.now place.now.class.0 f base bound
        is_final (faults_of names.old.faults.items faults) st
        (placed_declarators more.now)).behind)
        names.old names.new rows.old rows.new) }
{
    for declared in more {
        declarator(declared, place, names, rows, base, is_final, faults)?;
    }
    Ok(())
}

/// A local declaration (JLS 14.4).
fn declaration(
    local: &LocalDeclaration,
    place: &Place,
    names: &mut Names,
    rows: &mut Seq<Row>,
) -> Result<(), AllocError>
    requires kept { WellKept names.old }
    ensures { OnOk result (Walks
        (λ f st. spec.declaration_rows place.now.program.now place.now.class.0 f
        (setting_of place.now.at) st (placed_local local.now))
        (λ f st. (lowered.declaration place.now.program.now place.now.class.0 f st
        (placed_local local.now)).behind)
        names.old names.new rows.old rows.new) }
{
    let notes = local_notes(place.alloc, &local.modifiers)?;
    let is_final = has_final(&local.modifiers);
    let faults = declare_type(names, place, rows, &local.type_use, &notes)?;
    let base = type_of_use(place.program, &local.type_use, &notes);
    declarator(&local.first, place, names, rows, base, is_final, faults)?;
    declarators(&local.more, place, names, rows, base, is_final, faults)?;
    Ok(())
}

/// What a `for` begins with (JLS 14.14.1).
fn init(
    start: &ForInit,
    place: &Place,
    names: &mut Names,
    rows: &mut Seq<Row>,
) -> Result<(), AllocError>
    requires kept { WellKept names.old }
    ensures { OnOk result (Walks
        (λ f st. spec.init_rows place.now.program.now place.now.class.0 f (setting_of place.now.at)
        st (placed_init start.now))
        (λ f st. (lowered.init place.now.program.now place.now.class.0 f st
        (placed_init start.now)).behind)
        names.old names.new rows.old rows.new) }
{
    match start {
        ForInit::Expressions(trees) => {
            look_all(trees, place, names, rows)?;
            Ok(())
        }
        ForInit::Declaration(local) => {
            declaration(local, place, names, rows)?;
            Ok(())
        }
    }
}

/// J2: a `for` goes over an array (JLS 14.14.2).
fn array(tree: &Expr, place: &Place, names: &Names, rows: &mut Seq<Row>) -> Result<(), AllocError>
    requires kept { WellKept names.now }
    ensures { OnOk result (Walks
        (λ f st. spec.array_rows place.now.program.now place.now.class.0 f (setting_of place.now.at)
        st (placed_view tree.now))
        (λ f st. st) names.now names.now rows.old rows.new) }
{
    let start = rows.len();
    let base = look(tree, place, names, rows)?;
    let seen = Looked {
        base,
        clean: rows.len() == start,
    };
    index_rows(rows, seen, tree)?;
    Ok(())
}

/// The rows of a statement. The names that it declares stay in scope where it is a declaration.
#[cycle(stepping)]
pub fn statement(
    tree: &Stmt,
    place: &Place,
    names: &mut Names,
    rows: &mut Seq<Row>,
) -> Result<(), AllocError>
    requires kept { WellKept names.old }
    ensures { OnOk result (Walks
        (λ f st. spec.statement_rows place.now.program.now place.now.class.0 f
        (setting_of place.now.at) st (placed_statement tree.now))
        (λ f st. (lowered.statement place.now.program.now place.now.class.0 f st
        (placed_statement tree.now)).behind)
        names.old names.new rows.old rows.new) }
{
    match tree {
        Stmt::Block {
            statements: inner,
            ..
        } => {
            let before = mark_of(names);
            statements(inner, place, names, rows)?;
            back_to(names, before);
            Ok(())
        }
        Stmt::Expression {
            expression: inner,
            ..
        } => {
            look(inner, place, names, rows)?;
            Ok(())
        }
        Stmt::Return { value, .. } => {
            optional(value, place, names, rows)?;
            Ok(())
        }
        Stmt::Local {
            declaration: local,
            ..
        } => {
            declaration(local, place, names, rows)?;
            Ok(())
        }
        Stmt::If {
            condition,
            then,
            ..
        } => {
            let before = mark_of(names);
            look(condition, place, names, rows)?;
            statement(then, place, names, rows)?;
            back_to(names, before);
            Ok(())
        }
        Stmt::IfElse {
            condition,
            then,
            otherwise,
            ..
        } => {
            let before = mark_of(names);
            look(condition, place, names, rows)?;
            statement(then, place, names, rows)?;
            statement(otherwise, place, names, rows)?;
            back_to(names, before);
            Ok(())
        }
        Stmt::While {
            condition,
            body,
            ..
        } => {
            let before = mark_of(names);
            look(condition, place, names, rows)?;
            statement(body, place, names, rows)?;
            back_to(names, before);
            Ok(())
        }
        Stmt::Do {
            body,
            condition,
            ..
        } => {
            let before = mark_of(names);
            statement(body, place, names, rows)?;
            look(condition, place, names, rows)?;
            back_to(names, before);
            Ok(())
        }
        Stmt::For { head, body, .. } => {
            let before = mark_of(names);
            init(&head.init, place, names, rows)?;
            optional(&head.condition, place, names, rows)?;
            statement(body, place, names, rows)?;
            look_all(&head.update, place, names, rows)?;
            back_to(names, before);
            Ok(())
        }
        Stmt::ForEach {
            variable,
            array: over,
            body,
            ..
        } => {
            let before = mark_of(names);
            let notes = local_notes(place.alloc, &variable.modifiers)?;
            let faults = declare_type(names, place, rows, &variable.type_use, &notes)?;
            array(over, place, names, rows)?;
            let base = type_of_use(place.program, &variable.type_use, &notes);
            declare(
                names,
                place,
                rows,
                variable.name,
                base,
                has_final(&variable.modifiers),
                faults,
            )?;
            statement(body, place, names, rows)?;
            back_to(names, before);
            Ok(())
        }
        Stmt::Empty { .. } => Ok(()),
        Stmt::Break { .. } => Ok(()),
        Stmt::Continue { .. } => Ok(()),
        Stmt::ThisCall { .. } => Ok(()),
        Stmt::SuperCall { .. } => Ok(()),
    }
}

/// Statements one after the other (JLS 14.2).
#[cycle(stepping)]
pub fn statements(
    trees: &[Stmt],
    place: &Place,
    names: &mut Names,
    rows: &mut Seq<Row>,
) -> Result<(), AllocError>
    requires kept { WellKept names.old }
    ensures { OnOk result (Walks
        (λ f st. spec.all_rows place.now.program.now place.now.class.0 f (setting_of place.now.at)
        st (placed_statements trees.now))
        (λ f st. (lowered.statements place.now.program.now place.now.class.0 f st
        (placed_statements trees.now)).behind)
        names.old names.new rows.old rows.new) }
{
    for tree in trees {
        statement(tree, place, names, rows)?;
    }
    Ok(())
}
