//! Statements that may not be of the subset.
ghost use Rattle.std.specs.Prelude.{◌≡◌, ◌++◌, flat_map, OnOk};
ghost use Rattle.jn_places.specs.PlacedView.{placed_body, placed_declarator, placed_declarators, placed_init, placed_local, placed_statement, placed_statements, placed_type_use};
ghost use Rattle.jn_refused_notes.specs.Refused as spec;

use crate::causes::Refusal;
use crate::forms::{all, declared_name, expression, optional};
use crate::marks::type_use;
use jn_base::Seq;
use jn_lower_rows::annotations::BOTH_KINDS;
use jn_lower_rows::notes::local_notes;
use jn_trees::{Declarator, ForInit, LocalDeclaration, LocalModifier, Stmt, TypeUse};
use std::alloc::{AllocError, Global};

/// Puts those of a declared name and of what it begins with.
pub(crate) fn declarator(declared: &Declarator, found: &mut Seq<Refusal>) -> Result<(), AllocError>
    ensures { OnOk result
        (found.new ≡ found.old ++ spec.declarator_refusals (placed_declarator declared.now)) }
{
    declared_name(declared.name, found)?;
    optional(&declared.value, found)
}

pub(crate) fn declarators(
    declared: &[Declarator],
    found: &mut Seq<Refusal>,
) -> Result<(), AllocError>
    ensures { OnOk result (found.new
        ≡ found.old ++ flat_map spec.declarator_refusals (placed_declarators declared.now)) }
{
    for one in declared {
        declarator(one, found)?;
    }
    Ok(())
}

/// Puts those of the type of a local or a parameter.
pub(crate) fn declared_type(
    alloc: Global,
    modifiers: &[LocalModifier],
    written: &TypeUse,
    found: &mut Seq<Refusal>,
) -> Result<(), AllocError>
    ensures { OnOk result (found.new
        ≡ found.old ++ spec.declared_refusals modifiers.now (placed_type_use written.now)) }
{
    let notes = local_notes(alloc, modifiers)?;
    type_use(written, BOTH_KINDS, &notes, found)
}

fn local(
    alloc: Global,
    declaration: &LocalDeclaration,
    found: &mut Seq<Refusal>,
) -> Result<(), AllocError>
    ensures { OnOk result
        (found.new ≡ found.old ++ spec.local_refusals (placed_local declaration.now)) }
{
    declared_type(alloc, &declaration.modifiers, &declaration.type_use, found)?;
    declarator(&declaration.first, found)?;
    declarators(&declaration.more, found)
}

fn init(alloc: Global, start: &ForInit, found: &mut Seq<Refusal>) -> Result<(), AllocError>
    ensures { OnOk result (found.new ≡ found.old ++ spec.init_refusals (placed_init start.now)) }
{
    match start {
        ForInit::Expressions(trees) => all(trees, found),
        ForInit::Declaration(declaration) => local(alloc, declaration, found),
    }
}

/// Puts those of a statement.
#[cycle(stating)]
fn statement(tree: &Stmt, alloc: Global, found: &mut Seq<Refusal>) -> Result<(), AllocError>
    ensures { OnOk result
        (found.new ≡ found.old ++ spec.statement_refusals (placed_statement tree.now)) }
{
    match tree {
        Stmt::Block {
            statements: inner,
            ..
        } => statements(inner, alloc, found),
        Stmt::Empty { .. } => Ok(()),
        Stmt::Expression {
            expression: inner,
            ..
        } => expression(inner, found),
        Stmt::Break { .. } => Ok(()),
        Stmt::Continue { .. } => Ok(()),
        Stmt::Return { value, .. } => optional(value, found),
        Stmt::Local { declaration, .. } => local(alloc, declaration, found),
        Stmt::If {
            condition,
            then,
            ..
        } => {
            expression(condition, found)?;
            statement(then, alloc, found)
        }
        Stmt::IfElse {
            condition,
            then,
            otherwise,
            ..
        } => {
            expression(condition, found)?;
            statement(then, alloc, found)?;
            statement(otherwise, alloc, found)
        }
        Stmt::While {
            condition,
            body,
            ..
        } => {
            expression(condition, found)?;
            statement(body, alloc, found)
        }
        Stmt::Do {
            body,
            condition,
            ..
        } => {
            statement(body, alloc, found)?;
            expression(condition, found)
        }
        Stmt::For { head, body, .. } => {
            init(alloc, &head.init, found)?;
            optional(&head.condition, found)?;
            all(&head.update, found)?;
            statement(body, alloc, found)
        }
        Stmt::ForEach {
            variable,
            array,
            body,
            ..
        } => {
            declared_type(alloc, &variable.modifiers, &variable.type_use, found)?;
            declared_name(variable.name, found)?;
            expression(array, found)?;
            statement(body, alloc, found)
        }
        Stmt::ThisCall { arguments, .. } => all(arguments, found),
        Stmt::SuperCall { arguments, .. } => all(arguments, found),
    }
}

/// Puts those of statements one after the other.
#[cycle(stating)]
pub(crate) fn statements(
    trees: &[Stmt],
    alloc: Global,
    found: &mut Seq<Refusal>,
) -> Result<(), AllocError>
    ensures { OnOk result
        (found.new ≡ found.old ++ spec.statements_refusals (placed_statements trees.now)) }
{
    for tree in trees {
        statement(tree, alloc, found)?;
    }
    Ok(())
}

/// Puts those of a body that may be absent.
pub(crate) fn body(
    alloc: Global,
    given: &Option<Vec<Stmt>>,
    found: &mut Seq<Refusal>,
) -> Result<(), AllocError>
    ensures { OnOk result (found.new ≡ found.old ++ spec.body_refusals (placed_body given.now)) }
{
    match given {
        None => Ok(()),
        Some(written) => statements(written, alloc, found),
    }
}
