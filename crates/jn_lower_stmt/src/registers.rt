//! How many registers the locals of a body take.
ghost use Rattle.std.specs.Prelude.{◌≡◌, ◌+◌, IfOk};
ghost use Rattle.jn_lowering.specs.Locals as spec;
ghost use Rattle.jn_places.specs.PlacedView.{placed_init, placed_local, placed_statement, placed_statements};

use jn_base::OutOfMemory;
use jn_trees::{ForInit, LocalDeclaration, Stmt};

fn sum(a: usize, b: usize) -> Result<usize, OutOfMemory>
    ensures { IfOk result (λ n. n ≡ a + b) }
{
    match a.checked_add(b) {
        Some(sum) => Ok(sum),
        None => Err(OutOfMemory),
    }
}

fn declared_by(tree: &LocalDeclaration) -> Result<usize, OutOfMemory>
    ensures { IfOk result (λ n. n ≡ spec.declared_by (placed_local tree.now)) }
{
    let all = sum(1, tree.more.len())?;
    Ok(all)
}

fn declared_first(tree: &ForInit) -> Result<usize, OutOfMemory>
    ensures { IfOk result (λ n. n ≡ spec.declared_first (placed_init tree.now)) }
{
    match tree {
        ForInit::Expressions(_) => Ok(0),
        ForInit::Declaration(local) => declared_by(local),
    }
}

/// How many registers the locals of a statement take; a `for` over an array has two more.
#[cycle(declared)]
fn declared(tree: &Stmt) -> Result<usize, OutOfMemory>
    ensures { IfOk result (λ n. n ≡ spec.declared (placed_statement tree.now)) }
{
    match tree {
        Stmt::Block { statements, .. } => {
            let all = all_declared(statements)?;
            Ok(all)
        }
        Stmt::Local { declaration, .. } => declared_by(declaration),
        Stmt::If { then, .. } => {
            let inside = declared(then)?;
            Ok(inside)
        }
        Stmt::IfElse {
            then,
            otherwise,
            ..
        } => {
            let first = declared(then)?;
            let second = declared(otherwise)?;
            let all = sum(first, second)?;
            Ok(all)
        }
        Stmt::While { body, .. } => {
            let inside = declared(body)?;
            Ok(inside)
        }
        Stmt::Do { body, .. } => {
            let inside = declared(body)?;
            Ok(inside)
        }
        Stmt::For { head, body, .. } => {
            let before = declared_first(&head.init)?;
            let inside = declared(body)?;
            let all = sum(before, inside)?;
            Ok(all)
        }
        Stmt::ForEach { body, .. } => {
            let inside = declared(body)?;
            let all = sum(3, inside)?;
            Ok(all)
        }
        _ => Ok(0),
    }
}

/// How many registers the locals of statements take.
#[cycle(declared)]
pub fn all_declared(trees: &[Stmt]) -> Result<usize, OutOfMemory>
    ensures { IfOk result (λ n. n ≡ spec.all_declared (placed_statements trees.now)) }
{
    let mut all = 0;
    for tree in trees {
        let more = declared(tree)?;
        all = sum(all, more)?;
    }
    Ok(all)
}
