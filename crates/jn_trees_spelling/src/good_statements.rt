//! Which statements are well formed.
ghost use Rattle.std.specs.Prelude.{◌≡◌, ◌↔◌, ◌-◌, ◌^◌, min, IsTrue};
ghost use Rattle.jn_trees.specs.WellFormed.{GoodStatement, GoodStatements, GoodBody, nesting_statement as spec_nesting, nesting_body as spec_body};
ghost use Rattle.jn_trees.specs.View.{statement_view, statement_views};

use crate::good::{all_good, good};
use crate::good_locals::{
    good_effects, good_init, good_local, good_optional, nesting_init, nesting_local,
};
use crate::nesting::{nesting, nesting_all, nesting_optional};
use jn_base::number::larger;
use jn_trees::{Context, DEEPEST, Stmt, final_once};

/// Whether the statement is well formed where it stands.
#[cycle(good_statements)]
pub fn good_statement(context: Context, statement: &Stmt) -> bool
    ensures { IsTrue result ↔ GoodStatement context (statement_view statement.now) }
{
    match statement {
        Stmt::Block { statements, .. } => good_statements(context.in_block(), statements),
        Stmt::Empty { .. } => true,
        Stmt::Expression { expression, .. } => good(expression) && expression.is_effect(),
        Stmt::Break { .. } => context.in_loop,
        Stmt::Continue { .. } => context.in_loop,
        Stmt::Return { value, .. } => good_optional(value),
        Stmt::Local { declaration, .. } => good_local(declaration) && context.direct,
        Stmt::If {
            condition,
            then,
            ..
        } => good(condition) && good_statement(context.under(), then),
        Stmt::IfElse {
            condition,
            then,
            otherwise,
            ..
        } => {
            good(condition)
                && good_statement(context.under(), then)
                && !then.ends_open()
                && good_statement(context.under(), otherwise)
        }
        Stmt::While {
            condition,
            body,
            ..
        } => good(condition) && good_statement(Context::loop_body(), body),
        Stmt::Do {
            body,
            condition,
            ..
        } => good_statement(Context::loop_body(), body) && good(condition),
        Stmt::For { head, body, .. } => {
            good_init(&head.init)
                && good_optional(&head.condition)
                && good_effects(&head.update)
                && good_statement(Context::loop_body(), body)
        }
        Stmt::ForEach {
            variable,
            array,
            body,
            ..
        } => {
            final_once(&variable.modifiers)
                && good(array)
                && good_statement(Context::loop_body(), body)
        }
        Stmt::ThisCall { arguments, .. } => all_good(arguments) && context.leading,
        Stmt::SuperCall { arguments, .. } => all_good(arguments) && context.leading,
    }
}

/// Whether each of the statements is well formed where they stand.
#[cycle(good_statements)]
pub fn good_statements(context: Context, statements: &[Stmt]) -> bool
    ensures { IsTrue result ↔ GoodStatements context (statement_views statements.now) }
{
    for statement in statements {
        if !good_statement(context, statement) {
            return false;
        }
    }
    true
}

/// How deep a statement is nested, or the largest `u32` where it is deeper; each statement or expression inside another adds one.
#[cycle(nesting_statements)]
pub fn nesting_statement(statement: &Stmt) -> u32
    ensures { result ≡ min (spec_nesting (statement_view statement.now)) (2 ^ 32 - 1) }
{
    match statement {
        Stmt::Block { statements, .. } => nesting_body(statements).saturating_add(1),
        Stmt::Empty { .. } => 1,
        Stmt::Expression { expression, .. } => nesting(expression).saturating_add(1),
        Stmt::Break { .. } => 1,
        Stmt::Continue { .. } => 1,
        Stmt::Return { value, .. } => nesting_optional(value).saturating_add(1),
        Stmt::Local { declaration, .. } => nesting_local(declaration).saturating_add(1),
        Stmt::If {
            condition,
            then,
            ..
        } => larger(nesting(condition), nesting_statement(then)).saturating_add(1),
        Stmt::IfElse {
            condition,
            then,
            otherwise,
            ..
        } => {
            larger(
                nesting(condition),
                larger(nesting_statement(then), nesting_statement(otherwise)),
            )
            .saturating_add(1)
        }
        Stmt::While {
            condition,
            body,
            ..
        } => { larger(nesting(condition), nesting_statement(body)).saturating_add(1) }
        Stmt::Do {
            body,
            condition,
            ..
        } => { larger(nesting_statement(body), nesting(condition)).saturating_add(1) }
        Stmt::For { head, body, .. } => {
            larger(
                larger(nesting_init(&head.init), nesting_optional(&head.condition)),
                larger(nesting_all(&head.update), nesting_statement(body)),
            )
            .saturating_add(1)
        }
        Stmt::ForEach { array, body, .. } => {
            larger(nesting(array), nesting_statement(body)).saturating_add(1)
        }
        Stmt::ThisCall { arguments, .. } => nesting_all(arguments).saturating_add(1),
        Stmt::SuperCall { arguments, .. } => nesting_all(arguments).saturating_add(1),
    }
}

/// How deep the deepest of the statements is nested; 0 where there are none.
#[cycle(nesting_statements)]
pub fn nesting_body(statements: &[Stmt]) -> u32
    ensures { result ≡ min (spec_body (statement_views statements.now)) (2 ^ 32 - 1) }
{
    let mut deepest: u32 = 0;
    for statement in statements {
        deepest = larger(deepest, nesting_statement(statement));
    }
    deepest
}

/// Whether a whole body is well formed, which is a constructor's where its first statement may lead.
pub fn good_body(leading: bool, statements: &[Stmt]) -> bool
    ensures { IsTrue result ↔ GoodBody leading (statement_views statements.now) }
{
    match statements.split_first() {
        None => true,
        Some((first, more)) => {
            good_statement(Context::of_body(leading), first)
                && nesting_statement(first) <= DEEPEST
                && good_statements(Context::of_body(false), more)
                && nesting_body(more) <= DEEPEST
        }
    }
}
