//! Statements.
ghost use Rattle.std.specs.Prelude.{◌≡◌};
ghost use Rattle.jn_places.specs.PlacedView.{placed_init, placed_statement, placed_statements};
ghost use Rattle.jn_renumber.specs.Renumbered.{renumbered_init, renumbered_statement, renumbered_statements};

use crate::expressions::{renumber, renumber_list};
use crate::locals::{renumber_local, renumber_local_marks, renumber_optional, renumber_type_use};
use crate::names::renumber_name;
use jn_base::NameNo;
use jn_trees::{ForInit, Stmt};

/// Renumbers the names of what a `for` begins with.
fn renumber_init(numbers: &[NameNo], init: &mut ForInit)
    ensures { placed_init init.new ≡ renumbered_init numbers.now (placed_init init.old) }
{
    match init {
        ForInit::Expressions(expressions) => renumber_list(numbers, expressions),
        ForInit::Declaration(declaration) => renumber_local(numbers, declaration),
    }
}

/// Renumbers the names of a statement.
#[cycle(statements)]
pub fn renumber_statement(numbers: &[NameNo], statement: &mut Stmt)
    ensures { placed_statement statement.new
        ≡ renumbered_statement numbers.now (placed_statement statement.old) }
{
    match statement {
        Stmt::Block {
            statements,
            span: _span,
        } => renumber_statements(numbers, statements),
        Stmt::Empty { span: _span } => (),
        Stmt::Expression {
            expression,
            span: _span,
        } => renumber(numbers, expression),
        Stmt::Break { span: _span } => (),
        Stmt::Continue { span: _span } => (),
        Stmt::Return { value, span: _span } => renumber_optional(numbers, value),
        Stmt::Local {
            declaration,
            span: _span,
        } => renumber_local(numbers, declaration),
        Stmt::If {
            condition,
            then,
            span: _span,
        } => {
            renumber(numbers, condition);
            renumber_statement(numbers, then);
        }
        Stmt::IfElse {
            condition,
            then,
            otherwise,
            span: _span,
        } => {
            renumber(numbers, condition);
            renumber_statement(numbers, then);
            renumber_statement(numbers, otherwise);
        }
        Stmt::While {
            condition,
            body,
            span: _span,
        } => {
            renumber(numbers, condition);
            renumber_statement(numbers, body);
        }
        Stmt::Do {
            body,
            condition,
            span: _span,
        } => {
            renumber_statement(numbers, body);
            renumber(numbers, condition);
        }
        Stmt::For {
            head,
            body,
            span: _span,
        } => {
            renumber_init(numbers, &mut head.init);
            renumber_optional(numbers, &mut head.condition);
            renumber_list(numbers, &mut head.update);
            renumber_statement(numbers, body);
        }
        Stmt::ForEach {
            variable,
            array,
            body,
            span: _span,
        } => {
            renumber_local_marks(numbers, &mut variable.modifiers);
            renumber_type_use(numbers, &mut variable.type_use);
            renumber_name(numbers, &mut variable.name);
            renumber(numbers, array);
            renumber_statement(numbers, body);
        }
        Stmt::ThisCall {
            arguments,
            span: _span,
        } => renumber_list(numbers, arguments),
        Stmt::SuperCall {
            arguments,
            span: _span,
        } => renumber_list(numbers, arguments),
    }
}

/// Renumbers the names of statements.
#[cycle(statements)]
pub fn renumber_statements(numbers: &[NameNo], statements: &mut Vec<Stmt>)
    ensures { placed_statements statements.new.items
        ≡ renumbered_statements numbers.now (placed_statements statements.old.items) }
{
    for at in 0..statements.len() {
        renumber_statement(numbers, &mut statements[at]);
    }
}
