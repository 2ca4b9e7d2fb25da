//! The tokens that spell statements.
ghost use Rattle.std.specs.Prelude.{◌≡◌, ◌++◌, OnOk};
ghost use Rattle.jn_trees.specs.Spelling.{spell_statement as spec_statement, spell_body as spec_body, spell_init as spec_init, spell_optional as spec_optional};
ghost use Rattle.jn_trees_spelling.specs.Parts.{condition as spec_condition, for_head as spec_for_head, each_head as spec_each_head, other_call as spec_other_call};
ghost use Rattle.jn_trees.specs.View.{view, views, local_marks, type_use_view, statement_view, statement_views, init_view, optional_view};

use crate::expressions::{spell, spell_list};
use crate::locals::{spell_local, spell_local_marks, spell_type_use};
use crate::put::{put, put_all};
use jn_base::OutOfMemory;
use jn_trees::{Expr, ForHead, ForInit, Parameter, Stmt, TokenKind};

fn spell_optional(
    kinds: &mut Vec<TokenKind>,
    expression: &Option<Box<Expr>>,
) -> Result<(), OutOfMemory>
    ensures { OnOk result
        (kinds.new.items ≡ kinds.old.items ++ spec_optional (optional_view expression.now)) }
{
    match expression {
        None => Ok(()),
        Some(expression) => spell(kinds, expression),
    }
}

fn spell_init(kinds: &mut Vec<TokenKind>, init: &ForInit) -> Result<(), OutOfMemory>
    ensures { OnOk result (kinds.new.items ≡ kinds.old.items ++ spec_init (init_view init.now)) }
{
    match init {
        ForInit::Expressions(expressions) => spell_list(kinds, TokenKind::Semicolon, expressions),
        ForInit::Declaration(declaration) => {
            spell_local(kinds, declaration)?;
            put(kinds, TokenKind::Semicolon)
        }
    }
}

/// Puts a word, the condition in parentheses, after the tokens.
fn spell_condition(
    kinds: &mut Vec<TokenKind>,
    word: TokenKind,
    condition: &Expr,
) -> Result<(), OutOfMemory>
    ensures { OnOk result
        (kinds.new.items ≡ kinds.old.items ++ spec_condition word (view condition.now)) }
{
    put_all(kinds, &[word, TokenKind::LeftParen])?;
    spell(kinds, condition)?;
    put(kinds, TokenKind::RightParen)
}

/// Puts the statement after the tokens.
#[cycle(statements)]
pub fn spell_statement(kinds: &mut Vec<TokenKind>, statement: &Stmt) -> Result<(), OutOfMemory>
    ensures { OnOk result
        (kinds.new.items ≡ kinds.old.items ++ spec_statement (statement_view statement.now)) }
{
    match statement {
        Stmt::Block { statements, .. } => {
            put(kinds, TokenKind::LeftBrace)?;
            spell_body(kinds, statements)
        }
        Stmt::Empty { .. } => put(kinds, TokenKind::Semicolon),
        Stmt::Expression { expression, .. } => {
            spell(kinds, expression)?;
            put(kinds, TokenKind::Semicolon)
        }
        Stmt::Break { .. } => put_all(kinds, &[TokenKind::Break, TokenKind::Semicolon]),
        Stmt::Continue { .. } => put_all(kinds, &[TokenKind::Continue, TokenKind::Semicolon]),
        Stmt::Return { value, .. } => {
            put(kinds, TokenKind::Return)?;
            spell_optional(kinds, value)?;
            put(kinds, TokenKind::Semicolon)
        }
        Stmt::Local { declaration, .. } => {
            spell_local(kinds, declaration)?;
            put(kinds, TokenKind::Semicolon)
        }
        Stmt::If {
            condition,
            then,
            ..
        } => {
            spell_condition(kinds, TokenKind::If, condition)?;
            spell_statement(kinds, then)
        }
        Stmt::IfElse {
            condition,
            then,
            otherwise,
            ..
        } => {
            spell_condition(kinds, TokenKind::If, condition)?;
            spell_statement(kinds, then)?;
            put(kinds, TokenKind::Else)?;
            spell_statement(kinds, otherwise)
        }
        Stmt::While {
            condition,
            body,
            ..
        } => {
            spell_condition(kinds, TokenKind::While, condition)?;
            spell_statement(kinds, body)
        }
        Stmt::Do {
            body,
            condition,
            ..
        } => {
            put(kinds, TokenKind::Do)?;
            spell_statement(kinds, body)?;
            spell_condition(kinds, TokenKind::While, condition)?;
            put(kinds, TokenKind::Semicolon)
        }
        Stmt::For { head, body, .. } => {
            spell_for_head(kinds, head)?;
            spell_statement(kinds, body)
        }
        Stmt::ForEach {
            variable,
            array,
            body,
            ..
        } => {
            spell_each_head(kinds, variable)?;
            spell(kinds, array)?;
            put(kinds, TokenKind::RightParen)?;
            spell_statement(kinds, body)
        }
        Stmt::ThisCall { arguments, .. } => spell_other_call(kinds, TokenKind::This, arguments),
        Stmt::SuperCall { arguments, .. } => spell_other_call(kinds, TokenKind::Super, arguments),
    }
}

/// Puts the statements of a block or body after the tokens, through the closing brace.
#[cycle(statements)]
pub fn spell_body(kinds: &mut Vec<TokenKind>, statements: &[Stmt]) -> Result<(), OutOfMemory>
    ensures { OnOk result
        (kinds.new.items ≡ kinds.old.items ++ spec_body (statement_views statements.now)) }
{
    for statement in statements {
        spell_statement(kinds, statement)?;
    }
    put(kinds, TokenKind::RightBrace)
}

/// Puts a `for` through its closing parenthesis after the tokens.
fn spell_for_head(kinds: &mut Vec<TokenKind>, head: &ForHead) -> Result<(), OutOfMemory>
    ensures { OnOk result (kinds.new.items
        ≡ kinds.old.items
        ++ spec_for_head (init_view head.now.init) (optional_view head.now.condition)
        (views head.now.update.items)) }
{
    put_all(kinds, &[TokenKind::For, TokenKind::LeftParen])?;
    spell_init(kinds, &head.init)?;
    spell_optional(kinds, &head.condition)?;
    put(kinds, TokenKind::Semicolon)?;
    spell_list(kinds, TokenKind::RightParen, &head.update)
}

/// Puts a `for` over an array through its colon after the tokens.
fn spell_each_head(kinds: &mut Vec<TokenKind>, variable: &Parameter) -> Result<(), OutOfMemory>
    ensures { OnOk result (kinds.new.items
        ≡ kinds.old.items
        ++ spec_each_head (local_marks variable.now.modifiers.items)
        (type_use_view variable.now.type_use) variable.now.name.name) }
{
    put_all(kinds, &[TokenKind::For, TokenKind::LeftParen])?;
    spell_local_marks(kinds, &variable.modifiers)?;
    spell_type_use(kinds, &variable.type_use)?;
    put_all(
        kinds,
        &[TokenKind::Id(variable.name.name), TokenKind::Colon],
    )
}

/// Puts a call of another constructor after the tokens.
fn spell_other_call(
    kinds: &mut Vec<TokenKind>,
    word: TokenKind,
    arguments: &[Expr],
) -> Result<(), OutOfMemory>
    ensures { OnOk result
        (kinds.new.items ≡ kinds.old.items ++ spec_other_call word (views arguments.now)) }
{
    put_all(kinds, &[word, TokenKind::LeftParen])?;
    spell_list(kinds, TokenKind::RightParen, arguments)?;
    put(kinds, TokenKind::Semicolon)
}
