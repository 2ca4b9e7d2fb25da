//! The tokens that spell expressions.
ghost use Rattle.std.specs.Prelude.{◌≡◌, ◌++◌, OnOk};
ghost use Rattle.jn_trees.specs.Spelling.{spell as spec_spell, spell_list as spec_list, spell_annotations as spec_annotations};
ghost use Rattle.jn_trees_spelling.specs.Parts.{new_front as spec_new};
ghost use Rattle.jn_trees.specs.View.{view, views, annotation_names, base_view};

use crate::put::{put, put_all, separate};
use crate::words::{
    assign_token, base_token, literal_token, operator_token, sign_token, step_token,
};
use jn_base::OutOfMemory;
use jn_trees::{Annotation, Base, Expr, TokenKind};

/// Puts the annotations after the tokens.
pub fn spell_annotations(
    kinds: &mut Vec<TokenKind>,
    annotations: &[Annotation],
) -> Result<(), OutOfMemory>
    ensures { OnOk result
        (kinds.new.items ≡ kinds.old.items ++ spec_annotations (annotation_names annotations.now)) }
{
    for annotation in annotations {
        put_all(kinds, &[TokenKind::At, TokenKind::Id(annotation.name)])?;
    }
    Ok(())
}

/// Puts the expression after the tokens.
#[cycle(expressions)]
pub fn spell(kinds: &mut Vec<TokenKind>, expression: &Expr) -> Result<(), OutOfMemory>
    ensures { OnOk result (kinds.new.items ≡ kinds.old.items ++ spec_spell (view expression.now)) }
{
    match expression {
        Expr::Literal { literal, .. } => put(kinds, literal_token(*literal)),
        Expr::Name { name } => put(kinds, TokenKind::Id(name.name)),
        Expr::This { .. } => put(kinds, TokenKind::This),
        Expr::Paren { inner, .. } => {
            put(kinds, TokenKind::LeftParen)?;
            spell(kinds, inner)?;
            put(kinds, TokenKind::RightParen)
        }
        Expr::Field { target, name, .. } => {
            spell(kinds, target)?;
            put_all(kinds, &[TokenKind::Dot, TokenKind::Id(name.name)])
        }
        Expr::Call {
            target,
            name,
            arguments,
            ..
        } => {
            spell(kinds, target)?;
            put_all(
                kinds,
                &[
                    TokenKind::Dot,
                    TokenKind::Id(name.name),
                    TokenKind::LeftParen,
                ],
            )?;
            spell_list(kinds, TokenKind::RightParen, arguments)
        }
        Expr::OwnCall {
            name,
            arguments,
            ..
        } => {
            put_all(kinds, &[TokenKind::Id(name.name), TokenKind::LeftParen])?;
            spell_list(kinds, TokenKind::RightParen, arguments)
        }
        Expr::SuperCall {
            name,
            arguments,
            ..
        } => {
            put_all(
                kinds,
                &[
                    TokenKind::Super,
                    TokenKind::Dot,
                    TokenKind::Id(name.name),
                    TokenKind::LeftParen,
                ],
            )?;
            spell_list(kinds, TokenKind::RightParen, arguments)
        }
        Expr::Index { array, index, .. } => {
            spell(kinds, array)?;
            put(kinds, TokenKind::LeftBracket)?;
            spell(kinds, index)?;
            put(kinds, TokenKind::RightBracket)
        }
        Expr::New {
            class,
            arguments,
            ..
        } => {
            put_all(
                kinds,
                &[
                    TokenKind::New,
                    TokenKind::Id(class.name),
                    TokenKind::LeftParen,
                ],
            )?;
            spell_list(kinds, TokenKind::RightParen, arguments)
        }
        Expr::NewArray {
            element,
            length,
            ..
        } => {
            put_new(kinds, &element.annotations, element.base)?;
            spell(kinds, length)?;
            put(kinds, TokenKind::RightBracket)
        }
        Expr::ArrayOf {
            element,
            elements,
            ..
        } => {
            put_new(kinds, &element.annotations, element.base)?;
            put_all(kinds, &[TokenKind::RightBracket, TokenKind::LeftBrace])?;
            spell_list(kinds, TokenKind::RightBrace, elements)
        }
        Expr::Postfix { target, step, .. } => {
            spell(kinds, target)?;
            put(kinds, step_token(*step))
        }
        Expr::Prefix { step, target, .. } => {
            put(kinds, step_token(*step))?;
            spell(kinds, target)
        }
        Expr::Unary {
            operator,
            operand,
            ..
        } => {
            put(kinds, sign_token(*operator))?;
            spell(kinds, operand)
        }
        Expr::Cast { class, operand, .. } => {
            put_all(
                kinds,
                &[
                    TokenKind::LeftParen,
                    TokenKind::Id(class.name),
                    TokenKind::RightParen,
                ],
            )?;
            spell(kinds, operand)
        }
        Expr::Binary {
            left,
            operator,
            right,
            ..
        } => {
            spell(kinds, left)?;
            put(kinds, operator_token(*operator))?;
            spell(kinds, right)
        }
        Expr::InstanceOf { operand, class, .. } => {
            spell(kinds, operand)?;
            put_all(kinds, &[TokenKind::Instanceof, TokenKind::Id(class.name)])
        }
        Expr::Conditional {
            condition,
            then,
            otherwise,
            ..
        } => {
            spell(kinds, condition)?;
            put(kinds, TokenKind::Question)?;
            spell(kinds, then)?;
            put(kinds, TokenKind::Colon)?;
            spell(kinds, otherwise)
        }
        Expr::Assign {
            target,
            operator,
            value,
            ..
        } => {
            spell(kinds, target)?;
            put(kinds, assign_token(*operator))?;
            spell(kinds, value)
        }
    }
}

/// Puts the expressions after the tokens, with commas between and the token that ends them.
#[cycle(expressions)]
pub fn spell_list(
    kinds: &mut Vec<TokenKind>,
    end: TokenKind,
    expressions: &[Expr],
) -> Result<(), OutOfMemory>
    ensures { OnOk result
        (kinds.new.items ≡ kinds.old.items ++ spec_list end (views expressions.now)) }
{
    for (place, expression) in expressions.iter().enumerate() {
        separate(kinds, place)?;
        spell(kinds, expression)?;
    }
    put(kinds, end)
}

/// Puts `new`, the annotations, the type and the opening bracket after the tokens.
fn put_new(
    kinds: &mut Vec<TokenKind>,
    annotations: &[Annotation],
    base: Base,
) -> Result<(), OutOfMemory>
    ensures { OnOk result (kinds.new.items
        ≡ kinds.old.items ++ spec_new (annotation_names annotations.now) (base_view base)) }
{
    put(kinds, TokenKind::New)?;
    spell_annotations(kinds, annotations)?;
    put_all(kinds, &[base_token(base), TokenKind::LeftBracket])
}
