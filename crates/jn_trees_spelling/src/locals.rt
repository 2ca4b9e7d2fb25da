//! The tokens that spell uses of types and declarations of locals.
ghost use Rattle.std.specs.Prelude.{◌≡◌, ◌++◌, OnOk};
ghost use Rattle.jn_trees.specs.Spelling.{spell_brackets as spec_brackets, spell_type_use as spec_type_use, spell_declarator as spec_declarator, spell_more_declarators as spec_more_declarators, spell_local as spec_local, spell_marks as spec_marks, spell_value as spec_value};
ghost use Rattle.jn_trees.specs.View.{brackets_view, type_use_view, declarator_view, declarator_views, local_view, local_mark, local_marks, optional_view};
ghost use Rattle.jn_trees_spelling.specs.Parts.{spell_local_mark as spec_local_mark};

use crate::expressions::{spell, spell_annotations};
use crate::put::{put, put_all};
use crate::words::base_token;
use jn_base::OutOfMemory;
use jn_trees::{Annotation, Declarator, Expr, LocalDeclaration, LocalModifier, TokenKind, TypeUse};

fn spell_local_mark(kinds: &mut Vec<TokenKind>, modifier: LocalModifier) -> Result<(), OutOfMemory>
    ensures { OnOk result
        (kinds.new.items ≡ kinds.old.items ++ spec_local_mark (local_mark modifier)) }
{
    match modifier {
        LocalModifier::Annotation(annotation) => put_all(
            kinds,
            &[TokenKind::At, TokenKind::Id(annotation.name)],
        ),
        LocalModifier::Final(_) => put(kinds, TokenKind::Final),
    }
}

/// Puts the modifiers of a local or parameter after the tokens.
pub fn spell_local_marks(
    kinds: &mut Vec<TokenKind>,
    modifiers: &[LocalModifier],
) -> Result<(), OutOfMemory>
    ensures { OnOk result
        (kinds.new.items ≡ kinds.old.items ++ spec_marks (local_marks modifiers.now)) }
{
    for modifier in modifiers {
        spell_local_mark(kinds, *modifier)?;
    }
    Ok(())
}

fn spell_brackets(
    kinds: &mut Vec<TokenKind>,
    array: &Option<Vec<Annotation>>,
) -> Result<(), OutOfMemory>
    ensures { OnOk result
        (kinds.new.items ≡ kinds.old.items ++ spec_brackets (brackets_view array.now)) }
{
    match array {
        None => Ok(()),
        Some(annotations) => {
            spell_annotations(kinds, annotations)?;
            put_all(kinds, &[TokenKind::LeftBracket, TokenKind::RightBracket])
        }
    }
}

/// Puts the use of a type after the tokens.
pub fn spell_type_use(kinds: &mut Vec<TokenKind>, type_use: &TypeUse) -> Result<(), OutOfMemory>
    ensures { OnOk result
        (kinds.new.items ≡ kinds.old.items ++ spec_type_use (type_use_view type_use.now)) }
{
    put(kinds, base_token(type_use.base))?;
    spell_brackets(kinds, &type_use.array)
}

fn spell_value(kinds: &mut Vec<TokenKind>, value: &Option<Box<Expr>>) -> Result<(), OutOfMemory>
    ensures { OnOk result
        (kinds.new.items ≡ kinds.old.items ++ spec_value (optional_view value.now)) }
{
    match value {
        None => Ok(()),
        Some(value) => {
            put(kinds, TokenKind::Assign)?;
            spell(kinds, value)
        }
    }
}

/// Puts a declared name, with its initializer if it has one, after the tokens.
pub fn spell_declarator(
    kinds: &mut Vec<TokenKind>,
    declarator: &Declarator,
) -> Result<(), OutOfMemory>
    ensures { OnOk result
        (kinds.new.items ≡ kinds.old.items ++ spec_declarator (declarator_view declarator.now)) }
{
    put(kinds, TokenKind::Id(declarator.name.name))?;
    spell_value(kinds, &declarator.value)
}

/// Puts further declared names, each after a comma, after the tokens.
pub fn spell_more_declarators(
    kinds: &mut Vec<TokenKind>,
    declarators: &[Declarator],
) -> Result<(), OutOfMemory>
    ensures { OnOk result (kinds.new.items
        ≡ kinds.old.items ++ spec_more_declarators (declarator_views declarators.now)) }
{
    for declarator in declarators {
        put(kinds, TokenKind::Comma)?;
        spell_declarator(kinds, declarator)?;
    }
    Ok(())
}

/// Puts a declaration of locals, without the semicolon, after the tokens.
pub fn spell_local(
    kinds: &mut Vec<TokenKind>,
    declaration: &LocalDeclaration,
) -> Result<(), OutOfMemory>
    ensures { OnOk result
        (kinds.new.items ≡ kinds.old.items ++ spec_local (local_view declaration.now)) }
{
    spell_local_marks(kinds, &declaration.modifiers)?;
    spell_type_use(kinds, &declaration.type_use)?;
    spell_declarator(kinds, &declaration.first)?;
    spell_more_declarators(kinds, &declaration.more)
}
