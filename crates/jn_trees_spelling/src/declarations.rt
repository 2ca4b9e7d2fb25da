//! The tokens that spell classes and interfaces.
ghost use Rattle.std.specs.Prelude.{◌≡◌, ◌++◌, OnOk};
ghost use Rattle.jn_trees.specs.Spelling.{spell_members as spec_members, spell_more_names as spec_more_names, spell_names as spec_names, spell_parent as spec_parent, spell_class_head as spec_class_head, spell_interface_head as spec_interface_head, spell_type as spec_type};
ghost use Rattle.jn_trees.specs.View.{marks, identifier_names, parent_view, member_views, type_view};

use crate::members::{spell_member, spell_modifiers};
use crate::put::{put, put_all};
use jn_base::{NameNo, OutOfMemory};
use jn_trees::{Identifier, Member, Modifier, TokenKind, TypeTree};

/// Puts the members and the closing brace of their type after the tokens.
fn spell_members(kinds: &mut Vec<TokenKind>, members: &[Member]) -> Result<(), OutOfMemory>
    ensures { OnOk result
        (kinds.new.items ≡ kinds.old.items ++ spec_members (member_views members.now)) }
{
    for member in members {
        spell_member(kinds, member)?;
    }
    put(kinds, TokenKind::RightBrace)
}

/// Puts further names, each after a comma, after the tokens.
fn spell_more_names(kinds: &mut Vec<TokenKind>, names: &[Identifier]) -> Result<(), OutOfMemory>
    ensures { OnOk result
        (kinds.new.items ≡ kinds.old.items ++ spec_more_names (identifier_names names.now)) }
{
    for name in names {
        put_all(kinds, &[TokenKind::Comma, TokenKind::Id(name.name)])?;
    }
    Ok(())
}

/// Puts a word and the names, or nothing where there are none, after the tokens.
fn spell_names(
    kinds: &mut Vec<TokenKind>,
    word: TokenKind,
    names: &[Identifier],
) -> Result<(), OutOfMemory>
    ensures { OnOk result
        (kinds.new.items ≡ kinds.old.items ++ spec_names word (identifier_names names.now)) }
{
    match names.split_first() {
        None => Ok(()),
        Some((first, more)) => {
            put_all(kinds, &[word, TokenKind::Id(first.name)])?;
            spell_more_names(kinds, more)
        }
    }
}

fn spell_parent(kinds: &mut Vec<TokenKind>, parent: Option<Identifier>) -> Result<(), OutOfMemory>
    ensures { OnOk result (kinds.new.items ≡ kinds.old.items ++ spec_parent (parent_view parent)) }
{
    match parent {
        None => Ok(()),
        Some(name) => put_all(kinds, &[TokenKind::Extends, TokenKind::Id(name.name)]),
    }
}

/// Puts a class through its opening brace after the tokens.
fn spell_class_head(
    kinds: &mut Vec<TokenKind>,
    modifiers: &[Modifier],
    name: NameNo,
    parent: Option<Identifier>,
    interfaces: &[Identifier],
) -> Result<(), OutOfMemory>
    ensures { OnOk result (kinds.new.items
        ≡ kinds.old.items
        ++ spec_class_head (marks modifiers.now) name (parent_view parent)
        (identifier_names interfaces.now)) }
{
    spell_modifiers(kinds, modifiers)?;
    put_all(kinds, &[TokenKind::Class, TokenKind::Id(name)])?;
    spell_parent(kinds, parent)?;
    spell_names(kinds, TokenKind::Implements, interfaces)?;
    put(kinds, TokenKind::LeftBrace)
}

/// Puts an interface through its opening brace after the tokens.
fn spell_interface_head(
    kinds: &mut Vec<TokenKind>,
    modifiers: &[Modifier],
    name: NameNo,
    parents: &[Identifier],
) -> Result<(), OutOfMemory>
    ensures { OnOk result (kinds.new.items
        ≡ kinds.old.items
        ++ spec_interface_head (marks modifiers.now) name (identifier_names parents.now)) }
{
    spell_modifiers(kinds, modifiers)?;
    put_all(kinds, &[TokenKind::Interface, TokenKind::Id(name)])?;
    spell_names(kinds, TokenKind::Extends, parents)?;
    put(kinds, TokenKind::LeftBrace)
}

/// Puts the class or interface after the tokens.
pub fn spell_type(kinds: &mut Vec<TokenKind>, declaration: &TypeTree) -> Result<(), OutOfMemory>
    ensures { OnOk result
        (kinds.new.items ≡ kinds.old.items ++ spec_type (type_view declaration.now)) }
{
    match declaration {
        TypeTree::Class {
            modifiers,
            name,
            parent,
            interfaces,
            members,
            ..
        } => {
            spell_class_head(kinds, modifiers, name.name, *parent, interfaces)?;
            spell_members(kinds, members)
        }
        TypeTree::Interface {
            modifiers,
            name,
            parents,
            members,
            ..
        } => {
            spell_interface_head(kinds, modifiers, name.name, parents)?;
            spell_members(kinds, members)
        }
    }
}
