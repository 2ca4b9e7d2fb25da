//! Steps along a file's tokens: what stands after the tokens of the parts of its tree.
ghost use Rattle.std.specs.Prelude.{◌≡◌, ◌∷◌, map, IfOk};
ghost use Rattle.jn_trees.specs.Spelling.{spell_all_marks, spell_annotations, spell_brackets, spell_dots, spell_dotted, spell_import, spell_imports, spell_mark, spell_marks, spell_member, spell_names, spell_package_line, spell_parent, spell_result, spell_star, spell_type, spell_type_use};
ghost use Rattle.jn_trees.specs.View.{annotation_names, brackets_view, dotted_view, identifier_names, import_view, local_mark, local_marks, mark, marks, member_view, package_view, parameter_view, parent_view, receiver_view, result_view, type_use_view, type_view};
ghost use Rattle.jn_places.specs.Places.{behind, spell_local_mark, spell_parameter_through, spell_receiver};
ghost use Rattle.jn_trees.specs.declared.token.TokenKind.TheVariants.{Extends, Implements, Package as PackageWord};

use crate::parts::items_behind;
use jn_base::OutOfMemory;
pub use jn_places::{front, step};
use jn_trees::{
    Annotation, Identifier, Import, LocalModifier, Member, Modifier, PackageLine, Parameter,
    Receiver, ResultUse, Token, TypeTree, TypeUse,
};
use jn_trees_spelling::declarations::spell_type as put_type;
use jn_trees_spelling::members::spell_member as put_member;
use std::alloc::Global;

fn behind_mark(tokens: &[Token], modifier: Modifier) -> &[Token]
    ensures { result.now ≡ behind tokens.now (spell_mark (mark modifier)) }
{
    match modifier {
        Modifier::Annotation(_) => step(step(tokens)),
        Modifier::Public(_) => step(tokens),
        Modifier::Protected(_) => step(tokens),
        Modifier::Private(_) => step(tokens),
        Modifier::Static(_) => step(tokens),
        Modifier::Final(_) => step(tokens),
        Modifier::Abstract(_) => step(tokens),
    }
}

/// What stands after modifiers.
#[tactic(auto, using(crate::proofs::Cursors::behind_append))]
pub fn behind_marks<'t>(tokens: &'t [Token], modifiers: &[Modifier]) -> &'t [Token]
    ensures { result.now ≡ behind tokens.now (spell_all_marks (marks modifiers.now)) }
{
    let mut rest = tokens;
    for modifier in modifiers {
        rest = behind_mark(rest, *modifier);
    }
    rest
}

/// What stands after annotations.
pub fn behind_annotations<'t>(tokens: &'t [Token], annotations: &[Annotation]) -> &'t [Token]
    ensures { result.now ≡ behind tokens.now (spell_annotations (annotation_names annotations.now)) }
{
    let mut rest = tokens;
    let mut left = annotations;
    while let [_, more @ ..] = left {
        rest = step(step(rest));
        left = more;
    }
    rest
}

fn behind_local_mark(tokens: &[Token], modifier: LocalModifier) -> &[Token]
    ensures { result.now ≡ behind tokens.now (spell_local_mark (local_mark modifier)) }
{
    match modifier {
        LocalModifier::Annotation(_) => step(step(tokens)),
        LocalModifier::Final(_) => step(tokens),
    }
}

/// What stands after the modifiers of a parameter.
pub fn behind_local_marks<'t>(tokens: &'t [Token], modifiers: &[LocalModifier]) -> &'t [Token]
    ensures { result.now ≡ behind tokens.now (spell_marks (local_marks modifiers.now)) }
{
    let mut rest = tokens;
    for modifier in modifiers {
        rest = behind_local_mark(rest, *modifier);
    }
    rest
}

#[tactic(auto, using(crate::proofs::Cursors::behind_append))]
fn behind_brackets<'t>(tokens: &'t [Token], array: &Option<Vec<Annotation>>) -> &'t [Token]
    ensures { result.now ≡ behind tokens.now (spell_brackets (brackets_view array.now)) }
{
    match array {
        None => tokens,
        Some(annotations) => step(step(behind_annotations(tokens, annotations))),
    }
}

/// What stands after a use of a type.
pub fn behind_type_use<'t>(tokens: &'t [Token], type_use: &TypeUse) -> &'t [Token]
    ensures { result.now ≡ behind tokens.now (spell_type_use (type_use_view type_use.now)) }
{
    behind_brackets(step(tokens), &type_use.array)
}

/// What stands after what a method gives.
pub fn behind_result<'t>(tokens: &'t [Token], result_use: &ResultUse) -> &'t [Token]
    ensures { result.now ≡ behind tokens.now (spell_result (result_view result_use.now)) }
{
    match result_use {
        ResultUse::Void(_) => step(tokens),
        ResultUse::Value(type_use) => behind_type_use(tokens, type_use),
    }
}

/// What stands after a parameter and the comma or parenthesis that follows it.
pub fn behind_parameter<'t>(tokens: &'t [Token], parameter: &Parameter) -> &'t [Token]
    ensures { result.now ≡ behind tokens.now (spell_parameter_through (parameter_view parameter.now)) }
{
    let rest = behind_local_marks(tokens, &parameter.modifiers);
    step(step(behind_type_use(rest, &parameter.type_use)))
}

/// What stands after a receiver that is named and the comma or parenthesis that follows it.
#[tactic(auto, using(crate::proofs::Cursors::behind_append))]
pub fn behind_receiver<'t>(tokens: &'t [Token], receiver: &Option<Receiver>) -> &'t [Token]
    ensures { result.now ≡ behind tokens.now (spell_receiver (receiver_view receiver.now)) }
{
    match receiver {
        None => tokens,
        Some(receiver) => step(step(step(behind_annotations(tokens, &receiver.annotations)))),
    }
}

/// What stands after names, each with a word, a comma or a dot before it.
fn behind_dots<'t>(tokens: &'t [Token], names: &[Identifier]) -> &'t [Token]
    ensures { result.now ≡ behind tokens.now (spell_dots (identifier_names names.now)) }
{
    let mut rest = tokens;
    let mut left = names;
    while let [_, more @ ..] = left {
        rest = step(step(rest));
        left = more;
    }
    rest
}

/// What stands after the interfaces of a class.
#[tactic(auto, using(crate::proofs::Cursors::dots_names))]
pub fn behind_interfaces<'t>(tokens: &'t [Token], names: &[Identifier]) -> &'t [Token]
    ensures { result.now ≡ behind tokens.now (spell_names Implements (identifier_names names.now)) }
{
    behind_dots(tokens, names)
}

/// What stands after the interfaces that an interface extends.
#[tactic(auto, using(crate::proofs::Cursors::dots_names))]
pub fn behind_parents<'t>(tokens: &'t [Token], names: &[Identifier]) -> &'t [Token]
    ensures { result.now ≡ behind tokens.now (spell_names Extends (identifier_names names.now)) }
{
    behind_dots(tokens, names)
}

/// What stands after the class that a class extends.
pub fn behind_parent<'t>(tokens: &'t [Token], parent: &Option<Identifier>) -> &'t [Token]
    ensures { result.now ≡ behind tokens.now (spell_parent (parent_view parent.now)) }
{
    match parent {
        None => tokens,
        Some(_) => step(step(tokens)),
    }
}

/// The semicolon of the package line, and what stands after it.
pub fn semicolon<'t>(tokens: &'t [Token], line: &PackageLine) -> &'t [Token]
    ensures { result.now ≡ behind tokens.now (PackageWord ∷ spell_dotted (dotted_view line.now.name)) }
{
    behind_dots(step(step(tokens)), &line.name.more)
}

/// What stands after the package line.
#[tactic(auto, using(crate::proofs::Cursors::behind_append))]
pub fn behind_package<'t>(tokens: &'t [Token], line: &Option<PackageLine>) -> &'t [Token]
    ensures { result.now ≡ behind tokens.now (spell_package_line (package_view line.now)) }
{
    match line {
        None => tokens,
        Some(line) => step(semicolon(tokens, line)),
    }
}

fn behind_star(tokens: &[Token], all: bool) -> &[Token]
    ensures { result.now ≡ behind tokens.now (spell_star all) }
{
    if all { step(step(tokens)) } else { tokens }
}

#[tactic(auto, using(crate::proofs::Cursors::behind_append))]
fn behind_import<'t>(tokens: &'t [Token], import: &Import) -> &'t [Token]
    ensures { result.now ≡ behind tokens.now (spell_import (import_view import.now)) }
{
    let rest = behind_dots(step(step(tokens)), &import.name.more);
    step(behind_star(rest, import.all))
}

/// What stands after the imports.
#[tactic(auto, using(crate::proofs::Cursors::behind_append))]
pub fn behind_imports<'t>(tokens: &'t [Token], imports: &[Import]) -> &'t [Token]
    ensures { result.now ≡ behind tokens.now (spell_imports (map import_view imports.now)) }
{
    let mut rest = tokens;
    for import in imports {
        rest = behind_import(rest, import);
    }
    rest
}

/// What stands after a member.
#[tactic(auto, using(crate::proofs::Cursors::behind_is))]
pub fn behind_member<'t>(
    alloc: Global,
    tokens: &'t [Token],
    member: &Member,
) -> Result<&'t [Token], OutOfMemory>
    ensures { IfOk result (λ rest. rest.now ≡ behind tokens.now (spell_member (member_view member.now))) }
{
    let mut kinds = Vec::new(alloc);
    put_member(&mut kinds, member)?;
    Ok(items_behind(tokens, kinds.len()))
}

/// What stands after a type.
#[tactic(auto, using(crate::proofs::Cursors::behind_is))]
pub fn behind_type<'t>(
    alloc: Global,
    tokens: &'t [Token],
    declared: &TypeTree,
) -> Result<&'t [Token], OutOfMemory>
    ensures { IfOk result (λ rest. rest.now ≡ behind tokens.now (spell_type (type_view declared.now))) }
{
    let mut kinds = Vec::new(alloc);
    put_type(&mut kinds, declared)?;
    Ok(items_behind(tokens, kinds.len()))
}
