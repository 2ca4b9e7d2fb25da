//! Members where the statements, members and types of files name them.
ghost use Rattle.std.specs.Prelude.{◌≡◌, ◌++◌, flat_map, IfOk, OnOk, map};
ghost use Rattle.jn_places.specs.PlacedView.{placed_body, placed_declarators, placed_file, placed_init, placed_local, placed_member, placed_members, placed_optional, placed_statement, placed_statements, placed_type};
ghost use Rattle.jn_phase_notes.specs.Mentions as spec;

use crate::mentioning::{Kind, Mention, all, expression, put_mention};
use jn_base::{Seq, Span};
use jn_scopes::forms::count;
use jn_trees::{
    Declarator, Expr, FileTree, ForInit, Identifier, LocalDeclaration, Member, Stmt, TypeTree,
};
use std::alloc::{AllocError, Global};

/// A class, by its name and that of the class that it extends.
#[derive(Clone, Copy)]
struct Within {
    own: Identifier,
    parent: Option<Identifier>,
}

fn optional(tree: &Option<Box<Expr>>, found: &mut Seq<Mention>) -> Result<(), AllocError>
    ensures { OnOk result
        (found.new ≡ found.old ++ spec.optional_mentions (placed_optional tree.now)) }
{
    match tree {
        None => Ok(()),
        Some(given) => expression(given, found),
    }
}

fn declarators(declared: &[Declarator], found: &mut Seq<Mention>) -> Result<(), AllocError>
    ensures { OnOk result (found.new
        ≡ found.old ++ flat_map spec.declarator_mentions (placed_declarators declared.now)) }
{
    for one in declared {
        optional(&one.value, found)?;
    }
    Ok(())
}

fn local(declaration: &LocalDeclaration, found: &mut Seq<Mention>) -> Result<(), AllocError>
    ensures { OnOk result
        (found.new ≡ found.old ++ spec.local_mentions (placed_local declaration.now)) }
{
    optional(&declaration.first.value, found)?;
    declarators(&declaration.more, found)
}

fn init(start: &ForInit, found: &mut Seq<Mention>) -> Result<(), AllocError>
    ensures { OnOk result (found.new ≡ found.old ++ spec.init_mentions (placed_init start.now)) }
{
    match start {
        ForInit::Expressions(trees) => all(trees, found),
        ForInit::Declaration(declaration) => local(declaration, found),
    }
}

/// A construction by the constructor of the class that is extended, where one is named.
fn super_mention(
    parent: Option<Identifier>,
    span: Span,
    arguments: usize,
    found: &mut Seq<Mention>,
) -> Result<(), AllocError>
    ensures { OnOk result (found.new ≡ found.old ++ spec.super_mention parent span arguments) }
{
    match parent {
        None => Ok(()),
        Some(class) => put_mention(found, Kind::Builds, class, span, arguments),
    }
}

/// Puts those of a statement.
#[cycle(naming)]
fn statement(tree: &Stmt, within: Within, found: &mut Seq<Mention>) -> Result<(), AllocError>
    ensures { OnOk result (found.new
        ≡ found.old
        ++ spec.statement_mentions within.own within.parent (placed_statement tree.now)) }
{
    match tree {
        Stmt::Block {
            statements: inner,
            ..
        } => statements(inner, within, found),
        Stmt::Empty { .. } => Ok(()),
        Stmt::Expression {
            expression: inner,
            ..
        } => expression(inner, found),
        Stmt::Break { .. } => Ok(()),
        Stmt::Continue { .. } => Ok(()),
        Stmt::Return { value, .. } => optional(value, found),
        Stmt::Local { declaration, .. } => local(declaration, found),
        Stmt::If {
            condition,
            then,
            ..
        } => {
            expression(condition, found)?;
            statement(then, within, found)
        }
        Stmt::IfElse {
            condition,
            then,
            otherwise,
            ..
        } => {
            expression(condition, found)?;
            statement(then, within, found)?;
            statement(otherwise, within, found)
        }
        Stmt::While {
            condition,
            body,
            ..
        } => {
            expression(condition, found)?;
            statement(body, within, found)
        }
        Stmt::Do {
            body,
            condition,
            ..
        } => {
            statement(body, within, found)?;
            expression(condition, found)
        }
        Stmt::For { head, body, .. } => {
            init(&head.init, found)?;
            optional(&head.condition, found)?;
            all(&head.update, found)?;
            statement(body, within, found)
        }
        Stmt::ForEach { array, body, .. } => {
            expression(array, found)?;
            statement(body, within, found)
        }
        Stmt::ThisCall { arguments, span } => {
            let listed: &[Expr] = arguments;
            put_mention(found, Kind::Builds, within.own, *span, count(listed))?;
            all(listed, found)
        }
        Stmt::SuperCall { arguments, span } => {
            let listed: &[Expr] = arguments;
            super_mention(within.parent, *span, count(listed), found)?;
            all(listed, found)
        }
    }
}

/// Puts those of statements one after the other.
#[cycle(naming)]
fn statements(trees: &[Stmt], within: Within, found: &mut Seq<Mention>) -> Result<(), AllocError>
    ensures { OnOk result (found.new
        ≡ found.old
        ++ spec.statements_mentions within.own within.parent (placed_statements trees.now)) }
{
    for tree in trees {
        statement(tree, within, found)?;
    }
    Ok(())
}

fn body(
    given: &Option<Vec<Stmt>>,
    within: Within,
    found: &mut Seq<Mention>,
) -> Result<(), AllocError>
    ensures { OnOk result (found.new
        ≡ found.old ++ spec.body_mentions within.own within.parent (placed_body given.now)) }
{
    match given {
        None => Ok(()),
        Some(written) => statements(written, within, found),
    }
}

fn member(tree: &Member, within: Within, found: &mut Seq<Mention>) -> Result<(), AllocError>
    ensures { OnOk result (found.new
        ≡ found.old ++ spec.member_mentions within.own within.parent (placed_member tree.now)) }
{
    match tree {
        Member::Field { first, more, .. } => {
            optional(&first.value, found)?;
            declarators(more, found)
        }
        Member::Method { body: given, .. } => body(given, within, found),
        Member::Constructor {
            name,
            body: written,
            ..
        } => {
            super_mention(within.parent, name.span, 0, found)?;
            statements(written, within, found)
        }
    }
}

fn members(trees: &[Member], within: Within, found: &mut Seq<Mention>) -> Result<(), AllocError>
    ensures { OnOk result (found.new
        ≡ found.old
        ++ flat_map (spec.member_mentions within.own within.parent) (placed_members trees.now)) }
{
    for tree in trees {
        member(tree, within, found)?;
    }
    Ok(())
}

fn of_type(tree: &TypeTree, found: &mut Seq<Mention>) -> Result<(), AllocError>
    ensures { OnOk result (found.new ≡ found.old ++ spec.type_mentions (placed_type tree.now)) }
{
    match tree {
        TypeTree::Class {
            name,
            parent,
            members: inner,
            ..
        } => {
            let (own, parent) = (*name, *parent);
            super_mention(parent, name.span, 0, found)?;
            members(inner, Within { own, parent }, found)
        }
        TypeTree::Interface {
            name,
            members: inner,
            ..
        } => {
            let (own, parent) = (*name, None);
            members(inner, Within { own, parent }, found)
        }
    }
}

fn of_types(trees: &[TypeTree], found: &mut Seq<Mention>) -> Result<(), AllocError>
    ensures { OnOk result (found.new
        ≡ found.old ++ flat_map spec.type_mentions (map placed_type trees.now)) }
{
    for tree in trees {
        of_type(tree, found)?;
    }
    Ok(())
}

/// All members where files name them.
pub(crate) fn mentions_of(alloc: Global, trees: &[FileTree]) -> Result<Seq<Mention>, AllocError>
    ensures { IfOk result (λ found. found ≡ spec.files_mentions (map placed_file trees.now)) }
{
    let mut found = Seq::new(alloc);
    for tree in trees {
        of_types(&tree.types, &mut found)?;
    }
    Ok(found)
}
