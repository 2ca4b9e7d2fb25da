//! Names that are declared where a local or a parameter of the name is in scope (JLS 6.4).
ghost use Rattle.std.specs.Prelude.{◌≡◌, ◌++◌, flat_map, map, IfOk, OnOk, Some};
ghost use Rattle.jn_places.specs.PlacedView.{placed_declarators, placed_file, placed_init, placed_local, placed_member, placed_members, placed_parameters, placed_statement, placed_statements, placed_type};
ghost use Rattle.jn_phase_notes.specs.Earlier as spec;

use crate::scoped::Scoped;
use jn_base::{Seq, Span};
use jn_trees::{
    Declarator, FileTree, ForInit, Identifier, LocalDeclaration, Member, Parameter, Stmt, TypeTree,
};
use std::alloc::{AllocError, Global};

/// A name that is declared where one of its number is in scope, and that one.
#[derive(Clone, Copy)]
pub struct Second {
    pub span: Span,
    pub first: Identifier,
}

/// Declares a name.
fn declare(name: Identifier, scope: &mut Scoped, found: &mut Seq<Second>) -> Result<(), AllocError>
    ensures scope { OnOk result (scope.new ≡ spec.with_name scope.old name) }
    ensures found { OnOk result (found.new
        ≡ found.old ++ spec.second name (spec.standing scope.old name.name.0)) }
{
    match scope.declare(name)? {
        None => Ok(()),
        Some(first) => {
            let span = name.span;
            found.push(Second { span, first })
        }
    }
}

fn declarators(
    declared: &[Declarator],
    scope: &mut Scoped,
    found: &mut Seq<Second>,
) -> Result<(), AllocError>
    ensures scope { OnOk result (scope.new
        ≡ spec.with_names scope.old
        (map spec.declared_name (placed_declarators declared.now))) }
    ensures found { OnOk result (found.new
        ≡ found.old
        ++ spec.seconds_among scope.old
        (map spec.declared_name (placed_declarators declared.now))) }
{
    for one in declared {
        declare(one.name, scope, found)?;
    }
    Ok(())
}

fn local(
    declaration: &LocalDeclaration,
    scope: &mut Scoped,
    found: &mut Seq<Second>,
) -> Result<(), AllocError>
    ensures scope { OnOk result (scope.new
        ≡ spec.with_names scope.old (spec.local_names (placed_local declaration.now))) }
    ensures found { OnOk result (found.new
        ≡ found.old
        ++ spec.seconds_among scope.old (spec.local_names (placed_local declaration.now))) }
{
    declare(declaration.first.name, scope, found)?;
    declarators(&declaration.more, scope, found)
}

fn init(start: &ForInit, scope: &mut Scoped, found: &mut Seq<Second>) -> Result<(), AllocError>
    ensures scope { OnOk result
        (scope.new ≡ spec.with_names scope.old (spec.init_names (placed_init start.now))) }
    ensures found { OnOk result (found.new
        ≡ found.old
        ++ spec.seconds_among scope.old (spec.init_names (placed_init start.now))) }
{
    match start {
        ForInit::Expressions(_) => Ok(()),
        ForInit::Declaration(declaration) => local(declaration, scope, found),
    }
}

/// Puts the second declarations in a statement. The names that it declares stay in scope where it is a declaration.
#[cycle(repeating)]
fn statement(tree: &Stmt, scope: &mut Scoped, found: &mut Seq<Second>) -> Result<(), AllocError>
    ensures scope { OnOk result (scope.new
        ≡ spec.with_names scope.old (spec.names_behind (placed_statement tree.now))) }
    ensures found { OnOk result
        (found.new ≡ found.old ++ spec.seconds scope.old (placed_statement tree.now)) }
{
    match tree {
        Stmt::Block {
            statements: inner,
            ..
        } => statements(inner, scope, found),
        Stmt::Empty { .. } => Ok(()),
        Stmt::Expression { .. } => Ok(()),
        Stmt::Break { .. } => Ok(()),
        Stmt::Continue { .. } => Ok(()),
        Stmt::Return { .. } => Ok(()),
        Stmt::Local { declaration, .. } => local(declaration, scope, found),
        Stmt::If { then, .. } => inside(then, scope, found),
        Stmt::IfElse {
            then,
            otherwise,
            ..
        } => {
            inside(then, scope, found)?;
            inside(otherwise, scope, found)
        }
        Stmt::While { body, .. } => inside(body, scope, found),
        Stmt::Do { body, .. } => inside(body, scope, found),
        Stmt::For { head, body, .. } => {
            let count = scope.len();
            init(&head.init, scope, found)?;
            inside(body, scope, found)?;
            scope.back_to(count);
            Ok(())
        }
        Stmt::ForEach { variable, body, .. } => {
            let count = scope.len();
            declare(variable.name, scope, found)?;
            inside(body, scope, found)?;
            scope.back_to(count);
            Ok(())
        }
        Stmt::ThisCall { .. } => Ok(()),
        Stmt::SuperCall { .. } => Ok(()),
    }
}

/// The same of a statement that stands in another one, and back to the names before it.
#[cycle(repeating)]
fn inside(tree: &Stmt, scope: &mut Scoped, found: &mut Seq<Second>) -> Result<(), AllocError>
    ensures scope { OnOk result (scope.new ≡ scope.old) }
    ensures found { OnOk result
        (found.new ≡ found.old ++ spec.seconds scope.old (placed_statement tree.now)) }
{
    let count = scope.len();
    statement(tree, scope, found)?;
    scope.back_to(count);
    Ok(())
}

/// The same of statements one after the other.
#[cycle(repeating)]
fn statements(trees: &[Stmt], scope: &mut Scoped, found: &mut Seq<Second>) -> Result<(), AllocError>
    ensures scope { OnOk result (scope.new ≡ scope.old) }
    ensures found { OnOk result
        (found.new ≡ found.old ++ spec.all_seconds scope.old (placed_statements trees.now)) }
{
    let count = scope.len();
    for tree in trees {
        statement(tree, scope, found)?;
    }
    scope.back_to(count);
    Ok(())
}

/// Brings parameters into scope.
fn declare_all(parameters: &[Parameter], scope: &mut Scoped) -> Result<(), AllocError>
    ensures { OnOk result (scope.new
        ≡ spec.with_names scope.old
        (map spec.parameter_name (placed_parameters parameters.now))) }
{
    for parameter in parameters {
        scope.declare(parameter.name)?;
    }
    Ok(())
}

/// Those of a body, with its parameters in scope and no other names.
fn body(
    parameters: &[Parameter],
    written: &[Stmt],
    scope: &mut Scoped,
    found: &mut Seq<Second>,
) -> Result<(), AllocError>
    ensures { OnOk result (found.new
        ≡ found.old
        ++ spec.body_seconds (placed_parameters parameters.now)
        (Some (placed_statements written.now))) }
{
    scope.back_to(0);
    declare_all(parameters, scope)?;
    statements(written, scope, found)
}

fn member(tree: &Member, scope: &mut Scoped, found: &mut Seq<Second>) -> Result<(), AllocError>
    ensures { OnOk result
        (found.new ≡ found.old ++ spec.member_seconds (placed_member tree.now)) }
{
    match tree {
        Member::Field { .. } => Ok(()),
        Member::Method {
            parameters,
            body: given,
            ..
        } => match given {
            None => Ok(()),
            Some(written) => body(parameters, written, scope, found),
        },
        Member::Constructor {
            parameters,
            body: written,
            ..
        } => body(parameters, written, scope, found),
    }
}

fn members(trees: &[Member], scope: &mut Scoped, found: &mut Seq<Second>) -> Result<(), AllocError>
    ensures { OnOk result
        (found.new ≡ found.old ++ flat_map spec.member_seconds (placed_members trees.now)) }
{
    for tree in trees {
        member(tree, scope, found)?;
    }
    Ok(())
}

fn of_type(tree: &TypeTree, scope: &mut Scoped, found: &mut Seq<Second>) -> Result<(), AllocError>
    ensures { OnOk result (found.new ≡ found.old ++ spec.type_seconds (placed_type tree.now)) }
{
    match tree {
        TypeTree::Class { members: inner, .. } => members(inner, scope, found),
        TypeTree::Interface { members: inner, .. } => members(inner, scope, found),
    }
}

fn of_types(
    trees: &[TypeTree],
    scope: &mut Scoped,
    found: &mut Seq<Second>,
) -> Result<(), AllocError>
    ensures { OnOk result
        (found.new ≡ found.old ++ flat_map spec.type_seconds (map placed_type trees.now)) }
{
    for tree in trees {
        of_type(tree, scope, found)?;
    }
    Ok(())
}

fn of_files(
    trees: &[FileTree],
    scope: &mut Scoped,
    found: &mut Seq<Second>,
) -> Result<(), AllocError>
    ensures { OnOk result
        (found.new ≡ found.old ++ spec.files_seconds (map placed_file trees.now)) }
{
    for tree in trees {
        of_types(&tree.types, scope, found)?;
    }
    Ok(())
}

/// All names that files declare where a local or a parameter of the name is in scope.
pub fn seconds_of(alloc: Global, trees: &[FileTree]) -> Result<Seq<Second>, AllocError>
    ensures { IfOk result (λ found. found ≡ spec.files_seconds (map placed_file trees.now)) }
{
    let mut found = Seq::new(alloc);
    of_files(trees, &mut Scoped::new(alloc), &mut found)?;
    Ok(found)
}
