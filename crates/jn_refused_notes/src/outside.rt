//! Members, types, imports and package lines that may not be of the subset.
ghost use Rattle.std.specs.Prelude.{◌≡◌, ◌++◌, flat_map, IfOk, OnOk, map, true};
ghost use Rattle.jn_lowering.specs.Annotations as annotated;
ghost use Rattle.jn_lowering.specs.FileRows as rows;
ghost use Rattle.jn_lower_rows.specs.Views.{first_package};
ghost use Rattle.jn_places.specs.PlacedView.{placed_declarator, placed_declarators, placed_file, placed_import, placed_member, placed_members, placed_package, placed_parameter, placed_parameters, placed_receiver, placed_result, placed_type, placed_type_use};
ghost use Rattle.jn_refused_notes.specs.Marked as marked;
ghost use Rattle.jn_refused_notes.specs.Refused as spec;

use crate::bodies::{body, declarator, declarators, declared_type, statements};
use crate::causes::{Cause, Refusal, refuse};
use crate::forms::declared_name;
use crate::marks::{annotations, type_use};
use jn_base::Seq;
use jn_lower_rows::annotations::{BOTH_KINDS, INITIALIZATION_ALONE, OF_FIELD};
use jn_lower_rows::files::{first_mark, has_static};
use jn_lower_rows::notes::{notes, notes_but_override};
use jn_trees::{
    FileTree, Import, Member, Modifier, PackageLine, Parameter, QualifiedName, Receiver, ResultUse,
    TypeTree, TypeUse,
};
use std::alloc::{AllocError, Global};

fn parameter(
    alloc: Global,
    declared: &Parameter,
    found: &mut Seq<Refusal>,
) -> Result<(), AllocError>
    ensures { OnOk result
        (found.new ≡ found.old ++ spec.parameter_refusals (placed_parameter declared.now)) }
{
    declared_type(alloc, &declared.modifiers, &declared.type_use, found)?;
    declared_name(declared.name, found)
}

fn parameters(
    alloc: Global,
    declared: &[Parameter],
    found: &mut Seq<Refusal>,
) -> Result<(), AllocError>
    ensures { OnOk result (found.new
        ≡ found.old ++ flat_map spec.parameter_refusals (placed_parameters declared.now)) }
{
    for one in declared {
        parameter(alloc, one, found)?;
    }
    Ok(())
}

/// Puts the annotations of a method's result.
fn result_type(
    alloc: Global,
    written: &ResultUse,
    modifiers: &[Modifier],
    found: &mut Seq<Refusal>,
) -> Result<(), AllocError>
    ensures { OnOk result (found.new
        ≡ found.old ++ spec.result_refusals (placed_result written.now) modifiers.now) }
{
    let notes = notes_but_override(alloc, modifiers)?;
    match written {
        ResultUse::Void(_) => annotations(BOTH_KINDS, true, &notes, found),
        ResultUse::Value(given) => type_use(given, BOTH_KINDS, &notes, found),
    }
}

fn receiver(given: &Option<Receiver>, found: &mut Seq<Refusal>) -> Result<(), AllocError>
    ensures { OnOk result
        (found.new ≡ found.old ++ spec.receiver_refusals (placed_receiver given.now)) }
{
    match given {
        None => Ok(()),
        Some(written) => annotations(INITIALIZATION_ALONE, true, &written.annotations, found),
    }
}

/// Puts the annotations of a class, an interface or a constructor.
fn marks(alloc: Global, modifiers: &[Modifier], found: &mut Seq<Refusal>) -> Result<(), AllocError>
    ensures { OnOk result (found.new
        ≡ found.old
        ++ marked.annotation_refusals annotated.both_kinds true (rows.notes_of modifiers.now)) }
{
    let notes = notes(alloc, modifiers)?;
    annotations(BOTH_KINDS, true, &notes, found)
}

fn field_type(
    alloc: Global,
    written: &TypeUse,
    modifiers: &[Modifier],
    found: &mut Seq<Refusal>,
) -> Result<(), AllocError>
    ensures { OnOk result (found.new
        ≡ found.old
        ++ marked.use_refusals (placed_type_use written.now) annotated.of_field
        (rows.notes_of modifiers.now)) }
{
    let notes = notes(alloc, modifiers)?;
    type_use(written, OF_FIELD, &notes, found)
}

/// Puts a field of an interface, or a static one of a class.
fn field(
    interface: bool,
    modifiers: &[Modifier],
    written: &TypeUse,
    found: &mut Seq<Refusal>,
) -> Result<(), AllocError>
    ensures { OnOk result (found.new
        ≡ found.old
        ++ spec.field_refusals interface modifiers.now (placed_type_use written.now)) }
{
    let at = first_mark(modifiers, written);
    if interface {
        refuse(found, Cause::InterfaceField, at)
    } else if has_static(modifiers) {
        refuse(found, Cause::StaticField, at)
    } else {
        Ok(())
    }
}

fn member(
    alloc: Global,
    interface: bool,
    tree: &Member,
    found: &mut Seq<Refusal>,
) -> Result<(), AllocError>
    ensures { OnOk result
        (found.new ≡ found.old ++ spec.member_refusals interface (placed_member tree.now)) }
{
    match tree {
        Member::Field {
            modifiers,
            type_use: written,
            first,
            more,
            ..
        } => {
            field_type(alloc, written, modifiers, found)?;
            field(interface, modifiers, written, found)?;
            declarator(first, found)?;
            declarators(more, found)
        }
        Member::Method {
            modifiers,
            result: written,
            name,
            receiver: given,
            parameters: declared,
            body: statements,
            ..
        } => {
            declared_name(*name, found)?;
            result_type(alloc, written, modifiers, found)?;
            receiver(given, found)?;
            parameters(alloc, declared, found)?;
            body(alloc, statements, found)
        }
        Member::Constructor {
            modifiers,
            parameters: declared,
            body: written,
            ..
        } => {
            marks(alloc, modifiers, found)?;
            parameters(alloc, declared, found)?;
            statements(written, alloc, found)
        }
    }
}

fn members(
    alloc: Global,
    interface: bool,
    trees: &[Member],
    found: &mut Seq<Refusal>,
) -> Result<(), AllocError>
    ensures { OnOk result (found.new
        ≡ found.old ++ flat_map (spec.member_refusals interface) (placed_members trees.now)) }
{
    for tree in trees {
        member(alloc, interface, tree, found)?;
    }
    Ok(())
}

fn of_type(alloc: Global, tree: &TypeTree, found: &mut Seq<Refusal>) -> Result<(), AllocError>
    ensures { OnOk result (found.new ≡ found.old ++ spec.type_refusals (placed_type tree.now)) }
{
    match tree {
        TypeTree::Class {
            modifiers,
            name,
            members: inner,
            ..
        } => {
            marks(alloc, modifiers, found)?;
            declared_name(*name, found)?;
            members(alloc, false, inner, found)
        }
        TypeTree::Interface {
            modifiers,
            name,
            members: inner,
            ..
        } => {
            marks(alloc, modifiers, found)?;
            declared_name(*name, found)?;
            members(alloc, true, inner, found)
        }
    }
}

fn of_types(alloc: Global, trees: &[TypeTree], found: &mut Seq<Refusal>) -> Result<(), AllocError>
    ensures { OnOk result (found.new
        ≡ found.old ++ flat_map spec.type_refusals (map placed_type trees.now)) }
{
    for tree in trees {
        of_type(alloc, tree, found)?;
    }
    Ok(())
}

fn imports(trees: &[Import], found: &mut Seq<Refusal>) -> Result<(), AllocError>
    ensures { OnOk result (found.new
        ≡ found.old ++ map spec.import_refusal (map placed_import trees.now)) }
{
    for tree in trees {
        refuse(found, Cause::OtherImport, tree.span)?;
    }
    Ok(())
}

/// Puts a package line after the first one.
fn package(
    first: Option<&QualifiedName>,
    line: &Option<PackageLine>,
    found: &mut Seq<Refusal>,
) -> Result<(), AllocError>
    ensures { OnOk result (found.new
        ≡ found.old
        ++ spec.package_refusals (first_package first.entry) (placed_package line.now)) }
{
    match line {
        None => Ok(()),
        Some(written) => match first {
            None => Ok(()),
            Some(name) => {
                let cause = Cause::OtherPackage;
                let (span, told) = (written.span, name.first.span);
                found.push(Refusal { cause, span, told })
            }
        },
    }
}

/// The package that is written first.
fn package_behind<'a>(
    first: Option<&'a QualifiedName>,
    line: &'a Option<PackageLine>,
) -> Option<&'a QualifiedName>
    ensures { first_package result
        ≡ rows.package_behind (first_package first.entry) (placed_package line.now) }
{
    match first {
        Some(name) => Some(name),
        None => match line {
            None => None,
            Some(written) => Some(&written.name),
        },
    }
}

fn of_file(alloc: Global, tree: &FileTree, found: &mut Seq<Refusal>) -> Result<(), AllocError>
    ensures { OnOk result (found.new
        ≡ found.old
        ++ (map spec.import_refusal (placed_file tree.now).imports
        ++ flat_map spec.type_refusals (placed_file tree.now).types)) }
{
    imports(&tree.imports, found)?;
    of_types(alloc, &tree.types, found)
}

/// All that may not be of the subset in files, each with the cause that it has where it stands.
///
/// # Errors
/// No memory was found.
pub fn refusals_of(alloc: Global, trees: &[FileTree]) -> Result<Seq<Refusal>, AllocError>
    ensures { IfOk result (λ found. found ≡ spec.files_refusals (map placed_file trees.now)) }
{
    let mut found = Seq::new(alloc);
    let mut first = None;
    for tree in trees {
        package(first, &tree.package, &mut found)?;
        of_file(alloc, tree, &mut found)?;
        first = package_behind(first, &tree.package);
    }
    Ok(found)
}
