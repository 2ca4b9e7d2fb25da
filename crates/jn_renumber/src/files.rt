//! Types and files.
ghost use Rattle.std.specs.Prelude.{◌≡◌, map};
ghost use Rattle.jn_trees.specs.View.{file_view};
ghost use Rattle.jn_places.specs.PlacedView.{placed_dotted, placed_file, placed_import, placed_package, placed_type};
ghost use Rattle.jn_renumber.specs.ByNumbers.{file_by};
ghost use Rattle.jn_renumber.specs.Renumbered.{renumbered_dotted, renumbered_file, renumbered_import, renumbered_package, renumbered_parent, renumbered_type};

use crate::members::{renumber_marks, renumber_members};
use crate::names::{renumber_name, renumber_names};
use jn_base::NameNo;
use jn_trees::{FileTree, Identifier, Import, PackageLine, QualifiedName, TypeTree};

/// Renumbers a superclass, where there is one.
fn renumber_parent(numbers: &[NameNo], parent: &mut Option<Identifier>)
    ensures { parent.new ≡ renumbered_parent numbers.now parent.old }
{
    match parent {
        None => (),
        Some(name) => renumber_name(numbers, name),
    }
}

/// Renumbers the names of a class or an interface.
fn renumber_type(numbers: &[NameNo], declaration: &mut TypeTree)
    ensures { placed_type declaration.new
        ≡ renumbered_type numbers.now (placed_type declaration.old) }
{
    match declaration {
        TypeTree::Class {
            modifiers,
            name,
            parent,
            interfaces,
            members,
            span: _span,
        } => {
            renumber_marks(numbers, modifiers);
            renumber_name(numbers, name);
            renumber_parent(numbers, parent);
            renumber_names(numbers, interfaces);
            renumber_members(numbers, members);
        }
        TypeTree::Interface {
            modifiers,
            name,
            parents,
            members,
            span: _span,
        } => {
            renumber_marks(numbers, modifiers);
            renumber_name(numbers, name);
            renumber_names(numbers, parents);
            renumber_members(numbers, members);
        }
    }
}

/// Renumbers a name with dots.
fn renumber_dotted(numbers: &[NameNo], name: &mut QualifiedName)
    ensures { placed_dotted name.new ≡ renumbered_dotted numbers.now (placed_dotted name.old) }
{
    renumber_name(numbers, &mut name.first);
    renumber_names(numbers, &mut name.more);
}

/// Renumbers the names of a package line, where there is one.
fn renumber_package(numbers: &[NameNo], line: &mut Option<PackageLine>)
    ensures { placed_package line.new ≡ renumbered_package numbers.now (placed_package line.old) }
{
    match line {
        None => (),
        Some(line) => renumber_dotted(numbers, &mut line.name),
    }
}

/// Renumbers the names of an import.
fn renumber_import(numbers: &[NameNo], import: &mut Import)
    ensures { placed_import import.new ≡ renumbered_import numbers.now (placed_import import.old) }
{
    renumber_dotted(numbers, &mut import.name);
}

/// Renumbers the names of imports.
fn renumber_imports(numbers: &[NameNo], imports: &mut Vec<Import>)
    ensures { map placed_import imports.new.items
        ≡ map (renumbered_import numbers.now) (map placed_import imports.old.items) }
{
    for at in 0..imports.len() {
        renumber_import(numbers, &mut imports[at]);
    }
}

/// Renumbers the names of classes and interfaces.
fn renumber_types(numbers: &[NameNo], types: &mut Vec<TypeTree>)
    ensures { map placed_type types.new.items
        ≡ map (renumbered_type numbers.now) (map placed_type types.old.items) }
{
    for at in 0..types.len() {
        renumber_type(numbers, &mut types[at]);
    }
}

/// Gives each name of a file's tree, and each text of a string, the number that stands at its own in the list.
///
/// A number that the list has no entry for stays as it is, and so do the places of all nodes. Takes no memory, and time in
/// proportion to the tree.
pub fn renumber_file(numbers: &[NameNo], tree: &mut FileTree)
    ensures placed { placed_file tree.new ≡ renumbered_file numbers.now (placed_file tree.old) }
    ensures view { file_view tree.new ≡ file_by numbers.now (file_view tree.old) }
{
    renumber_package(numbers, &mut tree.package);
    renumber_imports(numbers, &mut tree.imports);
    renumber_types(numbers, &mut tree.types);
}
