//! The tokens that spell files.
ghost use Rattle.std.specs.Prelude.{◌≡◌, ◌++◌, OnOk, IfOk, map};
ghost use Rattle.jn_trees.specs.Spelling.{spell_dots as spec_dots, spell_dotted as spec_dotted, spell_star as spec_star, spell_package_line as spec_package_line, spell_import as spec_import, spell_imports as spec_imports, spell_types as spec_types, spell_file as spec_file};
ghost use Rattle.jn_trees.specs.View.{identifier_names, dotted_view, package_view, import_view, type_view, file_view};

use crate::declarations::spell_type;
use crate::put::{put, put_all};
use jn_base::OutOfMemory;
use jn_trees::{FileTree, Identifier, Import, PackageLine, QualifiedName, TokenKind, TypeTree};
use std::alloc::Global;

/// Puts further names, each after a dot, after the tokens.
fn spell_dots(kinds: &mut Vec<TokenKind>, names: &[Identifier]) -> Result<(), OutOfMemory>
    ensures { OnOk result
        (kinds.new.items ≡ kinds.old.items ++ spec_dots (identifier_names names.now)) }
{
    for name in names {
        put_all(kinds, &[TokenKind::Dot, TokenKind::Id(name.name)])?;
    }
    Ok(())
}

fn spell_dotted(kinds: &mut Vec<TokenKind>, name: &QualifiedName) -> Result<(), OutOfMemory>
    ensures { OnOk result
        (kinds.new.items ≡ kinds.old.items ++ spec_dotted (dotted_view name.now)) }
{
    put(kinds, TokenKind::Id(name.first.name))?;
    spell_dots(kinds, &name.more)
}

fn spell_package_line(
    kinds: &mut Vec<TokenKind>,
    package_line: &Option<PackageLine>,
) -> Result<(), OutOfMemory>
    ensures { OnOk result
        (kinds.new.items ≡ kinds.old.items ++ spec_package_line (package_view package_line.now)) }
{
    match package_line {
        None => Ok(()),
        Some(line) => {
            put(kinds, TokenKind::Package)?;
            spell_dotted(kinds, &line.name)?;
            put(kinds, TokenKind::Semicolon)
        }
    }
}

fn spell_star(kinds: &mut Vec<TokenKind>, all: bool) -> Result<(), OutOfMemory>
    ensures { OnOk result (kinds.new.items ≡ kinds.old.items ++ spec_star all) }
{
    if all {
        put_all(kinds, &[TokenKind::Dot, TokenKind::Star])
    } else {
        Ok(())
    }
}

fn spell_import(kinds: &mut Vec<TokenKind>, import: &Import) -> Result<(), OutOfMemory>
    ensures { OnOk result
        (kinds.new.items ≡ kinds.old.items ++ spec_import (import_view import.now)) }
{
    put(kinds, TokenKind::Import)?;
    spell_dotted(kinds, &import.name)?;
    spell_star(kinds, import.all)?;
    put(kinds, TokenKind::Semicolon)
}

fn spell_imports(kinds: &mut Vec<TokenKind>, imports: &[Import]) -> Result<(), OutOfMemory>
    ensures { OnOk result
        (kinds.new.items ≡ kinds.old.items ++ spec_imports (map import_view imports.now)) }
{
    for import in imports {
        spell_import(kinds, import)?;
    }
    Ok(())
}

fn spell_types(kinds: &mut Vec<TokenKind>, types: &[TypeTree]) -> Result<(), OutOfMemory>
    ensures { OnOk result
        (kinds.new.items ≡ kinds.old.items ++ spec_types (map type_view types.now)) }
{
    for declaration in types {
        spell_type(kinds, declaration)?;
    }
    Ok(())
}

/// The tokens that spell a file.
pub fn spell_file(alloc: Global, tree: &FileTree) -> Result<Vec<TokenKind>, OutOfMemory>
    ensures { IfOk result (λ kinds. kinds.items ≡ spec_file (file_view tree.now)) }
{
    let mut kinds = Vec::new(alloc);
    spell_package_line(&mut kinds, &tree.package)?;
    spell_imports(&mut kinds, &tree.imports)?;
    spell_types(&mut kinds, &tree.types)?;
    Ok(kinds)
}
