//! Packages of annotations of which a file gets words that it doesn't import.
ghost use Rattle.std.specs.Prelude.{◌≡◌, ◌&&◌, ◌++◌, map, IfOk, OnOk};
ghost use Rattle.jn_points.specs.Members.{some_of};
ghost use Rattle.jn_trees.specs.View.{identifier_names, import_view};
ghost use Rattle.jn_annotate.specs.Imports as spec;
ghost use Rattle.jn_annotate.specs.Puts.{insertions};

use crate::insert::Put;
use jn_base::lists::put;
use jn_base::{NameNo, OutOfMemory};
use jn_known::{
    CHECKER, CHECKERFRAMEWORK, INITIALIZATION, INITIALIZED, NON_NULL, NULLABLE, NULLNESS, ORG,
    QUAL, UNDER_INITIALIZATION, UNKNOWN_INITIALIZATION,
};
use jn_trees::{Identifier, Import};
use std::alloc::Global;

/// A package of annotations (Checker Framework manual, 3.2 and 3.8).
#[derive(Clone, Copy, Debug, PartialEq, Eq)]
pub enum Package {
    /// `org.checkerframework.checker.nullness.qual`
    Nullness,
    /// `org.checkerframework.checker.initialization.qual`
    Initialization,
}

/// The name in which the packages differ.
fn package_name(owner: Package) -> NameNo
    ensures { result ≡ spec.name_of (spec.package_name owner) }
{
    match owner {
        Package::Nullness => NULLNESS,
        Package::Initialization => INITIALIZATION,
    }
}

/// Whether the names are these.
fn same_names(names: &[Identifier], wanted: &[NameNo]) -> bool
    ensures { result ≡ spec.same_names (identifier_names names.now) wanted.now }
{
    let mut one = names;
    let mut other = wanted;
    while let [first, rest @ ..] = one {
        match other {
            [] => return false,
            [second, more @ ..] => {
                if first.name.0 != second.0 {
                    return false;
                }
                one = rest;
                other = more;
            }
        }
    }
    other.is_empty()
}

/// Whether the names after the first are those of an import of all of the package, or of the word alone (JLS 7.5.1, 7.5.2).
fn is_of_word(names: &[Identifier], all: bool, owner: Package, word: NameNo) -> bool
    ensures { result
        ≡ spec.same_names (identifier_names names.now) (spec.imported_names all owner word.0) }
{
    let part = package_name(owner);
    if all {
        same_names(names, &[CHECKERFRAMEWORK, CHECKER, part, QUAL])
    } else {
        same_names(names, &[CHECKERFRAMEWORK, CHECKER, part, QUAL, word])
    }
}

/// Whether the import is of the word.
fn imports_word(import: &Import, owner: Package, word: NameNo) -> bool
    ensures { result ≡ spec.imports_word owner word.0 (import_view import.now) }
{
    import.name.first.name.0 == ORG.0 && is_of_word(&import.name.more, import.all, owner, word)
}

/// Whether some import is of the word.
fn is_imported(imports: &[Import], owner: Package, word: NameNo) -> bool
    ensures { result ≡ some_of (spec.imports_word owner word.0) (map import_view imports.now) }
{
    for import in imports {
        if imports_word(import, owner, word) {
            return true;
        }
    }
    false
}

/// Whether the text begins with the word.
fn begins_with(word: &[u8], text: &[u8]) -> bool
    ensures { result ≡ spec.begins_with word.now text.now }
{
    let mut letters = word;
    let mut rest = text;
    while let [letter, more @ ..] = letters {
        match rest {
            [] => return false,
            [byte, others @ ..] => {
                if *letter != *byte {
                    return false;
                }
                letters = more;
                rest = others;
            }
        }
    }
    true
}

/// Whether the word stands somewhere in the text.
fn has_word(word: &[u8], text: &[u8]) -> bool
    ensures { result ≡ spec.has_word word.now text.now }
{
    let mut rest = text;
    while let [_, more @ ..] = rest {
        if begins_with(word, rest) {
            return true;
        }
        rest = more;
    }
    false
}

/// Whether what is put into a file has the word.
fn gets_word(word: &[u8], puts: &[Put]) -> bool
    ensures { result ≡ spec.gets_word word.now (insertions puts.now) }
{
    for put in puts {
        if has_word(word, put.words.as_slice()) {
            return true;
        }
    }
    false
}

/// Whether the file gets the word, and has no import of it.
fn lacks_word(imports: &[Import], puts: &[Put], owner: Package, word: &[u8], number: NameNo) -> bool
    ensures { result
        ≡ spec.lacks_word (map import_view imports.now) (insertions puts.now) owner word.now
        number.0 }
{
    gets_word(word, puts) && !is_imported(imports, owner, number)
}

/// Whether it is so of some word of the package.
fn lacks(imports: &[Import], puts: &[Put], owner: Package) -> bool
    ensures { result ≡ spec.lacks (map import_view imports.now) (insertions puts.now) owner }
{
    match owner {
        Package::Nullness => {
            lacks_word(imports, puts, owner, b"@NonNull ", NON_NULL)
                || lacks_word(imports, puts, owner, b"@Nullable ", NULLABLE)
        }
        Package::Initialization => {
            lacks_word(imports, puts, owner, b"@Initialized ", INITIALIZED)
                || lacks_word(
                    imports,
                    puts,
                    owner,
                    b"@UnderInitialization ",
                    UNDER_INITIALIZATION,
                )
                || lacks_word(
                    imports,
                    puts,
                    owner,
                    b"@UnknownInitialization ",
                    UNKNOWN_INITIALIZATION,
                )
        }
    }
}

/// Puts the package after the others where it is lacking.
fn put_lacking(
    lacking: &mut Vec<Package>,
    imports: &[Import],
    puts: &[Put],
    owner: Package,
) -> Result<(), OutOfMemory>
    ensures { OnOk result (lacking.new.items
        ≡ lacking.old.items
        ++ spec.package_if (spec.lacks (map import_view imports.now) (insertions puts.now) owner)
        owner) }
{
    if lacks(imports, puts, owner) {
        put(lacking, owner)?;
    }
    Ok(())
}

/// The packages of which a file gets words that it doesn't import; none where no import is asked for.
pub fn packages(
    alloc: Global,
    wanted: bool,
    imports: &[Import],
    puts: &[Put],
) -> Result<Vec<Package>, OutOfMemory>
    ensures { IfOk result (λ ps. ps.items
        ≡ spec.packages wanted (map import_view imports.now) (insertions puts.now)) }
{
    let mut lacking = Vec::new(alloc);
    if !wanted {
        return Ok(lacking);
    }
    put_lacking(&mut lacking, imports, puts, Package::Nullness)?;
    put_lacking(&mut lacking, imports, puts, Package::Initialization)?;
    Ok(lacking)
}
