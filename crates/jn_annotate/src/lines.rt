//! Lines that import annotations, and where they stand in a file.
ghost use Rattle.std.specs.Prelude.{◌≡◌, ◌∷◌, ◌++◌, map, IfOk};
ghost use Rattle.jn_trees.specs.View.{file_view, package_view};
ghost use Rattle.jn_annotate.specs.Imports as spec;
ghost use Rattle.jn_annotate.specs.Puts.{insertion, insertions};

use crate::imports::{Package, packages};
use crate::insert::Put;
use crate::steps::{front, semicolon};
use jn_base::lists::put;
use jn_base::{OutOfMemory, Seq};
use jn_trees::{FileTree, PackageLine, Token};
use std::alloc::Global;

/// After a carriage return: the end of a line with the line feed, where one follows.
fn carriage_return(text: &[u8]) -> &'static [u8]
    ensures { result.now ≡ 13 ∷ spec.line_feed text.now }
{
    match text {
        [10, ..] => b"\r\n",
        _ => b"\r",
    }
}

/// How lines of a text end (JLS 3.4): as its first one does, and by a line feed where it has one line.
fn line_end(text: &[u8]) -> &'static [u8]
    ensures { result.now ≡ spec.line_end text.now }
{
    let mut rest = text;
    while let [byte, more @ ..] = rest {
        if *byte == 10 {
            return b"\n";
        }
        if *byte == 13 {
            return carriage_return(more);
        }
        rest = more;
    }
    b"\n"
}

/// The import of all annotations of the package (JLS 7.5.2).
fn import_line(owner: Package) -> &'static [u8]
    ensures { result.now ≡ spec.import_line owner }
{
    match owner {
        Package::Nullness => b"import org.checkerframework.checker.nullness.qual.*;",
        Package::Initialization => b"import org.checkerframework.checker.initialization.qual.*;",
    }
}

/// One text and another after it.
fn both(alloc: Global, one: &[u8], other: &[u8]) -> Result<Seq<u8>, OutOfMemory>
    ensures { IfOk result (λ text. text ≡ one.now ++ other.now) }
{
    let mut text = Vec::from_slice(alloc, one)?;
    text.extend_from_slice(other)?;
    Ok(Seq::of_vec(text))
}

/// The package's line, after the semicolon of the file's package line, or at the file's first byte.
fn line_put(
    alloc: Global,
    text: &[u8],
    tokens: &[Token],
    line: &Option<PackageLine>,
    owner: Package,
) -> Result<Put, OutOfMemory>
    ensures { IfOk result
        (λ p. insertion p ≡ spec.put_line text.now tokens.now (package_view line.now) owner) }
{
    let end = line_end(text);
    match line {
        None => Ok(Put {
            at: 0,
            words: both(alloc, import_line(owner), end)?,
        }),
        Some(line) => Ok(Put {
            at: front(semicolon(tokens, line)).to as usize,
            words: both(alloc, end, import_line(owner))?,
        }),
    }
}

/// The lines of packages, in their order.
fn line_puts(
    alloc: Global,
    text: &[u8],
    tokens: &[Token],
    line: &Option<PackageLine>,
    owners: &[Package],
) -> Result<Vec<Put>, OutOfMemory>
    ensures { IfOk result (λ puts. insertions puts.items
        ≡ map (spec.put_line text.now tokens.now (package_view line.now)) owners.now) }
{
    let mut puts = Vec::new(alloc);
    for owner in owners {
        put(&mut puts, line_put(alloc, text, tokens, line, *owner)?)?;
    }
    Ok(puts)
}

/// The lines that stand before what is put into a file.
fn lines_before(
    alloc: Global,
    wanted: bool,
    text: &[u8],
    tokens: &[Token],
    tree: &FileTree,
    puts: &[Put],
) -> Result<Vec<Put>, OutOfMemory>
    ensures { IfOk result (λ lines. insertions lines.items
        ≡ spec.lines_before wanted text.now tokens.now (file_view tree.now) (insertions puts.now)) }
{
    let owners = packages(alloc, wanted, &tree.imports, puts)?;
    line_puts(alloc, text, tokens, &tree.package, &owners)
}

/// What is put into a file, with the lines that it lacks before, where they are asked for.
#[tactic(auto, unfolding(crate::specs::Imports::with_lines))]
pub fn with_lines(
    alloc: Global,
    wanted: bool,
    text: &[u8],
    tokens: &[Token],
    tree: &FileTree,
    puts: Vec<Put>,
) -> Result<Vec<Put>, OutOfMemory>
    ensures { IfOk result (λ all. insertions all.items
        ≡ spec.with_lines wanted text.now tokens.now (file_view tree.now)
        (insertions puts.items)) }
{
    let mut puts = puts;
    let mut all = lines_before(alloc, wanted, text, tokens, tree, &puts)?;
    all.append(&mut puts)?;
    Ok(all)
}
