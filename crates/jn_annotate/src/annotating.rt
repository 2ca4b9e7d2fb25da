//! The texts of files with the words of what was inferred of them.
ghost use Rattle.std.specs.Prelude.{◌≡◌, ◌<◌, ◌^◌, drop, length, map, IfErr, IfOk};
ghost use Rattle.jn_trees.specs.View.{file_view};
ghost use Rattle.jn_annotate.specs.Annotated.{annotated_from, AreWorded, HasNone, is_too_large};
ghost use Rattle.jn_annotate.specs.Chosen.{chosen_slots};
ghost use Rattle.jn_annotate.specs.Answers.{IsLargeOf, IsWhyRefused};
ghost use Rattle.jn_annotate.specs.Imports.{with_lines};
ghost use Rattle.jn_annotate.specs.Insertions.{in_file};
ghost use Rattle.jn_splice_law.specs.Inserted.{inserted};

use crate::chosen::chosen_program;
use crate::files::{fields_behind_types, file_puts, methods_behind_types};
use crate::insert::insert;
use crate::lines;
use crate::members::next_methods;
use crate::refusals::first_too_large;
use crate::shared::first_shared;
use crate::taken::first_taken;
use jn_base::lists::put;
use jn_base::{Fail, FileNo, OutOfMemory, Seq, SlotNo};
use jn_points::{Field, Method, Program};
use jn_sigs::Sig;
use jn_trees::{FileTree, Token};
use std::alloc::Global;

/// Why files have no annotated texts.
#[derive(Clone, Copy, Debug, PartialEq, Eq)]
pub enum AnnotateFault {
    /// Imports are asked for, and a type of the files has the name of an annotation that says the qualifier of this slot (JLS 6.4.1).
    NameTaken(SlotNo),
    /// The slot is of a field that shares its type with one of another qualifier (JLS 8.3).
    SharedType(SlotNo),
    /// The file's new text has more than 1,048,576 bytes.
    TooLarge(FileNo),
}

/// A file's text with the words of its inferred slots, and with the lines that import them, where these are asked for.
fn annotated_text(
    alloc: Global,
    imports: bool,
    program: &Program,
    sig: &Sig,
    text: &[u8],
    tokens: &[Token],
    tree: &FileTree,
    fields: &[Field],
    methods: &[Method],
) -> Result<Seq<u8>, OutOfMemory>
    ensures { IfOk result (λ new. new
        ≡ inserted text.now
        (with_lines imports text.now tokens.now (file_view tree.now)
        (in_file program.now.slots sig.now text.now tokens.now (file_view tree.now) fields.now
        methods.now))) }
{
    let puts = file_puts(alloc, program, sig, text, tokens, tree, fields, methods)?;
    let puts = lines::with_lines(alloc, imports, text, tokens, tree, puts)?;
    Ok(Seq::of_vec(insert(alloc, text, &puts)?))
}

/// The texts of files with the words of the slots that count as inferred, whatever their sizes; the first fields and methods are those that they
/// declare.
#[tactic(auto, using(crate::proofs::Texts::next_text))]
fn annotated_texts(
    alloc: Global,
    imports: bool,
    texts: &[Seq<u8>],
    tokens: &[Seq<Token>],
    trees: &[FileTree],
    program: &Program,
    said: &Program,
    sig: &Sig,
    methods: &[Method],
) -> Result<Vec<Seq<u8>>, OutOfMemory>
    ensures { IfOk result (λ new. new.items
        ≡ annotated_from imports said.now.slots sig.now texts.now tokens.now (map file_view trees.now)
        program.now.fields methods.now) }
{
    let mut new = Vec::new(alloc);
    let mut tokens = tokens;
    let mut trees = trees;
    let mut fields = program.fields.as_slice();
    let mut methods = methods;
    for text in texts {
        match tokens {
            [] => return Ok(new),
            [first, more @ ..] => match trees {
                [] => return Ok(new),
                [tree, others @ ..] => {
                    let made = annotated_text(
                        alloc,
                        imports,
                        said,
                        sig,
                        text.as_slice(),
                        first.as_slice(),
                        tree,
                        fields,
                        methods,
                    )?;
                    put(&mut new, made)?;
                    fields = fields_behind_types(fields, &tree.types);
                    methods = methods_behind_types(methods, &tree.types);
                    tokens = more;
                    trees = others;
                }
            },
        }
    }
    Ok(new)
}

/// The texts, where none of them is too large.
fn sized(texts: Vec<Seq<u8>>) -> Result<Vec<Seq<u8>>, Fail<AnnotateFault>>
    requires { length texts.items < 2 ^ 32 }
    ensures ok { IfOk result (λ new. (new.items ≡ texts.items)
        × HasNone (is_too_large texts.items)) }
    ensures refused { IfErr result (λ fail. IsLargeOf texts.items fail) }
{
    match first_too_large(&texts) {
        None => Ok(texts),
        Some(file) => {
            drop(texts);
            Err(Fail::Refused(AnnotateFault::TooLarge(FileNo(file))))
        }
    }
}

/// The texts of files of which these slots count as inferred, unless they are refused.
#[tactic(auto, using(crate::proofs::Texts::is_worded, crate::proofs::Texts::is_large))]
fn annotate_said(
    alloc: Global,
    imports: bool,
    texts: &[Seq<u8>],
    tokens: &[Seq<Token>],
    trees: &[FileTree],
    program: &Program,
    said: &Program,
    sig: &Sig,
) -> Result<Vec<Seq<u8>>, Fail<AnnotateFault>>
    requires slots { length sig.now ≡ length said.now.slots }
    requires files { length texts.now < 2 ^ 32 }
    ensures annotated { IfOk result (λ new. AreWorded said.now.slots imports program.now sig.now
        texts.now tokens.now
        (map file_view trees.now) new.items) }
    ensures refused { IfErr result (λ fail. IsWhyRefused said.now.slots imports program.now sig.now
        texts.now tokens.now
        (map file_view trees.now) fail) }
{
    match first_taken(imports, program, said, sig, trees) {
        Some(slot) => Err(Fail::Refused(AnnotateFault::NameTaken(SlotNo(slot)))),
        None => match first_shared(alloc, program, sig, trees) {
            Err(_) => Err(Fail::OutOfMemory),
            Ok(Some(slot)) => Err(Fail::Refused(AnnotateFault::SharedType(SlotNo(slot)))),
            Ok(None) => {
                let methods = next_methods(program.methods.as_slice());
                match annotated_texts(
                    alloc, imports, texts, tokens, trees, program, said, sig, methods,
                ) {
                    Err(_) => Err(Fail::OutOfMemory),
                    Ok(new) => sized(new),
                }
            }
        },
    }
}

/// The texts of files with the words of what was inferred of them: for each inferred slot what says its qualifier, before its type, or as a receiver
/// (Checker Framework manual, 3.2 and 3.8). A slot gets no words where no annotation says its qualifier ([`crate::unspelled_slots`]), and,
/// where `terse` holds, where they would say no more than the default does: initialized, and not null. The program and its signature are those
/// of the trees, by either choice of what is inferred, and the tokens are those of the texts. Where imports are asked for, a file that gets a
/// word which it doesn't import gets a line that imports all annotations of the word's package.
///
/// # Errors
///
/// In this order: where imports are asked for, the least slot that gets words of which a type of the files has the name of an annotation that
/// says it; the least slot of an inferred field whose qualifier isn't that of the first field of its declaration; the first file whose new text
/// is larger than 1 MiB; want of memory.
pub fn annotate(
    alloc: Global,
    terse: bool,
    imports: bool,
    texts: &[Seq<u8>],
    tokens: &[Seq<Token>],
    trees: &[FileTree],
    program: &Program,
    sig: &Sig,
) -> Result<Vec<Seq<u8>>, Fail<AnnotateFault>>
    requires slots { length sig.now ≡ length program.now.slots }
    requires files { length texts.now < 2 ^ 32 }
    ensures annotated { IfOk result (λ new. AreWorded (chosen_slots terse program.now sig.now)
        imports program.now sig.now texts.now tokens.now
        (map file_view trees.now) new.items) }
    ensures refused { IfErr result (λ fail. IsWhyRefused (chosen_slots terse program.now sig.now)
        imports program.now sig.now texts.now tokens.now
        (map file_view trees.now) fail) }
{
    match chosen_program(alloc, terse, program, sig) {
        Err(_) => Err(Fail::OutOfMemory),
        Ok(said) => annotate_said(alloc, imports, texts, tokens, trees, program, &said, sig),
    }
}
