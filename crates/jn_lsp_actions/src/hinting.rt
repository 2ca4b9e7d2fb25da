//! From files to the hints of one of them.
ghost use Rattle.std.specs.Prelude.{◌≡◌, drop, map, IfOk, false};
ghost use Rattle.jn_annotate.specs.Chosen.{chosen_slots};
ghost use Rattle.jn_annotate.specs.Insertions.{in_file};
ghost use Rattle.jn_recheck.specs.Files.{AllFit};
ghost use Rattle.jn_trees.specs.View.{file_view};
ghost use Rattle.jn_lsp_actions.specs.Hinted as spec;
ghost use Rattle.jn_lsp_actions.specs.Slots.{types_slots};

use crate::choosing::Asked;
use crate::edits::Lexed;
use crate::explaining::with_reasons;
use crate::hints::{SlotHint, shown};
use crate::slots::file_slots;
use jn_annotate::chosen::chosen_program;
use jn_annotate::files::{fields_behind_types, file_puts, methods_behind_types};
use jn_annotate::members::next_methods;
use jn_base::{Infer, OutOfMemory, Seq};
use jn_front::SourceFile;
use jn_lsp_solved::{Solved, Traced, find_solved};
use jn_lsp_text::{Encoding, Hint, Range, SmallText};
use jn_places::law::places_are_forgotten;
use jn_points::{Field, Method, Program};
use jn_recheck::FileSet;
use jn_sharing::{Gate, Workers};
use jn_sigs::Sig;
use jn_trees::{FileTree, Token};
use std::alloc::Global;
use std::thread::Threads;

/// The hints in a range of the text of a file that declares the first of these fields and methods.
fn file_hints(
    alloc: Global,
    encoding: Encoding,
    program: &Program,
    sig: &Sig,
    range: Range,
    text: &SmallText,
    tokens: &[Token],
    tree: &FileTree,
    fields: &[Field],
    methods: &[Method],
) -> Result<Seq<SlotHint>, OutOfMemory>
    ensures { IfOk result (λ hints. hints
        ≡ spec.shown encoding text.now range
        (types_slots program.now.slots (file_view tree.now).types fields.now methods.now)
        (in_file program.now.slots sig.now text.now tokens.now (file_view tree.now)
        fields.now methods.now)) }
{
    let bytes = text.bytes();
    let puts = file_puts(alloc, program, sig, bytes, tokens, tree, fields, methods)?;
    let slots = file_slots(alloc, program, &tree.types, fields, methods)?;
    Ok(shown(alloc, encoding, text, range, &slots, &puts)?)
}

/// The hints of the first file of the name; the first fields and methods are those that the files declare.
fn shown_in(
    files: &[SourceFile],
    alloc: Global,
    encoding: Encoding,
    program: &Program,
    sig: &Sig,
    asked: &Asked,
    tokens: &[Seq<Token>],
    trees: &[FileTree],
    fields: &[Field],
    methods: &[Method],
) -> Result<Seq<SlotHint>, OutOfMemory>
    requires fit { AllFit files.now }
    ensures { IfOk result (λ hints. hints
        ≡ spec.shown_in encoding asked.now.name.now asked.now.range program.now.slots sig.now files.now
        tokens.now (map file_view trees.now) fields.now methods.now) }
{
    match files {
        [] => Ok(Seq::new(alloc)),
        [file, other_files @ ..] => match tokens {
            [] => Ok(Seq::new(alloc)),
            [first, other_tokens @ ..] => match trees {
                [] => Ok(Seq::new(alloc)),
                [tree, other_trees @ ..] => {
                    if file.name.as_str() == asked.name {
                        let text = SmallText::of(file.bytes.as_slice());
                        let first = first.as_slice();
                        file_hints(
                            alloc,
                            encoding,
                            program,
                            sig,
                            asked.range,
                            &text,
                            first,
                            tree,
                            fields,
                            methods,
                        )
                    } else {
                        shown_in(
                            other_files,
                            alloc,
                            encoding,
                            program,
                            sig,
                            asked,
                            other_tokens,
                            other_trees,
                            fields_behind_types(fields, &tree.types),
                            methods_behind_types(methods, &tree.types),
                        )
                    }
                }
            },
        },
    }
}

/// The hints of files none of whose fields shares its type with one of another qualifier.
fn unshared_hints(alloc: Global, lexed: &Lexed, asked: &Asked) -> Result<Seq<SlotHint>, OutOfMemory>
    ensures { IfOk result (λ hints. hints
        ≡ spec.shown_in lexed.now.traced.now.encoding asked.now.name.now asked.now.range
        (chosen_slots false lexed.now.traced.now.program lexed.now.traced.now.sig)
        lexed.now.traced.now.sig lexed.now.traced.now.files lexed.now.tokens.now
        (map file_view lexed.now.trees.now) lexed.now.traced.now.program.fields
        (drop 1 lexed.now.traced.now.program.methods)) }
{
    let parts = lexed.traced.parts();
    let said = chosen_program(alloc, false, parts.program, parts.sig)?;
    shown_in(
        parts.files.as_slice(),
        alloc,
        parts.encoding,
        &said,
        parts.sig,
        asked,
        lexed.tokens,
        lexed.trees,
        parts.program.fields.as_slice(),
        next_methods(parts.program.methods.as_slice()),
    )
}

/// The hints of solved files, without why.
#[tactic(auto, using(crate::proofs::Showing::some_shared, crate::proofs::Showing::none_shared))]
fn hints_of(alloc: Global, lexed: &Lexed, asked: &Asked) -> Result<Seq<SlotHint>, OutOfMemory>
    ensures { IfOk result (λ hints. hints
        ≡ spec.hints_of lexed.now.traced.now.encoding asked.now.name.now asked.now.range lexed.now.traced.now.files
        lexed.now.tokens.now (map file_view lexed.now.trees.now) lexed.now.traced.now.program
        lexed.now.traced.now.sig) }
{
    match lexed.first_shared(alloc)? {
        Some(_) => Ok(Seq::new(alloc)),
        None => unshared_hints(alloc, lexed, asked),
    }
}

/// The hints of solved files whose causes are asked for.
fn of_traced(alloc: Global, traced: &Traced, asked: &Asked) -> Result<Seq<Hint>, OutOfMemory>
    ensures { IfOk result (λ hints.
        spec.AreHints traced.now.infer traced.now.encoding traced.now.files asked.now.name.now asked.now.range hints) }
{
    places_are_forgotten();
    traced.facts();
    let parts = traced.parts();
    let tokens = traced.solved_files().tokens(alloc)?;
    let lexed = Lexed {
        traced: &*traced,
        tokens: &tokens,
        trees: parts.trees,
    };
    let shown = hints_of(alloc, &lexed, asked)?;
    let hints = with_reasons(alloc, traced, shown.as_slice())?;
    Ok(hints)
}

/// The hints of solved files.
fn of_solved(alloc: Global, solved: &Solved, asked: &Asked) -> Result<Seq<Hint>, OutOfMemory>
    ensures { IfOk result (λ hints.
        spec.AreHints solved.now.infer solved.now.encoding solved.now.files asked.now.name.now asked.now.range hints) }
{
    let traced = Traced::new(alloc, solved)?;
    let hints = of_traced(alloc, &traced, asked)?;
    Ok(hints)
}

/// The words that are shown in a range of the file of a name, where they aren't written, among files whose program is inferred anew by so
/// many workers, where these members are inferred, and positions count in this unit: those that annotating the files ([`jn_annotate::annotate`]) puts there, but for
/// lines that import annotations. With each are the notes of the first chains of its slot, as [`jn_lsp_solved::Traced::reasons_of`] finds them. A
/// worker enters the gate when it takes a file, or infers.
///
/// None is shown of a slot that no annotation says, nor any where the files are refused before their rules, or where a field shares
/// its type with one of another qualifier: [`jn_annotate::annotate`] refuses such files. Whether the rules are kept doesn't matter.
///
/// # Errors
/// No memory was found.
pub fn hints_for<R: Threads + Sync, G: Gate + Sync>(
    rt: &R,
    gate: &G,
    alloc: Global,
    workers: Workers,
    infer: Infer,
    encoding: Encoding,
    files: &FileSet,
    name: &str,
    range: Range,
) -> Result<Seq<Hint>, OutOfMemory>
    ensures { IfOk result (λ hints. spec.AreHints infer encoding files.now name.now range hints) }
{
    match find_solved(rt, gate, alloc, workers, infer, encoding, files)? {
        None => Ok(Seq::new(alloc)),
        Some(solved) => of_solved(alloc, &solved, &Asked { name, range }),
    }
}
