//! From files that were read to their annotated texts, or to what stands against them.
ghost use Rattle.std.specs.Prelude.{◌≡◌, ◌≤◌, List, map, length, IsSome, IfOk};
ghost use Rattle.jn_places.specs.PlacedView.{placed_file};
ghost use Rattle.jn_inference_law.specs.Solution.{IsLeastSignature};
ghost use Rattle.jn_command.specs.Stands.{StandIn};
ghost use Rattle.jn_front.specs.declared.source.SourceFile.{SourceFile as SpecFile};
ghost use Rattle.jn_front.specs.Files.{files_of_reads, AreReads, most_files};
ghost use Rattle.jn_phases.specs.Phases.{IsTypedOr, TypedProgramOf};
ghost use Rattle.jn_annotate.specs.Annotated.{unspelled_slots as unspelled};
ghost use Rattle.nullcheck_annotate_top.specs.Study.{IsOf, IsStudy, left_at as spec_left_at, texts_of};

use crate::faults::{fault_span, slot_span};
use crate::parts::{Part, slot_part};
use crate::texts::texts;
use jn_annotate::{AnnotateFault, annotate, unspelled_slots};
use jn_base::lists::put;
use jn_base::{Fail, Infer, OutOfMemory, Row, Seq, Span};
use jn_front::{SourceRead, lex_all};
use jn_index::BaseTyped;
use jn_inference_law::law::regular_programs_are_inferable;
use jn_phases::{TypedFiles, type_files};
use jn_places::law::places_are_forgotten;
use jn_points::Program;
use jn_sharing::{Gate, Workers};
use jn_sigs::Sig;
use jn_system::solve_sig;
use jn_trees::{FileTree, Names, Token};
use std::alloc::Global;
use std::mem::forget;
use std::thread::Threads;

/// What files come to.
#[derive(Drop)]
pub enum Study {
    /// The files are not of the subset, or don't fit together: the rows of the first phase that has any, in order.
    Refused(Seq<Row>),
    /// They have no annotated texts, for this reason, which stands there.
    Unannotated(AnnotateFault, Span),
    /// The text of each file with what is inferred of it, and the slots that are left without words.
    Annotated(Seq<Seq<u8>>, Seq<Left>),
}

/// A slot that is left without words, since no annotation says its qualifier.
#[derive(Clone, Copy)]
pub struct Left {
    /// The part of its declaration.
    pub part: Option<Part>,
    /// Where that stands.
    pub span: Span,
}

/// The slot as one that is left without words.
fn left_at(program: &Program, slot: u32) -> Left
    ensures { result ≡ spec_left_at program.now slot }
{
    Left {
        part: slot_part(program, slot),
        span: slot_span(program, slot),
    }
}

/// The slots that are left without words.
fn lefts(alloc: Global, program: &Program, slots: &[u32]) -> Result<Vec<Left>, OutOfMemory>
    ensures { IfOk result (λ left. left.items ≡ map (spec_left_at program.now) slots.now) }
{
    let mut left = Vec::new(alloc);
    for slot in slots {
        put(&mut left, left_at(program, *slot))?;
    }
    Ok(left)
}

/// What files come to that have these texts.
fn study_left(
    alloc: Global,
    new: Vec<Seq<u8>>,
    program: &Program,
    sig: &Sig,
) -> Result<Study, OutOfMemory>
    requires slots { length sig.now ≡ length program.now.slots }
    ensures { IfOk result (λ study. study
        ≡ Study.Annotated new.items
        (map (spec_left_at program.now) (unspelled program.now sig.now))) }
{
    let slots = unspelled_slots(alloc, program, sig)?;
    let left = lefts(alloc, program, &slots)?;
    Ok(Study::Annotated(Seq::of_vec(new), Seq::of_vec(left)))
}

/// What files come to whose program has a least signature.
fn study_solved(
    alloc: Global,
    infer: Infer,
    terse: bool,
    imports: bool,
    reads: &[SourceRead],
    names: &Names,
    trees: &[FileTree],
    base: &BaseTyped,
    sig: &Sig,
    texts: &[Seq<u8>],
    tokens: &[Seq<Token>],
) -> Result<Study, OutOfMemory>
    requires program { (typed : TypedProgramOf infer (files_of_reads reads.now) names.now base.now)
        × (typed.of_files.trees ≡ map placed_file trees.now) × (typed.of_files.tokens ≡ tokens.now) }
    requires least { IsLeastSignature base.now sig.now }
    requires texts { texts.now ≡ texts_of (files_of_reads reads.now) }
    requires few { length reads.now ≤ 64 }
    ensures { IfOk result (λ study. IsStudy infer terse imports (files_of_reads reads.now) study) }
{
    places_are_forgotten();
    let program = base.program();
    match annotate(alloc, terse, imports, texts, tokens, trees, program, sig) {
        Ok(new) => study_left(alloc, new, program, sig),
        Err(Fail::Refused(fault)) => Ok(Study::Unannotated(fault, fault_span(program, fault))),
        Err(Fail::OutOfMemory) => Err(OutOfMemory),
    }
}

/// What files with this program come to, which has no row of types.
fn study_typed<R: Threads + Sync, G: Gate + Sync>(
    rt: &R,
    alloc: Global,
    workers: Workers,
    infer: Infer,
    terse: bool,
    imports: bool,
    reads: &[SourceRead],
    names: &Names,
    trees: &[FileTree],
    base: BaseTyped,
    gate: &G,
) -> Result<Study, OutOfMemory>
    requires program { (typed : TypedProgramOf infer (files_of_reads reads.now) names.now base)
        × (typed.of_files.trees ≡ map placed_file trees.now) }
    requires few { length reads.now ≤ 64 }
    ensures { IfOk result (λ study. IsStudy infer terse imports (files_of_reads reads.now) study) }
{
    regular_programs_are_inferable();
    let sig = solve_sig(rt, alloc, base.indexed(), workers, gate)?;
    let texts = texts(alloc, reads)?;
    let tokens = lex_all(alloc, reads)?;
    study_solved(
        alloc, infer, terse, imports, reads, names, trees, &base, &sig, &texts, &tokens,
    )
}

/// What files come to that came to this before their rules.
fn study_found<R: Threads + Sync, G: Gate + Sync>(
    rt: &R,
    alloc: Global,
    workers: Workers,
    infer: Infer,
    terse: bool,
    imports: bool,
    reads: &[SourceRead],
    names: &Names,
    trees: &[FileTree],
    rows: Seq<Row>,
    base: Option<BaseTyped>,
    gate: &G,
) -> Result<Study, OutOfMemory>
    requires few { length reads.now ≤ 64 }
    requires typed { (files : List SpecFile) → AreReads reads.now files
        → IsTypedOr infer files names.now (map placed_file trees.now) rows base }
    requires whole { IsSome base
        → (files : List SpecFile) → AreReads reads.now files → files_of_reads reads.now ≡ files }
    requires stand { StandIn reads.now rows }
    ensures is { IfOk result (λ study. (files : List SpecFile) → AreReads reads.now files
        → IsStudy infer terse imports files study) }
    ensures of { IfOk result (λ study. IsOf reads.now study) }
{
    match base {
        None => return Ok(Study::Refused(rows)),
        Some(base) => {
            drop(rows);
            return study_typed(
                rt, alloc, workers, infer, terse, imports, reads, names, trees, base, gate,
            );
        }
    }
}

/// What files that were read come to, at most 64, by so many workers, with the choice of members that are inferred: the text of each
/// with what is inferred of it, whether they are accepted or not; or the rows of the phase that refuses them, or why they have no such
/// texts. Where `terse` holds, words that say the default are left out; where `imports` does, annotations that a file gets are imported. The memory of their trees is left to the process's end.
///
/// # Errors
///
/// No memory was found.
pub fn study_files<R: Threads + Sync, G: Gate + Sync>(
    rt: &R,
    gate: &G,
    alloc: Global,
    workers: Workers,
    infer: Infer,
    terse: bool,
    imports: bool,
    reads: &[SourceRead],
) -> Result<Study, OutOfMemory>
    requires few { length reads.now ≤ most_files }
    ensures is { IfOk result (λ study. (files : List SpecFile) → AreReads reads.now files
        → IsStudy infer terse imports files study) }
    ensures of { IfOk result (λ study. IsOf reads.now study) }
{
    let TypedFiles {
        rows,
        base,
        names,
        trees,
    } = type_files(rt, gate, alloc, workers, infer, reads)?;
    let study = study_found(
        rt, alloc, workers, infer, terse, imports, reads, &names, &trees, rows, base, gate,
    )?;
    forget(names);
    forget(trees);
    Ok(study)
}
