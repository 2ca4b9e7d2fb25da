//! What is kept of a report that came to the rules.
ghost use Rattle.std.specs.Prelude.{◌≡◌, ◌≤◌, ◌<◌, [], false, IfOk, IsSome, List, length};
ghost use Rattle.jn_contrib.specs.Entries.{AreOverriders};
ghost use Rattle.jn_front.specs.Files.{AreReads, most_files};
ghost use Rattle.jn_front.specs.declared.source.SourceFile.{SourceFile as FileOf};
ghost use Rattle.jn_kept_points.specs.Typings.{IsKeptOf};
ghost use Rattle.jn_kept_trees.specs.KeptTrees.{AreKeptTrees};
ghost use Rattle.jn_kept_trees.specs.Staying.{HaveTrees};
ghost use Rattle.jn_places.specs.Placed.{PlacedFile};
ghost use Rattle.jn_phases.specs.Phases.{IsTypedOr};
ghost use Rattle.jn_points.specs.Regular.{Regular};
ghost use Rattle.jn_inference_law.specs.Solution.{IsLeastSignature};
ghost use Rattle.jn_recheck.specs.KeptRows.{AreKept};
ghost use Rattle.jn_recheck.specs.Standing.{StandsIn, StandsOn};
ghost use Rattle.jn_system.specs.Rows.{least_rows};
ghost use Rattle.jn_transfer.specs.Rules.{pairs_rows};

use jn_base::{Infer, OutOfMemory, Row, Seq};
use jn_contrib::Overrider;
use jn_front::{SourceFile, SourceRead};
use jn_index::BaseTyped;
use jn_index::indexed::IndexedProgram;
use jn_kept_points::{KeptTyping, nothing_unchanged};
use jn_kept_trees::{KeptTree, TypedOn, type_files_again, type_files_on};
use jn_points::Program;
use jn_sharing::{Gate, Workers};
use jn_sigs::Sig;
use jn_trees::Names;
use std::alloc::Global;
use std::marker::Model;
use std::thread::Threads;

/// The program of the last report that came to the rules, with the texts of its names, its least signature, the rows of each of its bodies, its methods
/// that override, and whether an overriding pair breaks a rule. Contracts see the first three.
#[derive(Drop)]
pub struct Kept {
    names: Names,
    base: BaseTyped,
    sig: Sig,
    rows: Vec<Seq<Row>>,
    overriders: Vec<Overrider>,
    broken: bool,
}

impl Model for Kept {
    ghost use Rattle.jn_inference_law.specs.Solution.{IsLeastSignature};
    ghost use Rattle.jn_recheck_law.specs.Reusable.{Solved};
    ghost use Rattle.jn_contrib.specs.Entries.{AreOverriders};
    ghost use Rattle.jn_recheck.specs.KeptRows.{AreKept};
    ghost use Rattle.jn_transfer.specs.Rules.{pairs_rows};
    ghost use Rattle.std.specs.Prelude.{◌≡◌, [], false};

    ghost Value = { Solved };

    ghost view = { λ k. record { names = k.names; program = k.base; signature = k.sig } };

    ghost invariant = { λ k. IsLeastSignature k.base k.sig × AreKept k.base k.sig k.rows.items × AreOverriders k.base k.overriders.items × (k.broken ≡ false → pairs_rows k.base k.sig ≡ []) };
}

impl Kept {
    /// What is kept of a program whose bodies have these rows under its least signature, and which has these methods that override; `broken` tells whether
    /// an overriding pair breaks a rule.
    pub(crate) fn of(
        names: Names,
        base: BaseTyped,
        sig: Sig,
        rows: Vec<Seq<Row>>,
        overriders: Vec<Overrider>,
        broken: bool,
    ) -> Kept
        requires least { IsLeastSignature base sig }
        requires rows { AreKept base sig rows.items }
        requires overriders { AreOverriders base overriders.items }
        requires pairs { broken ≡ false → pairs_rows base sig ≡ [] }
        ensures { result ≡ record { names = names; program = base; signature = sig } }
    {
        Kept {
            names,
            base,
            sig,
            rows,
            overriders,
            broken,
        }
    }

    /// The texts of the program's names.
    pub(crate) fn names(&self) -> &Names
        ensures { result.now ≡ self.now.names }
    {
        &self.names
    }

    /// The program.
    pub(crate) fn program(&self) -> &Program
        ensures is { result.now ≡ self.now.program }
        ensures regular { Regular self.now.program }
        ensures least { IsLeastSignature self.now.program self.now.signature }
    {
        self.base.program()
    }

    /// The program with its index.
    pub(crate) fn indexed(&self) -> &IndexedProgram
        ensures is { result.now ≡ self.now.program }
        ensures regular { Regular self.now.program }
        ensures least { IsLeastSignature self.now.program self.now.signature }
    {
        self.base.indexed()
    }

    /// The least signature.
    pub(crate) fn sig(&self) -> &Sig
        ensures { result.now ≡ self.now.signature }
    {
        &self.sig
    }

    /// The rows of a body; none of one that isn't there.
    pub(crate) fn rows(&self, body: u32) -> &[Row]
        ensures regular { Regular self.now.program }
        ensures is { body < length self.now.program.bodies
            → result.now ≡ least_rows self.now.program self.now.signature body }
    {
        let _program = self.base.program();
        match self.rows.as_slice().get(body as usize) {
            None => &[],
            Some(rows) => rows.as_slice(),
        }
    }

    /// The program's methods that override.
    pub(crate) fn overriders(&self) -> &[Overrider]
        ensures { AreOverriders self.now.program result.now }
    {
        self.overriders.as_slice()
    }

    /// Whether an overriding pair breaks a rule.
    pub(crate) fn has_broken_pairs(&self) -> bool
        ensures { result ≡ false → pairs_rows self.now.program self.now.signature ≡ [] }
    {
        self.broken
    }
}

/// What files come to before their rules are looked at: over the kept program, where the trees are those of its files; else
/// nothing is told of it.
#[tactic(auto, using(crate::proofs::Comparing::nothing_stands))]
pub(crate) fn type_again<R: Threads + Sync, G: Gate + Sync>(
    rt: &R,
    alloc: Global,
    workers: Workers,
    infer: Infer,
    reads: &[SourceRead],
    last: &[SourceFile],
    trees: Vec<Option<KeptTree>>,
    kept: &mut Option<Kept>,
    typing: &Option<KeptTyping>,
    solving: &G,
) -> Result<TypedOn, OutOfMemory>
    requires few { length reads.now ≤ most_files }
    requires trees { AreKeptTrees last.now trees.items }
    requires stands { StandsOn infer trees.items kept.old typing.now }
    ensures typed { IfOk result (λ on. (files : List FileOf) → AreReads reads.now files
        → (placed : List PlacedFile) × IsTypedOr infer files on.typed.names placed on.typed.rows on.typed.base) }
    ensures kept { IfOk result (λ on. (files : List FileOf) → AreReads reads.now files
        → AreKeptTrees files on.typed.kept.items) }
    ensures typing { IfOk result (λ on. IsSome on.typed.base → (placed : List PlacedFile)
        × HaveTrees on.typed.kept.items placed × IsKeptOf infer placed on.typed.base on.typed.typing) }
    ensures unchanged { IfOk result (λ on. StandsIn kept.old on.typed.base on.unchanged) }
    ensures same { kept.new ≡ kept.old }
{
    match typing {
        None => {
            let typed = type_files_again(rt, solving, alloc, workers, infer, reads, last, trees)?;
            Ok(TypedOn {
                typed,
                unchanged: nothing_unchanged(alloc),
            })
        }
        Some(typing) => match kept {
            None => unreachable!(),
            Some(kept) => type_files_on(
                rt,
                solving,
                alloc,
                workers,
                infer,
                reads,
                last,
                trees,
                &mut kept.base,
                typing,
            ),
        },
    }
}
