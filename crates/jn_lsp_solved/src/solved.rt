//! Files whose program is inferred.
ghost use Rattle.std.specs.Prelude.{◌≡◌, IfOk, map};
ghost use Rattle.jn_phases.specs.Phases.{TypedProgramOf};
ghost use Rattle.jn_places.specs.PlacedView.{placed_file};
ghost use Rattle.jn_lsp_solved.specs.Solving as spec;

use crate::marked::Marked;
use jn_base::{Infer, OutOfMemory, Seq};
use jn_contrib::Overrider;
use jn_env::FlowTable;
use jn_front::{SourceRead, lex_all};
use jn_index::BaseTyped;
use jn_index::indexed::IndexedProgram;
use jn_lsp_text::Encoding;
use jn_note_words::owners::Owner;
use jn_origins::law::least_tables_are_sized;
use jn_points::Program;
use jn_recheck::FileSet;
use jn_sigs::Sig;
use jn_trees::{FileTree, Names, Token};
use std::alloc::Global;
use std::marker::Model;

/// What is inferred of a program: its methods that override, its least signature, the least tables of its bodies, and whose slots are whose.
#[derive(Drop)]
pub(crate) struct Inferred {
    pub overriders: Vec<Overrider>,
    pub sig: Sig,
    pub tables: Vec<FlowTable>,
    pub owners: Vec<Option<Owner>>,
}

/// Files that no phase before the rules refuses, where these members are inferred, with the unit of positions in them: the texts of their names,
/// their trees, their program with its index, its methods that override, its least signature, the least tables of its bodies, and whose slots are
/// whose. Contracts see the files with the texts of their names, the program, the signature and the tables.
#[derive(Drop)]
pub struct Solved<'a> {
    infer: Infer,
    encoding: Encoding,
    files: &'a FileSet,
    reads: Vec<SourceRead>,
    names: Names,
    trees: Vec<FileTree>,
    base: BaseTyped,
    overriders: Vec<Overrider>,
    sig: Sig,
    tables: Vec<FlowTable>,
    owners: Vec<Option<Owner>>,
}

impl<'a> Model for Solved<'a> {
    ghost use Rattle.jn_contrib.specs.Entries.{AreOverriders};
    ghost use Rattle.jn_note_words.specs.Owned.{AreOwners};
    ghost use Rattle.jn_lsp_solved.specs.Solving.{AreReadFrom, AreSolved, HaveTrees, SolvedFiles, solved_by};

    ghost Value = { SolvedFiles };

    ghost view = { λ s. solved_by s.infer s.encoding s.files.now s.names s.base s.sig s.tables.items };

    ghost invariant = { λ s. AreSolved (solved_by s.infer s.encoding s.files.now s.names s.base s.sig s.tables.items)
        × HaveTrees (solved_by s.infer s.encoding s.files.now s.names s.base s.sig s.tables.items) s.trees.items
        × AreReadFrom s.files.now s.reads.items
        × AreOverriders s.base s.overriders.items
        × AreOwners s.base s.owners.items };
}

/// What solved files are made of.
#[derive(Clone, Copy)]
pub struct Parts<'a> {
    /// The members that are inferred.
    pub infer: Infer,
    /// The unit of positions.
    pub encoding: Encoding,
    pub files: &'a FileSet,
    /// The texts of the files' names.
    pub names: &'a Names,
    pub trees: &'a [FileTree],
    pub program: &'a Program,
    /// The program with its index.
    pub indexed: &'a IndexedProgram,
    /// The program's methods that override.
    pub overriders: &'a [Overrider],
    /// The program's least signature.
    pub sig: &'a Sig,
    /// The least table of each body.
    pub tables: &'a [FlowTable],
    /// What has each slot.
    pub owners: &'a [Option<Owner>],
}

impl<'a> Solved<'a> {
    /// Files that were read so, whose trees and program these are, and of whose program this is inferred.
    pub(crate) fn of(
        infer: Infer,
        encoding: Encoding,
        files: &'a FileSet,
        reads: Vec<SourceRead>,
        names: Names,
        trees: Vec<FileTree>,
        base: BaseTyped,
        inferred: Inferred,
    ) -> Solved<'a>
        requires reads { spec.AreReadFrom files.now reads.items }
        requires typed { (typed : TypedProgramOf infer files.now names base)
            × (typed.of_files.trees ≡ map placed_file trees.items) }
        requires inferred { spec.IsInferredOf base inferred }
        ensures { result
            ≡ spec.solved_by infer encoding files.now names base inferred.sig inferred.tables.items }
    {
        let Inferred {
            overriders,
            sig,
            tables,
            owners,
        } = inferred;
        Solved {
            infer,
            encoding,
            files,
            reads,
            names,
            trees,
            base,
            overriders,
            sig,
            tables,
            owners,
        }
    }

    /// What holds of all solved files: their program can be inferred, and the signature and the tables are the least ones.
    pub fn facts(&self)
        ensures { spec.AreSolved self.now }
    {
        let _files = self.files;
    }

    /// The parts, with what holds of them.
    pub fn parts(&self) -> Parts<'_>
        ensures are { spec.solved_of result ≡ self.now }
        ensures hold { spec.AreParts result }
    {
        least_tables_are_sized();
        Parts {
            infer: self.infer,
            encoding: self.encoding,
            files: self.files,
            names: &self.names,
            trees: &self.trees,
            program: self.base.program(),
            indexed: self.base.indexed(),
            overriders: &self.overriders,
            sig: &self.sig,
            tables: &self.tables,
            owners: &self.owners,
        }
    }

    /// The tokens of the files, file by file.
    ///
    /// # Errors
    /// No memory was found.
    pub fn tokens(&self, alloc: Global) -> Result<Vec<Seq<Token>>, OutOfMemory>
        ensures { IfOk result (λ tokens. spec.AreTokens self.now tokens.items) }
    {
        let tokens = lex_all(alloc, &self.reads)?;
        Ok(tokens)
    }

    /// The files, of which many places are asked for or few.
    ///
    /// # Errors
    /// No memory was found.
    pub fn marked(&self, alloc: Global, many: bool) -> Result<Marked<'a>, OutOfMemory>
        ensures { IfOk result (λ marked. marked
            ≡ record { encoding = self.now.encoding; files = self.now.files }) }
    {
        let marked = Marked::new(alloc, self.encoding, self.files, many)?;
        Ok(marked)
    }
}
