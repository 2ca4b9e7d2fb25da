//! Solved files, whose causes are asked for.
ghost use Rattle.std.specs.Prelude.{◌≡◌, IfOk};
ghost use Rattle.jn_notes.specs.Asked.{item_of as item_of_row};
ghost use Rattle.jn_notes.specs.Noted.{AreNotesOf};
ghost use Rattle.jn_reasons_law.specs.Choice.{IsFirstChain};
ghost use Rattle.jn_reasons_law.specs.Items.{Stands};
ghost use Rattle.jn_lsp_solved.specs.Reasons.{AreReasons};
ghost use Rattle.jn_lsp_solved.specs.Solving as spec;

use crate::reasons::reasons_by;
use crate::solved::{Parts, Solved};
use jn_base::{OutOfMemory, Row};
use jn_chain::first_chain;
use jn_note_words::{Note, Notes};
use jn_notes::explain::item_of;
use jn_notes::notes_of_rows;
use jn_origins::LeastOrigins;
use jn_origins::law::what_stands_has_a_chain;
use jn_reasons_law::{Item, Step};
use std::alloc::Global;
use std::marker::Model;

/// Solved files, with the origins of what stands in the signature and the tables of their program. Contracts see the solved files.
#[derive(Drop)]
pub struct Traced<'a> {
    solved: &'a Solved<'a>,
    origins: LeastOrigins<'a>,
}

impl<'a> Model for Traced<'a> {
    ghost use Rattle.jn_lsp_solved.specs.Solving.{AreOriginsOf, SolvedFiles};

    ghost Value = { SolvedFiles };

    ghost view = { λ t. t.solved.now };

    ghost invariant = { λ t. AreOriginsOf t.solved.now t.origins };
}

impl<'a> Traced<'a> {
    /// Solved files, with their origins.
    ///
    /// # Errors
    /// No memory was found.
    pub fn new(alloc: Global, solved: &'a Solved<'a>) -> Result<Traced<'a>, OutOfMemory>
        ensures { IfOk result (λ traced. traced ≡ solved.now) }
    {
        let parts = solved.parts();
        let origins = LeastOrigins::new(alloc, parts.indexed, parts.sig, parts.tables)?;
        Ok(Traced { solved, origins })
    }

    /// The solved files.
    pub fn solved_files(&self) -> &'a Solved<'a>
        ensures { result.now ≡ self.now }
    {
        self.solved
    }

    /// What holds of all solved files.
    pub fn facts(&self)
        ensures { spec.AreSolved self.now }
    {
        self.solved.facts();
    }

    /// The parts of the solved files, with what holds of them.
    pub fn parts(&self) -> Parts<'a>
        ensures are { spec.solved_of result ≡ self.now }
        ensures hold { spec.AreParts result }
    {
        self.solved.parts()
    }

    /// The item that a row speaks of, where a chain says something of it.
    pub fn item_of(&self, row: Row) -> Option<Item>
        ensures { result ≡ item_of_row self.now.program self.now.sig row self.now.tables }
    {
        let parts = self.parts();
        item_of(
            parts.program,
            parts.sig,
            parts.tables,
            parts.overriders,
            row,
        )
    }

    /// The first chain of causes of what stands.
    ///
    /// # Errors
    /// No memory was found.
    pub fn chain_from(&self, alloc: Global, item: Item) -> Result<Vec<Step>, OutOfMemory>
        requires stands { Stands self.now.sig self.now.tables item }
        ensures { IfOk result (λ steps.
            IsFirstChain self.now.program self.now.sig self.now.tables item steps.items) }
    {
        what_stands_has_a_chain();
        self.facts();
        let steps = first_chain(alloc, &self.origins, item)?;
        Ok(steps)
    }

    /// The notes of the first chain of each bit that a slot has: that it may be null, and then that it may be under construction.
    ///
    /// # Errors
    /// No memory was found.
    pub fn reasons_of(&self, alloc: Global, slot: u32) -> Result<Vec<Note>, OutOfMemory>
        ensures { IfOk result (λ notes.
            AreReasons self.now.names self.now.program self.now.sig self.now.tables slot notes.items) }
    {
        let parts = self.parts();
        let notes = reasons_by(alloc, &parts, &self.origins, slot)?;
        Ok(notes)
    }

    /// The notes of each row, in the rows' order.
    ///
    /// # Errors
    /// No memory was found.
    pub fn notes_of(&self, alloc: Global, rows: &[Row]) -> Result<Vec<Notes>, OutOfMemory>
        ensures { IfOk result
            (λ notes. AreNotesOf self.now.program self.now.names self.now.sig rows.now notes.items) }
    {
        let parts = self.parts();
        let notes = notes_of_rows(alloc, parts.indexed, parts.names, parts.sig, rows)?;
        Ok(notes)
    }
}
