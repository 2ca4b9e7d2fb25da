//! Programs of which notes are made.
ghost use Rattle.std.specs.Prelude.{◌≡◌};
ghost use Rattle.jn_inference_law.specs.Solution.{IsLeastSignature};
ghost use Rattle.jn_tables_law.specs.Inferable.{IsInferable};
ghost use Rattle.jn_notes.specs.Noted.{AreLeastTables};
ghost use Rattle.jn_notes.specs.Walked.{subject_of};
ghost use Rattle.jn_note_words.specs.Owned.{AreOwners};

use jn_base::OutOfMemory;
use jn_chain::Origins;
use jn_note_words::owners::{OwnedProgram, Owner};
use jn_origins::{Basis, LeastOrigins};
use jn_points::Program;
use jn_reasons::{Cause, Source};
use jn_trees::Names;
use std::alloc::Global;
use std::marker::Model;

/// A program under its least signature, with the texts of its names, the least tables of its bodies, what has each of its slots, and the origins of what
/// stands in the signature and the tables. Contracts see all but the last two.
#[derive(Drop)]
pub struct SolvedProgram<'a> {
    names: &'a Names,
    owners: &'a [Option<Owner>],
    origins: &'a LeastOrigins<'a>,
}

impl<'a> Model for SolvedProgram<'a> {
    ghost use Rattle.jn_notes.specs.Walked.{IsSolved, Subject, subject_of};

    ghost Value = { Subject };

    ghost view = { λ p. subject_of p.names.now p.origins.now };

    ghost invariant = { λ p. IsSolved p.origins.now p.owners.now };
}

impl<'a> SolvedProgram<'a> {
    /// The program of these origins, which are over what is least.
    pub fn new(
        names: &'a Names,
        owners: &'a [Option<Owner>],
        origins: &'a LeastOrigins<'a>,
    ) -> SolvedProgram<'a>
        requires least { IsLeastSignature origins.now.program origins.now.sig }
        requires solved { AreLeastTables origins.now.program origins.now.sig origins.now.tables }
        requires owners { AreOwners origins.now.program owners.now }
        ensures { result ≡ subject_of names.now origins.now }
    {
        SolvedProgram {
            names,
            owners,
            origins,
        }
    }

    /// What holds of all of them: the program can be inferred, and the signature and the tables are the least ones.
    pub fn facts(&self)
        ensures inferable { IsInferable self.now.program }
        ensures least { IsLeastSignature self.now.program self.now.sig }
        ensures solved { AreLeastTables self.now.program self.now.sig self.now.tables }
    {
        self.origins.facts();
    }

    /// The program.
    pub fn program(&self) -> &'a Program
        ensures { result.now ≡ self.now.program }
    {
        self.origins.program()
    }

    /// The texts of its names.
    pub fn names(&self) -> &'a Names
        ensures { result.now ≡ self.now.names }
    {
        self.names
    }

    /// The program with its signature and its tables.
    pub fn basis(&self) -> Basis<'a>
        ensures program { result.program.now ≡ self.now.program }
        ensures sig { result.sig.now ≡ self.now.sig }
        ensures tables { result.tables.now ≡ self.now.tables }
    {
        self.origins.basis()
    }

    /// The program with what has its slots.
    pub fn owned(&self) -> OwnedProgram<'a>
        ensures { result ≡ self.now.program }
    {
        OwnedProgram::new(self.origins.program(), self.owners)
    }
}

impl<'a> Origins for SolvedProgram<'a> {
    ghost use Rattle.jn_notes.specs.Walked.{ground_in};

    ghost describe = { λ p. ground_in p };

    fn causes(&self, alloc: Global, source: Source) -> Result<Vec<Cause>, OutOfMemory> {
        let causes = self.origins.causes(alloc, source)?;
        Ok(causes)
    }
}
