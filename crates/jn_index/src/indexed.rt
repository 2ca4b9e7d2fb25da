//! A program with an index of it: owned, where there may be none, and lent.
ghost use Rattle.std.specs.Prelude.{◌≡◌, IfOk, IfSome, MatchOption};
ghost use Rattle.jn_points.specs.Members.{fits};
ghost use Rattle.jn_member_tables.specs.Numbers.{places_of};
ghost use Rattle.jn_index.specs.Index.{IsIndex, owners, field_owners};
ghost use Rattle.jn_index.specs.Sizes.{Few};

use crate::index::Index;
use crate::sizes::is_counted;
use crate::{fits, law};
use jn_base::Seq;
use jn_points::{BaseType, Body, Program, SlotInfo};
use std::alloc::{AllocError, Global};
use std::marker::Model;

/// A program with its index, both lent. What is looked up by an index takes this, so that the index is always the program's. Contracts see
/// the program.
#[derive(Drop)]
pub struct Indexed<'a> {
    program: &'a Program,
    index: &'a Index,
}

impl<'a> Model for Indexed<'a> {
    ghost use Rattle.jn_points.specs.declared.program.Program.{Program as ProgramOf};
    ghost use Rattle.jn_index.specs.Index.{IsIndex};
    ghost use Rattle.jn_index.specs.Sizes.{Few};

    ghost Value = { ProgramOf };

    ghost view = { λ p. p.program.now };

    ghost invariant = { λ p. Few p.program.now × IsIndex p.program.now p.index.now };
}

impl<'a> Indexed<'a> {
    /// What holds of every indexed program: numbers of 32 bits are enough for its classes, fields, methods and parameters.
    pub fn facts(&self)
        ensures { Few self.now }
    {
        let _program = &self.program;
    }

    /// The program.
    pub fn program(&self) -> &'a Program
        ensures { result.now ≡ self.now }
    {
        self.program
    }

    /// The index of the program.
    pub fn index(&self) -> &'a Index
        ensures { IsIndex self.now result.now }
    {
        self.index
    }

    /// The methods that a class declares, in rising order.
    pub fn own(&self, class: u32) -> &'a [u32]
        ensures { result.now ≡ places_of class 0 (owners self.now.methods) }
    {
        self.index.own(class)
    }

    /// The fields that a class declares, in rising order.
    pub fn own_fields(&self, class: u32) -> &'a [u32]
        ensures { result.now ≡ places_of class 0 (field_owners self.now.fields) }
    {
        self.index.own_fields(class)
    }
}

/// A program whose classes, fields, methods and parameters have numbers of 32 bits, with an index of it where there is one. Contracts see
/// the program.
#[derive(Drop)]
pub struct IndexedProgram {
    program: Program,
    index: Option<Index>,
}

impl Model for IndexedProgram {
    ghost use Rattle.jn_points.specs.declared.program.Program.{Program as ProgramOf};
    ghost use Rattle.jn_index.specs.Indexed.{IsIndexed};

    ghost Value = { ProgramOf };

    ghost view = { λ p. p.program };

    ghost invariant = { λ p. IsIndexed p.program p.index };
}

impl IndexedProgram {
    /// Makes the index of a program. Where the program has none (see `Index::new`), its lists are all there is to search. There is no
    /// indexed program only where numbers of 32 bits aren't enough.
    ///
    /// # Errors
    /// No memory was found.
    pub fn new(alloc: Global, program: Program) -> Result<Option<IndexedProgram>, AllocError>
        ensures is { IfOk result (λ o. IfSome o (λ p. p ≡ program)) }
        ensures none { IfOk result (λ o. MatchOption o (Few program → ⊥) (λ p. Unit {0})) }
    {
        if !is_counted(&program) {
            return Ok(None);
        }
        let index = Index::new(alloc, &program)?;
        Ok(Some(IndexedProgram { program, index }))
    }

    /// A program with an index that was made before.
    pub fn of(program: Program, index: Option<Index>) -> IndexedProgram
        requires few { Few program }
        requires index { IfSome index (λ i. IsIndex program i) }
        ensures { result ≡ program }
    {
        IndexedProgram { program, index }
    }

    /// The program with other bodies. Its index stays.
    pub fn with_bodies(self, bodies: Seq<Body>) -> IndexedProgram
        ensures { result
            ≡ record {
              classes = self.classes;
              fields = self.fields;
              methods = self.methods;
              bodies = bodies;
              slots = self.slots;
            } }
    {
        let IndexedProgram { program, index } = self;
        IndexedProgram {
            program: law::with_bodies(program, bodies),
            index,
        }
    }

    /// The program with other slots. Its index stays.
    pub fn with_slots(self, slots: Seq<SlotInfo>) -> IndexedProgram
        ensures { result
            ≡ record {
              classes = self.classes;
              fields = self.fields;
              methods = self.methods;
              bodies = self.bodies;
              slots = slots;
            } }
    {
        let IndexedProgram { program, index } = self;
        IndexedProgram {
            program: law::with_slots(program, slots),
            index,
        }
    }

    /// What holds of every indexed program: numbers of 32 bits are enough for its classes, fields, methods and parameters.
    pub fn facts(&self)
        ensures { Few self.now }
    {
        let _program = &self.program;
    }

    /// The program.
    pub fn program(&self) -> &Program
        ensures { result.now ≡ self.now }
    {
        &self.program
    }

    /// The program with its index, where it has one.
    pub fn indexed(&self) -> Option<Indexed<'_>>
        ensures { IfSome result (λ p. p ≡ self.now) }
    {
        match &self.index {
            None => None,
            Some(index) => Some(Indexed {
                program: &self.program,
                index,
            }),
        }
    }

    /// Takes the index out of the program, whose lists are then all there is to search.
    pub fn take_index(&mut self) -> Option<Index>
        ensures program { self.new ≡ self.old }
        ensures index { IfSome result (λ i. IsIndex self.old i) }
    {
        self.index.take()
    }

    /// Whether one base type is within another (JLS 4.10).
    pub fn is_sub(&self, low: BaseType, high: BaseType) -> bool
        ensures { result ≡ fits self.now low high }
    {
        match self.indexed() {
            Some(indexed) => fits::is_sub(&indexed, low, high),
            None => jn_points::is_sub(self.program(), low, high),
        }
    }
}
