//! A class table: the program of files before its bodies are lowered, with what holds of it.
ghost use Rattle.std.specs.Prelude.{◌≡◌, ◌<◌, ◌^◌, List, [], length};
ghost use Rattle.jn_points.specs.declared.program.Body.{Body as BodyOf};
ghost use Rattle.jn_heads.specs.Heads.{all_heads};
ghost use Rattle.jn_classtable.specs.Table.{bodies_of_all, program_with, table};
ghost use Rattle.jn_classtable.specs.Rows.{called, t_rows};
ghost use Rattle.jn_index.specs.Sizes.{ParamsFit};
ghost use Rattle.jn_classtable.specs.RegularTable.{RegularTable};
ghost use Rattle.jn_classtable.specs.Built.{HaveTable};

use crate::declared_program::DeclaredProgram;
use jn_base::Seq;
use jn_heads::head::ClassHead;
use jn_index::indexed::IndexedProgram;
use jn_points::{Program, SlotInfo};
use std::marker::Model;

/// The class table of files without rows T1 to T10. Contracts see the list of its heads, whose `table` is its program, and the slots by
/// the choice of members that are inferred.
#[derive(Drop)]
pub struct ClassTable {
    declared: DeclaredProgram,
    slots: Seq<SlotInfo>,
}

impl Model for ClassTable {
    ghost use Rattle.jn_heads.specs.Inferred.{Tabled};
    ghost use Rattle.jn_classtable.specs.Built.{HaveTable};

    ghost Value = { Tabled };

    ghost view = { λ t. record { heads = t.declared; slots = t.slots } };

    ghost invariant = { λ t. HaveTable t.declared };
}

impl ClassTable {
    pub(crate) fn new(declared: DeclaredProgram, slots: Seq<SlotInfo>) -> ClassTable
        requires { HaveTable declared }
        ensures { result ≡ record { heads = declared; slots = slots } }
    {
        ClassTable { declared, slots }
    }

    /// The program without bodies, with the slots where private members alone are inferred.
    pub fn program(&self) -> &Program
        ensures { result.now ≡ table self.now.heads }
    {
        self.declared.program()
    }

    /// The same with its index.
    pub fn indexed(&self) -> &IndexedProgram
        ensures { result.now ≡ table self.now.heads }
    {
        self.declared.indexed()
    }

    /// Gives up the table for its heads and its program, which has no bodies yet, with the slots by the choice and its index.
    pub fn into_parts(self) -> (Seq<ClassHead>, IndexedProgram)
        ensures heads { result.0 ≡ self.heads }
        ensures program { result.1 ≡ record (table self.heads) { slots = self.slots } }
    {
        let ClassTable { declared, slots } = self;
        let (heads, program) = declared.into_parts();
        (heads, program.with_slots(slots))
    }

    /// What the types declare, in the order of files and text.
    pub fn heads(&self) -> &[ClassHead]
        ensures { result.now ≡ self.now.heads }
    {
        self.declared.declared().heads()
    }

    /// What holds of every class table: it has no row, its classes, fields, methods and parameters have numbers of 32 bits, and
    /// whatever bodies are added, as many as methods have one, the parts of a regular program that don't speak of bodies hold.
    pub fn facts(&self)
        ensures rows { t_rows self.now.heads ≡ [] }
        ensures classes { length (table self.now.heads).classes < 2 ^ 32 }
        ensures fields { length (table self.now.heads).fields < 2 ^ 32 }
        ensures methods { length (table self.now.heads).methods < 2 ^ 32 }
        ensures parameters { ParamsFit (table self.now.heads) }
        ensures regular { (bodies : List BodyOf)
            → length bodies ≡ bodies_of_all (all_heads self.now.heads)
            → RegularTable (program_with self.now.heads bodies) (called self.now.heads) }
    {
        self.declared.facts();
    }
}
