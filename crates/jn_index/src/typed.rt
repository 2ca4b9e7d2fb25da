//! Base-typed programs.
ghost use Rattle.std.specs.Prelude.{◌≡◌, IfSome};
ghost use Rattle.jn_index.specs.Index.{IsIndex};
ghost use Rattle.jn_points.specs.BaseRows.{NoBaseRows};
ghost use Rattle.jn_points.specs.Regular.{Regular};

use crate::index::Index;
use crate::indexed::IndexedProgram;
use jn_points::Program;
use std::marker::Model;

/// A program that is base-typed: it has no row J7 to J10 (JLS 8, 5.1 to 5.3, 8.4.7, 14.17, 15 and
/// 16), with its index. Contracts see the program.
#[derive(Drop)]
pub struct BaseTyped {
    program: IndexedProgram,
}

impl Model for BaseTyped {
    ghost use Rattle.jn_points.specs.declared.program.Program.{Program as ProgramOf};
    ghost use Rattle.jn_points.specs.Regular.{Regular};
    ghost use Rattle.jn_points.specs.BaseRows.{NoBaseRows};

    ghost Value = { ProgramOf };

    ghost view = { λ a. a.program };

    ghost invariant = { λ a. Regular a.program × NoBaseRows a.program };
}

impl BaseTyped {
    /// Takes a program that has no row of base typing.
    pub fn of(program: IndexedProgram) -> BaseTyped
        requires regular { Regular program }
        requires typed { NoBaseRows program }
        ensures { result ≡ program }
    {
        BaseTyped { program }
    }

    /// The program, which is regular, and has no row of base typing.
    pub fn program(&self) -> &Program
        ensures is { result.now ≡ self.now }
        ensures regular { Regular self.now }
        ensures typed { NoBaseRows self.now }
    {
        self.program.program()
    }

    /// The program with its index.
    pub fn indexed(&self) -> &IndexedProgram
        ensures is { result.now ≡ self.now }
        ensures regular { Regular self.now }
        ensures typed { NoBaseRows self.now }
    {
        &self.program
    }

    /// Takes the index out of the program, whose lists are then all there is to search.
    pub fn take_index(&mut self) -> Option<Index>
        ensures program { self.new ≡ self.old }
        ensures index { IfSome result (λ i. IsIndex self.old i) }
    {
        self.program.take_index()
    }
}
