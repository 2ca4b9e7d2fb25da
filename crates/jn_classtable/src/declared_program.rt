//! What files declare, with the program of it.
ghost use Rattle.std.specs.Prelude.{◌≡◌, IfOk, IfSome};
ghost use Rattle.jn_index.specs.Index.{IsIndex};
ghost use Rattle.jn_classtable.specs.Built.{IsTable, SmallTable};
ghost use Rattle.jn_classtable.specs.Table.{table};

use crate::counting::is_small;
use crate::table::table;
use jn_base::{OutOfMemory, Seq};
use jn_declaration_rules::circles::seems_circular;
use jn_heads::declarations::Declarations;
use jn_heads::head::ClassHead;
use jn_index::index::Index;
use jn_index::indexed::IndexedProgram;
use jn_points::Program;
use std::alloc::{AllocError, Global};
use std::marker::Model;

/// The heads of files, of which numbers of 32 bits are enough for all, with the program that they declare, which has no bodies, and its
/// index. Contracts see the heads, whose `table` is the program.
#[derive(Drop)]
pub struct DeclaredProgram {
    declared: Declarations,
    program: IndexedProgram,
}

impl Model for DeclaredProgram {
    ghost use Rattle.std.specs.Prelude.{List};
    ghost use Rattle.jn_heads.specs.declared.head.ClassHead.{ClassHead};
    ghost use Rattle.jn_classtable.specs.Built.{IsTable};

    ghost Value = { List ClassHead };

    ghost view = { λ d. d.declared };

    ghost invariant = { λ d. IsTable d.declared d.program };
}

/// The index of members; none where some class is its own supertype, where it would be looked for in vain.
fn index_of(alloc: Global, program: &Program) -> Result<Option<Index>, AllocError>
    ensures { IfOk result (λ o. IfSome o (λ i. IsIndex program.now i)) }
{
    if seems_circular(alloc, program)? {
        return Ok(None);
    }
    Index::new(alloc, program)
}

impl DeclaredProgram {
    /// What is declared, with its program and an index of it.
    fn of(declared: Declarations, program: Program, index: Option<Index>) -> DeclaredProgram
        requires table { IsTable declared program }
        requires index { IfSome index (λ i. IsIndex program i) }
        ensures { result ≡ declared }
    {
        DeclaredProgram {
            declared,
            program: IndexedProgram::of(program, index),
        }
    }

    /// The program of these heads, with its index.
    ///
    /// # Errors
    /// No memory was found, or numbers of 32 bits aren't enough.
    pub fn new(alloc: Global, heads: Seq<ClassHead>) -> Result<DeclaredProgram, OutOfMemory>
        ensures { IfOk result (λ d. d ≡ heads) }
    {
        if !is_small(heads.as_slice()) {
            return Err(OutOfMemory);
        }
        let declared = Declarations::new(alloc, heads)?;
        let program = table(alloc, &declared)?;
        let index = index_of(alloc, &program)?;
        Ok(DeclaredProgram::of(declared, program, index))
    }

    /// The program of these heads, with an index that was made before.
    ///
    /// # Errors
    /// Those of [`DeclaredProgram::new`].
    pub fn with_index(
        alloc: Global,
        heads: Seq<ClassHead>,
        index: Option<Index>,
    ) -> Result<DeclaredProgram, OutOfMemory>
        requires { IfSome index (λ i. IsIndex (table heads) i) }
        ensures { IfOk result (λ d. d ≡ heads) }
    {
        if !is_small(heads.as_slice()) {
            return Err(OutOfMemory);
        }
        let declared = Declarations::new(alloc, heads)?;
        let program = table(alloc, &declared)?;
        Ok(DeclaredProgram::of(declared, program, index))
    }

    /// What holds of every declared program: numbers of 32 bits are enough.
    pub fn facts(&self)
        ensures { SmallTable self.now }
    {
        let _program = &self.program;
    }

    /// The heads, by their names.
    pub fn declared(&self) -> &Declarations
        ensures { result.now ≡ self.now }
    {
        &self.declared
    }

    /// The program.
    pub fn program(&self) -> &Program
        ensures { result.now ≡ table self.now }
    {
        self.program.program()
    }

    /// The program with its index.
    pub fn indexed(&self) -> &IndexedProgram
        ensures { result.now ≡ table self.now }
    {
        &self.program
    }

    /// Gives up the heads and the program.
    pub fn into_parts(self) -> (Seq<ClassHead>, IndexedProgram)
        ensures heads { result.0 ≡ self }
        ensures program { result.1 ≡ table self }
    {
        let DeclaredProgram { declared, program } = self;
        (declared.into_heads(), program)
    }
}
