//! The names in scope (JLS 6.3).
ghost use Rattle.std.specs.Prelude.{◌≡◌, ◌-◌, ◌++◌, ◌∷◌, [], IfOk, OnErr, OnOk, drop, length};
ghost use Rattle.jn_lower_stmt.specs.Views.{declared_local, rows_of};
ghost use Rattle.jn_scopes.specs.Views.{scope_in};

use jn_base::{ClassNo, NameNo, OutOfMemory, RegNo, Row};
use jn_index::indexed::IndexedProgram;
use jn_points::BaseType;
use jn_scopes::{Bound, Context, Faults, Variable, Variables};
use std::alloc::Global;
use std::marker::Model;

/// A parameter or local as it is declared: its name, register and type, the qualifier that is written at it, whether it is
/// final, and the row of its declared type, where there is one.
#[derive(Clone, Copy)]
pub struct Declared {
    pub name: NameNo,
    pub reg: RegNo,
    pub base: BaseType,
    pub bound: Option<Bound>,
    pub fixed: bool,
    pub fault: Option<Row>,
}

/// The names in scope with the last declared one last, and the rows of all declared types so far.
#[derive(Drop)]
pub struct Names {
    variables: Variables,
    rows: Vec<Row>,
}

impl Model for Names {
    ghost use Rattle.std.specs.Prelude.{length};
    ghost use Rattle.jn_lowering.specs.Scopes.{Scope};
    ghost use Rattle.jn_scopes.specs.Views.{scope_of};
    ghost use Rattle.jn_lower_stmt.specs.Ranges.{Within};

    ghost Value = { Scope };

    ghost view = { λ n. scope_of n.rows.items n.variables };

    ghost invariant = { λ n. Within (length n.rows.items) n.variables };
}

fn put(rows: &mut Vec<Row>, fault: Option<Row>) -> Result<(), OutOfMemory>
    ensures ok { OnOk result (rows.new.items ≡ rows.old.items ++ rows_of fault) }
    ensures err { OnErr result (rows.new.items ≡ rows.old.items) }
{
    match fault {
        None => Ok(()),
        Some(row) => match rows.push(row) {
            Ok(()) => Ok(()),
            Err(_) => Err(OutOfMemory),
        },
    }
}

/// Adds the rows, and gives their places.
fn put_rows(rows: &mut Vec<Row>, fault: Option<Row>) -> Result<Faults, OutOfMemory>
    ensures rows { OnOk result (rows.new.items ≡ rows.old.items ++ rows_of fault) }
    ensures places { IfOk result
        (λ faults. (faults.from ≡ length rows.old.items) × (faults.to ≡ length rows.new.items)) }
    ensures err { OnErr result (rows.new.items ≡ rows.old.items) }
{
    let from = rows.len();
    put(rows, fault)?;
    let to = rows.len();
    Ok(Faults { from, to })
}

/// The local with its rows at these places.
fn variable(local: Declared, faults: Faults) -> Variable
    ensures { result
        ≡ record {
          name = local.name;
          reg = local.reg;
          base = local.base;
          bound = local.bound;
          fixed = local.fixed;
          faults = faults;
        } }
{
    Variable {
        name: local.name,
        reg: local.reg,
        base: local.base,
        bound: local.bound,
        fixed: local.fixed,
        faults,
    }
}

impl Names {
    /// No names.
    pub fn new(alloc: Global) -> Self
        ensures { result ≡ [] }
    {
        Names {
            variables: Variables::new(alloc),
            rows: Vec::new(alloc),
        }
    }

    /// How many there are.
    #[tactic(auto, using(crate::proofs::Scoping::length_scope))]
    pub fn len(&self) -> usize
        ensures { result ≡ length self.now }
    {
        self.variables.len()
    }

    /// Leaves the scope of all names but the first declared ones.
    pub fn truncate(&mut self, names: usize)
        ensures { self.new ≡ drop (length self.old - names) self.old }
    {
        self.variables.truncate(names);
    }

    /// Where an expression of a class with these names in scope stands; its temporaries have registers from the first one on.
    pub fn context<'a>(
        &'a self,
        program: &'a IndexedProgram,
        class: ClassNo,
        first: u32,
        alloc: Global,
    ) -> Context<'a>
        ensures program { result.program.now ≡ program.now }
        ensures scope { scope_in result ≡ self.now }
        ensures class { result.class ≡ class }
        ensures first { result.first ≡ first }
    {
        Context {
            program,
            scope: &self.variables,
            faults: &self.rows,
            class,
            first,
            alloc,
        }
    }

    /// Brings the name into scope.
    pub fn add(&mut self, local: Declared) -> Result<(), OutOfMemory>
        ensures { OnOk result (self.new ≡ declared_local local ∷ self.old) }
    {
        let faults = put_rows(&mut self.rows, local.fault)?;
        self.variables.push(variable(local, faults))?;
        Ok(())
    }
}
