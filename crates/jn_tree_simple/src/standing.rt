//! Where a statement stands: the names in scope, and how many locals there are.
ghost use Rattle.std.specs.Prelude.{◌≡◌, ◌+◌, [], length};
ghost use Rattle.jn_lowering.specs.Locals.{declared, has_value, is_some, with_local as in_scope};
ghost use Rattle.jn_lowering.specs.Scopes.{local_in};
ghost use Rattle.jn_lower_stmt.specs.Views.{declared_local, rows_of};
ghost use Rattle.jn_meaning.specs.Statements as spec;
ghost use Rattle.jn_places.specs.PlacedView.{placed_declarator, placed_statement};
ghost use Rattle.jn_scopes.specs.Views.{bound_of, scope_in};
ghost use Rattle.jn_tree_world.specs.Outcomes.{Found};
ghost use Rattle.jn_tree_simple.specs.Standings.{back_to, standing_of};

use jn_base::{ClassNo, NameNo, RegNo};
use jn_index::indexed::IndexedProgram;
use jn_lower_stmt::names::{Declared, Names};
use jn_lower_stmt::registers::all_declared;
use jn_lower_stmt::state::LocalKind;
use jn_scopes::{Context, Variables, lookup};
use jn_tree_world::Halt;
use jn_trees::{Declarator, Stmt};
use std::alloc::Global;
use std::slice;

/// What doesn't change within a body: the program, and the class in which the body stands.
#[derive(Clone, Copy)]
pub struct Site<'a> {
    pub program: &'a IndexedProgram,
    pub class: ClassNo,
    pub alloc: Global,
}

/// The names in scope, and the number of the next local.
#[derive(Drop)]
pub struct Standing {
    pub scope: Names,
    pub count: usize,
}

/// What is put back after a statement: how many names were in scope before it, and how many locals there were.
#[derive(Clone, Copy)]
pub struct Mark {
    pub names: usize,
    pub count: usize,
}

impl Site<'_> {
    /// Where an expression with these names in scope stands.
    pub fn context<'a>(&'a self, scope: &'a Names) -> Context<'a>
        ensures program { result.program.now ≡ self.now.program.now }
        ensures scope { scope_in result ≡ scope.now }
        ensures class { result.class ≡ self.now.class }
    {
        scope.context(self.program, self.class, 0, self.alloc)
    }

    /// Where an expression with no local in scope stands.
    pub fn outside<'a>(&'a self, none: &'a Variables) -> Context<'a>
        requires none { none.now ≡ [] }
        ensures program { result.program.now ≡ self.now.program.now }
        ensures scope { scope_in result ≡ [] }
        ensures class { result.class ≡ self.now.class }
    {
        Context {
            program: self.program,
            scope: none,
            faults: &[],
            class: self.class,
            first: 0,
            alloc: self.alloc,
        }
    }

    /// Whether one of the names is this one.
    fn has_local(&self, scope: &Names, name: NameNo) -> bool
        ensures { result ≡ is_some (local_in scope.now name.0) }
    {
        lookup::local_in(&self.context(scope), name).is_some()
    }
}

/// Both numbers together, which fit where memory does.
pub fn sum(a: usize, b: usize) -> Result<usize, Halt>
    ensures { Found (λ n. n ≡ a + b) result }
{
    match a.checked_add(b) {
        Some(sum) => Ok(sum),
        None => Err(Halt::OutOfMemory),
    }
}

/// How many locals there are after the statement, where there are so many before it.
pub fn count_behind(tree: &Stmt, count: usize) -> Result<usize, Halt>
    ensures { Found (λ n. n ≡ count + declared (placed_statement tree.now)) result }
{
    match all_declared(slice::from_ref(tree)) {
        Err(_) => Err(Halt::OutOfMemory),
        Ok(more) => sum(count, more),
    }
}

/// The number of a local, which fits where memory does.
pub fn local_at(count: usize, more: usize) -> Result<RegNo, Halt>
    ensures { Found (λ r. r.0 ≡ count + more) result }
{
    let number = sum(count, more)?;
    if number < 0xFFFF_FFFF {
        Ok(RegNo(number as u32))
    } else {
        Err(Halt::OutOfMemory)
    }
}

/// Whether a declarator has an initializer.
pub fn has_value(declarator: &Declarator) -> bool
    ensures { result ≡ has_value (placed_declarator declarator.now) }
{
    declarator.value.is_some()
}

impl Standing {
    /// How many names and locals there are.
    pub fn mark(&self) -> Mark
        ensures names { result.names ≡ length self.now.scope }
        ensures count { result.count ≡ self.now.count }
    {
        Mark {
            names: self.scope.len(),
            count: self.count,
        }
    }

    /// Leaves the scope of all names but the first declared ones, and the locals but so many.
    pub fn back(&mut self, to: Mark)
        ensures { standing_of self.new ≡ back_to (standing_of self.old) to.names to.count }
    {
        self.scope.truncate(to.names);
        self.count = to.count;
    }

    /// So many locals more, without names.
    pub fn further(&mut self, more: usize) -> Result<(), Halt>
        ensures { Found (λ u. standing_of self.new ≡ spec.further (standing_of self.old) more)
            result }
    {
        self.count = sum(self.count, more)?;
        Ok(())
    }

    /// Brings a local into scope, unless its name is in scope already.
    fn enter(&mut self, b: &Site, local: Declared) -> Result<(), Halt>
        ensures scope { Found (λ u. self.new.scope ≡ in_scope self.old.scope (declared_local local))
            result }
        ensures count { self.new.count ≡ self.old.count }
    {
        if b.has_local(&self.scope, local.name) {
            return Ok(());
        }
        match self.scope.add(local) {
            Err(_) => Err(Halt::OutOfMemory),
            Ok(()) => Ok(()),
        }
    }

    /// The next local has the name (JLS 6.3).
    pub fn declare(
        &mut self,
        b: &Site,
        name: NameNo,
        kind: LocalKind,
        fixed: bool,
    ) -> Result<(), Halt>
        ensures { Found (λ u. standing_of self.new
            ≡ spec.declares (standing_of self.old) name.0 kind.base (bound_of kind.bound) fixed
            (rows_of kind.fault)) result }
    {
        let reg = local_at(self.count, 0)?;
        let local = Declared {
            name,
            reg,
            base: kind.base,
            bound: kind.bound,
            fixed,
            fault: kind.fault,
        };
        self.enter(b, local)?;
        self.further(1)
    }
}
