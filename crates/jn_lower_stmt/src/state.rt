//! What statements are lowered in.
ghost use Rattle.std.specs.Prelude.{◌≡◌, ◌+◌, [], IfOk, OnOk, length};
ghost use Rattle.jn_points.specs.declared.point.BaseType.TheVariants.{Int};
ghost use Rattle.jn_lowering.specs.Bases.{type_of};
ghost use Rattle.jn_lowering.specs.Scopes.{local_in};
ghost use Rattle.jn_lowering.specs.Temporaries.{no_temporaries, take_one};
ghost use Rattle.jn_lowering.specs.Locals.{declares, is_some, reserves, with_local, with_temporaries};
ghost use Rattle.jn_lowering.specs.Statements.{fresh};
ghost use Rattle.jn_scopes.specs.Views.{bound_of, scope_in};
ghost use Rattle.jn_lowering.specs.Bodies.{registers_of};
ghost use Rattle.jn_places.specs.PlacedView.{placed_view, placed_views};
ghost use Rattle.jn_lower_stmt.specs.Views.{declared_local, rows_of, with_names, with_scope, with_taken};
ghost use Rattle.jn_lower_stmt.specs.Stating.{GivesIn, GivesAllIn, TestsIn, all_valued, tested, valued, valued_outside};

use crate::names::{Declared, Names};
use jn_base::{ClassNo, NameNo, OutOfMemory, PointNo, RegNo, Row, Seq};
use jn_index::indexed::IndexedProgram;
use jn_lower_expr::emitter::Emitter;
use jn_lower_expr::lower::{condition, operands, value};
use jn_lower_expr::temporaries::{Held, Temporaries};
use jn_lower_expr::values::temporary;
use jn_points::{BaseType, Operand};
use jn_scopes::lookup::local_in;
use jn_scopes::types::type_of;
use jn_scopes::{Bound, Context, Variables};
use jn_trees::Expr;
use std::alloc::Global;
use std::marker::Model;

/// What doesn't change within a body: the program, the class in which the body stands, and the register of the first
/// temporary.
#[derive(Clone, Copy)]
pub struct BodyContext<'a> {
    pub program: &'a IndexedProgram,
    pub class: ClassNo,
    pub first: u32,
    pub alloc: Global,
}

/// The names in scope with the last declared one last (JLS 6.3), the types of the registers of `this`, parameters and
/// locals so far, and the temporaries.
#[derive(Drop)]
pub struct State {
    names: Names,
    locals: Vec<BaseType>,
    temporaries: Temporaries,
}

impl Model for State {
    ghost use Rattle.jn_lowering.specs.Locals.{State};

    ghost Value = { State };

    ghost view = { λ s. record { scope = s.names; locals = s.locals.items; temporaries = s.temporaries } };
}

/// What a declaration says of each of its locals: the type, what is written of the qualifier, and the row of an unknown class.
#[derive(Clone, Copy)]
pub struct LocalKind {
    pub base: BaseType,
    pub bound: Option<Bound>,
    pub fault: Option<Row>,
}

/// The labels to which a `break` and a `continue` go.
#[derive(Clone, Copy)]
pub struct Ways {
    pub out: PointNo,
    pub again: PointNo,
}

/// What is put back after a statement: how many names were in scope before it, and which temporaries were taken.
#[derive(Drop)]
pub struct Outer {
    pub names: usize,
    pub held: Held,
}

impl State {
    /// That in which a body begins, with its parameters in scope.
    pub fn new(alloc: Global, names: Names, locals: Vec<BaseType>) -> Self
        ensures { result
            ≡ record { scope = names; locals = locals.items; temporaries = no_temporaries } }
    {
        State {
            names,
            locals,
            temporaries: Temporaries::new(alloc),
        }
    }

    /// The types of all registers of the body: those of `this`, parameters and locals, and the temporaries.
    pub fn into_registers(self) -> Result<Vec<BaseType>, OutOfMemory>
        ensures { IfOk result (λ regs. regs.items ≡ registers_of self) }
    {
        let State {
            locals,
            temporaries,
            ..
        } = self;
        let mut regs = locals;
        for base in temporaries.into_bases() {
            match regs.push(base) {
                Ok(()) => {}
                Err(_) => return Err(OutOfMemory),
            }
        }
        Ok(regs)
    }

    /// How many names are in scope.
    pub fn names(&self) -> usize
        ensures { result ≡ length self.now.scope }
    {
        self.names.len()
    }

    /// Leaves the scope of all names but the first declared ones (JLS 6.3).
    pub fn leave(&mut self, names: usize)
        ensures { self.new ≡ with_names self.old names }
    {
        self.names.truncate(names);
    }

    /// Begins a statement, which takes temporaries anew.
    pub fn begin(&mut self, alloc: Global) -> Outer
        ensures names { result.names ≡ length self.old.scope }
        ensures held { result.held ≡ self.old.temporaries.taken }
        ensures begun { self.new ≡ fresh self.old }
    {
        let names = self.names();
        let held = self.temporaries.release(alloc);
        Outer { names, held }
    }

    /// Ends a statement.
    pub fn end(&mut self, outer: Outer)
        ensures { self.new ≡ with_taken (with_names self.old outer.names) outer.held }
    {
        self.leave(outer.names);
        self.temporaries.hold(outer.held);
    }

    /// Ends a declaration, whose names stay in scope.
    pub fn keep(&mut self, outer: Outer)
        ensures { self.new ≡ with_taken self.old outer.held }
    {
        let Outer { held, .. } = outer;
        self.temporaries.hold(held);
    }

    /// The register of the next local.
    pub fn next(&self) -> Result<RegNo, OutOfMemory>
        ensures { IfOk result (λ r. r.0 ≡ length self.now.locals) }
    {
        let next = self.locals.len();
        if next < 0xFFFF_FFFF {
            Ok(RegNo(next as u32))
        } else {
            Err(OutOfMemory)
        }
    }

    /// Takes the next register for a value of the type.
    pub fn reserve(&mut self, base: BaseType) -> Result<(), OutOfMemory>
        ensures { OnOk result (self.new ≡ reserves self.old base) }
    {
        match self.locals.push(base) {
            Ok(()) => Ok(()),
            Err(_) => Err(OutOfMemory),
        }
    }

    /// Brings a local into scope, unless its name is in scope already.
    fn enter(&mut self, c: &BodyContext, local: Declared) -> Result<(), OutOfMemory>
        ensures { OnOk result
            (self.new ≡ with_scope self.old (with_local self.old.scope (declared_local local))) }
    {
        if c.has_local(&self.names, local.name) {
            return Ok(());
        }
        self.names.add(local)?;
        Ok(())
    }

    /// Declares a local in the next register (JLS 14.4).
    pub fn declare(
        &mut self,
        c: &BodyContext,
        name: NameNo,
        kind: LocalKind,
        fixed: bool,
    ) -> Result<(), OutOfMemory>
        ensures { OnOk result (self.new
            ≡ declares self.old name.0 kind.base (bound_of kind.bound) fixed (rows_of kind.fault)) }
    {
        let reg = self.next()?;
        self.enter(
            c,
            Declared {
                name,
                reg,
                base: kind.base,
                bound: kind.bound,
                fixed,
                fault: kind.fault,
            },
        )?;
        self.reserve(kind.base)
    }

    /// Declares what a `for` over an array does: a register of the array, one of the index, and the local (JLS 14.14.2).
    pub fn declare_each(
        &mut self,
        c: &BodyContext,
        array: BaseType,
        name: NameNo,
        kind: LocalKind,
        fixed: bool,
    ) -> Result<(), OutOfMemory>
        ensures { OnOk result (self.new
            ≡ declares (reserves (reserves self.old array) Int) name.0 kind.base
            (bound_of kind.bound) fixed (rows_of kind.fault)) }
    {
        self.reserve(array)?;
        self.reserve(BaseType::Int)?;
        self.declare(c, name, kind, fixed)?;
        Ok(())
    }

    /// The register of a temporary of the type.
    pub fn temporary(&mut self, c: &BodyContext, base: BaseType) -> Result<RegNo, OutOfMemory>
        ensures register { IfOk result
            (λ r. r.0 ≡ c.now.first + (take_one self.old.temporaries base).number) }
        ensures behind { OnOk result
            (self.new ≡ with_temporaries self.old (take_one self.old.temporaries base).behind) }
    {
        temporary(&c.in_scope(&self.names), &mut self.temporaries, base)
    }
}

impl BodyContext<'_> {
    /// Where an expression with these names in scope stands.
    fn in_scope<'a>(&'a self, names: &'a Names) -> Context<'a>
        ensures program { result.program.now ≡ self.now.program.now }
        ensures scope { scope_in result ≡ names.now }
        ensures class { result.class ≡ self.now.class }
        ensures first { result.first ≡ self.now.first }
    {
        names.context(self.program, self.class, self.first, self.alloc)
    }

    /// Where an expression with no local in scope stands.
    fn outside<'a>(&'a self, none: &'a Variables) -> Context<'a>
        requires none { none.now ≡ [] }
        ensures program { result.program.now ≡ self.now.program.now }
        ensures scope { scope_in result ≡ [] }
        ensures class { result.class ≡ self.now.class }
        ensures first { result.first ≡ self.now.first }
    {
        Context {
            program: self.program,
            scope: none,
            faults: &[],
            class: self.class,
            first: self.first,
            alloc: self.alloc,
        }
    }

    /// Whether one of the names is this one.
    fn has_local(&self, names: &Names, name: NameNo) -> bool
        ensures { result ≡ is_some (local_in names.now name.0) }
    {
        local_in(&self.in_scope(names), name).is_some()
    }
}

/// Points that give the expression's value, and the register in which it then stands (JLS 15).
pub fn evaluate(
    tree: &Expr,
    c: &BodyContext,
    e: &mut Emitter,
    s: &mut State,
) -> Result<Operand, OutOfMemory>
    ensures { IfOk result
        (λ o. GivesIn (valued c.now s.old (placed_view tree.now)) s.old e.old o e.new s.new) }
{
    let given = value(tree, &c.in_scope(&s.names), e, &mut s.temporaries)?;
    Ok(given.operand)
}

/// Points that go to one of two labels, as the expression is true or false.
pub fn decide(
    tree: &Expr,
    c: &BodyContext,
    e: &mut Emitter,
    s: &mut State,
    yes: PointNo,
    no: PointNo,
) -> Result<(), OutOfMemory>
    ensures { OnOk result
        (TestsIn (tested c.now s.old (placed_view tree.now)) s.old yes.0 no.0 e.old e.new s.new) }
{
    condition(tree, &c.in_scope(&s.names), e, &mut s.temporaries, yes, no)?;
    Ok(())
}

/// The same where no local is in scope, as in the initializer of a field (JLS 8.3.2).
pub fn evaluate_outside(
    tree: &Expr,
    c: &BodyContext,
    e: &mut Emitter,
    s: &mut State,
) -> Result<Operand, OutOfMemory>
    ensures { IfOk result (λ o.
        GivesIn (valued_outside c.now s.old (placed_view tree.now)) s.old e.old o e.new s.new) }
{
    let none = Variables::new(c.alloc);
    let given = value(tree, &c.outside(&none), e, &mut s.temporaries)?;
    Ok(given.operand)
}

/// The type of an expression.
pub fn type_in(tree: &Expr, c: &BodyContext, s: &State) -> BaseType
    ensures { result ≡ type_of c.now.program.now c.now.class.0 s.now.scope (placed_view tree.now) }
{
    type_of(tree, &c.in_scope(&s.names))
}

/// Points of expressions one after the other, and the operands that they give.
pub fn evaluate_all(
    trees: &[Expr],
    c: &BodyContext,
    e: &mut Emitter,
    s: &mut State,
) -> Result<Seq<Operand>, OutOfMemory>
    ensures { IfOk result (λ os.
        GivesAllIn (all_valued c.now s.old (placed_views trees.now)) s.old e.old os e.new s.new) }
{
    let given = operands(trees, &c.in_scope(&s.names), e, &mut s.temporaries)?;
    Ok(given)
}
