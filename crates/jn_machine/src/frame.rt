//! Frames.
ghost use Rattle.std.specs.Prelude.{◌≡◌, ◌<◌, ◌+◌, ◌-◌, ◌^◌, Some, None, MatchOption};
ghost use Rattle.jn_heap.specs.State as spec;

use crate::lists::put;
use crate::prim::{Plain, Primitive};
use crate::value::Value;
use jn_base::RegNo;
use std::marker::Model;

/// A body that runs: at which point, and its registers, some of which hold no value yet;
/// contracts see the definition's.
#[derive(Drop)]
pub struct Frame {
    body: usize,
    at: usize,
    regs: Vec<Option<Value>>,
}

impl Model for Frame {
    ghost use Rattle.jn_heap.specs.State.{Frame as Defined};

    ghost Value = { Defined };

    ghost view = { λ f. record { body = f.body; at = f.at; regs = f.regs.items } };
}

/// The value at a place of a list of registers.
fn register(regs: &[Option<Value>], at: usize) -> Option<&Value>
    ensures { MatchOption result (spec.value_at regs.now at ≡ None)
        (λ v. spec.value_at regs.now at ≡ Some v.now) }
{
    match regs.get(at) {
        None => None,
        Some(held) => held.as_ref(),
    }
}

impl Frame {
    /// The body, at its first point.
    pub fn new(body: usize, regs: Vec<Option<Value>>) -> Frame
        ensures { result ≡ record { body = body; at = 0; regs = regs.items } }
    {
        Frame { body, at: 0, regs }
    }

    /// The number of the body.
    pub fn body(&self) -> usize
        ensures { result ≡ self.now.body }
    {
        self.body
    }

    /// The number of the point that runs next.
    pub fn at(&self) -> usize
        ensures { result ≡ self.now.at }
    {
        self.at
    }

    /// The value in a register, where it holds one.
    pub fn value(&self, reg: RegNo) -> Option<&Value>
        ensures { MatchOption result (spec.value_at self.now.regs reg.0 ≡ None)
            (λ v. spec.value_at self.now.regs reg.0 ≡ Some v.now) }
    {
        register(&self.regs, reg.0 as usize)
    }

    /// The place on the heap that a register refers to.
    pub fn object(&self, reg: RegNo) -> Option<usize>
        ensures { result ≡ spec.object_of (spec.value_at self.now.regs reg.0) }
    {
        match self.value(reg) {
            None => None,
            Some(value) => value.object(),
        }
    }

    /// The int or boolean in a register.
    pub fn prim(&self, reg: RegNo) -> Option<Primitive>
        ensures { result ≡ spec.prim_of (spec.value_at self.now.regs reg.0) }
    {
        match self.value(reg) {
            None => None,
            Some(value) => value.prim(),
        }
    }

    /// The int in a register.
    pub fn int(&self, reg: RegNo) -> Option<i32>
        ensures { result ≡ spec.int_of (spec.prim_of (spec.value_at self.now.regs reg.0)) }
    {
        match self.prim(reg) {
            None => None,
            Some(prim) => match prim.plain() {
                Plain::Int(number) => Some(number),
                Plain::Bool(_) => None,
            },
        }
    }

    /// Goes to a point.
    pub fn jump(&mut self, to: usize)
        ensures { self.new ≡ spec.moves_to self.old to }
    {
        self.at = to;
    }

    /// Goes to the next point.
    pub fn advance(&mut self)
        requires { self.old.at < 2 ^ 64 - 1 }
        ensures { self.new ≡ spec.moves_to self.old (self.old.at + 1) }
    {
        self.at += 1;
    }

    /// Puts a value into a register and goes to the next point.
    pub fn hold(&mut self, dst: RegNo, value: Value)
        requires { self.old.at < 2 ^ 64 - 1 }
        ensures { self.new ≡ spec.holds_at self.old dst.0 value }
    {
        put(&mut self.regs, dst.0 as usize, Some(value));
        self.at += 1;
    }
}
