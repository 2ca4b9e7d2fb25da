//! What is known at a point.
ghost use Rattle.std.specs.Prelude.{◌≡◌, ◌<◌, ◌≤◌, ◌+◌, ◌*◌, ◌^◌, ◌++◌, IfOk, true, false, not, eqb, length, take, drop, replicate, slice_index_or, slice_set};
ghost use Rattle.jn_quals.specs.Order.{no_qual};
ghost use Rattle.jn_points.specs.Lookup.{regs_of, body_at};

use crate::bits::{Which, is_assigned_as, is_assigned_by, is_known, write_keys, write_own};
use crate::keys::Keys;
use crate::lists::{FactKeys, FieldNumbers};
use crate::packed::BitList;
use jn_base::{BodyNo, FieldNo, OutOfMemory, RegNo};
use jn_points::Program;
use jn_quals::Qual;
use std::alloc::Global;
use std::marker::Model;

/// What is known at a point of a body: a qualifier for each register, for each key of the body
/// whether the field that it names is known not to be null, and for each of a constructor's own
/// fields whether it is assigned.
///
/// The keys stand beside the environments of a body, one list for all of them, since a table has
/// an environment for each point: each call that reads or changes facts or assigned fields is
/// given them. Registers are as in the Checker Framework's stores, a fact is a field access that
/// is known to be non-null there, and assigned fields follow JLS 8, chapter 16.
///
/// All of it is one list of bits, set for what may be: three bits for the qualifier of each
/// register, then a bit for each key whose field may be null, then a bit for each own field that
/// may be unassigned. So a join is a union of words, and order is inclusion.
#[derive(Drop)]
pub struct Env {
    may: BitList,
    registers: usize,
    facts: usize,
}

impl Model for Env {
    ghost use Rattle.std.specs.Prelude.{◌≤◌, ◌+◌, ◌*◌, length};
    ghost use Rattle.jn_env.specs.Environment.{Env};
    ghost use Rattle.jn_env.specs.Flat.{env_of};

    ghost Value = { Env };

    ghost view = { λ e. env_of e.may e.registers e.facts };

    ghost invariant = { λ e. 3 * e.registers + e.facts ≤ length e.may };
}

impl Env {
    ghost use Rattle.jn_env.specs.Code.{picks, is_field};
    ghost use Rattle.jn_env.specs.Keys.{mask, also, is_on, is_key, has_reg, has_key_field, is_kept, no_bits};
    ghost use Rattle.jn_env.specs.Flat.{marked};
    ghost use Rattle.jn_env.specs.Order.{qual_at, EnvWithin, join_env};
    ghost use Rattle.jn_env.specs.Size.{SameSize};

    /// The environment of a body in which nothing may be in any register, no fact is known and
    /// nothing is assigned.
    ///
    /// # Errors
    /// No memory was found, or there are more registers, keys or own fields than a number of bits
    /// can be counted for.
    pub fn empty(
        alloc: Global,
        program: &Program,
        body: BodyNo,
        keys: &Keys,
    ) -> Result<Env, OutOfMemory>
        ensures quals { IfOk result
            (λ e. e.quals ≡ replicate (regs_of (body_at program.now body.0)) no_qual) }
        ensures facts { IfOk result (λ e. e.facts ≡ no_bits keys.now.facts) }
        ensures assigned { IfOk result (λ e. e.assigned ≡ no_bits keys.now.own) }
    {
        let mut env = Env::of_size(
            alloc,
            registers(program, body),
            keys.facts.len(),
            keys.own.len(),
        )?;
        env.write_facts(&keys.facts, Which::Each, false);
        env.write_assigned(&keys.own, None, false);
        Ok(env)
    }

    /// The environment in which nothing may be: all facts are known, and all fields assigned.
    fn of_size(
        alloc: Global,
        registers: usize,
        facts: usize,
        assigned: usize,
    ) -> Result<Env, OutOfMemory>
        ensures quals { IfOk result (λ e. e.quals ≡ replicate registers no_qual) }
        ensures facts { IfOk result (λ e. e.facts ≡ replicate facts true) }
        ensures assigned { IfOk result (λ e. e.assigned ≡ replicate assigned true) }
    {
        if registers > MOST || facts > MOST || assigned > MOST {
            return Err(OutOfMemory);
        }
        let may = BitList::unset(alloc, 3 * registers + facts + assigned)?;
        Ok(Env {
            may,
            registers,
            facts,
        })
    }

    /// An equal environment.
    ///
    /// # Errors
    /// No memory was found.
    pub fn copy(&self, alloc: Global) -> Result<Env, OutOfMemory>
        ensures { IfOk result (λ e. e ≡ self.now) }
    {
        let may = self.may.copy(alloc)?;
        Ok(Env {
            may,
            registers: self.registers,
            facts: self.facts,
        })
    }

    /// The qualifier of a register; empty for one that is not there.
    pub fn qual(&self, reg: RegNo) -> Qual
        ensures { result ≡ qual_at self.now reg.0 }
    {
        let i = reg.0 as usize;
        if i < self.registers {
            self.may.qual(i)
        } else {
            Qual::none()
        }
    }

    /// Refines the qualifier of a register, and keeps its facts; nothing changes where the register
    /// is not there.
    pub fn set_qual(&mut self, reg: RegNo, qual: Qual)
        ensures quals { self.new.quals ≡ slice_set self.old.quals reg.0 qual }
        ensures facts { self.new.facts ≡ self.old.facts }
        ensures assigned { self.new.assigned ≡ self.old.assigned }
    {
        self.set_at(reg.0 as usize, qual);
    }

    fn set_at(&mut self, i: usize, qual: Qual)
        ensures quals { self.new.quals ≡ slice_set self.old.quals i qual }
        ensures facts { self.new.facts ≡ self.old.facts }
        ensures assigned { self.new.assigned ≡ self.old.assigned }
    {
        if i < self.registers {
            self.may.set_qual(i, qual);
        }
    }

    /// Gives the first registers these qualifiers, as many as there are registers.
    pub fn give(&mut self, quals: &[Qual])
        ensures quals { self.new.quals
            ≡ take (length self.old.quals) quals.now ++ drop (length quals.now) self.old.quals }
        ensures facts { self.new.facts ≡ self.old.facts }
        ensures assigned { self.new.assigned ≡ self.old.assigned }
    {
        for i in 0..quals.len() {
            self.set_at(i, quals[i]);
        }
    }

    /// Writes a register: it has its new qualifier, and nothing is known of the fields of what it
    /// holds now.
    pub fn set(&mut self, keys: &Keys, reg: RegNo, qual: Qual)
        requires { length keys.now.facts ≡ length self.old.facts }
        ensures quals { self.new.quals ≡ slice_set self.old.quals reg.0 qual }
        ensures facts { self.new.facts
            ≡ mask (λ k. not (has_reg reg.0 k)) keys.now.facts self.old.facts }
        ensures assigned { self.new.assigned ≡ self.old.assigned }
    {
        self.set_qual(reg, qual);
        self.write_facts(&keys.facts, Which::OfReg(reg), false);
    }

    /// Where the bits of the facts begin.
    fn facts_from(&self) -> usize
        ensures from { result ≡ 3 * length self.now.quals }
        ensures few { result + length self.now.facts + length self.now.assigned < 2 ^ 64 }
    {
        let _all = self.may.len();
        3 * self.registers
    }

    /// Where the bits of the own fields begin.
    fn own_from(&self) -> usize
        ensures from { result ≡ 3 * length self.now.quals + length self.now.facts }
        ensures few { result + length self.now.assigned < 2 ^ 64 }
    {
        self.facts_from() + self.facts
    }

    /// Whether the fact at a place is known; not where there is none.
    pub fn has_fact_at(&self, at: usize) -> bool
        ensures { result ≡ slice_index_or self.now.facts at false }
    {
        if at < self.facts {
            !self.may.get(self.facts_from() + at)
        } else {
            false
        }
    }

    /// Whether the field of the object in the register is known not to be null; not where this is
    /// no key of the body.
    pub fn has_fact(&self, keys: &Keys, reg: RegNo, field: FieldNo) -> bool
        ensures { result ≡ is_on (is_key reg.0 field.0) keys.now.facts self.now.facts }
    {
        is_known(&keys.facts, self, reg, field)
    }

    /// Lets the field of the object in the register be known not to be null; nothing changes where
    /// this is no key of the body.
    pub fn add_fact(&mut self, keys: &Keys, reg: RegNo, field: FieldNo)
        requires { length keys.now.facts ≡ length self.old.facts }
        ensures facts { self.new.facts ≡ also (is_key reg.0 field.0) keys.now.facts self.old.facts }
        ensures quals { self.new.quals ≡ self.old.quals }
        ensures assigned { self.new.assigned ≡ self.old.assigned }
    {
        self.write_facts(&keys.facts, Which::Exactly(reg, field), true);
    }

    /// Lets the facts of these keys be known, or forgets them.
    fn write_facts(&mut self, keys: &FactKeys, which: Which, known: bool)
        requires { length keys.now ≡ length self.old.facts }
        ensures facts { self.new.facts ≡ marked known (picks which.entry) keys.now self.old.facts }
        ensures quals { self.new.quals ≡ self.old.quals }
        ensures assigned { self.new.assigned ≡ self.old.assigned }
    {
        let first = self.facts_from();
        write_keys(keys, &mut self.may, first, which, !known);
    }

    /// Forgets what is known of the field, in objects of all registers.
    pub fn drop_facts(&mut self, keys: &Keys, field: FieldNo)
        requires { length keys.now.facts ≡ length self.old.facts }
        ensures facts { self.new.facts
            ≡ mask (λ k. not (has_key_field field.0 k)) keys.now.facts self.old.facts }
        ensures quals { self.new.quals ≡ self.old.quals }
        ensures assigned { self.new.assigned ≡ self.old.assigned }
    {
        self.write_facts(&keys.facts, Which::OfField(field), false);
    }

    /// Forgets what calls can change: facts on fields that aren't monotonic.
    pub fn keep_facts(&mut self, keys: &Keys, program: &Program)
        requires { length keys.now.facts ≡ length self.old.facts }
        ensures facts { self.new.facts ≡ mask (is_kept program.now) keys.now.facts self.old.facts }
        ensures quals { self.new.quals ≡ self.old.quals }
        ensures assigned { self.new.assigned ≡ self.old.assigned }
    {
        self.write_facts(&keys.facts, Which::Fleeting(program), false);
    }

    /// Whether the own field at a place is assigned; not where there is none.
    pub fn has_assigned_at(&self, at: usize) -> bool
        ensures { result ≡ slice_index_or self.now.assigned at false }
    {
        let first = self.own_from();
        if at < self.may.len() - first {
            !self.may.get(first + at)
        } else {
            false
        }
    }

    /// Whether the field is among a constructor's own, and assigned.
    pub fn is_assigned(&self, own: &[u32], field: u32) -> bool
        ensures { result ≡ is_on (λ k. eqb k field) own.now self.now.assigned }
    {
        for i in 0..own.len() {
            if is_assigned_as(self, i, own[i], field) {
                return true;
            }
        }
        false
    }

    /// Whether the field is one of the constructor's own, and assigned.
    pub fn has_assigned(&self, keys: &Keys, field: FieldNo) -> bool
        ensures { result ≡ is_on (λ k. eqb k field.0) keys.now.own self.now.assigned }
    {
        is_assigned_by(&keys.own, self, field)
    }

    /// Assigns one of the constructor's own fields; with None all of them. Nothing changes where
    /// the field is none of them.
    pub fn assign(&mut self, keys: &Keys, field: Option<FieldNo>)
        requires { length keys.now.own ≡ length self.old.assigned }
        ensures assigned { self.new.assigned
            ≡ also (is_field field) keys.now.own self.old.assigned }
        ensures quals { self.new.quals ≡ self.old.quals }
        ensures facts { self.new.facts ≡ self.old.facts }
    {
        self.write_assigned(&keys.own, field, true);
    }

    /// Lets an own field be assigned or not; with None all of them.
    fn write_assigned(&mut self, own: &FieldNumbers, field: Option<FieldNo>, assigned: bool)
        requires { length own.now ≡ length self.old.assigned }
        ensures assigned { self.new.assigned
            ≡ marked assigned (is_field field) own.now self.old.assigned }
        ensures quals { self.new.quals ≡ self.old.quals }
        ensures facts { self.new.facts ≡ self.old.facts }
    {
        let first = self.own_from();
        write_own(own, &mut self.may, first, field, !assigned);
    }

    /// Whether there are as many registers, keys and own fields.
    fn has_size_of(&self, other: &Env) -> bool
        ensures yes { result ≡ true → SameSize self.now other.now }
        ensures no { result ≡ false → SameSize self.now other.now → ⊥ }
    {
        if self.registers != other.registers {
            return false;
        }
        if self.facts != other.facts {
            return false;
        }
        self.may.len() == other.may.len()
    }

    /// Whether all that may be here may be there, and all that is known there is known here.
    pub fn within(&self, other: &Env) -> bool
        ensures yes { result ≡ true → EnvWithin self.now other.now }
        ensures no { result ≡ false → EnvWithin self.now other.now → ⊥ }
    {
        if !self.has_size_of(other) {
            return false;
        }
        self.may.within(&other.may)
    }

    /// Joins the other environment of the same body. Gives whether that changed this one.
    pub fn join(&mut self, other: &Env) -> bool
        requires { SameSize self.old other.now }
        ensures joined { self.new ≡ join_env self.old other.now }
        ensures same { result ≡ false → self.new ≡ self.old }
        ensures changed { result ≡ true → self.new ≡ self.old → ⊥ }
    {
        self.may.join(&other.may)
    }
}

/// What an environment may have of each, so that its bits can be counted.
const MOST: usize = usize::MAX / 5;

/// How many registers the body has; 0 where it is not there.
fn registers(program: &Program, body: BodyNo) -> usize
    ensures { result ≡ regs_of (body_at program.now body.0) }
{
    match program.bodies.as_slice().get(body.0 as usize) {
        None => 0,
        Some(info) => info.regs.len(),
    }
}
