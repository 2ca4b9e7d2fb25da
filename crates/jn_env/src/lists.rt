//! Lists of keys, of which those of a register or a field are found without a walk over the others.
ghost use Rattle.std.specs.Prelude.{◌≡◌, ◌<◌, ◌+◌, [], IfOk, length, map, slice_index_or};
ghost use Rattle.jn_env.specs.Chained.{Lacks};
ghost use Rattle.jn_env.specs.Code.{picks, is_field};

use crate::bits::Which;
use crate::chains::Chains;
use crate::keys::FieldKey;
use jn_base::FieldNo;
use std::alloc::{AllocError, Global};
use std::marker::Model;

/// A list of keys of facts.
#[derive(Drop)]
pub struct FactKeys {
    keys: Vec<FieldKey>,
    by_reg: Chains,
    by_field: Chains,
}

impl Model for FactKeys {
    ghost use Rattle.std.specs.Prelude.{List, map};
    ghost use Rattle.jn_env.specs.Keys.{Key};
    ghost use Rattle.jn_env.specs.Chained.{Chained};

    ghost Value = { List Key };

    ghost view = { λ list. list.keys.items };

    ghost invariant = { λ list.
        Chained (map (λ k. k.reg) list.keys.items) list.by_reg.heads.items list.by_reg.nexts.items
        × Chained
        (map (λ k. k.field) list.keys.items)
        list.by_field.heads.items
        list.by_field.nexts.items };
}

impl FactKeys {
    /// No keys.
    pub fn new(alloc: Global) -> FactKeys
        ensures { result ≡ [] }
    {
        FactKeys::of_vec(alloc, Vec::new(alloc))
    }

    /// These keys, through which each walk goes from one to the next.
    pub fn of_vec(alloc: Global, keys: Vec<FieldKey>) -> FactKeys
        ensures { result ≡ keys.items }
    {
        FactKeys {
            keys,
            by_reg: Chains::none(alloc),
            by_field: Chains::none(alloc),
        }
    }

    /// These keys, with chains through their registers and fields.
    ///
    /// # Errors
    /// No memory was found.
    pub fn chained(alloc: Global, keys: Vec<FieldKey>) -> Result<FactKeys, AllocError>
        ensures { IfOk result (λ list. list ≡ keys.items) }
    {
        let by_reg = Chains::of(alloc, &registers(alloc, &keys)?)?;
        let by_field = Chains::of(alloc, &fields(alloc, &keys)?)?;
        Ok(FactKeys {
            keys,
            by_reg,
            by_field,
        })
    }

    /// All of them.
    pub fn as_slice(&self) -> &[FieldKey]
        ensures { result.now ≡ self.now }
    {
        &self.keys
    }

    /// How many there are.
    pub fn len(&self) -> usize
        ensures { result ≡ length self.now }
    {
        self.keys.len()
    }

    /// The key at a place.
    pub fn at(&self, at: usize) -> FieldKey
        requires { at < length self.now }
        ensures { result ≡ slice_index_or self.now at result }
    {
        self.keys[at]
    }

    /// A place before which none of those keys stands.
    pub fn first(&self, which: Which) -> usize
        ensures { Lacks (picks which.entry) self.now 0 result }
    {
        match which {
            Which::OfReg(reg) => self.by_reg.first(reg.0),
            Which::OfField(field) => self.by_field.first(field.0),
            Which::Exactly(_, field) => self.by_field.first(field.0),
            Which::Fleeting(_) => 0,
            Which::Each => 0,
        }
    }

    /// A place after this one, where none of those keys stands between both.
    pub fn next(&self, at: usize, which: Which) -> usize
        requires { at < length self.now }
        ensures behind { at < result }
        ensures lacks { Lacks (picks which.entry) self.now (at + 1) result }
    {
        let key = self.at(at);
        match which {
            Which::OfReg(reg) => self.by_reg.next(at, key.reg(), reg.0),
            Which::OfField(field) => self.by_field.next(at, key.field(), field.0),
            Which::Exactly(_, field) => self.by_field.next(at, key.field(), field.0),
            Which::Fleeting(_) => at + 1,
            Which::Each => at + 1,
        }
    }
}

/// The registers of the keys.
fn registers(alloc: Global, keys: &[FieldKey]) -> Result<Vec<u32>, AllocError>
    ensures { IfOk result (λ numbers. numbers.items ≡ map (λ k. k.reg) keys.now) }
{
    let mut numbers = Vec::new(alloc);
    for i in 0..keys.len() {
        numbers.push(keys[i].reg())?;
    }
    Ok(numbers)
}

/// The fields of the keys.
fn fields(alloc: Global, keys: &[FieldKey]) -> Result<Vec<u32>, AllocError>
    ensures { IfOk result (λ numbers. numbers.items ≡ map (λ k. k.field) keys.now) }
{
    let mut numbers = Vec::new(alloc);
    for i in 0..keys.len() {
        numbers.push(keys[i].field())?;
    }
    Ok(numbers)
}

/// A list of a constructor's own fields.
#[derive(Drop)]
pub struct FieldNumbers {
    numbers: Vec<u32>,
    chains: Chains,
}

impl Model for FieldNumbers {
    ghost use Rattle.std.specs.Prelude.{List, ℕ};
    ghost use Rattle.jn_env.specs.Chained.{Chained};

    ghost Value = { List ℕ };

    ghost view = { λ list. list.numbers.items };

    ghost invariant = { λ list.
        Chained list.numbers.items list.chains.heads.items list.chains.nexts.items };
}

impl FieldNumbers {
    /// No fields.
    pub fn new(alloc: Global) -> FieldNumbers
        ensures { result ≡ [] }
    {
        FieldNumbers::of_vec(alloc, Vec::new(alloc))
    }

    /// These fields, through which each walk goes from one to the next.
    pub fn of_vec(alloc: Global, numbers: Vec<u32>) -> FieldNumbers
        ensures { result ≡ numbers.items }
    {
        FieldNumbers {
            numbers,
            chains: Chains::none(alloc),
        }
    }

    /// These fields, with chains through them.
    ///
    /// # Errors
    /// No memory was found.
    pub fn chained(alloc: Global, numbers: Vec<u32>) -> Result<FieldNumbers, AllocError>
        ensures { IfOk result (λ list. list ≡ numbers.items) }
    {
        let chains = Chains::of(alloc, &numbers)?;
        Ok(FieldNumbers { numbers, chains })
    }

    /// All of them.
    pub fn as_slice(&self) -> &[u32]
        ensures { result.now ≡ self.now }
    {
        &self.numbers
    }

    /// How many there are.
    pub fn len(&self) -> usize
        ensures { result ≡ length self.now }
    {
        self.numbers.len()
    }

    /// The field at a place.
    pub fn at(&self, at: usize) -> u32
        requires { at < length self.now }
        ensures { result ≡ slice_index_or self.now at 0 }
    {
        self.numbers[at]
    }

    /// A place before which the field doesn't stand; 0 with None, for all of them.
    pub fn first(&self, field: Option<FieldNo>) -> usize
        ensures { Lacks (is_field field) self.now 0 result }
    {
        match field {
            None => 0,
            Some(field) => self.chains.first(field.0),
        }
    }

    /// A place after this one, where the field doesn't stand between both; the next one with None.
    pub fn next(&self, at: usize, field: Option<FieldNo>) -> usize
        requires { at < length self.now }
        ensures behind { at < result }
        ensures lacks { Lacks (is_field field) self.now (at + 1) result }
    {
        match field {
            None => at + 1,
            Some(field) => self.chains.next(at, self.numbers[at], field.0),
        }
    }
}
