//! Sources of which it is known at once whether one is among them.
ghost use Rattle.std.specs.Prelude.{◌≡◌, ◌++◌, ◌∷◌, [], OnOk, true, false};
ghost use Rattle.jn_reasons_law.specs.Sources.{IsOneOf};
ghost use Rattle.jn_chain.specs.Keys.{key_of};

use crate::order::bit_no;
use jn_reasons::Source;
use jn_reasons_law::Item;
use std::alloc::{AllocError, Global};
use std::collections::HashSet;
use std::marker::Model;

/// A source as numbers: what it is, its body or slot, its point, its register and its bit.
pub type Key = ((u32, u32), ((u32, u32), u32));

/// The numbers of a source.
pub fn key_of(source: Source) -> Key
    ensures { result ≡ key_of source }
{
    match source {
        None => ((0, 0), ((0, 0), 0)),
        Some(Item::AtSlot(slot, bit)) => ((1, slot), ((0, 0), bit_no(bit))),
        Some(Item::AtRegister(body, point, reg, bit)) => {
            ((2, body), ((point, reg), bit_no(bit)))
        }
    }
}

/// Sources in the order in which they were put there, and the set of their keys.
#[derive(Drop)]
pub(crate) struct Sources {
    list: Vec<Source>,
    set: HashSet<Key>,
}

impl Model for Sources {
    ghost use Rattle.std.specs.Prelude.{List, Option};
    ghost use Rattle.jn_reasons_law.specs.declared.item.Item.{Item};
    ghost use Rattle.jn_chain.specs.Keys.{AreKept};

    ghost Value = { List (Option Item) };

    ghost view = { λ s. s.list.items };

    ghost invariant = { λ s. AreKept s.list.items s.set };
}

impl Sources {
    /// None yet.
    pub(crate) fn new(alloc: Global) -> Sources
        ensures { result ≡ [] }
    {
        Sources {
            list: Vec::new(alloc),
            set: HashSet::new(alloc),
        }
    }

    /// Whether the source is among them.
    pub(crate) fn contains(&self, source: Source) -> bool
        ensures there { result ≡ true → IsOneOf source self.now }
        ensures none { result ≡ false → IsOneOf source self.now → ⊥ }
    {
        self.set.contains(&key_of(source))
    }

    /// Puts the source after the others.
    pub(crate) fn put(&mut self, source: Source) -> Result<(), AllocError>
        ensures { OnOk result (self.new ≡ self.old ++ source ∷ []) }
    {
        self.list.push(source)?;
        match self.set.insert(key_of(source)) {
            Ok(_) => Ok(()),
            Err(_) => {
                let _last = self.list.pop();
                Err(AllocError)
            }
        }
    }
}
