//! What is kept for items.
ghost use Rattle.std.specs.Prelude.{◌≡◌, [], MatchOption, OnOk, None, Some, true};
ghost use Rattle.jn_chain.specs.Keys.{IsEnd, IsPut, kept_of};

use crate::sources::{Key, key_of};
use jn_reasons::Source;
use jn_reasons_law::Item;
use std::alloc::{AllocError, Global};
use std::collections::HashMap;
use std::marker::Model;

/// Something for each of some items, such as what is told of its first chain.
#[derive(Drop)]
pub struct Kept<T> {
    items: HashMap<Key, T>,
}

impl<T> Model for Kept<T> {
    ghost use Rattle.std.specs.Prelude.{List};
    ghost use Rattle.jn_chain.specs.Keys.{Key};

    ghost Value = { List (Key × T) };

    ghost view = { λ k. k.items.entries };
}

impl<T: Drop> Kept<T> {
    /// Nothing is kept.
    pub fn new(alloc: Global) -> Kept<T>
        ensures { result ≡ [] }
    {
        Kept {
            items: HashMap::new(alloc),
        }
    }

    /// What is kept for the item.
    pub fn get(&self, item: Item) -> Option<&T>
        ensures { MatchOption result (kept_of T self.now item ≡ None)
            (λ value. kept_of T self.now item ≡ Some value.now) }
    {
        match self.items.get(&key_of(Some(item))) {
            None => None,
            Some(value) => Some(value),
        }
    }

    /// From now on this is kept for the item.
    ///
    /// # Errors
    /// No memory was found.
    pub fn put(&mut self, item: Item, value: T) -> Result<(), AllocError>
        ensures { OnOk result (IsPut item value (kept_of T self.old) (kept_of T self.new)) }
    {
        match self.items.insert(key_of(Some(item)), value) {
            Ok(_) => Ok(()),
            Err(_) => Err(AllocError),
        }
    }

    fn has(&self, item: Item) -> bool
        ensures { result ≡ true → IsEnd T (kept_of T self.now) (Some item) }
    {
        match self.get(item) {
            None => false,
            Some(_value) => true,
        }
    }

    /// Whether the source is an item for which something is kept.
    pub(crate) fn ends(&self, source: Source) -> bool
        ensures { result ≡ true → IsEnd T (kept_of T self.now) source }
    {
        match source {
            None => false,
            Some(item) => self.has(item),
        }
    }
}
