//! What is known of chains: how far items are from the text, and the first causes of their first chains.
ghost use Rattle.std.specs.Prelude.{◌≡◌, OnOk, None, Some};
ghost use Rattle.jn_chain.specs.Keys.{IsPut, rest_of};
ghost use Rattle.jn_chain.specs.Search.{AreRests, Ground, left_of};

use crate::sources::{Key, key_of};
use jn_reasons::{Cause, Source};
use jn_reasons_law::Item;
use std::alloc::{AllocError, Global};
use std::collections::HashMap;
use std::marker::Model;

/// How many steps are left from an item to the text, the first among them, and that step's cause.
#[derive(Clone, Copy, Debug)]
pub struct Rest {
    pub left: usize,
    pub cause: Cause,
}

/// The rests of items, by the items' keys: those that lie on a first chain which was looked for. Each search goes on until it comes to such items, so
/// what searches from many items find together is looked for once.
#[derive(Drop)]
pub struct Chains {
    rests: HashMap<Key, Rest>,
}

impl Model for Chains {
    ghost use Rattle.std.specs.Prelude.{List};
    ghost use Rattle.jn_chain.specs.declared.chains.Rest.{Rest};
    ghost use Rattle.jn_chain.specs.Keys.{Key};

    ghost Value = { List (Key × Rest) };

    ghost view = { λ c. c.rests.entries };
}

impl Chains {
    /// Nothing is known yet.
    #[tactic(auto, using(crate::proofs::Resting::none_known))]
    pub fn new(alloc: Global) -> Chains
        ensures { (G : Ground) → AreRests G (rest_of result) }
    {
        Chains {
            rests: HashMap::new(alloc),
        }
    }

    /// What is known of the item.
    pub(crate) fn get(&self, item: Item) -> Option<Rest>
        ensures { result ≡ rest_of self.now item }
    {
        match self.rests.get(&key_of(Some(item))) {
            None => None,
            Some(rest) => Some(*rest),
        }
    }

    /// From now on this is known of the item.
    pub(crate) fn put(&mut self, item: Item, rest: Rest) -> Result<(), AllocError>
        ensures { OnOk result (IsPut item rest (rest_of self.old) (rest_of self.new)) }
    {
        match self.rests.insert(key_of(Some(item)), rest) {
            Ok(_) => Ok(()),
            Err(_) => Err(AllocError),
        }
    }

    /// How many steps are left, where that is known; none from the text.
    pub(crate) fn left(&self, source: Source) -> Option<usize>
        ensures { result ≡ left_of (rest_of self.now) source }
    {
        match source {
            None => Some(0),
            Some(item) => self.left_from(item),
        }
    }

    fn left_from(&self, item: Item) -> Option<usize>
        ensures { result ≡ left_of (rest_of self.now) (Some item) }
    {
        match self.get(item) {
            None => None,
            Some(rest) => Some(rest.left),
        }
    }
}
