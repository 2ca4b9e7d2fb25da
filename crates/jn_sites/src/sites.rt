//! Lists that are kept for places of the text.
ghost use Rattle.std.specs.Prelude.{◌≡◌, [], MatchOption, IfOk, OnOk, Some, None};
ghost use Rattle.jn_sites.specs.Sites.{Adds, AreKept, at_place, kept_at, key_of};

use jn_base::{Seq, Span};
use std::alloc::{AllocError, Global};
use std::collections::HashMap;
use std::marker::Model;

/// A place of the text as numbers: the file, and the bytes from and to.
pub(crate) type Key = ((u32, u32), u32);

/// The numbers of a place.
fn key_of(span: Span) -> Key
    ensures { result ≡ key_of span }
{
    ((span.file.0, span.from), span.to)
}

/// A list for each of some places.
#[derive(Drop)]
pub struct Sites<T> {
    lists: HashMap<Key, Seq<T>>,
}

impl<T> Model for Sites<T> {
    ghost use Rattle.std.specs.Prelude.{List};
    ghost use Rattle.jn_sites.specs.Sites.{Key};

    ghost Value = { List (Key × List T) };

    ghost view = { λ s. s.lists.entries };
}

impl<T: Drop> Sites<T> {
    /// No place has a list.
    #[tactic(auto, using(crate::proofs::Siting::none_kept))]
    fn new(alloc: Global) -> Sites<T>
        ensures { AreKept T (λ z. []) result }
    {
        Sites {
            lists: HashMap::new(alloc),
        }
    }

    /// The place has a list, in which nothing is yet.
    fn start(&mut self, alloc: Global, span: Span) -> Result<(), AllocError>
        requires { AreKept T (λ z. []) self.old }
        ensures { OnOk result (AreKept T (λ z. []) self.new) }
    {
        match self.lists.insert(key_of(span), Seq::new(alloc)) {
            Ok(_) => Ok(()),
            Err(_) => Err(AllocError),
        }
    }

    /// Each of these places has a list, in which nothing is yet.
    ///
    /// # Errors
    /// No memory was found.
    pub fn of(alloc: Global, spans: &[Span]) -> Result<Sites<T>, AllocError>
        ensures { IfOk result (λ sites. AreKept T (λ z. []) sites) }
    {
        let mut sites = Sites::new(alloc);
        for span in spans {
            sites.start(alloc, *span)?;
        }
        Ok(sites)
    }

    /// The list of a place, where it has one.
    pub fn get(&self, span: Span) -> Option<&[T]>
        ensures { MatchOption result (kept_at T self.now span ≡ None)
            (λ list. kept_at T self.now span ≡ Some list.now) }
    {
        match self.lists.get(&key_of(span)) {
            None => None,
            Some(list) => Some(list.as_slice()),
        }
    }

    /// Puts the item after those of a place, where the place has a list.
    ///
    /// # Errors
    /// No memory was found.
    pub fn put(&mut self, span: Span, item: T) -> Result<(), AllocError>
        ensures { OnOk result (Adds T (at_place T span item) self.old self.new) }
    {
        let key = key_of(span);
        let Some(list) = self.lists.remove(&key) else {
            return Ok(());
        };
        let mut list = list;
        list.push(item)?;
        match self.lists.insert(key, list) {
            Ok(_) => Ok(()),
            Err(_) => Err(AllocError),
        }
    }
}
