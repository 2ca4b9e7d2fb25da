//! Names: the texts of identifiers and strings by numbers.
ghost use Rattle.std.specs.Prelude.{◌≡◌, ◌<◌, ◌^◌, ◌-◌, [], length, bytes_eq, slice_get, position, option_map, Some, OnOk, OnErr, IfOk};
ghost use Rattle.jn_trees.specs.Names.{with_name, number_in};

use indexmap::IndexSet;
use jn_base::{NameNo, OutOfMemory};
use std::alloc::Global;
use std::marker::Model;

/// The texts of identifiers and string literals, each numbered by its place among those that came first. Contracts see the list of the texts' bytes.
#[derive(Drop)]
pub struct Names {
    texts: IndexSet<String>,
    alloc: Global,
}

impl Model for Names {
    ghost use Rattle.std.specs.Prelude.{List, ℕ, map, string_bytes};

    ghost Value = { List (List ℕ) };

    ghost view = { λ names. map string_bytes names.texts.keys };
}

impl Names {
    /// No names yet.
    pub fn new(alloc: Global) -> Names
        ensures { result ≡ [] }
    {
        Names {
            texts: IndexSet::new(alloc),
            alloc,
        }
    }

    /// How many names there are.
    pub fn len(&self) -> usize
        ensures { result ≡ length self.now }
    {
        self.texts.len()
    }

    /// The number of a text, if it has one.
    pub fn number(&self, text: &str) -> Option<NameNo>
        requires { length self.now < 2 ^ 32 }
        ensures { option_map (λ name. name.0) result ≡ position (bytes_eq text.now) self.now }
    {
        match self.texts.get_index_of(text) {
            Some(index) => Some(NameNo(index as u32)),
            None => None,
        }
    }

    /// The number of a text: a known one keeps its number, and a new one goes last. On want of memory the names are as before.
    pub fn intern(&mut self, text: &str) -> Result<NameNo, OutOfMemory>
        requires { length self.old < 2 ^ 32 - 1 }
        ensures number { IfOk result (λ name. name.0 ≡ number_in self.old text.now) }
        ensures names { OnOk result (self.new ≡ with_name self.old text.now) }
        ensures unchanged { OnErr result (self.new ≡ self.old) }
    {
        if let Some(index) = self.texts.get_index_of(text) {
            return Ok(NameNo(index as u32));
        }
        let owned = String::from_str(self.alloc, text)?;
        match self.texts.insert_full(owned) {
            Ok((index, _)) => return Ok(NameNo(index as u32)),
            Err(_) => return Err(OutOfMemory),
        }
    }

    /// The text of a name.
    pub fn text(&self, name: NameNo) -> &str
        requires { name.0 < length self.now }
        ensures { slice_get self.now name.0 ≡ Some result.now }
    {
        let texts = self.texts.as_slice();
        texts[name.0 as usize].as_str()
    }
}
