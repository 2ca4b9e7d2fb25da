//! What stands at the head of groups, each once.
ghost use Rattle.std.specs.Prelude.{◌≡◌, ◌++◌, ◌∷◌, [], None, bytes_eq, position, OnOk};

use indexmap::IndexSet;
use jn_base::OutOfMemory;
use std::alloc::Global;
use std::marker::Model;

/// Texts in the order in which they came first, each found in constant time. Contracts see the list of their bytes.
#[derive(Drop)]
pub struct Heads {
    texts: IndexSet<Vec<u8>>,
    alloc: Global,
}

impl Model for Heads {
    ghost use Rattle.std.specs.Prelude.{List, ℕ, map, vec_items};

    ghost Value = { List (List ℕ) };

    ghost view = { λ heads. map vec_items heads.texts.keys };
}

impl Heads {
    pub fn new(alloc: Global) -> Heads
        ensures { result ≡ [] }
    {
        Heads {
            texts: IndexSet::new(alloc),
            alloc,
        }
    }

    /// Where the text stands, if it is there.
    pub fn place(&self, text: &[u8]) -> Option<usize>
        ensures { result ≡ position (bytes_eq text.now) self.now }
    {
        self.texts.get_index_of(text)
    }

    /// Puts a text after the others, of which none is this one.
    pub fn push(&mut self, text: &[u8]) -> Result<(), OutOfMemory>
        requires { position (bytes_eq text.now) self.old ≡ None }
        ensures { OnOk result (self.new ≡ self.old ++ text.now ∷ []) }
    {
        let owned = Vec::from_slice(self.alloc, text)?;
        match self.texts.insert(owned) {
            Ok(_) => return Ok(()),
            Err(_) => return Err(OutOfMemory),
        }
    }
}
