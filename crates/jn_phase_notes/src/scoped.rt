//! The names in scope, found by their numbers.
ghost use Rattle.std.specs.Prelude.{◌≡◌, [], length, take, OnOk, IfOk};
ghost use Rattle.jn_phase_notes.specs.Earlier.{standing, with_name};
ghost use Rattle.jn_phase_notes.specs.Stands.{named_at};

use jn_base::NameNo;
use jn_trees::Identifier;
use std::alloc::{AllocError, Global};
use std::collections::HashMap;
use std::marker::Model;

/// Names of which no two are the same, the last declared one last.
///
/// The table says where each stands; what it says of a name that isn't in scope any more is out of date.
#[derive(Drop)]
pub struct Scoped {
    names: Vec<Identifier>,
    places: HashMap<u32, usize>,
}

impl Model for Scoped {
    ghost use Rattle.std.specs.Prelude.{List};
    ghost use Rattle.jn_trees.specs.declared.expression.Identifier.{Identifier};
    ghost use Rattle.jn_phase_notes.specs.Stands.{SaysPlaces};

    ghost Value = { List Identifier };

    ghost view = { λ s. s.names.items };

    ghost invariant = { λ s. SaysPlaces s.names.items s.places };
}

/// The name that stands at the place, if it has that number.
fn name_at(names: &[Identifier], place: usize, name: NameNo) -> Option<Identifier>
    ensures { result ≡ named_at names.now place name.0 }
{
    let found = names.get(place)?;
    if name.0 == found.name.0 {
        Some(*found)
    } else {
        None
    }
}

impl Scoped {
    /// No names.
    pub fn new(alloc: Global) -> Self
        ensures { result ≡ [] }
    {
        Scoped {
            names: Vec::new(alloc),
            places: HashMap::new(alloc),
        }
    }

    /// How many there are.
    pub fn len(&self) -> usize
        ensures { result ≡ length self.now }
    {
        self.names.len()
    }

    /// The one of this number.
    pub fn find(&self, name: NameNo) -> Option<Identifier>
        ensures { result ≡ standing self.now name.0 }
    {
        match self.places.get(&name.0) {
            None => None,
            Some(place) => name_at(self.names.as_slice(), *place, name),
        }
    }

    /// Brings a name into scope where none of its number is, and says which one is.
    ///
    /// # Errors
    /// No memory was found.
    pub fn declare(&mut self, name: Identifier) -> Result<Option<Identifier>, AllocError>
        ensures found { IfOk result (λ first. first ≡ standing self.old name.name.0) }
        ensures added { OnOk result (self.new ≡ with_name self.old name) }
    {
        let first = self.find(name.name);
        if first.is_some() {
            return Ok(first);
        }
        self.places.insert(name.name.0, self.names.len())?;
        self.names.push(name)?;
        Ok(first)
    }

    /// Leaves the scope of all but the first ones, as many as given.
    pub fn back_to(&mut self, count: usize)
        ensures { self.new ≡ take count self.old }
    {
        self.names.truncate(count);
    }
}
