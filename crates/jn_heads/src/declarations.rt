//! Declared types by their names (JLS 7.6).
ghost use Rattle.std.specs.Prelude.{◌≡◌, ◌<◌, ◌+◌, ◌^◌, ◌-◌, ℕ, cond, eqb, length, IfOk, OnOk, Some, None, slice_index};
ghost use Rattle.jn_points.specs.Members.{first_or};
ghost use Rattle.jn_heads.specs.Heads as spec;
ghost use Rattle.jn_heads.specs.Types.{class_of_name};
ghost use Rattle.jn_heads.specs.TypePlaces.{is_before, place_at, ArePlaces};

use crate::head::ClassHead;
use jn_base::{ClassNo, NameNo, Seq};
use jn_known::{OBJECT, STRING};
use jn_trees::Identifier;
use std::alloc::{AllocError, Global};
use std::marker::Model;

/// Declared types, found by their names. Contracts see the list of their heads.
#[derive(Drop)]
pub struct Declarations {
    heads: Seq<ClassHead>,
    places: Vec<u32>,
}

impl Model for Declarations {
    ghost use Rattle.std.specs.Prelude.{List};
    ghost use Rattle.jn_heads.specs.declared.head.ClassHead.{ClassHead};
    ghost use Rattle.jn_heads.specs.TypePlaces.{ArePlaces};

    ghost Value = { List ClassHead };

    ghost view = { λ d. d.heads };

    ghost invariant = { λ d. ArePlaces d.heads d.places.items };
}

fn place_at(places: &[u32], name: usize) -> Option<u32>
    ensures { result ≡ place_at places.now name }
{
    if name < places.len() {
        if places[name] > 0 {
            return Some(places[name]);
        }
    }
    None
}

/// Makes room for a place.
#[tactic(auto, using(crate::proofs::Places::pad))]
fn pad(places: &mut Vec<u32>, name: usize) -> Result<(), AllocError>
    requires { name < 2 ^ 32 }
    ensures room { OnOk result (name < length places.new.items) }
    ensures same { OnOk result
        ((n : ℕ) → slice_index places.new.items n ≡ slice_index places.old.items n) }
{
    while places.len() <= name {
        places.push(0)?;
    }
    Ok(())
}

/// Gives a name its class, unless it has one.
#[tactic(auto, using(crate::proofs::Places::put_first, crate::proofs::Places::keep_first))]
fn write_first(places: &mut [u32], name: usize, number: u32)
    requires room { name < length places.old }
    requires some { 0 < number }
    ensures { (n : ℕ)
        → place_at places.new n
        ≡ first_or (place_at places.old n) (cond (eqb name n) (Some number) None) }
{
    if places[name] == 0 {
        places[name] = number;
    }
}

/// Adds a class after those that have their places.
fn add_place(places: &mut Vec<u32>, head: &ClassHead, number: u32) -> Result<(), AllocError>
    requires { 0 < number }
    ensures { OnOk result ((n : ℕ)
        → place_at places.new.items n
        ≡ first_or (place_at places.old.items n)
        (cond (eqb head.now.name.name.0 n) (Some number) None)) }
{
    let name = head.name.name.0 as usize;
    pad(places, name)?;
    write_first(places, name, number);
    Ok(())
}

/// The places of classes by their names.
fn places_of(alloc: Global, heads: &[ClassHead]) -> Result<Vec<u32>, AllocError>
    requires { length heads.now < 2 ^ 32 - 2 }
    ensures { IfOk result (λ places. ArePlaces heads.now places.items) }
{
    let mut places = Vec::new(alloc);
    let mut number = 2;
    for head in heads {
        add_place(&mut places, head, number)?;
        number += 1;
    }
    Ok(places)
}

impl Declarations {
    /// The types of these heads, by their names.
    pub fn new(alloc: Global, heads: Seq<ClassHead>) -> Result<Declarations, AllocError>
        requires { length heads < 2 ^ 32 - 2 }
        ensures { IfOk result (λ d. d ≡ heads) }
    {
        let places = places_of(alloc, heads.as_slice())?;
        Ok(Declarations { heads, places })
    }

    /// The heads, in the order of files and text.
    pub fn heads(&self) -> &[ClassHead]
        ensures { result.now ≡ self.now }
    {
        self.heads.as_slice()
    }

    /// Gives up the heads.
    pub fn into_heads(self) -> Seq<ClassHead>
        ensures { result ≡ self }
    {
        self.heads
    }

    /// The number of the first class of a name.
    pub fn number(&self, name: NameNo) -> Option<u32>
        ensures { result ≡ spec.number self.now name }
    {
        if OBJECT.0 == name.0 {
            return Some(0);
        }
        if STRING.0 == name.0 {
            return Some(1);
        }
        place_at(&self.places, name.0 as usize)
    }

    /// Whether a class of the name has a number below the place.
    pub fn is_before(&self, name: NameNo, place: usize) -> bool
        ensures { result ≡ is_before (spec.number self.now name) place }
    {
        match self.number(name) {
            None => false,
            Some(first) => (first as usize) < place,
        }
    }

    /// The class of a name; an unknown name is read as Object.
    pub fn class_of_name(&self, name: Identifier) -> ClassNo
        ensures { result ≡ class_of_name self.now name }
    {
        match self.number(name.name) {
            None => ClassNo(0),
            Some(number) => ClassNo(number),
        }
    }
}
