//! Walks along chains, of which what is known is kept from one to the next.
ghost use Rattle.std.specs.Prelude.{◌≡◌, ◌<◌, IfOk, List, length, Some};
ghost use Rattle.jn_reasons_law.specs.Chains.{HasChain};
ghost use Rattle.jn_reasons_law.specs.declared.item.Step.{Step};
ghost use Rattle.jn_chain.specs.Keys.{IsEnd, kept_of, rest_of};
ghost use Rattle.jn_chain.specs.Search.{AreRests};
ghost use Rattle.jn_notes.specs.declared.said.Said.{Said};
ghost use Rattle.jn_note_words.specs.declared.leaving.ReadAt.{ReadAt};
ghost use Rattle.jn_notes.specs.Noted.{AreBy, AreFrom};
ghost use Rattle.jn_notes.specs.Said.{AreSaid, said_of};
ghost use Rattle.jn_notes.specs.Walked.{ground_in, scene_in};

use crate::explain::noted;
use crate::said::{Said, say};
use crate::solved::SolvedProgram;
use crate::voids::find_voids;
use jn_base::OutOfMemory;
use jn_chain::first::shortest_ways_are_first_chains;
use jn_chain::{Chains, Kept};
use jn_note_words::note::Notes;
use jn_reasons_law::Item;
use jn_voided::Voids;
use std::alloc::Global;
use std::marker::Model;

/// A program of whose items notes are made, with what is known of chains, what is said of them, and what made facts void. Contracts see the program with
/// the texts of its names, its signature and its tables.
#[derive(Drop)]
pub struct Walk<'a> {
    of: &'a SolvedProgram<'a>,
    chains: Chains,
    said: Kept<Said>,
    voids: Voids<'a>,
}

impl<'a> Model for Walk<'a> {
    ghost use Rattle.jn_chain.specs.Keys.{kept_of, rest_of};
    ghost use Rattle.jn_notes.specs.declared.said.Said.{Said};
    ghost use Rattle.jn_notes.specs.Walked.{IsWalked, Subject};

    ghost Value = { Subject };

    ghost view = { λ w. w.of.now };

    ghost invariant = { λ w. IsWalked w.of.now (rest_of w.chains) (kept_of Said w.said) w.voids };
}

impl<'a> Walk<'a> {
    /// Nothing is known yet.
    pub fn new(alloc: Global, of: &'a SolvedProgram<'a>) -> Walk<'a>
        ensures { result ≡ of.now }
    {
        let basis = of.basis();
        let chains = Chains::new(alloc);
        let said = Kept::new(alloc);
        let voids = Voids::new(alloc, basis.program, basis.sig, basis.tables);
        Walk {
            of,
            chains,
            said,
            voids,
        }
    }

    /// The program.
    pub(crate) fn program(&self) -> &'a SolvedProgram<'a>
        ensures { result.now ≡ self.now }
    {
        self.of
    }

    /// The notes of an item from which a chain goes: what is told of the first chain from it. On want of memory nothing is known any more.
    ///
    /// # Errors
    /// No memory was found.
    pub fn notes_from(&mut self, alloc: Global, item: Item) -> Result<Notes, OutOfMemory>
        requires { HasChain self.old.program self.old.sig self.old.tables item }
        ensures same { self.new ≡ self.old }
        ensures notes { IfOk result (λ notes.
            AreFrom self.old.program self.old.names self.old.sig self.old.tables (Some item) notes) }
    {
        let of = self.of;
        let found = next_notes_from(
            alloc,
            of,
            &mut self.chains,
            &mut self.said,
            &mut self.voids,
            item,
        );
        match found {
            Ok(notes) => Ok(notes),
            Err(error) => {
                *self = Walk::new(alloc, of);
                Err(error)
            }
        }
    }
}

/// The notes of what is said of a chain.
fn notes_by(
    alloc: Global,
    of: &SolvedProgram,
    voids: &mut Voids,
    said: &Said,
) -> Result<Notes, OutOfMemory>
    requires inside { (x : ReadAt) → said.now.read ≡ Some x
        → x.body < length of.now.program.bodies }
    requires voids { voids.old ≡ scene_in of.now }
    ensures voids { voids.new ≡ scene_in of.now }
    ensures notes { IfOk result (λ notes. (steps : List Step) → said.now ≡ said_of of.now.program steps
        → AreBy of.now.program of.now.names of.now.sig of.now.tables steps notes) }
{
    let list = find_voids(alloc, of.names(), voids, said.read)?;
    let notes = noted(alloc, &of.owned(), of.names(), list, &said.told)?;
    Ok(notes)
}

/// The notes of an item of whose chain something is said.
fn notes_said(
    alloc: Global,
    of: &SolvedProgram,
    said: &Kept<Said>,
    voids: &mut Voids,
    item: Item,
) -> Result<Notes, OutOfMemory>
    requires said { AreSaid (ground_in of.now) (kept_of Said said.now) }
    requires there { IsEnd Said (kept_of Said said.now) (Some item) }
    requires chain { HasChain of.now.program of.now.sig of.now.tables item }
    requires voids { voids.old ≡ scene_in of.now }
    ensures voids { voids.new ≡ scene_in of.now }
    ensures notes { IfOk result (λ notes.
        AreFrom of.now.program of.now.names of.now.sig of.now.tables (Some item) notes) }
{
    shortest_ways_are_first_chains();
    match said.get(item) {
        None => unreachable!(),
        Some(found) => {
            let notes = notes_by(alloc, of, voids, found)?;
            Ok(notes)
        }
    }
}

/// The notes of an item from which a chain goes, with what is known of chains and what is said of them.
fn next_notes_from(
    alloc: Global,
    of: &SolvedProgram,
    chains: &mut Chains,
    said: &mut Kept<Said>,
    voids: &mut Voids,
    item: Item,
) -> Result<Notes, OutOfMemory>
    requires rests { AreRests (ground_in of.now) (rest_of chains.old) }
    requires said { AreSaid (ground_in of.now) (kept_of Said said.old) }
    requires voids { voids.old ≡ scene_in of.now }
    requires chain { HasChain of.now.program of.now.sig of.now.tables item }
    ensures rests { IfOk result (λ notes. AreRests (ground_in of.now) (rest_of chains.new)) }
    ensures said { IfOk result (λ notes. AreSaid (ground_in of.now) (kept_of Said said.new)) }
    ensures voids { voids.new ≡ scene_in of.now }
    ensures notes { IfOk result (λ notes.
        AreFrom of.now.program of.now.names of.now.sig of.now.tables (Some item) notes) }
{
    say(alloc, of, chains, said, item)?;
    let notes = notes_said(alloc, of, said, voids, item)?;
    Ok(notes)
}
