//! What is said of chains: kept for each item on one, so that a chain is walked only as far as such an item.
ghost use Rattle.std.specs.Prelude.{◌≡◌, ◌∷◌, List, IfOk, OnOk, Some};
ghost use Rattle.jn_reasons_law.specs.declared.item.Step.{Step};
ghost use Rattle.jn_reasons_law.specs.Chains.{HasChain};
ghost use Rattle.jn_chain.specs.Keys.{IsEnd, kept_of, rest_of};
ghost use Rattle.jn_chain.specs.Search.{AreRests, IsKnownStep, IsPath};
ghost use Rattle.jn_notes.specs.declared.said.Said.{Said};
ghost use Rattle.jn_notes.specs.Said.{AreSaid, IsSaid, said_of};
ghost use Rattle.jn_notes.specs.Walked.{ground_in};

use crate::explain::MOST_SHOWN;
use crate::solved::SolvedProgram;
use jn_base::OutOfMemory;
use jn_chain::{Chains, Kept, Told, find_left, nothing_told, told_with, walk_to};
use jn_note_words::{ReadAt, read_with};
use jn_points::Program;
use jn_reasons_law::{Item, Step};
use std::alloc::Global;

/// What is told of a chain, and the read of a field by which it leaves its first registers.
#[derive(Drop)]
pub struct Said {
    pub told: Told,
    pub read: Option<ReadAt>,
}

/// What is said of a chain by one step more before others of which it is known.
fn said_with(
    alloc: Global,
    program: &Program,
    step: Step,
    behind: &Said,
) -> Result<Said, OutOfMemory>
    ensures { IfOk result (λ said. (steps : List Step) → behind.now ≡ said_of program.now steps
        → said ≡ said_of program.now (step ∷ steps)) }
{
    let told = told_with(alloc, MOST_SHOWN, step, &behind.told)?;
    Ok(Said {
        told,
        read: read_with(program, step, behind.read),
    })
}

/// What is said of the chain of an item from which a step leads to another of which it is known, or to the text.
fn said_before(
    alloc: Global,
    of: &SolvedProgram,
    chains: &Chains,
    said: &Kept<Said>,
    step: Step,
    next: Option<Item>,
) -> Result<Said, OutOfMemory>
    requires rests { AreRests (ground_in of.now) (rest_of chains.now) }
    requires said { AreSaid (ground_in of.now) (kept_of Said said.now) }
    requires ends { IsEnd Said (kept_of Said said.now) next }
    requires step { IsKnownStep (ground_in of.now) (rest_of chains.now) step next }
    ensures { IfOk result (λ said. IsSaid (ground_in of.now) step.item said) }
{
    let _chains = chains;
    let program = of.program();
    match next {
        None => {
            let nothing = Said {
                told: nothing_told(alloc),
                read: None,
            };
            let found = said_with(alloc, program, step, &nothing)?;
            Ok(found)
        }
        Some(item) => match said.get(item) {
            None => unreachable!(),
            Some(behind) => {
                let found = said_with(alloc, program, step, behind)?;
                Ok(found)
            }
        },
    }
}

/// Says of each item on the way to another of which it is known, or to the text, what there is to say, from the last one back.
fn say_back(
    alloc: Global,
    of: &SolvedProgram,
    chains: &Chains,
    said: &mut Kept<Said>,
    item: Item,
    steps: &[Step],
    stop: Option<Item>,
) -> Result<(), OutOfMemory>
    requires rests { AreRests (ground_in of.now) (rest_of chains.now) }
    requires said { AreSaid (ground_in of.now) (kept_of Said said.old) }
    requires ends { IsEnd Said (kept_of Said said.old) stop }
    requires path { IsPath (ground_in of.now) (rest_of chains.now) (Some item) steps.now stop }
    ensures said { OnOk result (AreSaid (ground_in of.now) (kept_of Said said.new)) }
    ensures there { OnOk result (IsEnd Said (kept_of Said said.new) (Some item)) }
{
    let _item = item;
    let mut next = stop;
    for done in 0..steps.len() {
        let step = steps[steps.len() - 1 - done];
        let found = said_before(alloc, of, chains, said, step, next)?;
        said.put(step.item, found)?;
        next = Some(step.item);
    }
    Ok(())
}

/// Says what there is to say of the chain from an item that has one, and of those from the items on it.
///
/// # Errors
/// No memory was found.
pub(crate) fn say(
    alloc: Global,
    of: &SolvedProgram,
    chains: &mut Chains,
    said: &mut Kept<Said>,
    item: Item,
) -> Result<(), OutOfMemory>
    requires rests { AreRests (ground_in of.now) (rest_of chains.old) }
    requires said { AreSaid (ground_in of.now) (kept_of Said said.old) }
    requires chain { HasChain of.now.program of.now.sig of.now.tables item }
    ensures rests { OnOk result (AreRests (ground_in of.now) (rest_of chains.new)) }
    ensures said { OnOk result (AreSaid (ground_in of.now) (kept_of Said said.new)) }
    ensures there { OnOk result (IsEnd Said (kept_of Said said.new) (Some item)) }
{
    let count = find_left(alloc, of, chains, item)?;
    let (steps, stop) = walk_to(alloc, of, chains, said, item, count)?;
    say_back(alloc, of, chains, said, item, &steps, stop)?;
    Ok(())
}
