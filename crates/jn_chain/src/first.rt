//! The first of the shortest chains.
ghost use Rattle.std.specs.Prelude.{IfOk, List, Some};
ghost use Rattle.jn_reasons_law.specs.declared.item.Item.{Item};
ghost use Rattle.jn_reasons_law.specs.declared.item.Step.{Step};
ghost use Rattle.jn_reasons_law.specs.Items.{Stands};
ghost use Rattle.jn_reasons_law.specs.Chains.{HasChain};
ghost use Rattle.jn_reasons_law.specs.Choice.{IsFirstChain};
ghost use Rattle.jn_chain.specs.Keys.{rest_of};
ghost use Rattle.jn_chain.specs.Search.{AreRests, Ground, IsFound, IsShortestWay};

use crate::chains::Chains;
use crate::levels::find_levels;
use crate::origins::Origins;
use crate::settled::settle;
use crate::walk::walk;
use jn_base::OutOfMemory;
use jn_reasons_law::law::least_ways_make_the_first_chain;
use jn_reasons_law::{Item, Step};
use std::alloc::Global;

/// Searches from an item of which nothing is known; how many steps are left from there.
fn search<O: Origins>(
    alloc: Global,
    origins: &O,
    chains: &mut Chains,
    item: Item,
) -> Result<usize, OutOfMemory>
    requires rests { AreRests (O.describe origins.now) (rest_of chains.old) }
    requires chain { HasChain (O.describe origins.now).program (O.describe origins.now).sig
        (O.describe origins.now).tables item }
    ensures { IfOk result (λ left. IsFound (O.describe origins.now) (rest_of chains.new) item left) }
{
    let (levels, best) = find_levels(alloc, origins, chains, item)?;
    settle(alloc, origins, chains, item, &levels, best)?;
    Ok(best)
}

/// How many steps are left from an item that has a chain, searched for where it isn't known.
///
/// # Errors
/// No memory was found.
pub fn find_left<O: Origins>(
    alloc: Global,
    origins: &O,
    chains: &mut Chains,
    item: Item,
) -> Result<usize, OutOfMemory>
    requires rests { AreRests (O.describe origins.now) (rest_of chains.old) }
    requires chain { HasChain (O.describe origins.now).program (O.describe origins.now).sig
        (O.describe origins.now).tables item }
    ensures { IfOk result (λ left. IsFound (O.describe origins.now) (rest_of chains.new) item left) }
{
    match chains.left(Some(item)) {
        None => search(alloc, origins, chains, item),
        Some(left) => Ok(left),
    }
}

/// A way by least steps of which none is shorter is the first of the shortest chains.
pub fn shortest_ways_are_first_chains()
    ensures { (G : Ground) (x : Item) (steps : List Step) → Stands G.sig G.tables x
        → IsShortestWay G (Some x) steps → IsFirstChain G.program G.sig G.tables x steps }
{
    least_ways_make_the_first_chain();
}

/// The first of the shortest chains from an item that has one, with what is known of others. There is no other, so it doesn't depend on the search; and
/// each bit of a least signature, and of the least tables under it, has one (`jn_reasons_law::law::each_bit_has_a_chain`).
///
/// # Errors
/// No memory was found.
pub fn next_first_chain<O: Origins>(
    alloc: Global,
    origins: &O,
    chains: &mut Chains,
    item: Item,
) -> Result<Vec<Step>, OutOfMemory>
    requires rests { AreRests (O.describe origins.now) (rest_of chains.old) }
    requires chain { HasChain (O.describe origins.now).program (O.describe origins.now).sig
        (O.describe origins.now).tables item }
    ensures rests { IfOk result (λ steps. AreRests (O.describe origins.now) (rest_of chains.new)) }
    ensures first { IfOk result (λ steps. IsFirstChain (O.describe origins.now).program (O.describe origins.now).sig
        (O.describe origins.now).tables item steps.items) }
{
    least_ways_make_the_first_chain();
    let left = find_left(alloc, origins, chains, item)?;
    let steps = walk(alloc, origins, chains, item, left)?;
    Ok(steps)
}

/// The first of the shortest chains from an item that has one.
///
/// # Errors
/// No memory was found.
pub fn first_chain<O: Origins>(
    alloc: Global,
    origins: &O,
    item: Item,
) -> Result<Vec<Step>, OutOfMemory>
    requires chain { HasChain (O.describe origins.now).program (O.describe origins.now).sig
        (O.describe origins.now).tables item }
    ensures { IfOk result (λ steps. IsFirstChain (O.describe origins.now).program (O.describe origins.now).sig
        (O.describe origins.now).tables item steps.items) }
{
    let mut chains = Chains::new(alloc);
    let steps = next_first_chain(alloc, origins, &mut chains, item)?;
    Ok(steps)
}
