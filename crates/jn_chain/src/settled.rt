//! From the last level back: of each item on a shortest chain how many steps are left, and the least cause that leaves one less.
ghost use Rattle.std.specs.Prelude.{◌-◌, ◌<◌, ◌∷◌, [], OnOk, Some};
ghost use Rattle.jn_reasons_law.specs.declared.item.Item.{Item};
ghost use Rattle.jn_chain.specs.Keys.{rest_of};
ghost use Rattle.jn_chain.specs.Search.{AreAllLevels, AreCauses, AreDue, AreRests, AreSettled, IsFound};

use crate::chains::{Chains, Rest};
use crate::order::least;
use crate::origins::Origins;
use jn_base::{OutOfMemory, Seq};
use jn_reasons::{Cause, Source};
use jn_reasons_law::Item;
use std::alloc::{AllocError, Global};

/// Settles an item by its causes.
fn settle_by<O: Origins>(
    origins: &O,
    chains: &mut Chains,
    item: Item,
    causes: &[Cause],
    left: usize,
) -> Result<(), AllocError>
    requires some { 0 < left }
    requires causes { AreCauses (O.describe origins.now) (Some item) causes.now }
    requires due { AreDue (O.describe origins.now) (rest_of chains.old) (Some item ∷ []) left }
    ensures { OnOk result (AreSettled (O.describe origins.now) (Some item ∷ []) left
        (rest_of chains.old) (rest_of chains.new)) }
{
    let _origins = origins;
    match least(causes, chains, left - 1) {
        None => Ok(()),
        Some(cause) => {
            chains.put(item, Rest { left, cause })?;
            Ok(())
        }
    }
}

/// Settles an item.
fn settle_item<O: Origins>(
    alloc: Global,
    origins: &O,
    chains: &mut Chains,
    item: Item,
    left: usize,
) -> Result<(), OutOfMemory>
    requires some { 0 < left }
    requires due { AreDue (O.describe origins.now) (rest_of chains.old) (Some item ∷ []) left }
    ensures { OnOk result (AreSettled (O.describe origins.now) (Some item ∷ []) left
        (rest_of chains.old) (rest_of chains.new)) }
{
    let causes = origins.causes(alloc, Some(item))?;
    settle_by(origins, chains, item, &causes, left)?;
    Ok(())
}

/// Settles a source; of the text nothing is to be known.
fn settle_source<O: Origins>(
    alloc: Global,
    origins: &O,
    chains: &mut Chains,
    source: Source,
    left: usize,
) -> Result<(), OutOfMemory>
    requires some { 0 < left }
    requires due { AreDue (O.describe origins.now) (rest_of chains.old) (source ∷ []) left }
    ensures { OnOk result (AreSettled (O.describe origins.now) (source ∷ []) left
        (rest_of chains.old) (rest_of chains.new)) }
{
    match source {
        None => Ok(()),
        Some(item) => settle_item(alloc, origins, chains, item, left),
    }
}

/// Settles the sources of a level.
fn settle_level<O: Origins>(
    alloc: Global,
    origins: &O,
    chains: &mut Chains,
    level: &[Source],
    left: usize,
) -> Result<(), OutOfMemory>
    requires some { 0 < left }
    requires due { AreDue (O.describe origins.now) (rest_of chains.old) level.now left }
    ensures { OnOk result (AreSettled (O.describe origins.now) level.now left
        (rest_of chains.old) (rest_of chains.new)) }
{
    for source in level {
        settle_source(alloc, origins, chains, *source, left)?;
    }
    Ok(())
}

/// Settles the sources of all levels, and so the item.
pub(crate) fn settle<O: Origins>(
    alloc: Global,
    origins: &O,
    chains: &mut Chains,
    item: Item,
    levels: &[Seq<Source>],
    best: usize,
) -> Result<(), OutOfMemory>
    requires levels { AreAllLevels (O.describe origins.now) (rest_of chains.old) levels.now item best }
    requires rests { AreRests (O.describe origins.now) (rest_of chains.old) }
    ensures { OnOk result (IsFound (O.describe origins.now) (rest_of chains.new) item best) }
{
    let _item = item;
    for done in 0..levels.len() {
        let at = levels.len() - 1 - done;
        if at < best {
            settle_level(alloc, origins, chains, levels[at].as_slice(), best - at)?;
        }
    }
    Ok(())
}
