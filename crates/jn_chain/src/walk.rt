//! The walk: from an item to the text, each time the least way that is known.
ghost use Rattle.std.specs.Prelude.{◌≡◌, ◌+◌, IfOk, Some, length};
ghost use Rattle.jn_chain.specs.Keys.{IsEnd, kept_of, rest_of};
ghost use Rattle.jn_chain.specs.Search.{AreRests, IsFound, IsLeastStep, IsPath, IsWay, left_of};

use crate::chains::Chains;
use crate::kept::Kept;
use crate::lists::push;
use crate::origins::Origins;
use jn_base::OutOfMemory;
use jn_reasons::Source;
use jn_reasons_law::{Item, Step};
use std::alloc::Global;

/// The step of the source, which leaves so many, and what it comes from.
fn step_from<O: Origins>(
    origins: &O,
    chains: &Chains,
    source: Source,
    left: usize,
) -> (Step, Source)
    requires rests { AreRests (O.describe origins.now) (rest_of chains.now) }
    requires known { left_of (rest_of chains.now) source ≡ Some (left + 1) }
    ensures { IsLeastStep (O.describe origins.now) (rest_of chains.now) left source result.0 result.1 }
{
    let _origins = origins;
    match source {
        None => unreachable!(),
        Some(item) => match chains.get(item) {
            None => unreachable!(),
            Some(rest) => {
                let step = Step {
                    item,
                    place: rest.cause.place,
                };
                (step, rest.cause.source)
            }
        },
    }
}

/// The least way from the item to the text, of so many steps.
pub(crate) fn walk<O: Origins>(
    alloc: Global,
    origins: &O,
    chains: &Chains,
    item: Item,
    count: usize,
) -> Result<Vec<Step>, OutOfMemory>
    requires { IsFound (O.describe origins.now) (rest_of chains.now) item count }
    ensures way { IfOk result (λ steps. IsWay (O.describe origins.now) (Some item) steps.items) }
    ensures long { IfOk result (λ steps. length steps.items ≡ count) }
{
    let mut steps = Vec::new(alloc);
    let mut source = Some(item);
    let mut left = count;
    while left > 0 {
        left -= 1;
        let (step, next) = step_from(origins, chains, source, left);
        push(&mut steps, step)?;
        source = next;
    }
    Ok(steps)
}

/// The steps from an item, each the least that is known, as far as an item for which something is kept, or the text.
///
/// # Errors
/// No memory was found.
pub fn walk_to<O: Origins, T: Drop>(
    alloc: Global,
    origins: &O,
    chains: &Chains,
    kept: &Kept<T>,
    item: Item,
    count: usize,
) -> Result<(Vec<Step>, Source), OutOfMemory>
    requires { IsFound (O.describe origins.now) (rest_of chains.now) item count }
    ensures path { IfOk result (λ walk. IsPath (O.describe origins.now) (rest_of chains.now)
        (Some item) walk.0.items walk.1) }
    ensures ends { IfOk result (λ walk. IsEnd T (kept_of T kept.now) walk.1) }
{
    let mut steps = Vec::new(alloc);
    let mut source = Some(item);
    let mut left = count;
    while left >= 1 {
        if kept.ends(source) {
            return Ok((steps, source));
        }
        left -= 1;
        let (step, next) = step_from(origins, chains, source, left);
        push(&mut steps, step)?;
        source = next;
    }
    Ok((steps, source))
}
