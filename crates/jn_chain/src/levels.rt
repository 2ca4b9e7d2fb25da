//! Levels: the item, what it comes from, what that comes from, as far as it isn't known how many steps are left from there.
ghost use Rattle.std.specs.Prelude.{◌≡◌, ◌+◌, [], IfOk, OnOk, Option, true};
ghost use Rattle.jn_reasons_law.specs.declared.item.Item.{Item};
ghost use Rattle.jn_reasons_law.specs.Chains.{HasChain};
ghost use Rattle.jn_reasons_law.specs.Sources.{IsOneOf};
ghost use Rattle.jn_chain.specs.Keys.{rest_of};
ghost use Rattle.jn_chain.specs.Search.{AreAllLevels, AreMet, AreRests, AreSeen, IsAdded, IsAtMost, IsLower, IsReached, IsSource};

use crate::chains::Chains;
use crate::lists::{only, push};
use crate::origins::Origins;
use crate::sources::Sources;
use jn_base::{OutOfMemory, Seq};
use jn_reasons::{Cause, Source};
use jn_reasons_law::Item;
use std::alloc::{AllocError, Global};

/// Adds the source, where it isn't seen.
fn add_source(
    next: &mut Vec<Source>,
    seen: &mut Sources,
    levels: &[Seq<Source>],
    source: Source,
) -> Result<(), AllocError>
    requires seen { AreSeen seen.old levels.now next.old.items }
    ensures seen { OnOk result (AreSeen seen.new levels.now next.new.items) }
    ensures added { OnOk result (IsAdded levels.now source next.old.items next.new.items) }
{
    let _levels = levels;
    if seen.contains(source) {
        return Ok(());
    }
    seen.put(source)?;
    push(next, source)?;
    Ok(())
}

/// The lesser of two numbers of steps, where there is a first.
fn lesser(best: Option<usize>, steps: usize) -> Option<usize>
    ensures { IsLower best steps result }
{
    match best {
        None => Some(steps),
        Some(least) => {
            if least <= steps {
                Some(least)
            } else {
                Some(steps)
            }
        }
    }
}

/// With so many steps, of which there are two parts; there is no memory for more than can be counted.
fn bounded(best: Option<usize>, depth: usize, left: usize) -> Result<Option<usize>, OutOfMemory>
    ensures { IfOk result (λ now. IsLower best (depth + left) now) }
{
    if left > usize::MAX - depth {
        return Err(OutOfMemory);
    }
    Ok(lesser(best, depth + left))
}

/// Meets a source: it bounds the best, where it is known how many steps are left from there, and else it is added.
fn meet_source(
    chains: &Chains,
    next: &mut Vec<Source>,
    seen: &mut Sources,
    levels: &[Seq<Source>],
    depth: usize,
    best: Option<usize>,
    source: Source,
) -> Result<Option<usize>, OutOfMemory>
    requires seen { AreSeen seen.old levels.now next.old.items }
    ensures seen { OnOk result (AreSeen seen.new levels.now next.new.items) }
    ensures met { IfOk result (λ now. AreMet (rest_of chains.now) levels.now depth (λ z. z ≡ source)
        next.old.items next.new.items best now) }
{
    match chains.left(source) {
        Some(left) => {
            let now = bounded(best, depth, left)?;
            Ok(now)
        }
        None => {
            add_source(next, seen, levels, source)?;
            Ok(best)
        }
    }
}

/// Meets the sources of the causes.
fn meet_sources(
    chains: &Chains,
    next: &mut Vec<Source>,
    seen: &mut Sources,
    levels: &[Seq<Source>],
    depth: usize,
    best: Option<usize>,
    causes: &[Cause],
) -> Result<Option<usize>, OutOfMemory>
    requires seen { AreSeen seen.old levels.now next.old.items }
    ensures seen { OnOk result (AreSeen seen.new levels.now next.new.items) }
    ensures met { IfOk result (λ now. AreMet (rest_of chains.now) levels.now depth (IsSource causes.now)
        next.old.items next.new.items best now) }
{
    let mut least = best;
    for cause in causes {
        let now = meet_source(chains, next, seen, levels, depth, least, cause.source)?;
        least = now;
    }
    Ok(least)
}

/// Meets what the sources of the last level come from.
fn next_level<O: Origins>(
    alloc: Global,
    origins: &O,
    chains: &Chains,
    seen: &mut Sources,
    levels: &[Seq<Source>],
    last: &[Source],
    depth: usize,
    best: Option<usize>,
) -> Result<(Vec<Source>, Option<usize>), OutOfMemory>
    requires seen { AreSeen seen.old levels.now [] }
    ensures seen { IfOk result (λ found. AreSeen seen.new levels.now found.0.items) }
    ensures met { IfOk result (λ found. AreMet (rest_of chains.now) levels.now depth
        (IsReached (O.describe origins.now) last.now) [] found.0.items best found.1) }
{
    let mut next = Vec::new(alloc);
    let mut least = best;
    for source in last {
        let causes = origins.causes(alloc, *source)?;
        let now = meet_sources(chains, &mut next, seen, levels, depth, least, &causes)?;
        least = now;
    }
    Ok((next, least))
}

/// Whether no chain with fewer steps than the best goes on to the next level.
fn is_over(next: &[Source], best: Option<usize>, depth: usize) -> bool
    ensures { result ≡ true → (z : Option Item) → IsOneOf z next.now → IsAtMost best depth }
{
    if next.len() == 0 {
        return true;
    }
    match best {
        None => false,
        Some(steps) => steps <= depth,
    }
}

/// The levels from an item on, as far as one of its shortest chains can go through sources of which nothing is known; and how many steps such a
/// chain has. An item that has a chain always has a next level until then.
pub(crate) fn find_levels<O: Origins>(
    alloc: Global,
    origins: &O,
    chains: &Chains,
    item: Item,
) -> Result<(Vec<Seq<Source>>, usize), OutOfMemory>
    requires rests { AreRests (O.describe origins.now) (rest_of chains.now) }
    requires chain { HasChain (O.describe origins.now).program (O.describe origins.now).sig
        (O.describe origins.now).tables item }
    ensures { IfOk result (λ found. AreAllLevels (O.describe origins.now) (rest_of chains.now)
        found.0.items item found.1) }
{
    let mut seen = Sources::new(alloc);
    seen.put(Some(item))?;
    let mut levels = Vec::new(alloc);
    push(&mut levels, only(alloc, Some(item))?)?;
    let mut best = None;
    let mut at = 0;
    while at < levels.len() {
        let (next, least) = next_level(
            alloc,
            origins,
            chains,
            &mut seen,
            &levels,
            levels[at].as_slice(),
            at + 1,
            best,
        )?;
        let ends = is_over(&next, least, at + 1);
        push(&mut levels, Seq::of_vec(next))?;
        best = least;
        if ends {
            match best {
                None => unreachable!(),
                Some(steps) => return Ok((levels, steps)),
            }
        }
        at += 1;
    }
    unreachable!()
}
