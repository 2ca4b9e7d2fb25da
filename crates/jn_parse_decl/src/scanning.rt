//! What is looked for in all tokens of a file before the first is read.
ghost use Rattle.std.specs.Prelude.{MatchOption, IfOk};
ghost use Rattle.jn_trees.specs.Pieces.{IsTooDeep, Shallow, kinds};

use crate::guess::{Guess, beginnings};
use jn_base::OutOfMemory;
use jn_trees::{Token, too_deep};
use std::alloc::Global;
use std::thread::{Threads, join};

/// The fewest tokens that are worth another worker here: it takes some tens of microseconds to start, in which some ten
/// thousand tokens are looked at.
const FEWEST: usize = 32_768;

/// The number of the first token after which too many brackets are open, and, where other workers may take part, where
/// members seem to begin. Where there are many tokens, one of the others looks for the former.
pub fn scan<R: Threads + Sync>(
    rt: &R,
    alloc: Global,
    tokens: &[Token],
    more: u32,
) -> Result<(Option<usize>, Guess), OutOfMemory>
    ensures { IfOk result (λ r. MatchOption r.0 (Shallow (kinds tokens.now))
        (λ n. IsTooDeep (kinds tokens.now) n)) }
{
    if more == 0 {
        return Ok((too_deep(tokens), Guess::none(alloc)));
    }
    if tokens.len() < FEWEST {
        let guess = beginnings(alloc, tokens)?;
        return Ok((too_deep(tokens), guess));
    }
    let theirs = move || -> Option<usize>
        ensures { MatchOption result (Shallow (kinds tokens.entry.now))
            (λ n. IsTooDeep (kinds tokens.entry.now) n) }
    { too_deep(tokens) };
    let ours = move || -> Result<Guess, OutOfMemory> { beginnings(alloc, tokens) };
    let (deep, guess) = join(rt, theirs, ours);
    let guess = guess?;
    Ok((deep, guess))
}
