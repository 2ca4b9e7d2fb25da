//! Members of one type shared among workers: each sets places from a token at which a member seems to begin, and what was set
//! from there counts only where the members before it end at that token.
ghost use Rattle.std.specs.Prelude.{◌≡◌, ◌++◌, ℕ, true, drop, length};
ghost use Rattle.std.specs.Thread.{IsSync};
ghost use Rattle.jn_places.specs.Turn.{InTurn};

use crate::cuts::last_share;
use crate::members::place_member;
use jn_trees::{Member, Token};
use std::thread::{Threads, join_mut};

/// Sets the places of members; what follows them.
fn place_in_turn<'t>(tokens: &'t [Token], members: &mut [Member]) -> &'t [Token]
    ensures { InTurn tokens.now members.old members.new result.now }
{
    let mut rest = tokens;
    for at in 0..members.len() {
        rest = place_member(rest, &mut members[at]);
    }
    rest
}

/// Whether as many tokens are left as are guessed to be, which makes them the same ones.
fn as_many(rest: &[Token], guess: &[Token]) -> bool
    ensures { result ≡ true → length rest.now ≡ length guess.now }
{
    rest.len() == guess.len()
}

/// Sets the places of members, by as many other workers as `more`, if there are enough tokens for them; what follows the
/// members. One worker takes the members at the back, and the others share those before.
#[cycle(share)]
pub fn place_shared<'t, R: Threads + Sync>(
    rt: &R,
    tokens: &'t [Token],
    members: &mut [Member],
    more: u32,
) -> &'t [Token]
    ensures { InTurn tokens.now members.old members.new result.now }
{
    if more == 0 {
        return place_in_turn(tokens, members);
    }
    match last_share(tokens, members, more) {
        None => place_in_turn(tokens, members),
        Some(cut) => {
            let guess = &tokens[cut.tokens..];
            let (front, back) = members.split_at_mut(cut.members);
            place_both(rt, tokens, guess, front, back, more - 1)
        }
    }
}

/// Sets the places of members at the front and, beside that, of those at the back from the token that is guessed to be their
/// first; where it isn't, sets those of the back once more. What follows the members.
#[cycle(share)]
fn place_both<'t, R: Threads + Sync>(
    rt: &R,
    tokens: &'t [Token],
    guess: &'t [Token],
    front: &mut [Member],
    back: &mut [Member],
    more: u32,
) -> &'t [Token]
    requires { (n : ℕ) × (guess.now ≡ drop n tokens.now) }
    ensures { InTurn tokens.now (front.old ++ back.old) (front.new ++ back.new) result.now }
{
    let (rest, end) = side_by_side(rt, tokens, guess, front, back, more);
    if as_many(rest, guess) {
        return end;
    }
    place_in_turn(rest, back)
}

/// Sets the places of members at the front and, beside that, of those at the back from the token that is guessed to be their
/// first. What follows the ones, and what follows the others.
#[cycle(share)]
fn side_by_side<'t, R: Threads + Sync>(
    rt: &R,
    tokens: &'t [Token],
    guess: &'t [Token],
    front: &mut [Member],
    back: &mut [Member],
    more: u32,
) -> (&'t [Token], &'t [Token])
    ensures front { InTurn tokens.now front.old front.new result.0.now }
    ensures back { InTurn guess.now back.old back.new result.1.now }
{
    let mut theirs = || -> &[Token]
        ensures { InTurn guess.entry.now back.entry.now back.exit.now result.now }
    { place_in_turn(guess, back) };
    let mut ours = || -> &[Token]
        requires { IsSync R.row }
        ensures { InTurn tokens.entry.now front.entry.now front.exit.now result.now }
    { place_shared(rt, tokens, front, more) };
    let (end, rest) = join_mut(rt, &mut theirs, &mut ours);
    (rest, end)
}
