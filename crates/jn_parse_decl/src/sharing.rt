//! Members of one type shared among workers: each reads from a place at which a member seems to begin, and what was read from
//! there counts only where the reading before it ends at that place.
ghost use Rattle.std.specs.Prelude.{◌≡◌, ◌++◌, [], ℕ, true, drop, Some, None, IfOk};
ghost use Rattle.std.specs.Thread.{IsSync};
ghost use Rattle.jn_trees.specs.View.{member_views};
ghost use Rattle.jn_trees.specs.Pieces.{kinds};
ghost use Rattle.jn_parse_decl.specs.Ahead.{AreMembers, GoesOn};
ghost use Rattle.jn_parse_decl.specs.Seen.{inside_of};

use crate::building::OpenType;
use crate::guess::{Guess, split_places};
use crate::whole::read_members;
use jn_base::OutOfMemory;
use jn_trees::{Member, Owner, Token};
use std::alloc::Global;
use std::thread::{Threads, join};

/// The first members, and the others after them, with room for as many again for each share that is still to come.
fn append(
    first: Vec<Member>,
    others: Vec<Member>,
    further: usize,
) -> Result<Vec<Member>, OutOfMemory>
    ensures { IfOk result (λ all. all.items ≡ first.items ++ others.items) }
{
    let mut all = first;
    let mut others = others;
    let shares = further.saturating_add(1);
    all.reserve(others.len().saturating_mul(shares))?;
    all.append(&mut others)?;
    Ok(all)
}

/// The tokens of which so many are left, or all where there are fewer.
fn last_tokens(tokens: &[Token], many: usize) -> &[Token]
    ensures { (n : ℕ) × (result.now ≡ drop n tokens.now) }
{
    let before = tokens.len().saturating_sub(many);
    &tokens[before..]
}

/// The members that were read first, and those after them where these were read from the very place where the first ones
/// end, and what follows.
fn in_order<'t>(
    tokens: &'t [Token],
    back: &'t [Token],
    owner: Owner,
    first: Result<(Vec<Member>, &'t [Token]), OutOfMemory>,
    others: Result<(Vec<Member>, &'t [Token]), OutOfMemory>,
    further: usize,
) -> Result<(Vec<Member>, &'t [Token]), OutOfMemory>
    requires back { (n : ℕ) × (back.now ≡ drop n tokens.now) }
    requires first { IfOk first
        (λ r. AreMembers owner (kinds tokens.now) (member_views r.0.items) (kinds r.1.now)) }
    requires others { IfOk others
        (λ r. AreMembers owner (kinds back.now) (member_views r.0.items) (kinds r.1.now)) }
    ensures { IfOk result
        (λ r. AreMembers owner (kinds tokens.now) (member_views r.0.items) (kinds r.1.now)) }
{
    let (_tokens, _owner) = (tokens, owner);
    let (members, rest) = first?;
    if rest.len() != back.len() {
        drop(others);
        return Ok((members, rest));
    }
    let (others, end) = others?;
    let all = append(members, others, further)?;
    Ok((all, end))
}

/// The members at the front, in turn, until at most `stop` tokens are left or none can be read whole, and what follows them.
/// One worker reads from the front, and one more from each of the places, which are told by the number of tokens left there.
/// The list of the first grows by those of the others, so that each member is moved once; as many shares as `further` come
/// after these.
#[cycle(share)]
fn members_from<'t, R: Threads + Sync>(
    rt: &R,
    alloc: Global,
    tokens: &'t [Token],
    owner: Owner,
    places: &[usize],
    stop: usize,
    further: usize,
) -> Result<(Vec<Member>, &'t [Token]), OutOfMemory>
    ensures { IfOk result
        (λ r. AreMembers owner (kinds tokens.now) (member_views r.0.items) (kinds r.1.now)) }
{
    match places.split_last() {
        None => read_members(alloc, tokens, owner, stop),
        Some((place, before)) => {
            let place = *place;
            let back = last_tokens(tokens, place);
            let theirs = move || -> Result<(Vec<Member>, &[Token]), OutOfMemory>
                ensures { IfOk result (λ r. AreMembers owner (kinds back.entry.now)
                    (member_views r.0.items) (kinds r.1.now)) }
            { read_members(alloc, back, owner, stop) };
            let ours = move || -> Result<(Vec<Member>, &[Token]), OutOfMemory>
                requires { IsSync R.row }
                ensures { IfOk result (λ r. AreMembers owner (kinds tokens.entry.now)
                    (member_views r.0.items) (kinds r.1.now)) }
            {
                members_from(
                    rt,
                    alloc,
                    tokens,
                    owner,
                    before,
                    place,
                    further.saturating_add(1),
                )
            };
            let (theirs, ours) = join(rt, theirs, ours);
            in_order(tokens, back, owner, ours, theirs, further)
        }
    }
}

/// Whether nothing was read yet of this type after its head.
fn is_fresh(opened: &OpenType) -> bool
    ensures members { result ≡ true → opened.now.members.items ≡ [] }
    ensures body { result ≡ true → opened.now.body ≡ None }
{
    match opened.body {
        None => opened.members.is_empty(),
        Some(_) => false,
    }
}

/// Reads members of this type ahead, where it has just been opened and they are worth more than one worker, and gives what
/// follows them.
fn read_open<'t, R: Threads + Sync>(
    rt: &R,
    alloc: Global,
    opened: &mut OpenType,
    owner: Owner,
    tokens: &'t [Token],
    guess: &Guess,
    more: u32,
) -> Result<&'t [Token], OutOfMemory>
    ensures { IfOk result (λ rest.
        GoesOn owner (inside_of (Some opened.old)) (kinds tokens.now) (inside_of (Some opened.new))
        (kinds rest.now)) }
{
    if !is_fresh(opened) {
        return Ok(tokens);
    }
    let places = split_places(alloc, guess, tokens, more)?;
    if places.is_empty() {
        return Ok(tokens);
    }
    let (found, rest) = members_from(rt, alloc, tokens, owner, &places, 0, 0)?;
    opened.members = found;
    Ok(rest)
}

/// Reads members of the type inside ahead, where it has just been opened and they are worth more than one worker, and gives
/// what follows them.
pub fn read_ahead<'t, R: Threads + Sync>(
    rt: &R,
    alloc: Global,
    inside: &mut Option<OpenType>,
    owner: Owner,
    tokens: &'t [Token],
    guess: &Guess,
    more: u32,
) -> Result<&'t [Token], OutOfMemory>
    ensures { IfOk result (λ rest.
        GoesOn owner (inside_of inside.old) (kinds tokens.now) (inside_of inside.new)
        (kinds rest.now)) }
{
    match inside {
        None => Ok(tokens),
        Some(open) => read_open(rt, alloc, open, owner, tokens, guess, more),
    }
}
