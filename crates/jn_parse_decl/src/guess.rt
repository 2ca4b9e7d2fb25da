//! Where members of types seem to begin. Nothing is claimed of it: what reads from a wrong place is dropped.
use jn_base::OutOfMemory;
use jn_base::lists::put;
use jn_trees::{Token, TokenKind};
use std::alloc::{AllocError, Global};

/// The fewest tokens that are worth a worker: to start one costs some tens of microseconds, in which some hundred tokens
/// are read.
const FEWEST: usize = 4096;

/// The fewest tokens between two places that are told apart, which keeps their list short.
const APART: usize = 256;

/// Whether a member may begin with a token of this kind.
fn may_begin(kind: TokenKind) -> bool {
    matches!(
        kind,
        TokenKind::Id(_)
            | TokenKind::At
            | TokenKind::Void
            | TokenKind::Int
            | TokenKind::Boolean
            | TokenKind::Public
            | TokenKind::Protected
            | TokenKind::Private
            | TokenKind::Static
            | TokenKind::Final
            | TokenKind::Abstract
    )
}

/// Where members of a file's types seem to begin, and where the types seem to end: how many tokens are left there.
#[derive(Drop)]
pub struct Guess {
    /// Where members seem to begin, from the front on.
    places: Vec<usize>,
    /// Where the brace seems to stand that closes a type, from the front on.
    ends: Vec<usize>,
}

impl Guess {
    /// No place.
    pub fn none(alloc: Global) -> Guess {
        Guess {
            places: Vec::new(alloc),
            ends: Vec::new(alloc),
        }
    }

    /// Keeps the place after so many tokens, where it is far enough after the last one, and a member may begin with what
    /// stands there.
    fn note(&mut self, tokens: &[Token], place: usize) -> Result<(), AllocError> {
        let left = tokens.len().saturating_sub(place);
        let last = self.places.last().copied().unwrap_or(tokens.len());
        if left.saturating_add(APART) <= last && left > 0 && may_begin(tokens[place].kind) {
            self.places.push(left)?;
        }
        Ok(())
    }
}

/// Where members seem to begin: after each brace that closes a body, and after each semicolon outside of bodies. None where
/// there are too few tokens for two workers. Goes over the tokens in little more time than it takes to fetch them, since the
/// other workers wait for it.
pub fn beginnings(alloc: Global, tokens: &[Token]) -> Result<Guess, OutOfMemory> {
    let mut guess = Guess::none(alloc);
    if tokens.len() / 2 < FEWEST {
        return Ok(guess);
    }
    let mut open = 0usize;
    for (index, token) in tokens.iter().enumerate() {
        match token.kind {
            TokenKind::LeftBrace => open = open.saturating_add(1),
            TokenKind::RightBrace => {
                open = open.saturating_sub(1);
                if open == 1 {
                    guess.note(tokens, index.saturating_add(1))?;
                } else if open == 0 {
                    put(&mut guess.ends, tokens.len().saturating_sub(index))?;
                }
            }
            TokenKind::Semicolon => {
                if open == 1 {
                    guess.note(tokens, index.saturating_add(1))?;
                }
            }
            _ => {}
        }
    }
    Ok(guess)
}

/// Of these places at most `more`, each about `share` tokens after the one before, the first after the place where `from`
/// tokens are left, and none where fewer than `least` are.
fn apart(
    alloc: Global,
    places: &[usize],
    from: usize,
    least: usize,
    share: usize,
    more: usize,
) -> Result<Vec<usize>, OutOfMemory> {
    let mut chosen = Vec::new(alloc);
    let mut next = from.saturating_sub(share);
    for place in places {
        if *place < least || chosen.len() >= more {
            break;
        }
        if *place <= next {
            put(&mut chosen, *place)?;
            next = place.saturating_sub(share);
        }
    }
    Ok(chosen)
}

/// Places of the guess at which members seem to begin, at most `more`, which part the tokens of the type at the front into
/// about equal shares: how many tokens are left at each, the greatest number first. None where shares would be too small.
pub fn split_places(
    alloc: Global,
    guess: &Guess,
    tokens: &[Token],
    more: u32,
) -> Result<Vec<usize>, OutOfMemory> {
    let from = tokens.len();
    let ended = guess.ends.partition_point(|left| *left > from);
    let end = guess.ends.get(ended).copied().unwrap_or(0);
    let size = from.saturating_sub(end);
    let workers = (more as usize).saturating_add(1).min(size / FEWEST);
    if workers < 2 {
        return Ok(Vec::new(alloc));
    }
    let share = size / workers;
    let first = guess.places.partition_point(|left| *left >= from);
    let least = end.saturating_add(share / 2);
    apart(
        alloc,
        &guess.places[first..],
        from,
        least,
        share,
        workers.saturating_sub(1),
    )
}
