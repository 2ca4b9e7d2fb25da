//! Words put into a text: by one pass over both where their places rise, as those of a file's positions do.
ghost use Rattle.std.specs.Prelude.{◌≡◌, ◌≤◌, ◌-◌, ◌++◌, length, take, drop, true, IfOk};
ghost use Rattle.jn_splice_law.specs.Inserted.{inserted, put_in};
ghost use Rattle.jn_splice_law.specs.Passed.{Rising};
ghost use Rattle.jn_annotate.specs.Puts.{insertions};

use crate::parts::{first_items, items_behind};
use jn_base::Seq;
use std::alloc::{AllocError, Global};

/// Words that are put before a byte of a text.
#[derive(Drop)]
pub struct Put {
    pub at: usize,
    pub words: Seq<u8>,
}

/// The bytes of a text from one place to another.
fn part<'a>(text: &'a [u8], from: usize, to: usize) -> &'a [u8]
    requires low { from ≤ to }
    requires high { to ≤ length text.now }
    ensures { result.now ≡ take (to - from) (drop from text.now) }
{
    &text[from..to]
}

/// Puts what stands before the words, from a place on, and the words after the new text.
fn put_words(new: &mut Vec<u8>, text: &[u8], from: usize, put: &Put) -> Result<(), AllocError>
    requires low { from ≤ put.now.at }
    requires high { put.now.at ≤ length text.now }
    ensures { IfOk result (λ u. new.new.items
        ≡ new.old.items ++ (take (put.now.at - from) (drop from text.now) ++ put.now.words)) }
{
    new.extend_from_slice(part(text, from, put.at))?;
    new.extend_from_slice(put.words.as_slice())
}

/// Puts what stands after a place after the new text.
fn put_rest(new: &mut Vec<u8>, text: &[u8], from: usize) -> Result<(), AllocError>
    requires { from ≤ length text.now }
    ensures { IfOk result (λ u. new.new.items ≡ new.old.items ++ drop from text.now) }
{
    new.extend_from_slice(&text[from..])
}

/// The text with all of them, whose places rise.
fn insert_all(alloc: Global, text: &[u8], puts: &[Put]) -> Result<Vec<u8>, AllocError>
    requires { Rising 0 (length text.now) (insertions puts.now) }
    ensures { IfOk result (λ new. new.items ≡ inserted text.now (insertions puts.now)) }
{
    let mut new = Vec::new(alloc);
    let mut from = 0;
    for k in 0..puts.len() {
        let put = &puts[k];
        put_words(&mut new, text, from, put)?;
        from = put.at;
    }
    put_rest(&mut new, text, from)?;
    Ok(new)
}

/// Whether the places rise up to the text's end.
#[tactic(auto, using(crate::proofs::Stepping::rising_more))]
fn rises(puts: &[Put], end: usize) -> bool
    ensures { result ≡ true → Rising 0 end (insertions puts.now) }
{
    let mut from = 0;
    for put in puts {
        if put.at < from || end < put.at {
            return false;
        }
        from = put.at;
    }
    true
}

/// The text with the words of one.
fn insert_one(alloc: Global, text: &[u8], put: &Put) -> Result<Vec<u8>, AllocError>
    ensures { IfOk result (λ new. new.items ≡ put_in put.now.at put.now.words text.now) }
{
    let mut new = Vec::from_slice(alloc, first_items(text, put.at))?;
    new.extend_from_slice(put.words.as_slice())?;
    new.extend_from_slice(items_behind(text, put.at))?;
    Ok(new)
}

/// The text with all of them, the last put in first.
fn insert_each(puts: &[Put], alloc: Global, text: &[u8]) -> Result<Vec<u8>, AllocError>
    ensures { IfOk result (λ new. new.items ≡ inserted text.now (insertions puts.now)) }
{
    match puts {
        [] => Vec::from_slice(alloc, text),
        [put, rest @ ..] => {
            let made = insert_each(rest, alloc, text)?;
            insert_one(alloc, &made, put)
        }
    }
}

/// The text with all of them, in the order of their places.
pub fn insert(alloc: Global, text: &[u8], puts: &[Put]) -> Result<Vec<u8>, AllocError>
    ensures { IfOk result (λ new. new.items ≡ inserted text.now (insertions puts.now)) }
{
    if rises(puts, text.len()) {
        insert_all(alloc, text, puts)
    } else {
        insert_each(puts, alloc, text)
    }
}
