//! What is left without words: inferred slots whose qualifier has no spelling; and what is refused: the first text that is too large.
ghost use Rattle.std.specs.Prelude.{◌≡◌, ◌<◌, ◌^◌, length, IfNone, IfOk, IfSome};
ghost use Rattle.jn_annotate.specs.Annotated.{has_no_spelling, HasNone, is_too_large, IsFirst, unspelled_slots};

use crate::shared::put_if;
use crate::words::is_unspelled;
use jn_base::{OutOfMemory, Seq, SlotNo};
use jn_points::Program;
use jn_sigs::Sig;
use std::alloc::Global;

/// The slot is inferred, and has no spelling.
fn has_no_spelling(program: &Program, sig: &Sig, slot: u32) -> bool
    ensures { result ≡ has_no_spelling program.now sig.now slot }
{
    match program.slots.as_slice().get(slot as usize) {
        None => false,
        Some(info) => info.inferred && is_unspelled(sig.get(SlotNo(slot))),
    }
}

/// The inferred slots whose qualifier no annotation says, in their order: nothing but null, or nothing at all, is sent to them. They are left
/// without words.
///
/// # Errors
///
/// No memory was found.
#[tactic(auto, using(crate::proofs::Leaving::next_left, crate::proofs::Leaving::all_left))]
pub fn unspelled_slots(alloc: Global, program: &Program, sig: &Sig) -> Result<Vec<u32>, OutOfMemory>
    requires { length sig.now ≡ length program.now.slots }
    ensures { IfOk result (λ left. left.items ≡ unspelled_slots program.now sig.now) }
{
    let mut left = Vec::new(alloc);
    for slot in 0..sig.slots() {
        let wanted = has_no_spelling(program, sig, slot);
        put_if(&mut left, wanted, slot)?;
    }
    Ok(left)
}

/// The text is longer than 1 MiB.
fn is_too_large(texts: &[Seq<u8>], file: u32) -> bool
    ensures { result ≡ is_too_large texts.now file }
{
    match texts.get(file as usize) {
        None => false,
        Some(text) => text.len() > 1_048_576,
    }
}

/// The first text that is too large.
pub fn first_too_large(texts: &[Seq<u8>]) -> Option<u32>
    requires { length texts.now < 2 ^ 32 }
    ensures first { IfSome result (λ k. IsFirst (is_too_large texts.now) k) }
    ensures none { IfNone result (HasNone (is_too_large texts.now)) }
{
    for file in 0..texts.len() as u32 {
        if is_too_large(texts, file) {
            return Some(file);
        }
    }
    None
}
