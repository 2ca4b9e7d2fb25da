//! Words at their positions in a text.
ghost use Rattle.std.specs.Prelude.{◌≡◌, ◌++◌, ◌∷◌, [], filter, IfOk, OnOk};
ghost use Rattle.jn_annotate.specs.Puts.{insertions};
ghost use Rattle.jn_lsp_actions.specs.Hinted as spec;

use crate::asking::meets;
use jn_annotate::insert::Put;
use jn_base::{Seq, Text};
use jn_lsp_text::sweep::{place_of, start_of};
use jn_lsp_text::{Encoding, Hint, Position, Range, SmallText};
use std::alloc::{AllocError, Global};

/// A hint, and the slot whose words it shows.
#[derive(Drop)]
pub struct SlotHint {
    pub slot: u32,
    pub hint: Hint,
}

/// The text without this front, where it has it.
fn without_front<'a>(text: &'a [u8], front: &[u8]) -> &'a [u8]
    ensures { result.now ≡ spec.without_front front.now text.now }
{
    if text.starts_with(front) {
        &text[front.len()..]
    } else {
        text
    }
}

/// The text without this ending, where it has it.
fn without_ending<'a>(text: &'a [u8], ending: &[u8]) -> &'a [u8]
    ensures { result.now ≡ spec.without_ending ending.now text.now }
{
    if text.ends_with(ending) {
        &text[..text.len() - ending.len()]
    } else {
        text
    }
}

/// Words at a position, without a space before and after them.
fn hint_of(alloc: Global, at: Position, words: &[u8]) -> Result<Hint, AllocError>
    ensures { IfOk result (λ hint. hint ≡ spec.hint_of at words.now) }
{
    let label = without_ending(without_front(words, b" "), b" ");
    Ok(Hint {
        at,
        label: Text::of_string(String::from_utf8_lossy(alloc, label)?),
        space_before: words.starts_with(b" "),
        space_behind: words.ends_with(b" "),
        related: Seq::new(alloc),
    })
}

fn is_within(range: Range, at: Position) -> bool
    ensures { result ≡ spec.is_within range at }
{
    meets(Range { start: at, end: at }, range)
}

/// Puts a slot's words after the others where their position is in the range.
fn push_within(
    alloc: Global,
    hints: &mut Seq<SlotHint>,
    range: Range,
    slot: u32,
    at: Position,
    words: &[u8],
) -> Result<(), AllocError>
    ensures { OnOk result (hints.new
        ≡ hints.old
        ++ filter (spec.is_slot_shown range)
        (record { slot = slot; hint = spec.hint_of at words.now } ∷ [])) }
{
    if is_within(range, at) {
        hints.push(SlotHint {
            slot,
            hint: hint_of(alloc, at, words)?,
        })
    } else {
        Ok(())
    }
}

/// Those in a range, of words that are put into a text for these slots.
///
/// # Errors
/// No memory was found.
#[tactic(auto, using(crate::proofs::Showing::next_shown))]
pub fn shown(
    alloc: Global,
    encoding: Encoding,
    text: &SmallText,
    range: Range,
    slots: &[u32],
    puts: &[Put],
) -> Result<Seq<SlotHint>, AllocError>
    ensures { IfOk result
        (λ hints. hints ≡ spec.shown encoding text.now range slots.now (insertions puts.now)) }
{
    let mut hints = Seq::new(alloc);
    let mut place = start_of(encoding, text.bytes());
    let mut rest = slots;
    let mut left = puts;
    while let [slot, more @ ..] = rest {
        match left {
            [] => return Ok(hints),
            [put, others @ ..] => {
                let (next, at) = place_of(encoding, text.bytes(), place, put.at);
                push_within(alloc, &mut hints, range, *slot, at, put.words.as_slice())?;
                place = next;
                rest = more;
                left = others;
            }
        }
    }
    Ok(hints)
}
