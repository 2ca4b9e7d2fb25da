//! Parts of lists and of texts.
ghost use Rattle.std.specs.Prelude.{◌≡◌, ◌-◌, drop, take};
ghost use Rattle.jn_splice_law.specs.Woven.{piece};

use jn_base::Span;

/// The items after so many.
#[tactic(auto, using(crate::proofs::Cursors::drop_all))]
pub fn items_behind<T>(items: &[T], count: usize) -> &[T]
    ensures { result.now ≡ drop count items.now }
{
    if count < items.len() {
        &items[count..]
    } else {
        &[]
    }
}

/// The first items, so many.
#[tactic(auto, using(crate::proofs::Cursors::take_all))]
pub fn first_items<T>(items: &[T], count: usize) -> &[T]
    ensures { result.now ≡ take count items.now }
{
    if count < items.len() {
        &items[..count]
    } else {
        items
    }
}

/// A number less another one, or nothing.
pub fn less(from: u32, by: u32) -> u32
    ensures { result ≡ from - by }
{
    if by < from { from - by } else { 0 }
}

/// The bytes of a text at a place.
pub fn bytes_at(text: &[u8], span: Span) -> &[u8]
    ensures { result.now ≡ piece text.now span }
{
    first_items(
        items_behind(text, span.from as usize),
        less(span.to, span.from) as usize,
    )
}
