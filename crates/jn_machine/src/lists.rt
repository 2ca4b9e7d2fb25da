//! Lists of values and registers.
ghost use Rattle.std.specs.Prelude.{◌≡◌, slice_set};

/// Puts an item at a place of a list, where that is there.
pub fn put<T: Drop>(items: &mut [T], at: usize, item: T)
    ensures { items.new ≡ slice_set items.old at item }
{
    if at < items.len() {
        items[at] = item;
    }
}
