//! What each kind of step makes of a pass's view.
ghost use Rattle.jn_sigtable.specs.Machine.{Takes, Reads, Raises, Marks, Scans, described, left_seen, right_seen, both_seen, spent};

use crate::constraints::Constraints;
use crate::view::View;
use atomic_table::{Join, Play, Split};
use std::marker::PhantomData;

/// One dirty bit is cleared: the pass runs the body, or has seen its bit clear.
pub struct Take<C> {
    of: PhantomData<C>,
}

impl<C: Constraints> Play<u8, View<Option<C>>> for Take<C> {
    ghost then = { Takes (described C.describe) };
}

/// A word is read for the running body.
pub struct Read<C> {
    of: PhantomData<C>,
}

impl<C: Constraints> Play<u8, View<Option<C>>> for Read<C> {
    ghost then = { Reads (described C.describe) };
}

/// Bits of a word are raised for the running body.
pub struct Raise<C> {
    of: PhantomData<C>,
}

impl<C: Constraints> Play<u8, View<Option<C>>> for Raise<C> {
    ghost then = { Raises (described C.describe) };
}

/// Dirty bits are set.
pub struct Mark<C> {
    of: PhantomData<C>,
}

impl<C: Constraints> Play<u8, View<Option<C>>> for Mark<C> {
    ghost then = { Marks (described C.describe) };
}

/// A dirty word is looked at.
pub struct Scan<C> {
    of: PhantomData<C>,
}

impl<C: Constraints> Play<u8, View<Option<C>>> for Scan<C> {
    ghost then = { Scans (described C.describe) };
}

/// A pass is cut in two, or two are put together.
pub struct Share<C> {
    of: PhantomData<C>,
}

impl<C: Constraints> Split<View<Option<C>>> for Share<C> {
    ghost left = { left_seen C.describe };

    ghost right = { right_seen C.describe };
}

impl<C: Constraints> Join<View<Option<C>>> for Share<C> {
    ghost both = { both_seen C.describe };

    ghost spent = { spent };
}
