//! Causes: a place, and what an item has its bit from there.

use crate::sources::Source;
use jn_reasons_law::Place;

/// A place, and what an item has its bit from there.
#[derive(Clone, Copy, Debug)]
pub struct Cause {
    pub place: Place,
    pub source: Source,
}
