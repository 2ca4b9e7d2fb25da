//! Answers of calls that refuse.

use std::alloc::AllocError;

/// No memory was found.
#[derive(Clone, Copy, Debug, PartialEq, Eq)]
pub struct OutOfMemory;

/// Why a call gave no value: it refused, or found no memory.
#[derive(Clone, Copy, Debug, PartialEq, Eq, Drop)]
pub enum Fail<E> {
    Refused(E),
    OutOfMemory,
}

impl From<AllocError> for OutOfMemory {
    fn from(_error: AllocError) -> OutOfMemory {
        OutOfMemory
    }
}

impl<E> From<AllocError> for Fail<E> {
    fn from(_error: AllocError) -> Fail<E> {
        Fail::OutOfMemory
    }
}

impl<E> From<OutOfMemory> for Fail<E> {
    fn from(_error: OutOfMemory) -> Fail<E> {
        Fail::OutOfMemory
    }
}
