//! What a source or a sink did, as a list that only clauses read.
ghost use Rattle.std.specs.Prelude.{◌≡◌, List, [], ◌++◌};
ghost use Rattle.std.specs.Borrow.{ftrue};

use std::marker::{Model, PhantomData};

/// How a list is read off a value.
pub trait Tells<X, T> {
    ghost told: { X → List T };
}

/// A list that only clauses read. It takes no memory, and its methods do nothing at run time.
#[derive(Drop)]
pub struct Told<T> {
    of: PhantomData<T>,
    pub ghost items: { List T },
}

impl<T> Model for Told<T> {
    ghost also_owns = { λ _. ftrue };
}

struct Nothing;

impl<T> Tells<(), T> for Nothing {
    ghost told = { λ _. [] };
}

/// A list, and bytes after it.
#[derive(Drop)]
struct Behind<'a> {
    before: &'a Told<u8>,
    bytes: &'a [u8],
}

struct Bytes;

impl<'a> Tells<Behind<'a>, u8> for Bytes {
    ghost told = { λ x. x.before.now.items ++ x.bytes.now };
}

impl<T> Told<T> {
    /// The list that `M` reads off this value.
    pub fn of<X, M: Tells<X, T>>(_x: &X) -> Told<T>
        ensures { result.items ≡ M.told _x.now }
    {
        Told { of: PhantomData }
    }

    /// An empty list.
    pub fn none() -> Told<T>
        ensures { result.items ≡ [] }
    {
        Told::of::<(), Nothing>(&())
    }
}

/// The list with these bytes after it.
pub fn with_bytes(before: &Told<u8>, bytes: &[u8]) -> Told<u8>
    ensures { result.items ≡ before.now.items ++ bytes.now }
{
    Told::of::<Behind<'_>, Bytes>(&Behind { before, bytes })
}
