//! Typed numbers of the things of a program.
ghost use Rattle.std.specs.Prelude.{◌≡◌, max};

/// A file, by its place in the list of files.
#[derive(Clone, Copy, Debug, PartialEq, Eq, PartialOrd, Ord)]
pub struct FileNo(pub u32);

/// A class, by its place in a program's list of classes.
#[derive(Clone, Copy, Debug, PartialEq, Eq, PartialOrd, Ord)]
pub struct ClassNo(pub u32);

/// A field, by its place in a program's list of fields.
#[derive(Clone, Copy, Debug, PartialEq, Eq, PartialOrd, Ord)]
pub struct FieldNo(pub u32);

/// A method or constructor, by its place in a program's list of methods.
#[derive(Clone, Copy, Debug, PartialEq, Eq, PartialOrd, Ord)]
pub struct MethodNo(pub u32);

/// A body, by its place in a program's list of bodies.
#[derive(Clone, Copy, Debug, PartialEq, Eq, PartialOrd, Ord)]
pub struct BodyNo(pub u32);

/// A point, by its place in its body.
#[derive(Clone, Copy, Debug, PartialEq, Eq, PartialOrd, Ord)]
pub struct PointNo(pub u32);

/// A register of a body, from 0.
#[derive(Clone, Copy, Debug, PartialEq, Eq, PartialOrd, Ord)]
pub struct RegNo(pub u32);

/// A slot, that is a position that has a qualifier, by its place in a program's list of slots.
#[derive(Clone, Copy, Debug, PartialEq, Eq, PartialOrd, Ord)]
pub struct SlotNo(pub u32);

/// A word of a shared table, from 0.
#[derive(Clone, Copy, Debug, PartialEq, Eq, PartialOrd, Ord)]
pub struct WordNo(pub u32);

/// A name or string text, by its place in the list of names.
#[derive(Clone, Copy, Debug, PartialEq, Eq, PartialOrd, Ord)]
pub struct NameNo(pub u32);

/// The larger of two numbers.
pub fn larger(one: u32, other: u32) -> u32
    ensures { result ≡ max one other }
{
    one.max(other)
}
