//! Bits, where they stand, and what they come from.

/// One bit of a qualifier.
#[derive(Clone, Copy, Debug, PartialEq, Eq)]
pub enum Bit {
    Nullable,
    Committed,
    Free,
}

/// Where a bit stands: in a slot, or in a register before a point of a body (body, point, register).
#[derive(Clone, Copy, Debug, PartialEq, Eq)]
pub enum Item {
    AtSlot(u32, Bit),
    AtRegister(u32, u32, u32, Bit),
}

/// A place of the text: the declaration of a slot, the name of a method that overrides, the head of a body's method, or a point of a body.
#[derive(Clone, Copy, Debug, PartialEq, Eq)]
pub enum Place {
    OfSlot(u32),
    OfMethod(u32),
    OfBody(u32),
    OfPoint(u32, u32),
}

/// An item, and the place that it comes from.
#[derive(Clone, Copy, Debug, PartialEq, Eq)]
pub struct Step {
    pub item: Item,
    pub place: Place,
}
