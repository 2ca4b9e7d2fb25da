//! Places of values.
use jn_base::Span;

/// A value in the text: the register that a point of a body reads there, or into which it puts what stands there.
#[derive(Clone, Copy, Debug, PartialEq, Eq)]
pub struct Spot {
    pub body: u32,
    pub point: u32,
    pub reg: u32,
    pub span: Span,
    /// Whether the point puts the value into the register.
    pub is_made: bool,
}
