//! Why an evaluation gives nothing.
use jn_base::Span;
use jn_machine::End;

/// What stops a run by trees before `main` returns.
#[derive(Clone, Copy)]
pub enum Halt {
    /// An exception of Java, or a length past the limit, and where the form stands that made it.
    Faulted(End, Span),
    /// A null is dereferenced (JLS 15.6), and where its operand stands.
    NullAt(Span),
    /// A unit of fuel isn't there.
    FuelOut,
    /// A call would make one frame too many.
    TooDeep,
    /// A value, field or body that is needed isn't there. No base-typed program comes to it.
    Senseless,
    /// No memory was found.
    OutOfMemory,
}
