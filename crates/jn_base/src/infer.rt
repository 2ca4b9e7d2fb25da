//! Which members are inferred.

/// The members whose unwritten positions are inferred.
#[derive(Clone, Copy, Debug, PartialEq, Eq)]
pub enum Infer {
    /// Private ones alone.
    Private,
    /// Private ones, and those of classes that have no access word.
    Package,
}
