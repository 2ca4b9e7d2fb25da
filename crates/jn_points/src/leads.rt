//! The edges of a point.
use jn_base::PointNo;

/// Where a point leads: its targets, two where it tests.
#[derive(Clone, Copy, Debug, PartialEq, Eq)]
pub struct Edges {
    pub first: Option<PointNo>,
    pub second: Option<PointNo>,
}
