//! Where statements and members stand.
use jn_base::NameNo;

/// Where a statement stands: in a loop, directly in a block or body, and as the first statement of a constructor.
#[derive(Clone, Copy, Debug, PartialEq, Eq)]
pub struct Context {
    pub in_loop: bool,
    pub direct: bool,
    pub leading: bool,
}

/// The type that a member stands in.
#[derive(Clone, Copy, Debug, PartialEq, Eq)]
pub struct Owner {
    pub interface: bool,
    pub name: NameNo,
}
