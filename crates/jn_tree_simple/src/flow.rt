//! Where statements go on.
use jn_machine::Value;

/// Where a statement goes on: after itself, after the loop around it, to that loop's next turn, or out of the body with a value
/// (JLS 14.1).
#[derive(Drop)]
pub enum Flow {
    Onward,
    Breaks,
    Continues,
    Returns(Option<Value>),
}
