//! What a worker calls at each piece of its work, so that a test can hold it there.

use jn_base::BodyNo;

/// Called by a worker once for each body that it has taken, before it runs the body, and once for each file, under the file's number,
/// before it lexes the file.
pub trait Gate {
    fn enter(&self, worker: u32, body: BodyNo);
}

/// The gate that returns at once.
pub struct Straight;

impl Gate for Straight {
    fn enter(&self, _worker: u32, _body: BodyNo) {}
}
