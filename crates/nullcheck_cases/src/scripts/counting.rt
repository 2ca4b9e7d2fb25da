//! A gate that counts how often it is entered.
use jn_base::BodyNo;
use jn_sharing::Gate;
use std::sync::atomic::{AtomicU64, Ordering};

#[derive(Drop)]
pub struct Counting {
    entries: AtomicU64,
}

impl Counting {
    pub fn new() -> Counting {
        Counting {
            entries: AtomicU64::new(0),
        }
    }

    /// How often it was entered so far.
    pub fn entries(&self) -> u64 {
        self.entries.load(Ordering::SeqCst)
    }
}

impl Gate for Counting {
    fn enter(&self, _worker: u32, _body: BodyNo) {
        self.entries.fetch_add(1, Ordering::SeqCst);
    }
}
