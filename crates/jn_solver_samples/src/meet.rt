//! A gate at which workers meet.
use jn_base::BodyNo;
use jn_workers::Gate;
use std::sync::atomic::{AtomicU64, Ordering};

/// A gate that counts its entries, from 1, and holds one of them until a later one has come, for at
/// most 1,000,000,000 turns.
#[derive(Drop)]
pub struct Meet {
    entries: AtomicU64,
    held: u64,
    met: AtomicU64,
}

impl Meet {
    /// A gate that holds the entry of that number.
    pub fn new(held: u64) -> Meet {
        Meet {
            entries: AtomicU64::new(0),
            held,
            met: AtomicU64::new(0),
        }
    }

    /// How many entries there were.
    pub fn entries(&self) -> u64 {
        self.entries.load(Ordering::SeqCst)
    }

    /// Whether a later entry came while one was held.
    pub fn met(&self) -> bool {
        self.met.load(Ordering::SeqCst) == 1
    }
}

impl Gate for Meet {
    fn enter(&self, _worker: u32, _body: BodyNo) {
        let entry = self.entries.fetch_add(1, Ordering::SeqCst).wrapping_add(1);
        if entry == self.held {
            for _ in 0..1_000_000_000u64 {
                if self.entries.load(Ordering::SeqCst) > entry {
                    self.met.store(1, Ordering::SeqCst);
                    break;
                }
            }
        }
    }
}
