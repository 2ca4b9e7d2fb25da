//! A reporter that finds no memory at one of its calls, and counts them.
use jn_base::OutOfMemory;
use jn_diag::Verdict;
use jn_reporters::{Plain, Reporter, RowView};
use std::alloc::{AllocError, Global};
use std::sync::Arc;
use std::sync::atomic::{AtomicU64, Ordering};

/// How often `take` and `finish` of a reporter were called, and how often it was dropped.
#[derive(Drop)]
pub struct Counts {
    calls: AtomicU64,
    drops: AtomicU64,
}

impl Counts {
    pub fn new() -> Counts {
        Counts {
            calls: AtomicU64::new(0),
            drops: AtomicU64::new(0),
        }
    }

    pub fn calls(&self) -> u64 {
        self.calls.load(Ordering::SeqCst)
    }

    pub fn drops(&self) -> u64 {
        self.drops.load(Ordering::SeqCst)
    }

    /// Counts a call, and gives its number, from 1.
    fn call(&self) -> u64 {
        self.calls.fetch_add(1, Ordering::SeqCst).wrapping_add(1)
    }

    fn end(&self) {
        self.drops.fetch_add(1, Ordering::SeqCst);
    }
}

/// The counts of so many reporters, none of which was called yet.
pub fn counts_of(alloc: Global, boxes: u32) -> Result<Vec<Arc<Counts>>, AllocError> {
    let mut counts = Vec::new(alloc);
    for _ in 0..boxes {
        counts.push(Arc::new(alloc, Counts::new())?)?;
    }
    Ok(counts)
}

/// The plain report, by a reporter that counts its calls, and finds no memory at the call of one number.
pub struct Counted {
    plain: Plain,
    refused: u64,
    counts: Arc<Counts>,
}

impl Counted {
    /// A reporter whose calls and drops are counted here; where `refused` is 0 no call is refused memory.
    pub fn new(alloc: Global, refused: u32, counts: Arc<Counts>) -> Counted {
        Counted {
            plain: Plain::new(alloc),
            refused: refused.into(),
            counts,
        }
    }
}

impl Drop for Counted {
    fn drop(self) {
        let Counted {
            plain: _,
            refused: _,
            counts,
        } = self;
        counts.end();
    }
}

impl Reporter for Counted {
    ghost use Rattle.std.specs.Prelude.{codes, false};
    ghost use Rattle.jn_reporters.specs.Reports.{plain_shown};

    ghost form = { λ a. record {
      title = codes "plain";
      document = false;
      notes = false;
      rows = a.plain.rows;
      shown = plain_shown;
      linked = λ address. plain_shown;
    } };

    ghost given = { λ a. a.plain.verdict };

    fn name(&self) -> &str {
        self.plain.name()
    }

    fn is_document(&self) -> bool {
        self.plain.is_document()
    }

    fn shows_notes(&self) -> bool {
        self.plain.shows_notes()
    }

    fn link(&mut self, address: &str) -> Result<(), OutOfMemory> {
        self.plain.link(address)
    }

    fn take(&mut self, row: &RowView<'_>) -> Result<(), OutOfMemory> {
        if self.counts.call() == self.refused {
            return Err(OutOfMemory);
        }
        self.plain.take(row)
    }

    fn finish(&mut self, verdict: Verdict) -> Result<(), OutOfMemory> {
        if self.counts.call() == self.refused {
            return Err(OutOfMemory);
        }
        self.plain.finish(verdict)
    }

    fn bytes(&self) -> &[u8] {
        self.plain.bytes()
    }
}
