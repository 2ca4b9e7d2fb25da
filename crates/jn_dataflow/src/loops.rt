//! Loops of a body, as far as edges to earlier points showed them.
use jn_base::OutOfMemory;
use std::alloc::{AllocError, Global};

/// Where loops begin and end. They decide in which order blocks are passed over, and so how long that takes, and nothing
/// else.
#[derive(Drop)]
pub struct Loops {
    /// For each point the last one, not after it, to which an edge of it led.
    heads: Vec<Option<usize>>,
    /// For each point the last one from which such an edge came to it.
    ends: Vec<usize>,
    /// Whether all points were passed over once, so that all loops are known.
    known: bool,
}

/// For so many points the same.
fn repeated<T: Copy + Drop>(alloc: Global, item: T, count: usize) -> Result<Vec<T>, AllocError> {
    let mut items = Vec::new(alloc);
    for _i in 0..count {
        items.push(item)?;
    }
    Ok(items)
}

impl Loops {
    /// No loop of so many points is known.
    pub fn unknown(alloc: Global, count: usize) -> Result<Loops, OutOfMemory> {
        Ok(Loops {
            heads: repeated(alloc, None, count)?,
            ends: repeated(alloc, 0, count)?,
            known: false,
        })
    }

    /// An edge leads from a point to one that isn't after it.
    fn note(&mut self, from: usize, head: usize) {
        if from < self.heads.len() && head < self.ends.len() {
            let later = match self.heads[from] {
                None => true,
                Some(other) => other < head,
            };
            if later {
                self.heads[from] = Some(head);
            }
            if self.ends[head] < from {
                self.ends[head] = from;
            }
        }
    }

    /// Takes note of those edges of a point that lead to one that isn't after it.
    pub fn note_all<E>(&mut self, from: usize, edges: &[(u32, E)]) {
        for edge in edges {
            if edge.0 as usize <= from {
                self.note(from, edge.0 as usize);
            }
        }
    }

    /// All points were passed over.
    pub fn all_known(&mut self) {
        self.known = true;
    }

    /// Where the innermost loop begins that ends at a point, once all loops are known.
    pub fn ended(&self, at: usize) -> Option<usize> {
        if !self.known || at >= self.heads.len() {
            return None;
        }
        match self.heads[at] {
            Some(head) => {
                if head < self.ends.len() && self.ends[head] == at {
                    Some(head)
                } else {
                    None
                }
            }
            None => None,
        }
    }
}
