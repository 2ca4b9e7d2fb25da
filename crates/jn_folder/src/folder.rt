//! What a program asks of folders.
ghost use Rattle.std.specs.Prelude.{◌≡◌, ◌≤◌, ℕ, List, IfOk, OnErr};
ghost use Rattle.jn_outside.specs.Causes.{Rose};
ghost use Rattle.jn_folder.specs.Listing.{CannotList, with_listed, with_real};
ghost use Rattle.jn_folder.specs.declared.listed.Listed.{Listed as ListedOf};

use crate::listed::Entry;
use jn_base::{Fail, OutOfMemory, Text};
use jn_outside::Failed;
use std::alloc::Global;

/// Folders whose entries can be asked for.
pub trait Folder {
    /// What its calls listed since it was made, in order.
    ghost told: { Self → List ListedOf };

    /// How often it has failed; the count stands still at its last value.
    ghost faults: { Self → ℕ };

    /// The entries of the folder of this path, in any order. `Failed` where it can't be listed.
    fn entries(&mut self, alloc: Global, path: &str) -> Result<Vec<Entry>, Fail<Failed>>
        ensures listed { IfOk result
            (λ entries. told self.new ≡ with_listed (told self.old) path.now entries.items) }
        ensures spared { OnErr result (told self.new ≡ told self.old) }
        ensures later { faults self.old ≤ faults self.new }
        ensures failed { CannotList result → Rose (faults self.old) (faults self.new) }
        ensures kept { (CannotList result → ⊥) → faults self.new ≡ faults self.old };

    /// Where the folder of this path really is: its whole path without links, where that can be said. It is told as what a folder lists
    /// that has one entry of the kind `Real`, or none.
    fn real(&mut self, alloc: Global, path: &str) -> Result<Option<Text>, OutOfMemory>
        ensures said { IfOk result
            (λ real. told self.new ≡ with_real (told self.old) path.now real) }
        ensures spared { OnErr result (told self.new ≡ told self.old) }
        ensures kept { faults self.new ≡ faults self.old };
}
