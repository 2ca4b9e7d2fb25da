//! What bits come from.
ghost use Rattle.std.specs.Prelude.{IfOk};
ghost use Rattle.jn_chain.specs.Search.{Ground, AreCauses};

use jn_base::OutOfMemory;
use jn_reasons::{Cause, Source};
use std::alloc::Global;

/// A program, a signature, and a table for each body, of which the causes of bits are known.
pub trait Origins {
    /// The program, the signature and the tables.
    ghost describe: { Self → Ground };

    /// The causes of an item whose own sources stand, or are the text; the text has none.
    ///
    /// # Errors
    /// No memory was found.
    fn causes(&self, alloc: Global, source: Source) -> Result<Vec<Cause>, OutOfMemory>
        ensures { IfOk result (λ list. AreCauses (describe self.now) source list.items) };
}
