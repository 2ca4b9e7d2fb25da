//! Ids of requests.
ghost use Rattle.std.specs.Prelude.{◌≡◌, IfOk};

use jn_base::Text;
use std::alloc::{AllocError, Global};

/// The id of a request (JSON-RPC 2.0, section 4): a whole number or a text. A reply repeats it.
#[derive(Drop)]
pub enum Id {
    Number(i64),
    Text(Text),
}

impl Id {
    /// The same id once more.
    pub fn copy(&self, alloc: Global) -> Result<Id, AllocError>
        ensures { IfOk result (λ copy. copy ≡ self.now) }
    {
        match self {
            Id::Number(number) => Ok(Id::Number(*number)),
            Id::Text(text) => Ok(Id::Text(text.copy(alloc)?)),
        }
    }
}
