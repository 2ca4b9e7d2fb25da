//! What a command writes, and how it ends then.
ghost use Rattle.std.specs.Prelude.{◌≡◌};
ghost use Rattle.jn_command.specs.Answer.{Finished};
ghost use Rattle.jn_command.specs.Outputs.{IfMade};

use crate::status::Status;
use jn_base::{OutOfMemory, Seq};
use jn_outside::{Sink, write_whole};

/// The bytes that a command writes, and the status with which it ends where they are written.
#[derive(Drop)]
pub struct Output {
    pub status: Status,
    pub bytes: Seq<u8>,
}

/// Writes the bytes, and gives the status after them.
pub fn finish<K: Sink>(out: &mut K, bytes: &[u8], status: Status) -> Status
    ensures { Finished (K.written out.old) (K.written out.new) bytes.now status (K.faults out.old)
        (K.faults out.new) result }
{
    match write_whole(out, bytes) {
        Ok(()) => status,
        Err(_) => Status::WriteFault,
    }
}

/// Writes an output that was made, or answers that no memory was found for it.
pub fn write<K: Sink>(made: Result<Output, OutOfMemory>, out: &mut K) -> Status
    ensures { IfMade made
        (λ status bytes. Finished (K.written out.old) (K.written out.new) bytes status
        (K.faults out.old) (K.faults out.new) result)
        ((result ≡ Status.OutOfMemory) × (K.written out.new ≡ K.written out.old)
        × (K.faults out.new ≡ K.faults out.old)) }
{
    match made {
        Err(_) => Status::OutOfMemory,
        Ok(output) => finish(out, output.bytes.as_slice(), output.status),
    }
}
