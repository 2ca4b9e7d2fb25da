//! The end of a command: its bytes are written, and its files replaced.
ghost use Rattle.std.specs.Prelude.{◌≡◌, ◌≤◌, ◌<◌};
ghost use Rattle.jn_outside.specs.Causes.{Rose};
ghost use Rattle.nullcheck_annotate_top.specs.Answer.{effects, Ends};

use crate::output::Output;
use jn_command::Status;
use jn_outside::{Sink, write_whole};
use jn_targets::{Targets, replace_all};

/// Writes the bytes, then replaces the files, and gives the status after them.
pub fn finish<K: Sink, T: Targets>(out: &mut K, targets: &mut T, output: &Output) -> Status
    ensures ends { Ends output.now
        (effects (K.written out.old) (K.written out.new) (T.replaced targets.old)
        (T.replaced targets.new))
        (K.faults out.old) (K.faults out.new) (T.faults targets.old) (T.faults targets.new)
        result }
{
    match write_whole(out, output.bytes.as_slice()) {
        Err(_) => Status::WriteFault,
        Ok(()) => match replace_all(targets, output.replaced.as_slice()) {
            Err(_) => Status::WriteFault,
            Ok(()) => output.status,
        },
    }
}
