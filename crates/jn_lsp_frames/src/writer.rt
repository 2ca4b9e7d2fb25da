//! Frames as they are written.
ghost use Rattle.std.specs.Prelude.{◌≡◌, IfOk, OnOk, OnErr};
ghost use Rattle.jn_outside.specs.Sink.{Appends, AppendsPrefix};
ghost use Rattle.jn_lsp_frames.specs.Frames as spec;
ghost use Rattle.jn_lsp_frames.specs.Reading.{Counts};

use itoa::{Buffer, Integer};
use jn_base::Fail;
use jn_outside::{Failed, Sink, write_whole};
use std::alloc::{AllocError, Global};

/// A header that says how many bytes the body has, and the body (base protocol of LSP 3.17).
pub fn frame_of(alloc: Global, body: &[u8]) -> Result<Vec<u8>, AllocError>
    ensures { IfOk result (λ frame. frame.items ≡ spec.frame_of body.now) }
{
    let mut frame = Vec::from_slice(alloc, b"Content-Length: ")?;
    frame.extend_from_slice(Buffer::new().format(body.len()).as_bytes())?;
    frame.extend_from_slice(b"\r\n\r\n")?;
    frame.extend_from_slice(body)?;
    Ok(frame)
}

/// Writes the body's frame.
///
/// # Errors
/// It is refused only where the sink's count of faults rose; a prefix of the frame went out then. Where no memory was found nothing
/// went out.
#[tactic(auto, using(crate::proofs::Writing::nothing_out))]
pub fn write_frame<K: Sink>(alloc: Global, sink: &mut K, body: &[u8]) -> Result<(), Fail<Failed>>
    ensures ok { OnOk result
        (Appends (K.written sink.old) (K.written sink.new) (spec.frame_of body.now)) }
    ensures err { OnErr result
        (AppendsPrefix (K.written sink.old) (K.written sink.new) (spec.frame_of body.now)) }
    ensures cause { Counts (K.faults sink.old) (K.faults sink.new) result }
{
    let Ok(frame) = frame_of(alloc, body) else {
        return Err(Fail::OutOfMemory);
    };
    match write_whole(sink, &frame) {
        Ok(()) => Ok(()),
        Err(failed) => Err(Fail::Refused(failed)),
    }
}
