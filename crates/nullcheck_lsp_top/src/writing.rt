//! Replies as they are written.
ghost use Rattle.std.specs.Prelude.{◌≡◌, ◌++◌, IfOk, OnOk};
ghost use Rattle.nullcheck_lsp_top.specs.Hearing as spec;

use jn_base::{OutOfMemory, Text};
use jn_lsp_frames::frame_of;
use jn_lsp_messages::write_reply;
use jn_lsp_text::Reply;
use std::alloc::Global;

/// Puts the reply's frame after the others.
fn put_frame(
    alloc: Global,
    address: &Option<Text>,
    reply: &Reply,
    bytes: &mut Vec<u8>,
) -> Result<(), OutOfMemory>
    ensures { OnOk result
        (bytes.new.items ≡ bytes.old.items ++ spec.written address.now reply.now) }
{
    let body = write_reply(alloc, address, reply)?;
    let frame = frame_of(alloc, &body)?;
    Ok(bytes.extend_from_slice(&frame)?)
}

/// The frames of the replies, one after the other, with links to the document of the codes where its address is given.
pub(crate) fn framed(
    alloc: Global,
    address: &Option<Text>,
    replies: &[Reply],
) -> Result<Vec<u8>, OutOfMemory>
    ensures { IfOk result (λ bytes. bytes.items ≡ spec.framed address.now replies.now) }
{
    let mut bytes = Vec::new(alloc);
    for reply in replies {
        put_frame(alloc, address, reply, &mut bytes)?;
    }
    Ok(bytes)
}
