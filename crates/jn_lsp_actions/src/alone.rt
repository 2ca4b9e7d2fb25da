//! A program's slots with one alone that is inferred.
ghost use Rattle.std.specs.Prelude.{◌≡◌, IfOk};
ghost use Rattle.jn_lsp_actions.specs.Alone.{alone};

use jn_base::{OutOfMemory, Seq};
use jn_points::{Program, SlotInfo};
use std::alloc::{AllocError, Global};

/// The slots, of which only this one is inferred, where it was.
fn alone_slots(alloc: Global, slots: &[SlotInfo], slot: u32) -> Result<Seq<SlotInfo>, AllocError>
    ensures { IfOk result (λ made. made ≡ alone slot slots.now) }
{
    let mut made = Seq::new(alloc);
    for at in 0..slots.len() {
        let info = &slots[at];
        made.push(SlotInfo {
            start: info.start,
            inferred: info.inferred && at == slot as usize,
        })?;
    }
    Ok(made)
}

/// A program that has these slots alone, of which only this one is inferred, where it was.
///
/// # Errors
/// No memory was found.
pub fn alone_program(alloc: Global, program: &Program, slot: u32) -> Result<Program, OutOfMemory>
    ensures { IfOk result (λ made. made.slots ≡ alone slot program.now.slots) }
{
    Ok(Program {
        classes: Seq::new(alloc),
        fields: Seq::new(alloc),
        methods: Seq::new(alloc),
        bodies: Seq::new(alloc),
        slots: alone_slots(alloc, program.slots.as_slice(), slot)?,
    })
}
