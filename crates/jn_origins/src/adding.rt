//! Causes of a place, and bits that are sent.
ghost use Rattle.std.specs.Prelude.{◌≡◌, ◌++◌, ◌∷◌, [], ◌&&◌, OnOk, eqb};
ghost use Rattle.jn_contrib.specs.Sends.{slot_numbers};
ghost use Rattle.jn_reasons_law.specs.Items.{on};
ghost use Rattle.jn_reasons.specs.Listed.{cause_at, placed, is_sent};

use jn_base::SlotNo;
use jn_contrib::sends::Send;
use jn_quals::Qual;
use jn_reasons::{Cause, Source};
use jn_reasons_law::{Bit, Place};
use std::alloc::AllocError;

/// Whether the qualifier has the bit.
pub(crate) fn is_on(qual: Qual, bit: Bit) -> bool
    ensures { result ≡ on bit qual }
{
    match bit {
        Bit::Nullable => qual.has_null(),
        Bit::Committed => qual.has_committed(),
        Bit::Free => qual.has_free(),
    }
}

/// Adds a cause.
pub(crate) fn add_cause(
    list: &mut Vec<Cause>,
    place: Place,
    source: Source,
) -> Result<(), AllocError>
    ensures { OnOk result (list.new.items ≡ list.old.items ++ cause_at place source ∷ []) }
{
    list.push(Cause { place, source })?;
    Ok(())
}

/// Adds each source, from the place.
pub(crate) fn add_placed(
    list: &mut Vec<Cause>,
    place: Place,
    sources: &[Source],
) -> Result<(), AllocError>
    ensures { OnOk result (list.new.items ≡ list.old.items ++ placed place sources.now) }
{
    for source in sources {
        add_cause(list, place, *source)?;
    }
    Ok(())
}

/// Whether the bit is sent to the slot of this number.
fn has_sent(to: u32, qual: Qual, slot: SlotNo, bit: Bit) -> bool
    ensures { result ≡ (eqb to slot.0 && on bit qual) }
{
    if to == slot.0 {
        is_on(qual, bit)
    } else {
        false
    }
}

/// Whether the bit is among what is sent to the slot.
pub(crate) fn is_sent(sends: &[Send], slot: SlotNo, bit: Bit) -> bool
    ensures { result ≡ is_sent slot.0 bit sends.now }
{
    for send in sends {
        if has_sent(send.0, send.1, slot, bit) {
            return true;
        }
    }
    false
}

/// The same, where slots have their typed numbers.
pub(crate) fn is_sent_to(sends: &[(SlotNo, Qual)], slot: SlotNo, bit: Bit) -> bool
    ensures { result ≡ is_sent slot.0 bit (slot_numbers sends.now) }
{
    for send in sends {
        if has_sent(send.0.0, send.1, slot, bit) {
            return true;
        }
    }
    false
}
