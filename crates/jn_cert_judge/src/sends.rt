//! The least slot that lacks what is sent to it.
ghost use Rattle.std.specs.Prelude.{◌≡◌, IfOk};
ghost use Rattle.jn_contrib.specs.Sends.{point_sends};
ghost use Rattle.jn_cert_judge.specs.Judging as spec;

use jn_base::{OutOfMemory, SlotNo};
use jn_contrib::sends::{Send, send_kind};
use jn_env::Env;
use jn_points::Point;
use jn_quals::Qual;
use jn_sigs::Sig;
use jn_transfer::Analysis;
use std::alloc::Global;

/// The lesser of the slot and one that was noted before.
fn lesser(least: Option<u32>, slot: u32) -> Option<u32>
    ensures { result ≡ spec.lesser least slot }
{
    match least {
        None => Some(slot),
        Some(before) => Some(before.min(slot)),
    }
}

/// Notes a slot, where it lacks what is sent to it.
pub fn note(sig: &Sig, least: Option<u32>, slot: u32, qual: Qual) -> Option<u32>
    ensures { result ≡ spec.note sig.now least (slot, qual) }
{
    if qual.within(sig.get(SlotNo(slot))) {
        least
    } else {
        lesser(least, slot)
    }
}

/// Notes each slot that lacks what is sent to it.
fn note_all(sig: &Sig, least: Option<u32>, sends: &[Send]) -> Option<u32>
    ensures { result ≡ spec.note_all sig.now least sends.now }
{
    let mut noted = least;
    for send in sends {
        noted = note(sig, noted, send.0, send.1);
    }
    noted
}

/// Notes what a point sends, where it is reached.
pub fn note_point(
    alloc: Global,
    analysis: &Analysis,
    least: Option<u32>,
    point: &Point,
    slot: &Option<Env>,
) -> Result<Option<u32>, OutOfMemory>
    ensures { IfOk result (λ noted. noted
        ≡ spec.note_all analysis.now.sig least
        (point_sends analysis.now.program analysis.now.body point.now slot.now)) }
{
    match slot {
        None => Ok(least),
        Some(env) => {
            let mut sends = Vec::new(alloc);
            let own = &analysis.keys().own;
            send_kind(
                analysis.program(),
                &mut sends,
                env,
                analysis.body(),
                own,
                &point.kind,
            )?;
            Ok(note_all(analysis.sig(), least, &sends))
        }
    }
}
