//! The signature from which inference starts.
ghost use Rattle.std.specs.Prelude.{◌≡◌, ◌<◌, ◌^◌, cond, length, replicate, IfOk};
ghost use Rattle.jn_quals.specs.Order.{no_qual, committed_only};
ghost use Rattle.jn_sigs.specs.Marks.{AreFlags};
ghost use Rattle.jn_sigs.specs.Signature.{start_signature, uncalled_from};

use crate::sig::Sig;
use crate::sites::uncalled_slots;
use jn_base::{OutOfMemory, SlotNo};
use jn_points::{Program, SlotInfo};
use jn_quals::Qual;
use std::alloc::Global;

/// The signature from which inference starts: written and default slots have their qualifiers; an inferred one is
/// empty, or committed where its method has no call site: a private one none in its class, another one none in the program.
///
/// # Errors
///
/// `OutOfMemory` where the words, or the flags of methods and slots, find no memory.
pub fn start(alloc: Global, program: &Program) -> Result<Sig, OutOfMemory>
    requires few { length program.now.slots < 2 ^ 32 }
    ensures { IfOk result (λ sig. sig ≡ start_signature program.now) }
{
    let uncalled = uncalled_slots(alloc, program)?;
    let mut sig = Sig::empty(alloc, program.slots.len() as u32)?;
    raise_all(program, &uncalled, &mut sig);
    Ok(sig)
}

fn raise_all(program: &Program, uncalled: &[bool], sig: &mut Sig)
    requires few { length program.now.slots < 2 ^ 32 }
    requires slots { length uncalled.now ≡ length program.now.slots }
    requires flags { AreFlags uncalled.now
        (λ i. uncalled_from program.now i 0 program.now.methods) }
    requires empty { sig.old ≡ replicate (length program.now.slots) no_qual }
    ensures { sig.new ≡ start_signature program.now }
{
    for (i, info) in program.slots.as_slice().iter().enumerate() {
        sig.raise(SlotNo(i as u32), start_of(info, uncalled[i]));
    }
}

fn start_of(info: &SlotInfo, uncalled: bool) -> Qual
    ensures { result
        ≡ cond info.now.inferred (cond uncalled committed_only no_qual) info.now.start }
{
    if !info.inferred {
        info.start
    } else if uncalled {
        Qual::committed_only()
    } else {
        Qual::none()
    }
}
