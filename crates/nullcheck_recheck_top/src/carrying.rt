//! Scripts that are carried out.
ghost use Rattle.std.specs.Prelude.{◌≡◌, ◌≢◌};
ghost use Rattle.jn_front.specs.Files.{AllHeld, StartsOnly};
ghost use Rattle.nullcheck_recheck_top.specs.Carrying.{files_of};
ghost use Rattle.nullcheck_recheck_top.specs.Stepping.{CarriesOut, world};

use crate::step::{Taken, take_step};
use jn_base::Infer;
use jn_command::Status;
use jn_outside::{Files, Sink};
use jn_recheck::Session;
use jn_script::Step;
use jn_sharing::Gate;
use std::alloc::Global;
use std::thread::Threads;

/// Carries out the steps of a script, one after the other, in a session that infers these members: the status is that of the last check.
pub(crate) fn carry_out<R: Threads + Sync, F: Files, K: Sink, G: Gate + Sync>(
    rt: &R,
    gate: &G,
    alloc: Global,
    infer: Infer,
    steps: &[Step],
    files: &mut F,
    out: &mut K,
) -> Status
    ensures carried { CarriesOut infer (F.held files.old)
        (world (F.gave files.old) (K.written out.old) (F.faults files.old) (K.faults out.old))
        (world (F.gave files.new) (K.written out.new) (F.faults files.new) (K.faults out.new))
        steps.now result }
    ensures started { StartsOnly (files_of steps.now) (F.gave files.old) (F.gave files.new) }
    ensures held { F.held files.new ≡ F.held files.old }
    ensures steady { F.steady files.old → AllHeld (F.held files.old) (files_of steps.now)
        → result ≢ Status.ReadFault }
    ensures count { F.steady files.old → AllHeld (F.held files.old) (files_of steps.now)
        → F.faults files.new ≡ F.faults files.old }
{
    let mut session = Session::new(alloc, infer);
    let mut last = Status::Ok;
    for step in steps {
        match take_step(rt, gate, alloc, &mut session, step, files, out, last) {
            Taken::Goes(status) => last = status,
            Taken::Ends(status) => return status,
        }
    }
    last
}
