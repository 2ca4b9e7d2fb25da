//! Steps that are carried out.
ghost use Rattle.std.specs.Prelude.{◌≡◌, ◌≢◌, ◌≤◌, [], ◌∷◌, ℕ, List, Option, IfOk, length};
ghost use Rattle.jn_outside.specs.Causes.{Rose};
ghost use Rattle.jn_outside.specs.declared.given.Given.{Given};
ghost use Rattle.jn_outside.specs.Files.{Holding, Holds};
ghost use Rattle.jn_command.specs.declared.status.Status.{Status as StatusOf};
ghost use Rattle.jn_front.specs.Files.{AllHeld, CannotRead, StartsOnly};
ghost use Rattle.jn_outside.specs.Gave.{GivesLittle};
ghost use Rattle.nullcheck_recheck_top.specs.Carrying.{file_of, spaces};
ghost use Rattle.nullcheck_recheck_top.specs.Stepping.{IsTaken, IsWritten, TextFrom, world};

use crate::outputs::check_output;
use jn_base::Fail;
use jn_command::Status;
use jn_command::output::Output;
use jn_outside::{Failed, Files, ReadFail, Sink, read_whole, write_whole};
use jn_recheck::Session;
use jn_script::Step;
use jn_sharing::{Gate, Workers};
use std::alloc::{AllocError, Global};
use std::thread::Threads;

/// How many workers share the work of a check.
const WORKERS: u32 = 4;

/// The greatest number of bytes of a file that is checked.
const LIMIT: u32 = 1_048_576;

/// How a step ended.
#[derive(Clone, Copy, Debug, PartialEq, Eq)]
pub(crate) enum Taken {
    /// It was carried out; the status is that of the last check so far.
    Goes(Status),
    /// It ended the script, with this status.
    Ends(Status),
}

/// So many spaces.
fn spaces_of(alloc: Global, count: usize) -> Result<Vec<u8>, AllocError>
    ensures are { IfOk result (λ text. text.items ≡ spaces count) }
    ensures long { IfOk result (λ text. length text.items ≡ count) }
{
    Ok(vec![in alloc; b' '; count]?)
}

/// The text of a file that is too large.
fn large_text(alloc: Global) -> Result<Vec<u8>, Fail<Failed>>
    ensures are { IfOk result (λ text. text.items ≡ spaces 1048577) }
    ensures long { IfOk result (λ text. length text.items ≡ 1048577) }
    ensures able { CannotRead result → ⊥ }
{
    match spaces_of(alloc, 1_048_577) {
        Ok(text) => Ok(text),
        Err(_) => Err(Fail::OutOfMemory),
    }
}

/// The text that a name gets of a file: of one that is too large spaces, one more than a file may have, so that its row is that of the
/// limit.
fn text_of<F: Files>(alloc: Global, files: &mut F, file: &str) -> Result<Vec<u8>, Fail<Failed>>
    ensures read { IfOk result (λ text. TextFrom (F.held files.old) file.now (F.gave files.old)
        (F.gave files.new) text.items) }
    ensures small { IfOk result (λ text. length text.items ≤ 1048577) }
    ensures little { GivesLittle file.now 1048577 (F.gave files.old) (F.gave files.new) }
    ensures held { F.held files.new ≡ F.held files.old }
    ensures failed { CannotRead result → Rose (F.faults files.old) (F.faults files.new) }
    ensures kept { (CannotRead result → ⊥) → F.faults files.new ≡ F.faults files.old }
    ensures steady { F.steady files.old → Holds (F.held files.old) file.now → CannotRead result
        → ⊥ }
    ensures stays { F.steady files.old → Holds (F.held files.old) file.now → F.steady files.new }
{
    match read_whole(alloc, files, file, LIMIT) {
        Ok(text) => Ok(text),
        Err(Fail::Refused(ReadFail::TooLarge)) => large_text(alloc),
        Err(Fail::Refused(ReadFail::Failed)) => Err(Fail::Refused(Failed)),
        Err(Fail::OutOfMemory) => Err(Fail::OutOfMemory),
    }
}

/// The name gets the text of the file.
#[tactic(auto, using(crate::proofs::Starting::starts_one))]
fn set_step<F: Files>(
    alloc: Global,
    session: &mut Session,
    name: &str,
    file: &str,
    files: &mut F,
    last: Status,
) -> Taken
    ensures taken { (written : Option (List ℕ)) (writes : ℕ) → IsTaken (F.held files.old)
        (world (F.gave files.old) written (F.faults files.old) writes)
        (world (F.gave files.new) written (F.faults files.new) writes)
        session.old last (Step.Set name.now file.now) session.new result }
    ensures started { StartsOnly (file.now ∷ []) (F.gave files.old) (F.gave files.new) }
    ensures held { F.held files.new ≡ F.held files.old }
    ensures steady { F.steady files.old → Holds (F.held files.old) file.now
        → (result ≢ Taken.Ends Status.ReadFault) × F.steady files.new }
{
    match text_of(alloc, files, file) {
        Ok(text) => match session.set(name, &text) {
            Ok(()) => Taken::Goes(last),
            Err(_) => Taken::Ends(Status::OutOfMemory),
        },
        Err(Fail::Refused(_)) => Taken::Ends(Status::ReadFault),
        Err(Fail::OutOfMemory) => Taken::Ends(Status::OutOfMemory),
    }
}

/// Writes the output of a check.
fn write_check<K: Sink>(out: &mut K, output: &Output) -> Taken
    ensures written { IsWritten (K.written out.old) (K.written out.new) output.now.bytes
        (K.faults out.old) (K.faults out.new) output.now.status result }
    ensures unread { result ≢ Taken.Ends Status.ReadFault }
{
    match write_whole(out, output.bytes.as_slice()) {
        Ok(()) => Taken::Goes(output.status),
        Err(_) => Taken::Ends(Status::WriteFault),
    }
}

/// The files are checked, and their report is written.
fn check_step<R: Threads + Sync, K: Sink, G: Gate + Sync>(
    rt: &R,
    gate: &G,
    alloc: Global,
    session: &mut Session,
    out: &mut K,
) -> Taken
    ensures taken { (held : Option Holding) (gave : List Given) (reads : ℕ) (last : StatusOf)
        → IsTaken held
        (world gave (K.written out.old) reads (K.faults out.old))
        (world gave (K.written out.new) reads (K.faults out.new))
        session.old last Step.Check session.new result }
    ensures unread { result ≢ Taken.Ends Status.ReadFault }
{
    let Ok(checked) = session.report(rt, Workers::of(WORKERS), gate, gate) else {
        return Taken::Ends(Status::OutOfMemory);
    };
    match check_output(alloc, &checked) {
        Ok(output) => write_check(out, &output),
        Err(_) => Taken::Ends(Status::OutOfMemory),
    }
}

/// The name goes.
fn remove_step(session: &mut Session, name: &str, last: Status) -> Taken
    ensures taken { (held : Option Holding) (gave : List Given) (written : Option (List ℕ))
        (reads writes : ℕ)
        → IsTaken held (world gave written reads writes) (world gave written reads writes)
        session.old last (Step.Remove name.now) session.new result }
    ensures goes { result ≡ Taken.Goes last }
{
    session.remove(name);
    Taken::Goes(last)
}

/// Nothing is done.
fn empty_step(session: &mut Session, last: Status) -> Taken
    ensures taken { (held : Option Holding) (gave : List Given) (written : Option (List ℕ))
        (reads writes : ℕ)
        → IsTaken held (world gave written reads writes) (world gave written reads writes)
        session.old last Step.Empty session.new result }
    ensures goes { result ≡ Taken.Goes last }
{
    let _session = session;
    Taken::Goes(last)
}

/// Carries out a step, after a last check of this status.
pub(crate) fn take_step<R: Threads + Sync, F: Files, K: Sink, G: Gate + Sync>(
    rt: &R,
    gate: &G,
    alloc: Global,
    session: &mut Session,
    step: &Step,
    files: &mut F,
    out: &mut K,
    last: Status,
) -> Taken
    ensures taken { IsTaken (F.held files.old)
        (world (F.gave files.old) (K.written out.old) (F.faults files.old) (K.faults out.old))
        (world (F.gave files.new) (K.written out.new) (F.faults files.new) (K.faults out.new))
        session.old last step.now session.new result }
    ensures started { StartsOnly (file_of step.now) (F.gave files.old) (F.gave files.new) }
    ensures held { F.held files.new ≡ F.held files.old }
    ensures steady { F.steady files.old → AllHeld (F.held files.old) (file_of step.now)
        → (result ≢ Taken.Ends Status.ReadFault) × F.steady files.new }
{
    match step {
        Step::Empty => empty_step(session, last),
        Step::Set { name, file } => {
            set_step(alloc, session, name.as_str(), file.as_str(), files, last)
        }
        Step::Remove { name } => remove_step(session, name.as_str(), last),
        Step::Check => check_step(rt, gate, alloc, session, out),
    }
}
