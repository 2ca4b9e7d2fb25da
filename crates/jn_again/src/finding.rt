//! The bits that may be lost.
ghost use Rattle.std.specs.Prelude.{◌≡◌, ◌<◌, ℕ, true, length, slice_index, IfOk, OnOk};
ghost use Rattle.jn_sigtable.specs.System.{bits_for};
ghost use Rattle.jn_resume.specs.Keepable.{AreKeepable};
ghost use Rattle.jn_again.specs.Losing.{AreGone, Follows, Grows, LoseSent, Lost, told};

use crate::edit::Edit;
use crate::masks::{are_gone, are_none, gone_from_start, lose};
use crate::reach::Reach;
use jn_base::{BodyNo, OutOfMemory, WordNo};
use jn_sigtable::Constraints;
use std::alloc::{AllocError, Global};

/// After so many rounds all bits are given up.
const MOST_ROUNDS: u32 = 64;

/// Loses what a changed body put out in the end and doesn't put out on the start.
#[tactic(auto, using(crate::proofs::Gone::grows_self, crate::proofs::Rounds::unchanged_sends, crate::proofs::Rounds::sent_gone))]
fn lose_sent<C: Constraints, R: Reach>(
    alloc: Global,
    edit: &Edit<C, R>,
    body: BodyNo,
    lost: &mut [u64],
) -> Result<(), OutOfMemory>
    requires inside { body.0 < (C.describe edit.now.old.now).bodies }
    ensures grows { OnOk result (Grows lost.old lost.new) }
    ensures sent { OnOk result (told edit.now.changed.now body.0 ≡ true
        → AreGone (length lost.old)
        (bits_for ((C.describe edit.now.old.now).output body.0 edit.now.last.now))
        (slice_index edit.now.start.now)
        (bits_for ((C.describe edit.now.new.now).output body.0 edit.now.start.now))
        (slice_index lost.new)) }
{
    if !edit.changed[body.0 as usize] {
        return Ok(());
    }
    let puts = edit.old.output(alloc, body, edit.last)?;
    let again = edit.new.output(alloc, body, edit.start)?;
    lose(lost, edit.start, puts.as_slice(), again.as_slice());
    Ok(())
}

/// Loses what changed bodies put out in the end and don't put out on the start.
fn lose_changed<C: Constraints, R: Reach>(
    alloc: Global,
    edit: &Edit<C, R>,
    lost: &mut [u64],
) -> Result<(), OutOfMemory>
    requires { LoseSent (C.describe edit.now.old.now) (C.describe edit.now.new.now)
        edit.now.before.now edit.now.start.now edit.now.last.now edit.now.changed.now 0 lost.old }
    ensures { OnOk result (LoseSent (C.describe edit.now.old.now) (C.describe edit.now.new.now)
        edit.now.before.now edit.now.start.now edit.now.last.now edit.now.changed.now
        (C.describe edit.now.old.now).bodies lost.new) }
{
    for body in 0..edit.old.bodies() {
        lose_sent(alloc, edit, BodyNo(body), lost)?;
    }
    Ok(())
}

/// Loses what a body that hasn't changed put out in the end, where it isn't blind for bits that may be lost; whether more was lost.
#[tactic(auto, using(crate::proofs::Gone::grows_self, crate::proofs::Rounds::changed_follows, crate::proofs::Rounds::blind_follows, crate::proofs::Rounds::gone_follows))]
fn follow<C: Constraints, R: Reach>(
    alloc: Global,
    edit: &Edit<C, R>,
    body: BodyNo,
    lost: &mut [u64],
) -> Result<bool, OutOfMemory>
    requires inside { body.0 < (C.describe edit.now.old.now).bodies }
    requires lost { length lost.old ≡ (C.describe edit.now.old.now).words }
    ensures grows { OnOk result (Grows lost.old lost.new) }
    ensures still { IfOk result (λ more. Lost more lost.old lost.new
        (Follows (C.describe edit.now.old.now) edit.now.start.now edit.now.last.now edit.now.changed.now
        lost.new body.0)) }
{
    if edit.changed[body.0 as usize] {
        return Ok(false);
    }
    if edit.reach.is_blind(alloc, body, lost)? {
        return Ok(false);
    }
    let puts = edit.old.output(alloc, body, edit.last)?;
    if are_gone(puts.as_slice(), edit.start, lost) {
        return Ok(false);
    }
    let none: &[(WordNo, u64)] = &[];
    lose(lost, edit.start, puts.as_slice(), none);
    Ok(true)
}

/// Goes over all bodies once; whether more was lost. Where nothing was, each follows.
fn round<C: Constraints, R: Reach>(
    alloc: Global,
    edit: &Edit<C, R>,
    lost: &mut [u64],
) -> Result<bool, OutOfMemory>
    requires { length lost.old ≡ (C.describe edit.now.old.now).words }
    ensures grows { OnOk result (Grows lost.old lost.new) }
    ensures still { IfOk result (λ more. Lost more lost.old lost.new ((b : ℕ)
        → b < (C.describe edit.now.old.now).bodies
        → Follows (C.describe edit.now.old.now) edit.now.start.now edit.now.last.now edit.now.changed.now
        lost.new b)) }
{
    let mut any = false;
    for body in 0..edit.old.bodies() {
        let more = follow(alloc, edit, BodyNo(body), lost)?;
        any = any | more;
    }
    Ok(any)
}

/// Goes over all bodies until nothing more is lost; whether it came to that.
fn settle<C: Constraints, R: Reach>(
    alloc: Global,
    edit: &Edit<C, R>,
    lost: &mut [u64],
) -> Result<bool, OutOfMemory>
    requires { LoseSent (C.describe edit.now.old.now) (C.describe edit.now.new.now)
        edit.now.before.now edit.now.start.now edit.now.last.now edit.now.changed.now
        (C.describe edit.now.old.now).bodies lost.old }
    ensures { IfOk result (λ ended. ended ≡ true → AreKeepable (C.describe edit.now.old.now)
        (C.describe edit.now.new.now) edit.now.before.now edit.now.start.now edit.now.last.now
        (told edit.now.changed.now) (slice_index lost.new)) }
{
    for _ in 0..MOST_ROUNDS {
        let more = round(alloc, edit, lost)?;
        if !more {
            return Ok(true);
        }
    }
    Ok(false)
}

/// Loses what changed bodies sent, and what follows from that; whether nothing more follows. Where no bit is lost, nothing does.
fn lose_all<C: Constraints, R: Reach>(
    alloc: Global,
    edit: &Edit<C, R>,
    lost: &mut [u64],
) -> Result<bool, OutOfMemory>
    requires { LoseSent (C.describe edit.now.old.now) (C.describe edit.now.new.now)
        edit.now.before.now edit.now.start.now edit.now.last.now edit.now.changed.now 0 lost.old }
    ensures { IfOk result (λ ended. ended ≡ true → AreKeepable (C.describe edit.now.old.now)
        (C.describe edit.now.new.now) edit.now.before.now edit.now.start.now edit.now.last.now
        (told edit.now.changed.now) (slice_index lost.new)) }
{
    lose_changed(alloc, edit, lost)?;
    if are_none(lost) {
        return Ok(true);
    }
    settle(alloc, edit, lost)
}

fn copy_words(alloc: Global, words: &[u64]) -> Result<Vec<u64>, AllocError>
    ensures { IfOk result (λ copy. copy.items ≡ words.now) }
{
    let mut copy = Vec::new(alloc);
    copy.extend_from_slice(words)?;
    Ok(copy)
}

/// The bits that may be lost: those with which the earlier solving began and the new one doesn't, what changed bodies put out in the end and don't put out on
/// the start, and what bodies put out that read such bits, until none is new; all bits where that takes too many rounds.
///
/// # Errors
/// No memory was found.
#[tactic(auto, using(crate::proofs::Rounds::sent_none))]
pub fn find_lost<C: Constraints, R: Reach>(
    alloc: Global,
    edit: &Edit<C, R>,
) -> Result<Vec<u64>, OutOfMemory>
    ensures count { IfOk result (λ lost. length lost.items ≡ (C.describe edit.now.old.now).words) }
    ensures lost { IfOk result (λ lost. AreKeepable (C.describe edit.now.old.now)
        (C.describe edit.now.new.now) edit.now.before.now edit.now.start.now edit.now.last.now
        (told edit.now.changed.now) (slice_index lost.items)) }
{
    let mut lost = gone_from_start(alloc, edit.before, edit.start)?;
    let ended = lose_all(alloc, edit, &mut lost)?;
    if ended {
        return Ok(lost);
    }
    let all = copy_words(alloc, edit.last)?;
    Ok(all)
}
