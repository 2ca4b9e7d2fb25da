//! The report of the files as they stand.
ghost use Rattle.std.specs.Prelude.{◌≡◌, IfOk};
ghost use Rattle.jn_lsp.specs.Reported.{AreNoted, AreTold, IsReported, IsTold};

use crate::diagnostics::{Told, told_of_all};
use crate::refused::notes_of_refused;
use crate::unchecked::{LastReport, unchecked_of_all};
use jn_base::{Infer, OutOfMemory};
use jn_diag::Verdict;
use jn_front::SourceFile;
use jn_lsp_text::Encoding;
use jn_note_words::Notes;
use jn_recheck::{Checked, FileSet, Session};
use jn_sharing::{Gate, Workers};
use std::alloc::Global;
use std::thread::Threads;

/// How many workers share the work of a report, and of what is offered.
pub(crate) const WORKERS: u32 = 4;

/// The notes of a report's rows: those of a phase, or of the rules.
fn notes_of<R: Threads + Sync, G: Gate + Sync>(
    rt: &R,
    gate: &G,
    alloc: Global,
    infer: Infer,
    session: &Session,
    files: &[SourceFile],
    checked: &Checked,
) -> Result<Vec<Notes>, OutOfMemory>
    requires found { IsReported infer files.now session.now.kept checked.now.places.items checked.now.verdict }
    ensures { IfOk result (λ notes. AreNoted infer files.now checked.now.places.items checked.now.verdict notes.items) }
{
    match checked.verdict {
        Verdict::Rejected(_) => {
            let notes = session.notes_of(checked.places.as_slice())?;
            Ok(notes)
        }
        Verdict::Accepted => Ok(Vec::new(alloc)),
        Verdict::Refused(_) => {
            let notes = notes_of_refused(rt, gate, alloc, infer, files, checked.places.as_slice())?;
            Ok(notes)
        }
    }
}

/// A session that infers these members: another one where it infers others, since nothing that it keeps is of use then.
fn suit(alloc: Global, infer: Infer, session: &mut Session)
    ensures { session.new.infer ≡ infer }
{
    if session.infer() == infer {
        return;
    }
    *session = Session::new(alloc, infer);
}

/// What is told of files, and whether their report came to the rules.
#[derive(Drop)]
pub(crate) struct Tale {
    pub told: Vec<Told>,
    pub came: bool,
}

/// What a report of these rows, with these notes, tells of each file.
fn tale_of(
    alloc: Global,
    infer: Infer,
    encoding: Encoding,
    last: &LastReport,
    files: &FileSet,
    checked: &Checked,
    notes: &[Notes],
) -> Result<Tale, OutOfMemory>
    requires noted { AreNoted infer files.now checked.now.places.items checked.now.verdict notes.now }
    ensures { IfOk result (λ tale. AreTold infer encoding last.now tale.came files.now tale.told.items) }
{
    let _infer = infer;
    let rows = checked.places.as_slice();
    match checked.verdict {
        Verdict::Refused(_) => {
            let told = unchecked_of_all(alloc, encoding, last, files, rows, notes)?;
            Ok(Tale { told, came: false })
        }
        Verdict::Rejected(_) => {
            let told = told_of_all(alloc, encoding, files, rows, notes)?;
            Ok(Tale { told, came: true })
        }
        Verdict::Accepted => {
            let told = told_of_all(alloc, encoding, files, rows, notes)?;
            Ok(Tale { told, came: true })
        }
    }
}

/// The report of some files, as it is told of them.
fn report<R: Threads + Sync, G: Gate + Sync>(
    rt: &R,
    gate: &G,
    alloc: Global,
    infer: Infer,
    encoding: Encoding,
    session: &mut Session,
    last: &LastReport,
    files: &FileSet,
) -> Result<Tale, OutOfMemory>
    requires chosen { session.old.infer ≡ infer }
    ensures { IfOk result (λ tale. AreTold infer encoding last.now tale.came files.now tale.told.items) }
{
    session.replace(files)?;
    let checked = session.report(rt, Workers::of(WORKERS), gate, gate)?;
    let notes = notes_of(rt, gate, alloc, infer, session, files.as_slice(), &checked)?;
    let tale = tale_of(
        alloc,
        infer,
        encoding,
        last,
        files,
        &checked,
        notes.as_slice(),
    )?;
    Ok(tale)
}

/// What is told of these files where these members are inferred, in this unit of positions, after this last report that came to the rules; of no files nothing.
pub(crate) fn tell<R: Threads + Sync, G: Gate + Sync>(
    rt: &R,
    gate: &G,
    alloc: Global,
    infer: Infer,
    encoding: Encoding,
    session: &mut Session,
    last: &LastReport,
    files: &FileSet,
) -> Result<Tale, OutOfMemory>
    ensures { IfOk result (λ tale. IsTold infer encoding last.now tale.came files.now tale.told.items) }
{
    let listed = files.as_slice();
    if listed.len() == 0 {
        return Ok(Tale {
            told: Vec::new(alloc),
            came: false,
        });
    }
    suit(alloc, infer, session);
    let tale = report(rt, gate, alloc, infer, encoding, session, last, files)?;
    Ok(tale)
}
