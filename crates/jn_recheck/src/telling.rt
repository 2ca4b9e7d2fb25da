//! What is told of a report.
ghost use Rattle.std.specs.Prelude.{◌≡◌, IfOk, MatchOption};
ghost use Rattle.jn_recheck.specs.Files.{changed};
ghost use Rattle.jn_recheck.specs.Sessions.{AreShown, Reports, session_of};
ghost use Rattle.jn_recheck.specs.Told.{IsLastTold, IsTold};

use crate::file_set::FileSet;
use crate::files::{changed, copy_files, same_files};
use crate::kept::Kept;
use crate::session::Checked;
use crate::shown::row_texts;
use jn_base::{Infer, OutOfMemory};
use jn_command::Report;
use jn_front::SourceFile;
use std::alloc::Global;

/// What a report of the files says, beside what its numbers are.
fn show(
    alloc: Global,
    files: &FileSet,
    last: &[SourceFile],
    report: &Report,
    made: u32,
) -> Result<Checked, OutOfMemory>
    ensures shown { IfOk result (λ t. AreShown files.now report.now t.rows.items t.places.items
        t.verdict) }
    ensures files { IfOk result (λ t. t.files ≡ changed last.now files.now) }
    ensures bodies { IfOk result (λ t. t.bodies ≡ made) }
{
    let rows = row_texts(alloc, files, report.rows())?;
    let places = Vec::from_slice(alloc, report.rows())?;
    Ok(Checked {
        rows,
        places,
        verdict: report.verdict(),
        files: changed(last, files.as_slice()),
        bodies: made,
    })
}

/// What a report of the files says, beside what its numbers are, and a copy of the files.
pub(crate) fn tell(
    alloc: Global,
    files: &FileSet,
    last: &[SourceFile],
    report: &Report,
    made: u32,
) -> Result<(Checked, Vec<SourceFile>), OutOfMemory>
    ensures shown { IfOk result (λ t. AreShown files.now report.now t.0.rows.items t.0.places.items
        t.0.verdict) }
    ensures files { IfOk result (λ t. t.0.files ≡ changed last.now files.now) }
    ensures bodies { IfOk result (λ t. t.0.bodies ≡ made) }
    ensures copy { IfOk result (λ t. t.1.items ≡ files.now) }
{
    let checked = show(alloc, files, last, report, made)?;
    let copy = copy_files(alloc, files.as_slice())?;
    Ok((checked, copy))
}

/// What the last report says, of files that are as they were.
fn tell_last(
    alloc: Global,
    infer: Infer,
    files: &FileSet,
    last: &[SourceFile],
    report: &Report,
    kept: &Option<Kept>,
) -> Result<Checked, OutOfMemory>
    requires same { last.now ≡ files.now }
    requires told { IsTold infer last.now kept.now report.now }
    ensures { IfOk result (λ t. Reports (session_of infer files.now last.now kept.now)
        (session_of infer files.now last.now kept.now) t.rows.items t.places.items t.verdict t.files
        t.bodies) }
{
    let _infer = infer;
    let _kept = kept;
    let checked = show(alloc, files, last, report, 0)?;
    Ok(checked)
}

/// What the last report says, where the files are as they were.
pub(crate) fn told_again(
    alloc: Global,
    infer: Infer,
    files: &FileSet,
    last: &[SourceFile],
    told: &Option<Report>,
    kept: &Option<Kept>,
) -> Result<Option<Checked>, OutOfMemory>
    requires told { IsLastTold infer last.now kept.now told.now }
    ensures { IfOk result (λ again. MatchOption again (Unit {0}) (λ t.
        Reports (session_of infer files.now last.now kept.now)
        (session_of infer files.now last.now kept.now) t.rows.items t.places.items t.verdict t.files
        t.bodies)) }
{
    match told {
        None => Ok(None),
        Some(report) => {
            if same_files(last, files.as_slice()) {
                Ok(Some(tell_last(alloc, infer, files, last, report, kept)?))
            } else {
                Ok(None)
            }
        }
    }
}
