//! What is written of a bad script and of a check.
ghost use Rattle.std.specs.Prelude.{◌≡◌, ◌++◌, ◌∷◌, [], IfOk, OnOk};
ghost use Rattle.nullcheck_recheck_top.specs.Answer.{bad_line};
ghost use Rattle.nullcheck_recheck_top.specs.Carrying.{check_text, number_line, plain_text, status_of, texts_of};

use itoa::{Buffer, Integer};
use jn_base::{OutOfMemory, Seq};
use jn_command::Status;
use jn_command::output::Output;
use jn_diag::{RowText, Verdict};
use jn_recheck::Checked;
use jn_reporters::{Plain, Reporter, RowView};
use std::alloc::{AllocError, Global};

/// `SCRIPT:LINE:1: script` and a line feed.
fn bad_line(alloc: Global, name: &str, line: u32) -> Result<Vec<u8>, AllocError>
    ensures { IfOk result (λ text. text.items ≡ bad_line name.now line) }
{
    let mut text = Vec::from_slice(alloc, name.as_bytes())?;
    text.extend_from_slice(b":")?;
    text.extend_from_slice(Buffer::new().format(line).as_bytes())?;
    text.extend_from_slice(b":1: script\n")?;
    Ok(text)
}

/// The output of a script whose line of this number, from 1, is no step that can be taken.
pub(crate) fn bad_output(alloc: Global, name: &str, line: u32) -> Result<Output, OutOfMemory>
    ensures status { IfOk result (λ o. o.status ≡ Status.Refused) }
    ensures bytes { IfOk result (λ o. o.bytes ≡ bad_line name.now line) }
{
    let text = bad_line(alloc, name, line)?;
    Ok(Output {
        status: Status::Refused,
        bytes: Seq::of_vec(text),
    })
}

/// Hands a row to the reporter, which shows nothing of its line.
#[tactic(auto, using(crate::proofs::Showing::text_more))]
fn take_row(alloc: Global, shower: &mut Plain, row: &RowText) -> Result<(), OutOfMemory>
    ensures { OnOk result
        (texts_of shower.new.rows ≡ texts_of shower.old.rows ++ row.now ∷ []) }
{
    let view = RowView::new(row.copy(alloc)?, None);
    shower.take(&view)
}

/// The plain report of rows and a verdict.
#[tactic(auto, using(crate::proofs::Showing::plain_is))]
fn plain_text(alloc: Global, rows: &[RowText], verdict: Verdict) -> Result<Vec<u8>, OutOfMemory>
    ensures { IfOk result (λ text. text.items ≡ plain_text rows.now verdict) }
{
    let mut shower = Plain::new(alloc);
    for row in rows {
        take_row(alloc, &mut shower, row)?;
    }
    shower.finish(verdict)?;
    Ok(Vec::from_slice(alloc, shower.bytes())?)
}

/// The status after a verdict.
fn status_of(verdict: Verdict) -> Status
    ensures { result ≡ status_of verdict }
{
    match verdict {
        Verdict::Accepted => Status::Ok,
        Verdict::Rejected(_) => Status::Rejected,
        Verdict::Refused(_) => Status::Refused,
    }
}

/// `checked F files, B bodies` and a line feed.
fn number_line(alloc: Global, files: u64, bodies: u32) -> Result<Vec<u8>, AllocError>
    ensures { IfOk result (λ line. line.items ≡ number_line files bodies) }
{
    let mut line = Vec::from_slice(alloc, b"checked ")?;
    line.extend_from_slice(Buffer::new().format(files).as_bytes())?;
    line.extend_from_slice(b" files, ")?;
    line.extend_from_slice(Buffer::new().format(bodies).as_bytes())?;
    line.extend_from_slice(b" bodies\n")?;
    Ok(line)
}

/// Puts a line after a text.
fn with_line(text: Vec<u8>, line: &[u8]) -> Result<Vec<u8>, AllocError>
    ensures { IfOk result (λ whole. whole.items ≡ text.items ++ line.now) }
{
    let mut text = text;
    text.extend_from_slice(line)?;
    Ok(text)
}

/// The output of a check: its plain report, and after it the numbers.
pub(crate) fn check_output(alloc: Global, checked: &Checked) -> Result<Output, OutOfMemory>
    ensures status { IfOk result (λ o. o.status ≡ status_of checked.now.verdict) }
    ensures bytes { IfOk result (λ o. o.bytes ≡ check_text checked.now.rows.items
        checked.now.verdict checked.now.files checked.now.bodies) }
{
    let text = plain_text(alloc, &checked.rows, checked.verdict)?;
    let line = number_line(alloc, checked.files, checked.bodies)?;
    let text = with_line(text, &line)?;
    Ok(Output {
        status: status_of(checked.verdict),
        bytes: Seq::of_vec(text),
    })
}
