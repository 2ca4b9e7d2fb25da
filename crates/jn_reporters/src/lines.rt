//! The lines of reports.
ghost use Rattle.std.specs.Prelude.{◌≡◌, ◌++◌, codes, decimal, IfOk};
ghost use Rattle.jn_reporters.specs.Reports as spec;

use itoa::{Buffer, Integer};
use jn_diag::{RowText, Verdict};
use std::alloc::{AllocError, Global};

/// `FILE:LINE:COL: CODE` and a line feed.
pub fn plain_line(alloc: Global, row: &RowText) -> Result<Vec<u8>, AllocError>
    ensures { IfOk result (λ line. line.items ≡ spec.plain_line row.now) }
{
    let mut line = Vec::from_slice(alloc, row.name.as_str().as_bytes())?;
    line.extend_from_slice(b":")?;
    line.extend_from_slice(Buffer::new().format(row.line).as_bytes())?;
    line.extend_from_slice(b":")?;
    line.extend_from_slice(Buffer::new().format(row.col).as_bytes())?;
    line.extend_from_slice(b": ")?;
    line.extend_from_slice(row.code.name().as_bytes())?;
    line.extend_from_slice(b"\n")?;
    Ok(line)
}

/// File, line, column, code and the code's text, with a tab between, and a line feed.
pub fn tabbed_line(alloc: Global, row: &RowText) -> Result<Vec<u8>, AllocError>
    ensures { IfOk result (λ line. line.items ≡ spec.tabbed_line row.now) }
{
    let mut line = Vec::from_slice(alloc, row.name.as_str().as_bytes())?;
    line.extend_from_slice(b"\t")?;
    line.extend_from_slice(Buffer::new().format(row.line).as_bytes())?;
    line.extend_from_slice(b"\t")?;
    line.extend_from_slice(Buffer::new().format(row.col).as_bytes())?;
    line.extend_from_slice(b"\t")?;
    line.extend_from_slice(row.code.name().as_bytes())?;
    line.extend_from_slice(b"\t")?;
    line.extend_from_slice(row.code.text().as_bytes())?;
    line.extend_from_slice(b"\n")?;
    Ok(line)
}

/// `accepted`, `rejected N` or `refused N`, and a line feed.
pub fn verdict_line(alloc: Global, verdict: Verdict) -> Result<Vec<u8>, AllocError>
    ensures { IfOk result (λ line. line.items ≡ spec.verdict_line verdict) }
{
    match verdict {
        Verdict::Accepted => Vec::from_slice(alloc, b"accepted\n"),
        Verdict::Rejected(rows) => counted(alloc, "rejected", rows),
        Verdict::Refused(rows) => counted(alloc, "refused", rows),
    }
}

/// The word, a space, the number and a line feed.
pub fn counted(alloc: Global, word: &str, count: u64) -> Result<Vec<u8>, AllocError>
    ensures { IfOk result
        (λ line. line.items ≡ word.now ++ codes " " ++ decimal count ++ codes "\n") }
{
    let mut line = Vec::from_slice(alloc, word.as_bytes())?;
    line.extend_from_slice(b" ")?;
    line.extend_from_slice(Buffer::new().format(count).as_bytes())?;
    line.extend_from_slice(b"\n")?;
    Ok(line)
}
