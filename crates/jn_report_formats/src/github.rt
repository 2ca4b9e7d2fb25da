//! The report as workflow commands of GitHub.
ghost use Rattle.std.specs.Prelude.{◌≡◌, IfOk};
ghost use Rattle.jn_report_formats.specs.Github as spec;

use crate::escapes::{Escape, put};
use itoa::{Buffer, Integer};
use jn_diag::RowText;
use jn_reporters::by_row::{ByRow, RowFormat};
use jn_reporters::reporter::Reporter;
use jn_reporters::shown::ShownNote;
use jn_reporters::telling::told_noted;
use jn_reporters::view::RowView;
use std::alloc::{AllocError, Global};

/// Shows a workflow command of GitHub Actions for each row, which marks the row's line as an error and tells the row's first note, and then
/// the verdict.
pub type Github = ByRow<GithubRow>;

/// What it shows of rows and a verdict is `github_shown`.
pub fn github_shows(reporter: &Github)
    ensures { (⟦<Github as Reporter>⟧.form reporter.now).shown ≡ spec.github_shown }
{}

/// A workflow command that marks the row's line as an error and tells its first note.
#[derive(Drop)]
pub struct GithubRow;

impl RowFormat for GithubRow {
    ghost use Rattle.std.specs.Prelude.{codes, true};
    ghost use Rattle.jn_report_formats.specs.Github.{github_row};

    ghost title = { codes "github" };

    ghost notes = { true };

    ghost written = { github_row };

    fn name() -> &'static str {
        "github"
    }

    fn shows_notes() -> bool {
        true
    }

    fn text(alloc: Global, row: &RowView<'_>) -> Result<Vec<u8>, AllocError> {
        github_line(alloc, row.row(), row.notes())
    }
}

/// `::error file=FILE,line=LINE,col=COL::CODE MESSAGE; cure: CURE; note: NOTE` and a line feed.
fn github_line(alloc: Global, row: &RowText, notes: &[ShownNote]) -> Result<Vec<u8>, AllocError>
    ensures { IfOk result (λ line. line.items ≡ spec.github_line row.now notes.now) }
{
    let words = told_noted(alloc, row.code, notes)?;
    let mut line = Vec::from_slice(alloc, b"::error file=")?;
    put(&mut line, Escape::Property, row.name.as_str().as_bytes())?;
    line.extend_from_slice(b",line=")?;
    line.extend_from_slice(Buffer::new().format(row.line).as_bytes())?;
    line.extend_from_slice(b",col=")?;
    line.extend_from_slice(Buffer::new().format(row.col).as_bytes())?;
    line.extend_from_slice(b"::")?;
    line.extend_from_slice(row.code.name().as_bytes())?;
    line.extend_from_slice(b" ")?;
    put(&mut line, Escape::Message, &words)?;
    line.extend_from_slice(b"\n")?;
    Ok(line)
}
