//! What a check of files comes to.
ghost use Rattle.std.specs.Prelude.{◌≡◌};
ghost use Rattle.jn_command.specs.Reports as spec;

use crate::status::Status;
use jn_base::{Row, Seq};
use jn_diag::Verdict;

/// A report of files: its rows in order, each once.
#[derive(Drop)]
pub enum Report {
    /// The files are not of the subset, or don't fit together: the rows of the first phase that has any.
    Refused(Seq<Row>),
    /// The files have a program: the rows of the rules that it breaks.
    Checked(Seq<Row>),
}

fn status_of(rows: &[Row]) -> Status
    ensures { result ≡ spec.status_of_rows rows.now }
{
    match rows {
        [] => Status::Ok,
        _ => Status::Rejected,
    }
}

fn verdict_of(rows: &[Row]) -> Verdict
    ensures { result ≡ spec.verdict_of_rows rows.now }
{
    match rows {
        [] => Verdict::Accepted,
        _ => Verdict::Rejected(rows.len() as u64),
    }
}

impl Report {
    /// The rows, in order.
    pub fn rows(&self) -> &[Row]
        ensures { result.now ≡ spec.rows_of self.now }
    {
        match self {
            Report::Refused(rows) => rows.as_slice(),
            Report::Checked(rows) => rows.as_slice(),
        }
    }

    /// The status with which a command ends that writes the report.
    pub fn status(&self) -> Status
        ensures { result ≡ spec.status_of self.now }
    {
        match self {
            Report::Refused(_) => Status::Refused,
            Report::Checked(rows) => status_of(rows.as_slice()),
        }
    }

    /// The verdict that is shown after the rows.
    pub fn verdict(&self) -> Verdict
        ensures { result ≡ spec.verdict_of self.now }
    {
        match self {
            Report::Refused(rows) => Verdict::Refused(rows.len() as u64),
            Report::Checked(rows) => verdict_of(rows.as_slice()),
        }
    }
}
