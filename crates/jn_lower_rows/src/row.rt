//! Rows are added at the end of a list.
ghost use Rattle.std.specs.Prelude.{◌≡◌, ◌++◌, OnOk};
ghost use Rattle.jn_lowering.specs.Annotations as spec;

use jn_base::{Code, Row, Seq, Span};
use std::alloc::AllocError;

/// Adds a row.
pub fn push(rows: &mut Seq<Row>, code: Code, span: Span) -> Result<(), AllocError>
    ensures { OnOk result (rows.new ≡ rows.old ++ spec.row code span) }
{
    rows.push(Row { span, code })
}

/// Adds a row where it is wanted.
pub fn push_if(rows: &mut Seq<Row>, wanted: bool, code: Code, span: Span) -> Result<(), AllocError>
    ensures { OnOk result (rows.new ≡ rows.old ++ spec.when wanted (spec.row code span)) }
{
    if wanted {
        rows.push(Row { span, code })?;
    }
    Ok(())
}
