//! Lists of rows.
ghost use Rattle.std.specs.Prelude.{◌≡◌, ◌++◌, [], OnOk, true, false};

use jn_base::{OutOfMemory, Row, Seq};

/// Adds rows after others.
pub fn push_all(rows: &mut Seq<Row>, more: &[Row]) -> Result<(), OutOfMemory>
    ensures { OnOk result (rows.new ≡ rows.old ++ more.now) }
{
    for row in more {
        rows.push(*row)?;
    }
    Ok(())
}

/// Whether there is no row.
pub fn is_empty(rows: &Seq<Row>) -> bool
    ensures none { result ≡ true → rows.now ≡ [] }
    ensures some { result ≡ false → rows.now ≡ [] → ⊥ }
{
    rows.len() == 0
}
