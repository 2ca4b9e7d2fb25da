//! The rows of texts that have no tree.
ghost use Rattle.std.specs.Prelude.{◌≡◌, IfOk};
ghost use Rattle.jn_kept_trees.specs.Fresh.{lexical_rows, syntax_rows};

use jn_base::Row;
use jn_front::Outcome;
use std::alloc::{AllocError, Global};

/// The lexical faults, in the files' order.
pub(crate) fn lexical_rows(alloc: Global, fresh: &[Option<Outcome>]) -> Result<Vec<Row>, AllocError>
    ensures { IfOk result (λ rows. rows.items ≡ lexical_rows fresh.now) }
{
    let mut rows = Vec::new(alloc);
    'fresh: for one in fresh {
        match one {
            None => (),
            Some(Outcome::Lexical(row)) => rows.push(*row)?,
            Some(Outcome::Syntax(_)) => (),
            Some(Outcome::Tree { .. }) => (),
        }
    }
    Ok(rows)
}

/// The syntax rows, in the files' order.
pub(crate) fn syntax_rows(alloc: Global, fresh: &[Option<Outcome>]) -> Result<Vec<Row>, AllocError>
    ensures { IfOk result (λ rows. rows.items ≡ syntax_rows fresh.now) }
{
    let mut rows = Vec::new(alloc);
    'fresh: for one in fresh {
        match one {
            None => (),
            Some(Outcome::Lexical(_)) => (),
            Some(Outcome::Syntax(row)) => rows.push(*row)?,
            Some(Outcome::Tree { .. }) => (),
        }
    }
    Ok(rows)
}
