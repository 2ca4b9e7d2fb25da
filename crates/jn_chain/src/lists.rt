//! Lists of sources.
ghost use Rattle.std.specs.Prelude.{◌≡◌, ◌++◌, ◌∷◌, [], OnOk, IfOk};

use jn_base::Seq;
use jn_reasons::Source;
use std::alloc::{AllocError, Global};

/// Puts the item after the others.
pub(crate) fn push<T: Drop>(list: &mut Vec<T>, item: T) -> Result<(), AllocError>
    ensures { OnOk result (list.new.items ≡ list.old.items ++ item ∷ []) }
{
    list.push(item)?;
    Ok(())
}

/// The level of one source.
pub(crate) fn only(alloc: Global, source: Source) -> Result<Seq<Source>, AllocError>
    ensures { IfOk result (λ level. level ≡ source ∷ []) }
{
    let mut level = Seq::new(alloc);
    level.push(source)?;
    Ok(level)
}
