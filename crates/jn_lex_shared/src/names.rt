//! Names that have a number before any file is read.
ghost use Rattle.std.specs.Prelude.{◌≡◌, ◌<◌, ◌+◌, ◌-◌, ◌^◌, [], length, map, true, IfOk, OnOk};
ghost use Rattle.jn_lex_shared.specs.Interned.{all_new, interned};
ghost use Rattle.jn_known.specs.Known.{known_names};

use jn_base::OutOfMemory;
use jn_known::KNOWN_NAMES;
use jn_trees::Names;
use std::alloc::Global;

/// Numbers the texts, in their order.
fn intern_all(names: &mut Names, texts: &[&str]) -> Result<(), OutOfMemory>
    requires { length names.old + length texts.now < 2 ^ 32 - 1 }
    ensures { OnOk result (names.new ≡ interned names.old texts.now) }
{
    for text in texts {
        names.intern(text)?;
    }
    Ok(())
}

/// The names with these texts, of which no two are the same, numbered as they stand.
fn names_of(alloc: Global, texts: &[&str]) -> Result<Names, OutOfMemory>
    requires few { length texts.now < 2 ^ 32 - 1 }
    requires new { all_new [] texts.now ≡ true }
    ensures { IfOk result (λ names. names ≡ map (λ t. t.now) texts.now) }
{
    let mut names = Names::new(alloc);
    intern_all(&mut names, texts)?;
    Ok(names)
}

/// The names that have a number before any file is read.
pub fn known_names(alloc: Global) -> Result<Names, OutOfMemory>
    ensures { IfOk result (λ names. names ≡ known_names) }
{
    names_of(alloc, &KNOWN_NAMES)
}
