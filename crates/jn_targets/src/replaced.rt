//! What was replaced, which only clauses read.
ghost use Rattle.std.specs.Prelude.{◌≡◌};
ghost use Rattle.jn_targets.specs.Replacing as spec;

use jn_base::{Seq, Text};
use jn_outside::{Tells, Told};

/// A name, and the bytes that its file has now.
#[derive(Drop)]
pub struct Replaced {
    pub name: Text,
    pub bytes: Seq<u8>,
}

/// What was replaced, and a file that is replaced now.
#[derive(Drop)]
struct Behind<'a> {
    before: &'a Told<Replaced>,
    name: &'a str,
    bytes: &'a [u8],
}

struct Replace;

impl<'a> Tells<Behind<'a>, Replaced> for Replace {
    ghost use Rattle.jn_targets.specs.Replacing.{with_replaced};

    ghost told = { λ x. with_replaced x.before.now.items x.name.now x.bytes.now };
}

/// What was replaced when this file is, too.
pub fn with_replaced(before: &Told<Replaced>, name: &str, bytes: &[u8]) -> Told<Replaced>
    ensures { result.items ≡ spec.with_replaced before.now.items name.now bytes.now }
{
    Told::of::<Behind<'_>, Replace>(&Behind {
        before,
        name,
        bytes,
    })
}
