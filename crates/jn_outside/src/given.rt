//! What the calls of a source gave, which only clauses read.
ghost use Rattle.std.specs.Prelude.{◌≡◌};
ghost use Rattle.jn_outside.specs.Gave as spec;

use crate::told::{Tells, Told};
use jn_base::{Seq, Text};

/// A name that was started, and the bytes that its reads gave. Only clauses have such values.
#[derive(Drop)]
pub struct Given {
    pub name: Text,
    pub bytes: Seq<u8>,
}

/// What was given, and a name that is started.
#[derive(Drop)]
struct Started<'a> {
    before: &'a Told<Given>,
    name: &'a str,
}

struct Start;

impl<'a> Tells<Started<'a>, Given> for Start {
    ghost use Rattle.jn_outside.specs.Gave.{with_start};

    ghost told = { λ x. with_start x.before.now.items x.name.now };
}

/// What was given, and bytes that a read gives.
#[derive(Drop)]
struct WasRead<'a> {
    before: &'a Told<Given>,
    bytes: &'a [u8],
}

struct Read;

impl<'a> Tells<WasRead<'a>, Given> for Read {
    ghost use Rattle.jn_outside.specs.Gave.{with_read};

    ghost told = { λ x. with_read x.before.now.items x.bytes.now };
}

/// What was given when this name is started, too.
pub fn with_start(before: &Told<Given>, name: &str) -> Told<Given>
    ensures { result.items ≡ spec.with_start before.now.items name.now }
{
    Told::of::<Started<'_>, Start>(&Started { before, name })
}

/// What was given when a read gave these bytes, too.
pub fn with_read(before: &Told<Given>, bytes: &[u8]) -> Told<Given>
    ensures { result.items ≡ spec.with_read before.now.items bytes.now }
{
    Told::of::<WasRead<'_>, Read>(&WasRead { before, bytes })
}
