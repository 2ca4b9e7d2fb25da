//! Calls of an input, which only clauses read.
ghost use Rattle.std.specs.Prelude.{◌≡◌};
ghost use Rattle.jn_lsp_frames.specs.Asking as spec;

use jn_base::Seq;
use jn_outside::{Sink, Tells, Told};

/// What an input had given, and an output had taken, when the input was asked for more. Only clauses have such values.
#[derive(Drop)]
pub struct Asking {
    pub given: Seq<u8>,
    /// None where the output doesn't tell.
    pub written: Option<Seq<u8>>,
}

/// The calls before, and how things stand at one more.
#[derive(Drop)]
struct Behind<'a, K> {
    before: &'a Told<Asking>,
    given: &'a Told<u8>,
    out: &'a K,
}

struct Calls;

impl<'a, K: Sink> Tells<Behind<'a, K>, Asking> for Calls {
    ghost use Rattle.jn_lsp_frames.specs.Asking.{with_asking};

    ghost told = { λ x. with_asking x.before.now.items x.given.now.items (K.written x.out.now) };
}

/// The calls when there is one more, of an input that gave this so far.
pub fn with_asking<K: Sink>(before: &Told<Asking>, given: &Told<u8>, out: &K) -> Told<Asking>
    ensures { result.items ≡ spec.with_asking before.now.items given.now.items (K.written out.now) }
{
    Told::of::<Behind<'_, K>, Calls>(&Behind { before, given, out })
}
