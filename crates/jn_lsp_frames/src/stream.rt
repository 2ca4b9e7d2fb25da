//! A source of bytes.
ghost use Rattle.std.specs.Prelude.{◌≡◌, ◌<◌, ◌≤◌, ◌++◌, ◌==◌, ℕ, Bool, List, length, take, IfOk, OnErr};
ghost use Rattle.jn_outside.specs.Causes.{HasCause};
ghost use Rattle.jn_lsp_frames.specs.declared.asking.Asking.{Asking as SpecAsking};
ghost use Rattle.jn_lsp_frames.specs.Asking.{with_asking};

use jn_outside::{Failed, Sink};

/// A source of bytes, which counts its faults, and tells when it was asked for more: what it had given, and what the output of the same
/// client had taken. Code that is generic over both has no other output to hand it.
pub trait Stream<K: Sink> {
    /// The bytes that its reads gave since it was made.
    ghost given: { Self → List ℕ };

    /// The last read that succeeded gave no byte: the end of the input.
    ghost ended: { Self → Bool };

    /// How often it has failed; the count stands still at its last value.
    ghost faults: { Self → ℕ };

    /// The calls of `read`, also those that failed: how this input and the output stood at each.
    ghost asked: { Self → List SpecAsking };

    /// Puts the next bytes at the buffer's front, and gives their number; none is the end of the input. It gives what is there, and
    /// waits only where nothing is.
    ///
    /// # Errors
    /// The call failed, and was counted.
    fn read(&mut self, out: &K, buf: &mut [u8]) -> Result<usize, Failed>
        requires { 0 < length buf.old }
        ensures bound { IfOk result (λ n. n ≤ length buf.new) }
        ensures given { IfOk result (λ n. given self.new ≡ given self.old ++ take n buf.new) }
        ensures spared { OnErr result (given self.new ≡ given self.old) }
        ensures ended { IfOk result (λ n. ended self.new ≡ (n == 0)) }
        ensures cause { HasCause (faults self.old) (faults self.new) result }
        ensures asked { asked self.new ≡ with_asking (asked self.old) (given self.old) (K.written out.now) };
}
