//! Counts of calls and of faults, which stand still at their last value.
ghost use Rattle.std.specs.Prelude.{◌≡◌, ◌<◌, ◌+◌, ◌-◌, ◌^◌, min, IsTrue};
ghost use Rattle.jn_outside.specs.Calls as spec;

/// The next number, or the last one where there is none.
pub(crate) fn next(count: u64) -> u64
    ensures { result ≡ min (count + 1) (2 ^ 64 - 1) }
{
    count.saturating_add(1)
}

/// Whether the call of this number is to fail.
pub(crate) fn fails_at(failing: &[u32], number: u64) -> bool
    ensures small { IsTrue result → number < 2 ^ 32 }
    ensures value { result ≡ spec.fails_at failing.now number }
{
    failing.iter().any(|n| u64::from(*n) == number)
}
