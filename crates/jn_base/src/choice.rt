//! Choices between two values, as a call, so that a loop that makes one keeps the facts of both.
ghost use Rattle.std.specs.Prelude.{◌≡◌, ◌≤◌, ◌⊎◌, ◌||◌};

/// Whether either holds.
pub fn either(left: bool, right: bool) -> bool
    ensures { result ≡ (left || right) }
{
    left || right
}

/// The lesser of two numbers.
pub fn least(left: usize, right: usize) -> usize
    ensures left { result ≤ left }
    ensures right { result ≤ right }
    ensures one { (left ≤ result) ⊎ (right ≤ result) }
{
    if left < right { left } else { right }
}
