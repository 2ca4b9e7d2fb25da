//! Bits of bodies in a list of words.
ghost use Rattle.std.specs.Prelude.{◌≡◌, ◌≢◌, ◌⊎◌, ◌↔◌, ℕ, ◌<◌, ◌/◌, true, false, length, bit_or};
ghost use Rattle.jn_sigtable.specs.System.{ones_below};
ghost use Rattle.jn_worklist.specs.Plans.{IsDue, Lists};

use jn_base::{BodyNo, Seq};

fn add_body(due: &mut [u64], body: BodyNo)
    requires { body.0 / 64 < length due.old }
    ensures count { length due.new ≡ length due.old }
    ensures bits { (x : ℕ) → IsDue due.new x ↔ (IsDue due.old x ⊎ (x ≡ body.0)) }
{
    due[(body.0 / 64) as usize] |= 1u64 << (body.0 % 64);
}

// Whether the bits have one that is new.
pub fn is_new(old: u64, bits: u64) -> bool
    ensures same { result ≡ false → bit_or old bits ≡ old }
    ensures more { result ≡ true → ones_below 64 old < ones_below 64 (bit_or old bits) }
{
    old | bits != old
}

// The bodies of the list are due.
pub fn add_bodies(due: &mut [u64], bodies: &Seq<BodyNo>)
    requires room { (x : ℕ) → Lists bodies.now x → x / 64 < length due.old }
    ensures count { length due.new ≡ length due.old }
    ensures bits { (x : ℕ) → IsDue due.new x ↔ (IsDue due.old x ⊎ Lists bodies.now x) }
{
    for at in 0..bodies.len() {
        add_body(due, bodies.at(at));
    }
}

// Whether the body is due; it no longer is.
pub fn take_body(due: &mut [u64], body: BodyNo) -> bool
    requires { body.0 / 64 < length due.old }
    ensures was { result ≡ false → IsDue due.old body.0 → ⊥ }
    ensures bits { (x : ℕ) → IsDue due.new x ↔ (IsDue due.old x × (x ≢ body.0)) }
{
    let word = (body.0 / 64) as usize;
    let bit = 1u64 << (body.0 % 64);
    let old = due[word];
    due[word] = old & !bit;
    old & bit != 0
}
