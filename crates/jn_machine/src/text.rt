//! Texts: UTF-16 units of UTF-8, and joined texts.
ghost use Rattle.std.specs.Prelude.{◌≡◌, ◌≤◌, ◌*◌, ◌++◌, IfOk};
ghost use Rattle.std.specs.Fmt.{signed_decimal};
ghost use Rattle.jn_heap.specs.Values as spec;

use jn_base::Text;
use std::alloc::{AllocError, Global};

/// The UTF-16 units that a byte of UTF-8 stands for.
fn byte_units(byte: u8) -> usize
    ensures value { result ≡ spec.byte_units byte }
    ensures few { result ≤ 2 }
{
    if byte >= 128 && byte <= 191 {
        0
    } else if byte >= 240 {
        2
    } else {
        1
    }
}

/// The number of UTF-16 units of a text.
pub fn units(text: &str) -> usize
    ensures { result ≡ spec.units text.now }
{
    let bytes = text.as_bytes();
    let mut count = 0;
    for byte in bytes {
        count += byte_units(*byte);
    }
    count
}

/// The one text, and the other after it.
pub fn joined(alloc: Global, front: &str, rest: &str) -> Result<Text, AllocError>
    ensures { IfOk result (λ t. t ≡ front.now ++ rest.now) }
{
    let mut string = String::from_str(alloc, front)?;
    string.push_str(rest)?;
    Ok(Text::of_string(string))
}

/// An int in decimal.
pub fn decimal(alloc: Global, number: i32) -> Result<Text, AllocError>
    ensures { IfOk result (λ t. t ≡ signed_decimal number) }
{
    let string = number.to_string(alloc)?;
    Ok(Text::of_string(string))
}
