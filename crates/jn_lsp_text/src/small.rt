//! Texts whose positions are numbers of the protocol.
ghost use Rattle.std.specs.Prelude.{◌≡◌, ◌<◌, ◌^◌, length};

use std::marker::Model;

/// A text of less than 2^30 bytes, so that lines and characters of it are numbers of the protocol. Contracts see its bytes.
#[derive(Drop)]
pub struct SmallText<'a> {
    bytes: &'a [u8],
}

impl<'a> Model for SmallText<'a> {
    ghost use Rattle.std.specs.Prelude.{◌<◌, ◌^◌, List, length, ℕ};

    ghost Value = { List ℕ };

    ghost view = { λ t. t.bytes.now };

    ghost invariant = { λ t. length t.bytes.now < 2 ^ 30 };
}

impl<'a> SmallText<'a> {
    /// The text of these bytes.
    pub fn of(bytes: &'a [u8]) -> SmallText<'a>
        requires { length bytes.now < 2 ^ 30 }
        ensures { result ≡ bytes.now }
    {
        SmallText { bytes }
    }

    /// Its bytes.
    pub fn bytes(&self) -> &'a [u8]
        ensures are { result.now ≡ self.now }
        ensures small { length result.now < 2 ^ 30 }
    {
        self.bytes
    }
}
