//! Qualifiers as sets of three bits.
ghost use Rattle.std.specs.Prelude.{◌≡◌, ◌<◌};
ghost use Rattle.jn_quals.specs.Qualifier.{Qualifier, of_bits};

use std::marker::Model;

/// A set of the bits null (1), committed (2) and free (4): what a reference may be.
#[derive(Clone, Copy, Debug, PartialEq, Eq)]
pub struct Qual {
    bits: u8,
}

impl Model for Qual {
    ghost use Rattle.std.specs.Prelude.{◌<◌};
    ghost use Rattle.jn_quals.specs.Qualifier.{Qualifier, of_bits, to_bits};

    ghost Value = { Qualifier };

    ghost view = { λ q. of_bits q.bits };

    ghost invariant = { λ q. q.bits < 8 };

    ghost inverse = { λ q. record { bits = to_bits q } };
}

impl Qual {
    ghost use Rattle.jn_quals.specs.Qualifier.{to_bits};
    ghost use Rattle.jn_quals.specs.Order.{no_qual, null_only, committed_only, free_only, null_or_committed, all_quals, join, within, without_null, without_free, null_part, settle, is_none};

    /// The set with these bits.
    pub fn of_bits(bits: u8) -> Qual
        requires { bits < 8 }
        ensures { result ≡ of_bits bits }
    {
        Qual { bits }
    }

    /// The bits of the set, below 8.
    pub fn bits(self) -> u8
        ensures { result ≡ to_bits self }
    {
        self.bits
    }

    /// The empty set: what a value that is no reference has.
    pub fn none() -> Qual
        ensures { result ≡ no_qual }
    {
        Qual { bits: 0 }
    }

    /// Null alone.
    pub fn null_only() -> Qual
        ensures { result ≡ null_only }
    {
        Qual { bits: 1 }
    }

    /// Committed alone: never null, with all fields as declared.
    pub fn committed_only() -> Qual
        ensures { result ≡ committed_only }
    {
        Qual { bits: 2 }
    }

    /// Free alone: never null, under initialization.
    pub fn free_only() -> Qual
        ensures { result ≡ free_only }
    {
        Qual { bits: 4 }
    }

    /// Null or committed.
    pub fn null_or_committed() -> Qual
        ensures { result ≡ null_or_committed }
    {
        Qual { bits: 3 }
    }

    /// All three.
    pub fn all() -> Qual
        ensures { result ≡ all_quals }
    {
        Qual { bits: 7 }
    }

    /// Whether the value may be null.
    pub fn has_null(self) -> bool
        ensures { result ≡ self.null }
    {
        self.bits & 1 == 1
    }

    /// Whether the value may be committed.
    pub fn has_committed(self) -> bool
        ensures { result ≡ self.committed }
    {
        self.bits & 2 == 2
    }

    /// Whether the value may be free.
    pub fn has_free(self) -> bool
        ensures { result ≡ self.free }
    {
        self.bits & 4 == 4
    }

    /// The union of both sets.
    pub fn join(self, other: Qual) -> Qual
        ensures { result ≡ join self other }
    {
        Qual {
            bits: self.bits | other.bits,
        }
    }

    /// Whether the other set has all that this one has.
    pub fn within(self, other: Qual) -> bool
        ensures { result ≡ within self other }
    {
        self.bits | other.bits == other.bits
    }

    /// The set without null: what is left where the value is known not to be null.
    pub fn without_null(self) -> Qual
        ensures { result ≡ without_null self }
    {
        Qual {
            bits: self.bits & 6,
        }
    }

    /// The set without free.
    pub fn without_free(self) -> Qual
        ensures { result ≡ without_free self }
    {
        Qual {
            bits: self.bits & 3,
        }
    }

    /// Null, where the set has it: what is left where the value is known to be null.
    pub fn null_part(self) -> Qual
        ensures { result ≡ null_part self }
    {
        Qual {
            bits: self.bits & 1,
        }
    }

    /// The set with free become committed.
    pub fn settle(self) -> Qual
        ensures { result ≡ settle self }
    {
        Qual {
            bits: self.bits & 3 | (self.bits & 4) >> 1,
        }
    }

    /// Whether the set is empty.
    pub fn is_none(self) -> bool
        ensures { result ≡ is_none self }
    {
        self.bits == 0
    }
}
