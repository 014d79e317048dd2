// Masks of extensions.
ghost use Rattle.std.specs.Prelude.{◌≡◌, ◌<◌, ◌≤◌, MatchOption, bit_and, bit_or};
ghost use Rattle.dts_resolver.specs.Extensions.{has, meets};

use std::marker::Model;

/// Which sorts of files a lookup may choose: TypeScript 1, JavaScript 2, declaration 4, or any of them together.
#[derive(Clone, Copy, PartialEq, Eq, Debug)]
pub struct Extensions {
    bits: u8,
}

// A mask is a number below eight.
impl Model for Extensions {
    ghost use Rattle.std.specs.Prelude.{ℕ, ◌<◌};

    ghost Value = { ℕ };

    ghost view = { λ e. e.bits };

    ghost inverse = { λ n. record { bits = n } };

    ghost invariant = { λ e. e.bits < 8 };
}

/// A sort of files, which is a bit of a mask.
#[derive(Clone, Copy, PartialEq, Eq, Debug)]
pub enum Sort {
    TypeScript = 1,
    JavaScript = 2,
    Declaration = 4,
}

// The mask of one sort alone.
impl From<Sort> for Extensions {
    ghost use Rattle.std.specs.Prelude.{◌≡◌};
    ghost use Rattle.dts_resolver.specs.Rows.{bit_of};

    ghost from_gives = { λ sort e. e ≡ bit_of sort };

    fn from(sort: Sort) -> Extensions {
        Extensions { bits: sort as u8 }
    }
}

impl Extensions {
    /// The mask of all sorts.
    pub const ALL: Extensions = Extensions { bits: 7 };

    /// The mask of a byte; none where the byte has a bit that stands for nothing.
    pub fn from_byte(bits: u8) -> Option<Extensions>
        ensures byte_below_eight { MatchOption result (8 ≤ bits) (λ e. (bits < 8) × (e ≡ bits)) }
    {
        if bits > 7 {
            return None;
        }
        Some(Extensions { bits })
    }

    /// Whether all of the other is in this one.
    pub fn contains(self, other: Extensions) -> bool
        ensures has_all { result ≡ has self other }
    {
        (self.bits & other.bits) == other.bits
    }

    /// Whether the two have something in common.
    pub fn intersects(self, other: Extensions) -> bool
        ensures meets_it { result ≡ meets self other }
    {
        (self.bits & other.bits) != 0
    }

    // Three functions and not one over an operator: each is one line, and a function over `|` and `&` would be no plainer.
    // The same holds of the two tests above.

    /// What is in either.
    pub fn union(self, other: Extensions) -> Extensions
        ensures either_bit { result ≡ bit_or self other }
    {
        Extensions {
            bits: self.bits | other.bits,
        }
    }

    /// What is in both.
    pub fn common(self, other: Extensions) -> Extensions
        ensures both_bits { result ≡ bit_and self other }
    {
        Extensions {
            bits: self.bits & other.bits,
        }
    }

    /// What is in this one and not in the other.
    pub fn difference(self, other: Extensions) -> Extensions
        ensures nothing_of_the_other { bit_and result other ≡ 0 }
        ensures all_else { bit_or result (bit_and self other) ≡ self }
    {
        Extensions {
            bits: self.bits & !other.bits,
        }
    }
}
