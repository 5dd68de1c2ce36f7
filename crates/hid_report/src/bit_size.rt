//! The size of an element of a report.
ghost use Rattle.std.specs.Prelude.{◌≡◌, ℕ, ◌≤◌, ◌<◌};

use std::marker::Model;

/// The number of bits of one element of a field, at most 32.
#[derive(Clone, Copy)]
pub struct BitSize {
    bits: u8,
}

impl Model for BitSize {
    ghost Value = { ℕ };

    ghost view = { λ size. size.bits };

    ghost invariant = { λ size. size.bits ≤ 32 };

    ghost inverse = { λ bits. record { bits = bits } };
}

impl BitSize {
    pub fn new(bits: u8) -> BitSize
        requires { bits ≤ 32 }
        ensures { result ≡ bits }
    {
        BitSize { bits }
    }

    pub fn bits(self) -> u8
        ensures value { result ≡ self }
        ensures narrow { result ≤ 32 }
    {
        self.bits
    }
}

impl Default for BitSize {
    ghost is_default = { λ size. size ≡ 0 };

    fn default() -> Self {
        BitSize { bits: 0 }
    }
}
