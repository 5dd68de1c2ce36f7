//! The place of a bit in a report.
ghost use Rattle.std.specs.Prelude.{◌≡◌, ℕ, ◌<◌, ◌^◌};

use std::marker::Model;

/// A bit of a report, counted from the least significant bit of its first byte.
#[derive(Clone, Copy)]
pub struct BitPlace {
    bit: u64,
}

impl Model for BitPlace {
    ghost Value = { ℕ };

    ghost view = { λ place. place.bit };

    ghost invariant = { λ place. place.bit < 2 ^ 63 };

    ghost inverse = { λ bit. record { bit = bit } };
}

impl BitPlace {
    pub fn new(bit: u64) -> BitPlace
        requires { bit < 2 ^ 63 }
        ensures { result ≡ bit }
    {
        BitPlace { bit }
    }

    pub fn bit(self) -> u64
        ensures value { result ≡ self }
        ensures near { result < 2 ^ 63 }
    {
        self.bit
    }
}
