//! The length of a configuration.
ghost use Rattle.std.specs.Prelude.{◌≡◌, ◌≤◌};
ghost use Rattle.psd_base.specs.declared.packet.TheConstants.{BLOCK_SIZE};

use psd_base::packet::BLOCK_SIZE;
use std::marker::Model;

/// The wTotalLength of a configuration that is asked for whole (USB 2.0, section 9.6.3): at most `BLOCK_SIZE` bytes.
#[derive(Clone, Copy)]
pub struct TotalLength {
    bytes: u16,
}

impl Model for TotalLength {
    ghost use Rattle.std.specs.Prelude.{ℕ, ◌≤◌};
    ghost use Rattle.psd_base.specs.declared.packet.TheConstants.{BLOCK_SIZE};

    ghost Value = { ℕ };

    ghost view = { λ total. total.bytes };

    ghost invariant = { λ total. total.bytes ≤ BLOCK_SIZE };

    ghost inverse = { λ bytes. record { bytes = bytes } };
}

impl TotalLength {
    /// So many bytes.
    pub fn new(bytes: u16) -> TotalLength
        requires { bytes ≤ BLOCK_SIZE }
        ensures { result ≡ bytes }
    {
        TotalLength { bytes }
    }

    /// How many bytes there are.
    pub fn bytes(self) -> u16
        ensures value { result ≡ self }
        ensures fits { result ≤ BLOCK_SIZE }
    {
        self.bytes
    }
}
