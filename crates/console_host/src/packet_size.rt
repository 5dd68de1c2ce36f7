//! The size of endpoint 0.
ghost use Rattle.std.specs.Prelude.{◌≡◌, IsTrue};
ghost use Rattle.peripheral_filter.specs.Steps.{is_packet_size};

use std::marker::Model;

/// The bMaxPacketSize0 of a device: 8, 16, 32 or 64 bytes (USB 2.0, section 9.6.1).
#[derive(Clone, Copy)]
pub struct PacketSize {
    bytes: u8,
}

impl Model for PacketSize {
    ghost use Rattle.std.specs.Prelude.{ℕ, IsTrue};
    ghost use Rattle.peripheral_filter.specs.Steps.{is_packet_size};

    ghost Value = { ℕ };

    ghost view = { λ size. size.bytes };

    ghost invariant = { λ size. IsTrue (is_packet_size size.bytes) };

    ghost inverse = { λ bytes. record { bytes = bytes } };
}

impl PacketSize {
    /// So many bytes.
    pub fn new(bytes: u8) -> PacketSize
        requires { IsTrue (is_packet_size bytes) }
        ensures { result ≡ bytes }
    {
        PacketSize { bytes }
    }

    /// How many bytes there are.
    pub fn bytes(&self) -> u8
        ensures value { result ≡ self.now }
        ensures sized { IsTrue (is_packet_size result) }
    {
        self.bytes
    }
}
