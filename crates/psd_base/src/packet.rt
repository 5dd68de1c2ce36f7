//! The bytes of a USB data packet and of a transfer.
ghost use Rattle.std.specs.Prelude.{⊤, ◌≡◌, ℕ, ◌+◌, ◌<◌, ◌≤◌, List, [], ◌∷◌, ◌++◌, length};

use arrayvec::ArrayVec;
use std::alloc::AllocError;
use std::marker::Model;

/// The most bytes of a data packet at a full-speed control or interrupt endpoint (USB 2.0, 5.5.3 and 5.7.3).
pub const PACKET_SIZE: usize = 64;

/// The most bytes that a transfer to or from a peripheral has here.
pub const BLOCK_SIZE: usize = 1024;

/// The bytes of one data packet, at most `PACKET_SIZE`.
pub type Packet = Bytes<PACKET_SIZE>;

/// The bytes of one transfer, at most `BLOCK_SIZE`.
pub type Block = Bytes<BLOCK_SIZE>;

/// At most `SIZE` bytes, which lie in the value itself. Contracts see the list of bytes.
#[derive(Debug, PartialEq, Eq, Drop)]
pub struct Bytes<const SIZE: usize> {
    bytes: ArrayVec<u8, SIZE>,
}

impl<const SIZE: usize> Model for Bytes<SIZE> {
    ghost use Rattle.std.specs.Prelude.{List, ℕ, ◌≤◌, length};

    ghost Value = { List ℕ };

    ghost view = { λ packet. packet.bytes.items };

    ghost invariant = { λ packet. length packet.bytes.items ≤ SIZE };

    ghost inverse = { λ bytes. record { bytes = record { items = bytes } } };
}

impl<const SIZE: usize> Bytes<SIZE> {
    /// No bytes.
    pub fn new() -> Self
        ensures { result ≡ [] }
    {
        Bytes {
            bytes: ArrayVec::new(),
        }
    }

    /// These bytes, of which there are at most `SIZE`.
    pub fn from_slice(bytes: &[u8]) -> Self
        requires { length bytes.now ≤ SIZE }
        ensures { result ≡ bytes.now }
    {
        let mut items = ArrayVec::new();
        let _ = items.try_extend_from_slice(bytes);
        Bytes { bytes: items }
    }

    /// The bytes.
    pub fn as_slice(&self) -> &[u8]
        ensures value { result.now ≡ self.now }
        ensures fits { length result.now ≤ SIZE }
    {
        self.bytes.as_slice()
    }

    /// Appends one byte. There is room for it.
    pub fn push(&mut self, byte: u8)
        requires { length self.old < SIZE }
        ensures { self.new ≡ self.old ++ byte ∷ [] }
    {
        self.bytes.push(byte);
    }

    /// Appends these bytes. There is room for them.
    pub fn append(&mut self, bytes: &[u8])
        requires { length self.old + length bytes.now ≤ SIZE }
        ensures { self.new ≡ self.old ++ bytes.now }
    {
        let _ = self.bytes.try_extend_from_slice(bytes);
    }

    /// The same bytes again. It takes no memory.
    pub fn duplicate(&self) -> Self
        ensures { result ≡ self.now }
    {
        Bytes::from_slice(self.as_slice())
    }
}

impl<const SIZE: usize> Clone for Bytes<SIZE> {
    ghost is_clone = { λ bytes copy. copy ≡ bytes };

    ghost is_infallible = { λ _. ⊤ };

    fn clone(&self) -> Result<Self, AllocError> {
        Ok(self.duplicate())
    }
}
