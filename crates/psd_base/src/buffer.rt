//! The bytes of a transfer, in a place that is filled again and again.
ghost use Rattle.std.specs.Prelude.{◌≡◌, ◌+◌, ◌≤◌, [], ◌++◌, length};

use crate::packet::BLOCK_SIZE;
use crate::place::write_at;
use std::marker::Model;

/// At most `BLOCK_SIZE` bytes, which lie in the value itself. Contracts see the list of bytes. It costs nothing to empty
/// it, so what is kept from event to event has one, and not a `Block`.
#[derive(Debug, Drop)]
pub struct Buffer {
    bytes: [u8; BLOCK_SIZE],
    len: usize,
}

impl Model for Buffer {
    ghost use Rattle.std.specs.Prelude.{◌≡◌, ℕ, ◌≤◌, List, length, take};
    ghost use Rattle.psd_base.specs.declared.packet.TheConstants.{BLOCK_SIZE};

    ghost Value = { List ℕ };

    ghost view = { λ buffer. take buffer.len buffer.bytes };

    ghost invariant = { λ buffer. record {
      within : buffer.len ≤ BLOCK_SIZE;
      size : length buffer.bytes ≡ BLOCK_SIZE;
    } };
}

impl Buffer {
    /// No bytes.
    pub fn new() -> Buffer
        ensures { result ≡ [] }
    {
        Buffer {
            bytes: [0; BLOCK_SIZE],
            len: 0,
        }
    }

    /// The bytes.
    #[inline(always)]
    pub fn as_slice(&self) -> &[u8]
        ensures value { result.now ≡ self.now }
        ensures fits { length result.now ≤ BLOCK_SIZE }
    {
        &self.bytes[..self.len]
    }

    /// How many bytes it has.
    #[inline(always)]
    pub fn len(&self) -> usize
        ensures value { result ≡ length self.now }
        ensures fits { result ≤ BLOCK_SIZE }
    {
        self.len
    }

    /// Drops every byte.
    #[inline(always)]
    pub fn clear(&mut self)
        ensures { self.new ≡ [] }
    {
        self.len = 0;
    }

    /// Appends these bytes. There is room for them.
    #[inline(always)]
    pub fn append(&mut self, bytes: &[u8])
        requires { length self.old + length bytes.now ≤ BLOCK_SIZE }
        ensures { self.new ≡ self.old ++ bytes.now }
    {
        write_at(&mut self.bytes, self.len, bytes);
        self.len += bytes.len();
    }

    /// Takes these bytes in the place of those that it has. There is room for them.
    #[inline(always)]
    pub fn replace(&mut self, bytes: &[u8])
        requires { length bytes.now ≤ BLOCK_SIZE }
        ensures { self.new ≡ bytes.now }
    {
        self.clear();
        self.append(bytes);
    }
}
