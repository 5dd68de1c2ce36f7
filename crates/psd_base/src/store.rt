//! The bytes that an outlet in memory was sent.
ghost use Rattle.std.specs.Prelude.{◌≡◌, min, length, take, [], IfOk};
ghost use Rattle.psd_base.specs.Store.{room_left, append_to};

use std::alloc::{AllocError, Global};
use std::marker::Model;

/// The bytes that an outlet was sent, with the room for more, which was taken when the store was made.
#[derive(Debug, Drop)]
pub struct Store {
    bytes: Vec<u8>,
    room: usize,
}

impl Model for Store {
    ghost use Rattle.std.specs.Prelude.{◌≤◌, vec_len, vec_capacity};
    ghost use Rattle.psd_base.specs.Store.{Stored};

    ghost Value = { Stored };

    ghost view = { λ store. record { bytes = store.bytes.items; room = store.room } };

    ghost invariant = { λ store. (vec_len store.bytes ≤ store.room)
        × (store.room ≤ vec_capacity store.bytes) };
}

impl Store {
    /// No bytes, and room for so many.
    pub fn new(alloc: Global, room: usize) -> Result<Store, AllocError>
        ensures { IfOk result (λ store. store ≡ record { bytes = []; room = room }) }
    {
        Ok(Store {
            bytes: Vec::with_capacity(alloc, room)?,
            room,
        })
    }

    /// The bytes that were sent.
    pub fn as_slice(&self) -> &[u8]
        ensures { result.now ≡ self.now.bytes }
    {
        self.bytes.as_slice()
    }

    /// Appends the front of these bytes, as many as there is room for and at most `most`, and answers how many. It
    /// takes no memory.
    pub fn keep(&mut self, bytes: &[u8], most: usize) -> usize
        ensures count { result ≡ min most (min (length bytes.now) (room_left self.old)) }
        ensures kept { self.new ≡ append_to self.old (take result bytes.now) }
    {
        let room = self.room - self.bytes.len();
        let count = most.min(bytes.len().min(room));
        let _ = self.bytes.extend_from_slice(&bytes[..count]);
        count
    }
}
