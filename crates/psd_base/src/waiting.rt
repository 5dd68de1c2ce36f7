//! The bytes of an outlet that wait to be written out.
ghost use Rattle.std.specs.Prelude.{◌≡◌, ◌+◌, ◌≤◌, [], ◌++◌, length, if◌then◌else◌, ◌↔◌, IsTrue, IfOk};

use crate::place::write_at;
use crate::render::{RENDERED_MAX, Render};
use std::alloc::{AllocError, Global};
use std::marker::Model;

/// Bytes that wait, in memory that was taken once. Contracts see the bytes, and for how many there is room.
#[derive(Debug, Drop)]
pub struct Waiting {
    bytes: Vec<u8>,
    held: usize,
}

impl Model for Waiting {
    ghost use Rattle.std.specs.Prelude.{◌≤◌, length, take};
    ghost use Rattle.psd_base.specs.Store.{Stored};

    ghost Value = { Stored };

    ghost view = { λ waiting. record {
      bytes = take waiting.held waiting.bytes.items;
      room = length waiting.bytes.items;
    } };

    ghost invariant = { λ waiting. waiting.held ≤ length waiting.bytes.items };
}

impl Waiting {
    /// No bytes, and room for none. It takes no memory.
    pub fn without_room(alloc: Global) -> Waiting
        ensures { result ≡ record { bytes = []; room = 0 } }
    {
        Waiting {
            bytes: Vec::new(alloc),
            held: 0,
        }
    }

    /// No bytes, and room for so many.
    pub fn with_room(alloc: Global, room: usize) -> Result<Waiting, AllocError>
        ensures { IfOk result (λ waiting. waiting ≡ record { bytes = []; room = room }) }
    {
        Ok(Waiting {
            bytes: vec![in alloc; 0; room]?,
            held: 0,
        })
    }

    /// The bytes that wait.
    pub fn as_slice(&self) -> &[u8]
        ensures { result.now ≡ self.now.bytes }
    {
        &self.bytes[..self.held]
    }

    /// Lets these bytes wait too, and answers whether there was room for them.
    #[inline(always)]
    pub fn hold(&mut self, bytes: &[u8]) -> bool
        ensures fits { length self.old.bytes + length bytes.now ≤ self.old.room → IsTrue result }
        ensures waiting { self.new.bytes ≡ (if result then self.old.bytes ++ bytes.now else self.old.bytes) }
        ensures room { self.new.room ≡ self.old.room }
    {
        if bytes.len() > self.bytes.len() - self.held {
            return false;
        }
        write_at(&mut self.bytes, self.held, bytes);
        self.held += bytes.len();
        true
    }

    /// Whether there is room for what is rendered at once.
    #[inline(always)]
    pub fn can_render(&self) -> bool
        ensures { IsTrue result ↔ (length self.now.bytes + RENDERED_MAX ≤ self.now.room) }
    {
        RENDERED_MAX <= self.bytes.len() - self.held
    }

    /// Lets what `item` renders wait too, and answers how many bytes that are. There is room for the most.
    #[inline(always)]
    pub fn render<T: Render>(&mut self, item: &T) -> usize
        requires { length self.old.bytes + RENDERED_MAX ≤ self.old.room }
        ensures waiting { self.new.bytes ≡ self.old.bytes ++ T.rendered item.now }
        ensures count { result ≡ length (T.rendered item.now) }
        ensures most { result ≤ RENDERED_MAX }
        ensures room { self.new.room ≡ self.old.room }
    {
        let end = item.render(&mut self.bytes, self.held);
        let count = end - self.held;
        self.held = end;
        count
    }

    /// Drops every byte.
    pub fn clear(&mut self)
        ensures { self.new ≡ record { bytes = []; room = self.old.room } }
    {
        self.held = 0;
    }
}
