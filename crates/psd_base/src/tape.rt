//! The bytes of an input in memory, which are read from front to back.
ghost use Rattle.std.specs.Prelude.{◌≡◌, min, length, take, drop, ◌++◌, IfOk};

use std::alloc::{AllocError, Global};
use std::marker::Model;

/// The bytes of an input. Contracts see the bytes that are left.
#[derive(Debug, Drop)]
pub struct Tape {
    bytes: Vec<u8>,
    position: usize,
}

impl Model for Tape {
    ghost use Rattle.std.specs.Prelude.{List, ℕ, ◌≤◌, drop, vec_len};

    ghost Value = { List ℕ };

    ghost view = { λ tape. drop tape.position tape.bytes.items };

    ghost invariant = { λ tape. tape.position ≤ vec_len tape.bytes };
}

impl Tape {
    /// A tape of these bytes, which it copies.
    pub fn new(alloc: Global, bytes: &[u8]) -> Result<Tape, AllocError>
        ensures { IfOk result (λ tape. tape ≡ bytes.now) }
    {
        Ok(Tape {
            bytes: Vec::from_slice(alloc, bytes)?,
            position: 0,
        })
    }

    /// Moves the next bytes to the front of `into`, at most `most`, and answers how many.
    pub fn read(&mut self, into: &mut [u8], most: usize) -> usize
        ensures count { result ≡ min most (min (length into.old) (length self.old)) }
        ensures moved { into.new ≡ take result self.old ++ drop result into.old }
        ensures left { self.new ≡ drop result self.old }
    {
        let rest = &self.bytes.as_slice()[self.position..];
        let count = most.min(into.len().min(rest.len()));
        into[..count].copy_from_slice(&rest[..count]);
        self.position += count;
        count
    }
}
