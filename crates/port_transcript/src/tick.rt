//! The digits of a tick.
ghost use Rattle.std.specs.Prelude.{◌≡◌, ◌+◌, ◌≤◌, length, take, ◌++◌};
ghost use Rattle.std.specs.Fmt.{decimal};

use itoa::Buffer;
use psd_base::Tick;
use psd_base::place::write_at;
use std::marker::Model;

/// The most bytes of a tick in decimal.
pub(crate) const TICK_SIZE: usize = 10;

/// The digits of a tick in decimal, and any bytes behind them. Contracts see the tick. A writer of many lines keeps them,
/// since ticks repeat.
#[derive(Drop)]
pub struct TickDigits {
    tick: Tick,
    digits: [u8; TICK_SIZE],
    len: usize,
}

impl Model for TickDigits {
    ghost use Rattle.std.specs.Prelude.{◌≡◌, ℕ, ◌≤◌, length, take};
    ghost use Rattle.std.specs.Fmt.{decimal};
    ghost use Rattle.port_transcript.specs.declared.tick.TheConstants.{TICK_SIZE};

    ghost Value = { ℕ };

    ghost view = { λ kept. kept.tick };

    ghost invariant = { λ kept. record {
      within : kept.len ≤ TICK_SIZE;
      size : length kept.digits ≡ TICK_SIZE;
      digits : take kept.len kept.digits ≡ decimal kept.tick;
    } };
}

impl TickDigits {
    /// The digits of this tick, in milliseconds.
    pub fn of(tick: Tick) -> TickDigits
        ensures { result ≡ tick }
    {
        let mut buffer = Buffer::new();
        let text = buffer.format(tick).as_bytes();
        let mut digits = [0; TICK_SIZE];
        write_at(&mut digits, 0, text);
        TickDigits {
            tick,
            digits,
            len: text.len(),
        }
    }

    /// Turns to this tick. Mostly the digits are there.
    #[inline(always)]
    pub fn turn_to(&mut self, tick: Tick)
        ensures { self.new ≡ tick }
    {
        if self.tick != tick {
            self.renew(tick);
        }
    }

    /// Takes the digits of this tick. It is a call of its own, since its room would be cleared at each line.
    #[inline(never)]
    fn renew(&mut self, tick: Tick)
        ensures { self.new ≡ tick }
    {
        *self = TickDigits::of(tick);
    }

    /// Writes the digits over the bytes from a place on, and answers the place behind them. There is room for the most.
    /// All bytes that are kept are written, since a copy of a fixed size costs least.
    #[inline(always)]
    pub(crate) fn put(&self, into: &mut [u8], at: usize) -> usize
        requires { at + TICK_SIZE ≤ length into.old }
        ensures items { take result into.new ≡ take at into.old ++ decimal self.now }
        ensures end { result ≤ at + TICK_SIZE }
        ensures len { length into.new ≡ length into.old }
    {
        // From a copy, which can't overlap: so no call asks whether they do.
        let digits = self.digits;
        write_at(into, at, &digits);
        at + self.len
    }
}
