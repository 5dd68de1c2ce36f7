//! The latch of the mouse.
ghost use Rattle.std.specs.Prelude.{◌≡◌, ◌+◌, ◌<◌, ◌≤◌, ◌≤ℤ◌, ◌^◌, negsuc, List, [], ◌∷◌, ◌++◌, map, length, IfOk};
ghost use Rattle.input_latch.specs.declared.buttons.TheConstants.{BUTTONS};
ghost use Rattle.input_latch.specs.Buttons.{only_in};
ghost use Rattle.input_latch.specs.PointerHistory.{PointerEntry, Sampled, Took, Flushed, Cleared, next_change, counts_of, motion_in, has_free};

use crate::buttons::{BUTTONS, HeldButtons, is_only_in};
use crate::motion::{Join, is_still, joined_with};
use crate::offered::{Offered, PLACES};
use crate::places::{append, replace_last};
use circular_buffer::HeapCircularBuffer;
use psd_base::Sample;
use std::alloc::{AllocError, Global};
use std::marker::Model;

/// What happened to a button, by its number from 1 to 5, or how far the mouse moved.
#[derive(Clone, Copy, Debug, PartialEq, Eq)]
pub enum PointerChange {
    /// The button went down.
    Press(u8),
    /// The button went up.
    Release(u8),
    /// The mouse moved, by counts from -2,147,483,647 to 2,147,483,647.
    Motion {
        /// Counts to the right.
        x: i32,
        /// Counts towards the user.
        y: i32,
        /// Steps of the wheel away from the user.
        wheel: i32,
    },
}

/// The button changes and motions that the selected computer hasn't read yet, and the buttons that it sees pressed
/// once it has.
#[derive(Drop)]
pub struct PointerLatch {
    waiting: HeapCircularBuffer<PointerChange>,
    held: HeldButtons,
    last: u8,
}

impl Model for PointerLatch {
    ghost use Rattle.input_latch.specs.PointerLatchStands.{PointerLatchValue};
    ghost use Rattle.input_latch.specs.PointerLatch.{pointer_latch_of, IsPointerLatch};

    ghost Value = { PointerLatchValue };

    ghost view = { pointer_latch_of };

    ghost invariant = { IsPointerLatch };
}

impl PointerLatch {
    ghost use Rattle.input_latch.specs.PointerLatchStands.{PointerLatchStands};
    ghost use Rattle.input_latch.specs.PointerSteps.{pointer_state, step_of, steps_of, apart_step};
    ghost use Rattle.input_latch.specs.declared.pointer_latch.PointerChange.TheVariants.{Press, Release, Motion};

    /// Nothing is undelivered or held. This alone takes memory.
    pub fn new(alloc: Global) -> Result<PointerLatch, AllocError>
        ensures { IfOk result (λ latch. PointerLatchStands latch []) }
    {
        let waiting = HeapCircularBuffer::with_capacity(alloc, PLACES)?;
        Ok(PointerLatch {
            waiting,
            held: HeldButtons::new(),
            last: 0,
        })
    }

    /// Is shown a sample: the buttons that are down, below 32, and a motion. The buttons' changes against those of the
    /// sample before are offered, releases ascending and then presses ascending, and then the motion if it isn't zero.
    ///
    /// A release of a held button is always taken, one of another button is nothing. A press is refused exactly where
    /// fewer than two of the 64 places are free; it isn't tried again while the button stays down. A motion is added to
    /// the last undelivered entry where that is a motion, and refused exactly where a sum would leave
    /// -2,147,483,647 to 2,147,483,647; else it is refused exactly where no place is free.
    pub fn sample(&mut self, sample: &Sample) -> Offered
        requires buttons { sample.now.buttons < 32 }
        requires x { negsuc 2147483646 ≤ℤ sample.now.x }
        requires y { negsuc 2147483646 ≤ℤ sample.now.y }
        requires wheel { negsuc 2147483646 ≤ℤ sample.now.wheel }
        ensures stands { (past : List PointerEntry) → PointerLatchStands self.old past
            → PointerLatchStands self.new (Sampled sample.now ∷ past) }
        ensures counts { (past : List PointerEntry) → PointerLatchStands self.old past
            → result ≡ counts_of sample.now past }
    {
        let mut offered = Offered::NOTHING;
        self.show_buttons(sample.buttons, &mut offered);
        self.show_motion(sample, &mut offered);
        self.last = sample.buttons;
        offered
    }

    /// Gives the oldest undelivered change. None exactly where there is none.
    pub fn take(&mut self) -> Option<PointerChange>
        ensures stands { (past : List PointerEntry) → PointerLatchStands self.old past
            → PointerLatchStands self.new (Took result ∷ past) }
        ensures answer { (past : List PointerEntry) → PointerLatchStands self.old past
            → result ≡ next_change past }
    {
        self.waiting.pop_front()
    }

    /// Forgets the undelivered changes and the held buttons, and keeps the buttons that were shown last.
    pub fn flush(&mut self)
        ensures { (past : List PointerEntry) → PointerLatchStands self.old past
            → PointerLatchStands self.new (Flushed ∷ past) }
    {
        self.waiting.clear();
        self.held = HeldButtons::new();
    }

    /// Forgets everything, as if no button had ever been down.
    pub fn clear(&mut self)
        ensures { (past : List PointerEntry) → PointerLatchStands self.old past
            → PointerLatchStands self.new (Cleared ∷ past) }
    {
        self.flush();
        self.last = 0;
    }

    /// Offers the changes of the buttons.
    fn show_buttons(&mut self, buttons: u8, offered: &mut Offered)
        requires { offered.old.taken + offered.old.refused < 2 ^ 10 }
        ensures step { pointer_state self.new offered.new ≡ steps_of (pointer_state self.old offered.old)
            (map Release (only_in self.old.last buttons) ++ map Press (only_in buttons self.old.last)) }
        ensures few { offered.new.taken + offered.new.refused
            ≤ offered.old.taken + offered.old.refused + 2 ^ 8 }
    {
        let last = self.last;
        if last == buttons {
            return;
        }
        self.release_all(last, buttons, offered);
        self.press_all(buttons, last, offered);
    }

    /// Offers the releases of the buttons that are in `last` alone.
    fn release_all(&mut self, last: u8, now: u8, offered: &mut Offered)
        requires { offered.old.taken + offered.old.refused < 2 ^ 10 }
        ensures step { pointer_state self.new offered.new
            ≡ steps_of (pointer_state self.old offered.old) (map Release (only_in last now)) }
        ensures few { offered.new.taken + offered.new.refused
            ≤ offered.old.taken + offered.old.refused + 2 ^ 4 }
    {
        for button in 1..BUTTONS + 1 {
            if is_only_in(last, now, button) {
                self.release(button, offered);
            }
        }
    }

    /// Offers the presses of the buttons that are in `now` alone.
    fn press_all(&mut self, now: u8, last: u8, offered: &mut Offered)
        requires { offered.old.taken + offered.old.refused < 2 ^ 11 }
        ensures step { pointer_state self.new offered.new
            ≡ steps_of (pointer_state self.old offered.old) (map Press (only_in now last)) }
        ensures few { offered.new.taken + offered.new.refused
            ≤ offered.old.taken + offered.old.refused + 2 ^ 4 }
    {
        for button in 1..BUTTONS + 1 {
            if is_only_in(now, last, button) {
                self.press(button, offered);
            }
        }
    }

    /// Offers the release of one button.
    fn release(&mut self, button: u8, offered: &mut Offered)
        requires button { (1 ≤ button) × (button ≤ BUTTONS) }
        requires room { offered.old.taken + offered.old.refused + 1 < 2 ^ 16 }
        ensures step { pointer_state self.new offered.new
            ≡ step_of (pointer_state self.old offered.old) (Release button) }
        ensures one { offered.new.taken + offered.new.refused ≤ offered.old.taken + offered.old.refused + 1 }
    {
        if !self.held.has(button) {
            return;
        }
        self.held.remove(button);
        append(&mut self.waiting, PointerChange::Release(button));
        offered.take();
    }

    /// Offers the press of one button.
    fn press(&mut self, button: u8, offered: &mut Offered)
        requires button { (1 ≤ button) × (button ≤ BUTTONS) }
        requires room { offered.old.taken + offered.old.refused + 1 < 2 ^ 16 }
        ensures step { pointer_state self.new offered.new
            ≡ step_of (pointer_state self.old offered.old) (Press button) }
        ensures one { offered.new.taken + offered.new.refused ≤ offered.old.taken + offered.old.refused + 1 }
    {
        if !self.has_free(2) {
            offered.refuse();
            return;
        }
        self.held.add(button);
        append(&mut self.waiting, PointerChange::Press(button));
        offered.take();
    }

    /// Offers the sample's motion, if it isn't zero.
    fn show_motion(&mut self, sample: &Sample, offered: &mut Offered)
        requires { offered.old.taken + offered.old.refused + 1 < 2 ^ 16 }
        ensures { pointer_state self.new offered.new
            ≡ steps_of (pointer_state self.old offered.old) (motion_in sample.now) }
    {
        if is_still(sample) {
            return;
        }
        self.offer_motion(sample, offered);
    }

    /// Offers the sample's motion.
    fn offer_motion(&mut self, sample: &Sample, offered: &mut Offered)
        requires { offered.old.taken + offered.old.refused + 1 < 2 ^ 16 }
        ensures { pointer_state self.new offered.new
            ≡ step_of (pointer_state self.old offered.old)
            (Motion sample.now.x sample.now.y sample.now.wheel) }
    {
        match joined_with(self.waiting.back().copied(), sample) {
            Join::Sum(x, y, wheel) => {
                replace_last(&mut self.waiting, PointerChange::Motion { x, y, wheel });
                offered.take();
            }
            Join::TooFar => offered.refuse(),
            Join::Apart => self.append_motion(sample, offered),
        }
    }

    /// Offers the sample's motion, which needs an entry of its own.
    fn append_motion(&mut self, sample: &Sample, offered: &mut Offered)
        requires { offered.old.taken + offered.old.refused + 1 < 2 ^ 16 }
        ensures { pointer_state self.new offered.new ≡ apart_step (pointer_state self.old offered.old)
            (Motion sample.now.x sample.now.y sample.now.wheel) }
    {
        if !self.has_free(1) {
            offered.refuse();
            return;
        }
        let Sample {
            buttons: _,
            x,
            y,
            wheel,
        } = *sample;
        append(&mut self.waiting, PointerChange::Motion { x, y, wheel });
        offered.take();
    }

    /// Whether so many places are free.
    fn has_free(&self, places: usize) -> bool
        requires { places < 2 ^ 4 }
        ensures { result ≡ has_free places (length self.now.waiting) self.now.holds }
    {
        self.waiting.len() + self.held.len() + places <= PLACES
    }
}
