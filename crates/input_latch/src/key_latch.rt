//! The latch of the keyboard.
ghost use Rattle.std.specs.Prelude.{◌≡◌, ◌+◌, ◌-◌, ◌<◌, ◌≤◌, ◌^◌, List, [], ◌∷◌, map, length, IfOk, IfSome, IsTrue};
ghost use Rattle.psd_base.specs.KeySet.{is_passed_on};
ghost use Rattle.input_latch.specs.KeyClass.{keys_of};
ghost use Rattle.input_latch.specs.KeyHistory.{KeyEntry, Shown, Took, Flushed, Cleared, next_change, counts_of, can_press};

use crate::held_keys::{HeldKeys, is_ordinary};
use crate::key_class::KeyClass;
use crate::offered::{Offered, PLACES};
use crate::places::append;
use circular_buffer::HeapCircularBuffer;
use psd_base::KeySet;
use std::alloc::{AllocError, Global};
use std::marker::Model;

/// The most ordinary keys that are held at once, as many as a boot report shows (HID 1.11, appendix B).
pub const KEYS_MAX: u8 = 6;

/// What happened to one key, by its usage (HID Usage Tables, page 7).
#[derive(Clone, Copy, Debug, PartialEq, Eq)]
pub enum KeyChange {
    /// The key went down.
    Press(u8),
    /// The key went up.
    Release(u8),
}

/// The key changes that the selected computer hasn't read yet, and the keys that it sees pressed once it has.
#[derive(Drop)]
pub struct KeyLatch {
    waiting: HeapCircularBuffer<KeyChange>,
    held: HeldKeys,
    last: KeySet,
}

impl Model for KeyLatch {
    ghost use Rattle.input_latch.specs.KeyLatchStands.{KeyLatchValue};
    ghost use Rattle.input_latch.specs.KeyLatch.{key_latch_of, IsKeyLatch};

    ghost Value = { KeyLatchValue };

    ghost view = { key_latch_of };

    ghost invariant = { IsKeyLatch };
}

impl KeyLatch {
    ghost use Rattle.input_latch.specs.KeyLatchStands.{KeyLatchStands};
    ghost use Rattle.input_latch.specs.PassedKeys.{usage_of};
    ghost use Rattle.input_latch.specs.KeySteps.{key_state, step_of, steps_of};
    ghost use Rattle.input_latch.specs.declared.key_class.KeyClass.TheVariants.{Ordinary, Modifier};
    ghost use Rattle.input_latch.specs.declared.key_latch.KeyChange.TheVariants.{Press, Release};

    /// Nothing is undelivered or held. This alone takes memory.
    pub fn new(alloc: Global) -> Result<KeyLatch, AllocError>
        ensures { IfOk result (λ latch. KeyLatchStands latch []) }
    {
        let waiting = HeapCircularBuffer::with_capacity(alloc, PLACES)?;
        Ok(KeyLatch {
            waiting,
            held: HeldKeys::new(),
            last: KeySet::new(),
        })
    }

    /// Is shown the keys that are down. Their changes against the set that was shown before are offered: releases of
    /// ordinary keys, releases of modifiers, presses of modifiers, presses of ordinary keys, each ascending.
    ///
    /// A release of a held key is always taken, one of another key is nothing. A press is refused exactly where fewer
    /// than two of the 64 places are free, or where the key is ordinary and six ordinary keys are held; it isn't tried
    /// again while the key stays down.
    pub fn snapshot(&mut self, keys: &KeySet) -> Offered
        ensures stands { (past : List KeyEntry) → KeyLatchStands self.old past
            → KeyLatchStands self.new (Shown keys.now ∷ past) }
        ensures counts { (past : List KeyEntry) → KeyLatchStands self.old past
            → result ≡ counts_of keys.now past }
    {
        let mut offered = Offered::NOTHING;
        if *keys == self.last {
            return offered;
        }
        let gone = self.last.without(keys);
        let come = keys.without(&self.last);
        self.release_all(&gone, KeyClass::Ordinary, &mut offered);
        self.release_all(&gone, KeyClass::Modifier, &mut offered);
        self.press_all(&come, KeyClass::Modifier, &mut offered);
        self.press_all(&come, KeyClass::Ordinary, &mut offered);
        self.last = *keys;
        offered
    }

    /// Gives the oldest undelivered change. None exactly where there is none.
    pub fn take(&mut self) -> Option<KeyChange>
        ensures stands { (past : List KeyEntry) → KeyLatchStands self.old past
            → KeyLatchStands self.new (Took result ∷ past) }
        ensures answer { (past : List KeyEntry) → KeyLatchStands self.old past → result ≡ next_change past }

        // Only keys that are passed on come out of the latch.
        ensures key { IfSome result (λ change. IsTrue (is_passed_on (usage_of change))) }
    {
        self.waiting.pop_front()
    }

    /// Forgets the undelivered changes and the held keys, and keeps the set that was shown last.
    pub fn flush(&mut self)
        ensures { (past : List KeyEntry) → KeyLatchStands self.old past
            → KeyLatchStands self.new (Flushed ∷ past) }
    {
        self.waiting.clear();
        self.held = HeldKeys::new();
    }

    /// Forgets everything, as if no key had ever been down.
    pub fn clear(&mut self)
        ensures { (past : List KeyEntry) → KeyLatchStands self.old past
            → KeyLatchStands self.new (Cleared ∷ past) }
    {
        self.flush();
        self.last = KeySet::new();
    }

    /// Offers the releases of the keys of this class.
    fn release_all(&mut self, keys: &KeySet, class: KeyClass, offered: &mut Offered)
        requires { offered.old.taken + offered.old.refused < 2 ^ 10 }
        ensures step { key_state self.new offered.new
            ≡ steps_of (key_state self.old offered.old) (map Release (keys_of class keys.now)) }
        ensures few { offered.new.taken + offered.new.refused
            ≤ offered.old.taken + offered.old.refused + 2 ^ 8 }
    {
        let mut next = class.first();
        let last = class.last();
        while let Some(usage) = keys.least_between(next, last) {
            self.release(usage, offered);
            next = usage + 1;
        }
    }

    /// Offers the presses of the keys of this class.
    fn press_all(&mut self, keys: &KeySet, class: KeyClass, offered: &mut Offered)
        requires { offered.old.taken + offered.old.refused < 2 ^ 10 }
        ensures step { key_state self.new offered.new
            ≡ steps_of (key_state self.old offered.old) (map Press (keys_of class keys.now)) }
        ensures few { offered.new.taken + offered.new.refused
            ≤ offered.old.taken + offered.old.refused + 2 ^ 8 }
    {
        let mut next = class.first();
        let last = class.last();
        while let Some(usage) = keys.least_between(next, last) {
            self.press(usage, offered);
            next = usage + 1;
        }
    }

    /// Offers the release of one key.
    fn release(&mut self, usage: u8, offered: &mut Offered)
        requires passed_on { IsTrue (is_passed_on usage) }
        requires room { offered.old.taken + offered.old.refused + 1 < 2 ^ 16 }
        ensures step { key_state self.new offered.new
            ≡ step_of (key_state self.old offered.old) (Release usage) }
        ensures one { offered.new.taken + offered.new.refused ≤ offered.old.taken + offered.old.refused + 1 }
    {
        if !self.held.has(usage) {
            return;
        }
        self.held.remove(usage);
        append(&mut self.waiting, KeyChange::Release(usage));
        offered.take();
    }

    /// Offers the press of one key.
    fn press(&mut self, usage: u8, offered: &mut Offered)
        requires passed_on { IsTrue (is_passed_on usage) }
        requires room { offered.old.taken + offered.old.refused + 1 < 2 ^ 16 }
        ensures step { key_state self.new offered.new
            ≡ step_of (key_state self.old offered.old) (Press usage) }
        ensures one { offered.new.taken + offered.new.refused ≤ offered.old.taken + offered.old.refused + 1 }
    {
        if !self.can_press(usage) {
            offered.refuse();
            return;
        }
        self.held.add(usage);
        append(&mut self.waiting, KeyChange::Press(usage));
        offered.take();
    }

    /// Whether the press of this key has a place, and its release too.
    fn can_press(&self, usage: u8) -> bool
        ensures { result ≡ can_press (length self.now.waiting) self.now.holds usage }
    {
        self.waiting.len() + self.held.len() + 2 <= PLACES
            && (!is_ordinary(usage) || self.held.ordinary() < KEYS_MAX)
    }
}
