//! The keys that a latch let through and that weren't released since.
ghost use Rattle.std.specs.Prelude.{◌≡◌, ◌+◌, ◌≤◌, IsTrue};
ghost use Rattle.psd_base.specs.KeySet.{no_keys, has_key, with_key, without_key, is_ordinary, is_passed_on};
ghost use Rattle.input_latch.specs.KeyClass.{number_of_keys, number_in};
ghost use Rattle.input_latch.specs.declared.key_class.KeyClass.TheVariants.{Ordinary};

use psd_base::KeySet;
use std::marker::Model;

/// A set of keys that knows how many are in it.
#[derive(Drop)]
pub struct HeldKeys {
    keys: KeySet,
    ordinary: u8,
    modifiers: u8,
}

impl Model for HeldKeys {
    ghost use Rattle.std.specs.Prelude.{Bool, List};
    ghost use Rattle.input_latch.specs.HeldKeys.{AreCounted};

    ghost Value = { List Bool };

    ghost view = { λ held. held.keys };

    ghost invariant = { λ held. AreCounted held.keys held.ordinary held.modifiers };
}

impl HeldKeys {
    /// No key is held.
    pub fn new() -> HeldKeys
        ensures { result ≡ no_keys }
    {
        HeldKeys {
            keys: KeySet::new(),
            ordinary: 0,
            modifiers: 0,
        }
    }

    /// Whether this key is held.
    pub fn has(&self, usage: u8) -> bool
        ensures { result ≡ has_key self.now usage }
    {
        self.keys.has(usage)
    }

    /// How many keys are held.
    pub fn len(&self) -> usize
        ensures { result ≡ number_of_keys self.now }
    {
        self.ordinary as usize + self.modifiers as usize
    }

    /// How many ordinary keys are held.
    pub fn ordinary(&self) -> u8
        ensures { result ≡ number_in Ordinary self.now }
    {
        self.ordinary
    }

    /// Holds a key that isn't held.
    pub fn add(&mut self, usage: u8)
        requires { IsTrue (is_passed_on usage) }
        ensures keys { self.new ≡ with_key self.old usage }
        ensures number { number_of_keys self.new ≤ number_of_keys self.old + 1 }
    {
        if self.keys.has(usage) {
            return;
        }
        self.keys.add(usage);
        if is_ordinary(usage) {
            self.ordinary += 1;
        } else {
            self.modifiers += 1;
        }
    }

    /// Lets go of a key that is held.
    pub fn remove(&mut self, usage: u8)
        requires { IsTrue (has_key self.old usage) }
        ensures keys { self.new ≡ without_key self.old usage }
        ensures number { number_of_keys self.new + 1 ≡ number_of_keys self.old }
    {
        self.keys.remove(usage);
        if is_ordinary(usage) {
            self.ordinary -= 1;
        } else {
            self.modifiers -= 1;
        }
    }
}

/// Whether a usage is that of an ordinary key.
pub fn is_ordinary(usage: u8) -> bool
    ensures { result ≡ is_ordinary usage }
{
    0x04 <= usage && usage <= 0xa4
}
