//! The buttons of a mouse, by their numbers from 1 to 5, and those that a latch let through and that weren't released
//! since.
ghost use Rattle.std.specs.Prelude.{◌≡◌, ◌+◌, ◌-◌, ◌≤◌, ◌&&◌, not, IsTrue};
ghost use Rattle.psd_base.specs.KeySet.{has_key, with_key, without_key};
ghost use Rattle.input_latch.specs.Buttons.{is_down, no_buttons, number_of_buttons};

use std::marker::Model;

/// How many buttons are passed on.
pub const BUTTONS: u8 = 5;

/// Whether the button is down: its bit, from bit 0 on for button 1.
pub fn is_down(buttons: u8, button: u8) -> bool
    requires { (1 ≤ button) × (button ≤ BUTTONS) }
    ensures { result ≡ is_down buttons button }
{
    (buttons >> (button - 1)) & 1 == 1
}

/// Whether the button is down in the first set alone.
pub fn is_only_in(buttons: u8, others: u8, button: u8) -> bool
    requires { (1 ≤ button) × (button ≤ BUTTONS) }
    ensures { result ≡ (is_down buttons button && not (is_down others button)) }
{
    is_down(buttons, button) && !is_down(others, button)
}

/// A set of buttons that knows how many are in it.
#[derive(Drop)]
pub struct HeldButtons {
    /// The flag of button b is that at b - 1.
    down: [bool; BUTTONS as usize],
    count: u8,
}

impl Model for HeldButtons {
    ghost use Rattle.std.specs.Prelude.{Bool, List};
    ghost use Rattle.input_latch.specs.HeldButtons.{AreCounted};

    ghost Value = { List Bool };

    ghost view = { λ held. held.down };

    ghost invariant = { λ held. AreCounted held.down held.count };
}

impl HeldButtons {
    /// No button is held.
    pub fn new() -> HeldButtons
        ensures { result ≡ no_buttons }
    {
        HeldButtons {
            down: [false; BUTTONS as usize],
            count: 0,
        }
    }

    /// Whether this button is held.
    pub fn has(&self, button: u8) -> bool
        requires { (1 ≤ button) × (button ≤ BUTTONS) }
        ensures { result ≡ has_key self.now (button - 1) }
    {
        self.down[button as usize - 1]
    }

    /// How many buttons are held.
    pub fn len(&self) -> usize
        ensures { result ≡ number_of_buttons self.now }
    {
        self.count as usize
    }

    /// Holds a button.
    pub fn add(&mut self, button: u8)
        requires { (1 ≤ button) × (button ≤ BUTTONS) }
        ensures buttons { self.new ≡ with_key self.old (button - 1) }
        ensures number { number_of_buttons self.new ≤ number_of_buttons self.old + 1 }
    {
        if self.down[button as usize - 1] {
            return;
        }
        self.down[button as usize - 1] = true;
        self.count += 1;
    }

    /// Lets go of a button that is held.
    pub fn remove(&mut self, button: u8)
        requires button { (1 ≤ button) × (button ≤ BUTTONS) }
        requires held { IsTrue (has_key self.old (button - 1)) }
        ensures buttons { self.new ≡ without_key self.old (button - 1) }
        ensures number { number_of_buttons self.new + 1 ≡ number_of_buttons self.old }
    {
        self.down[button as usize - 1] = false;
        self.count -= 1;
    }
}
