//! The buttons that a report shows as down.
ghost use Rattle.std.specs.Prelude.{◌≡◌, ◌+◌, ◌-◌, ◌<◌, ◌≤◌, if◌then◌else◌};
ghost use Rattle.psd_base.specs.KeySet.{has_key, with_key, without_key, has_no_key};
ghost use Rattle.input_latch.specs.Buttons.{no_buttons};
ghost use Rattle.emulated_mouse.specs.Report.{button_bits};

use input_latch::BUTTONS;
use std::marker::Model;

/// A set of buttons, by their numbers from 1 to 5.
#[derive(Drop)]
pub struct Buttons {
    /// The flag of button b is that at b - 1.
    down: [bool; BUTTONS as usize],
}

impl Model for Buttons {
    ghost use Rattle.std.specs.Prelude.{◌≡◌, Bool, List, length};

    ghost Value = { List Bool };

    ghost view = { λ buttons. buttons.down };

    ghost invariant = { λ buttons. length buttons.down ≡ 5 };

    ghost inverse = { λ flags. record { down = flags } };
}

impl Buttons {
    /// No button is down.
    #[tactic(auto, unfolding(input_latch::specs::Buttons::no_buttons))]
    pub fn none() -> Buttons
        ensures { result ≡ no_buttons }
    {
        Buttons {
            down: [false; BUTTONS as usize],
        }
    }

    /// Whether no button is down.
    pub fn is_none(&self) -> bool
        ensures { result ≡ has_no_key self.now }
    {
        let [first, second, third, fourth, fifth] = self.down;
        !first && !second && !third && !fourth && !fifth
    }

    /// The button goes down. Beyond the fifth there is none.
    pub fn press(&mut self, button: u8)
        ensures { self.new ≡ with_key self.old (button - 1) }
    {
        let place = place_of(button);
        if place < BUTTONS as usize {
            self.down[place] = true;
        }
    }

    /// The button goes up.
    pub fn release(&mut self, button: u8)
        ensures { self.new ≡ without_key self.old (button - 1) }
    {
        let place = place_of(button);
        if place < BUTTONS as usize {
            self.down[place] = false;
        }
    }

    /// A bit for each button, that of button 1 first.
    pub fn bits(&self) -> u8
        ensures { result ≡ button_bits self.now }
    {
        self.bit(0, 1) + self.bit(1, 2) + self.bit(2, 4) + self.bit(3, 8) + self.bit(4, 16)
    }

    /// The bit of the button at a place, if it is down.
    fn bit(&self, place: usize, bit: u8) -> u8
        requires { place < 5 }
        ensures value { result ≡ (if has_key self.now place then bit else 0) }
        ensures bounded { result ≤ bit }
    {
        if self.down[place] { bit } else { 0 }
    }
}

/// The place of a button's flag.
fn place_of(button: u8) -> usize
    ensures { result ≡ button - 1 }
{
    button.saturating_sub(1) as usize
}
