//! Which port is selected, by the buttons of the panel and the clock.
ghost use Rattle.std.specs.Prelude.{◌≡◌, ◌↔◌, List, [], ◌∷◌};
ghost use Rattle.selector.specs.Moments.{Moment, Moved, Ticked};
ghost use Rattle.selector.specs.Panel.{are_buttons_up};
ghost use Rattle.selector.specs.Choice.{ask_of, choice_after, selected_in, move_of};

use crate::buttons::{are_up, hold, pair_of, take};
use crate::choice::{Choice, take_look};
use psd_base::console::Panel;
use psd_base::event::Tick;
use psd_base::port::{MAX_PORTS, PortId};
use std::marker::Model;

/// For how many ticks (milliseconds) the guard button and a port's button are held together to ask for the port.
pub const HOLD: Tick = 100;

/// What a clock event changes in the selection.
#[derive(Clone, Copy, Debug, PartialEq, Eq)]
pub enum Move {
    /// The selected port stays selected, or none stays so.
    Stay,
    /// The first port is left, and the second one waits for the console to show nothing pressed.
    Leave(PortId, PortId),
    /// The port is selected.
    Enter(PortId),
    /// The first port is left and the second one selected.
    LeaveEnter(PortId, PortId),
}

/// The selection, and the panel from which it is made. Nothing but the panel and the clock moves it.
#[derive(Debug, Drop)]
pub struct Selector {
    guard: bool,
    buttons: [bool; MAX_PORTS as usize],
    /// Whether no button is down.
    buttons_up: bool,
    pair: Option<PortId>,
    /// The tick of the panel event since which there is this pair, or none.
    held_since: Tick,
    choice: Choice,
}

impl Model for Selector {
    ghost use Rattle.std.specs.Prelude.{◌≡◌, length};
    ghost use Rattle.psd_base.specs.declared.port.TheConstants.{MAX_PORTS};
    ghost use Rattle.selector.specs.SelectorStands.{SelectorValue};
    ghost use Rattle.selector.specs.Buttons.{IsPanel};

    ghost Value = { SelectorValue };

    ghost view = { λ selector. record {
      guard = selector.guard;
      buttons = selector.buttons;
      pair = selector.pair;
      held_since = selector.held_since;
      choice = selector.choice;
    } };

    ghost invariant = { λ selector. IsPanel selector.guard selector.buttons selector.buttons_up };
}

impl Selector {
    ghost use Rattle.selector.specs.SelectorStands.{SelectorStands};

    /// All buttons are up and no port is selected.
    pub fn new() -> Selector
        ensures { SelectorStands result [] }
    {
        Selector {
            guard: false,
            buttons: [false; MAX_PORTS as usize],
            buttons_up: true,
            pair: None,
            held_since: 0,
            choice: Choice::Nobody,
        }
    }

    /// Takes a move at the panel.
    pub fn panel(&mut self, tick: Tick, panel: &Panel)
        ensures { (past : List Moment) → SelectorStands self.old past
            → SelectorStands self.new (Moved tick panel.now ∷ past) }
    {
        take(&mut self.guard, &mut self.buttons, panel);
        self.buttons_up = are_up(self.guard, &self.buttons);
        let pair = pair_of(self.guard, &self.buttons);
        hold(&mut self.pair, &mut self.held_since, pair, tick);
    }

    /// Takes a clock event, with whether the console shows nothing pressed. Gives what it changes.
    pub fn clock(&mut self, tick: Tick, all_up: bool) -> Move
        ensures stands { (past : List Moment) → SelectorStands self.old past
            → SelectorStands self.new (Ticked tick all_up ∷ past) }
        ensures answer { (past : List Moment) → SelectorStands self.old past
            → result ≡ move_of (choice_after past) (choice_after (Ticked tick all_up ∷ past)) }
        ensures stay { (result ≡ Move.Stay) ↔ (selected_in self.new.choice ≡ selected_in self.old.choice) }
    {
        let ask = ask_of(self.pair, self.held_since, tick);
        take_look(&mut self.choice, ask, all_up)
    }

    /// Whether no button is down.
    pub fn buttons_up(&self) -> bool
        ensures { (past : List Moment) → SelectorStands self.now past → result ≡ are_buttons_up past }
    {
        self.buttons_up
    }

    /// The selected port.
    pub fn selected(&self) -> Option<PortId>
        ensures { (past : List Moment) → SelectorStands self.now past
            → result ≡ selected_in (choice_after past) }
    {
        match self.choice {
            Choice::Nobody => None,
            Choice::Target(_) => None,
            Choice::Selected(port) => Some(port),
        }
    }
}

/// What a pair that stands since `held_since` asks for at `tick`.
fn ask_of(pair: Option<PortId>, held_since: Tick, tick: Tick) -> Option<PortId>
    ensures { result ≡ ask_of pair held_since tick }
{
    match pair {
        None => None,
        Some(port) => {
            if held_since <= tick && tick - held_since >= HOLD {
                Some(port)
            } else {
                None
            }
        }
    }
}
