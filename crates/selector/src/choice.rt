//! Which port is selected, and what a clock event makes of it: by what it asks for first, and then by what the console
//! shows.
ghost use Rattle.std.specs.Prelude.{◌≡◌, Bool, IsTrue};
ghost use Rattle.selector.specs.Choice.{move_of};
ghost use Rattle.selector.specs.ChoiceStep.{after_ask, after_look};

use crate::selector::Move;
use psd_base::port::PortId;

/// Which port is selected, or waits to be.
#[derive(Clone, Copy, Debug)]
pub enum Choice {
    /// No port was asked for.
    Nobody,
    /// The port waits for the console to show nothing pressed.
    Target(PortId),
    /// The port is selected.
    Selected(PortId),
}

/// Takes a clock event that asks for this port, if for one, and says whether the console shows nothing pressed.
/// Gives what it changes.
pub fn take_look(choice: &mut Choice, ask: Option<PortId>, all_up: bool) -> Move
    ensures choice { choice.new ≡ after_look all_up (after_ask ask choice.old) }
    ensures change { result ≡ move_of choice.old choice.new }
{
    if is_idle(choice, &ask) {
        return Move::Stay;
    }
    let after = after_look(after_ask(*choice, ask), all_up);
    let change = move_between(choice, &after);
    *choice = after;
    change
}

/// Whether nothing is asked for and no port waits: then no look changes the choice.
fn is_idle(choice: &Choice, ask: &Option<PortId>) -> bool
    ensures { IsTrue result → (all_up : Bool) → after_look all_up (after_ask ask.now choice.now)
        ≡ choice.now }
{
    match ask {
        Some(_) => false,
        None => match choice {
            Choice::Nobody => true,
            Choice::Target(_) => false,
            Choice::Selected(_) => true,
        },
    }
}

/// The choice after an ask for this port, if one is asked for.
fn after_ask(choice: Choice, ask: Option<PortId>) -> Choice
    ensures { result ≡ after_ask ask choice }
{
    match ask {
        None => choice,
        Some(port) => match choice {
            Choice::Nobody => Choice::Target(port),
            Choice::Target(_) => Choice::Target(port),
            Choice::Selected(selected) => {
                if selected == port {
                    Choice::Selected(selected)
                } else {
                    Choice::Target(port)
                }
            }
        },
    }
}

/// The choice once the console was seen, with nothing pressed or with something.
fn after_look(choice: Choice, all_up: bool) -> Choice
    ensures { result ≡ after_look all_up choice }
{
    match choice {
        Choice::Nobody => Choice::Nobody,
        Choice::Target(port) => {
            if all_up {
                Choice::Selected(port)
            } else {
                Choice::Target(port)
            }
        }
        Choice::Selected(port) => Choice::Selected(port),
    }
}

/// What changes from one choice to the next.
fn move_between(before: &Choice, after: &Choice) -> Move
    ensures { result ≡ move_of before.now after.now }
{
    match after {
        Choice::Nobody => Move::Stay,
        Choice::Target(port) => match before {
            Choice::Nobody => Move::Stay,
            Choice::Target(_) => Move::Stay,
            Choice::Selected(left) => Move::Leave(*left, *port),
        },
        Choice::Selected(port) => match before {
            Choice::Nobody => Move::Enter(*port),
            Choice::Target(_) => Move::Enter(*port),
            Choice::Selected(left) => {
                if left == port {
                    Move::Stay
                } else {
                    Move::LeaveEnter(*left, *port)
                }
            }
        },
    }
}
