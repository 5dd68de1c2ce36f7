//! The act of a computer at its keyboard and mouse: it is answered by its port alone.
ghost use Rattle.std.specs.Prelude.{◌≡◌, ℕ, ◌+◌, ◌-◌, ◌<◌, ◌≤◌, ◌==◌, List, ◌∷◌, length, Option};
ghost use Rattle.psd_base.specs.declared.act.Side.TheVariants.{Km};
ghost use Rattle.port_model.specs.Concerns.{Item, item, Own};
ghost use Rattle.km_port.specs.ConsoleStands.{OwnedStands};
ghost use Rattle.port_model.specs.OnePort.{answer_to};
ghost use Rattle.switch_core.specs.SeatStands.{SeatStands, give_count};
ghost use Rattle.switch_core.specs.SlotStands.{AllStand, SlotStands};
ghost use Rattle.switch_core.specs.Views.{acted};
ghost use Rattle.switch_core.specs.Wired.{is_seated, IsSlot, IsWired, is_owner};

use crate::seat::Seat;
use crate::slot::Slot;
use km_port::{Console, Owned};
use psd_base::act::{Act, Answer};
use psd_base::event::Tick;
use psd_base::port::PortId;

/// Answers an act at a port's keyboard and mouse, in the place that the caller has for the answer.
pub(crate) fn answer_act(
    slots: &mut [Slot],
    seat: &mut Seat,
    tick: Tick,
    port: PortId,
    act: &Act,
    answer: &mut Answer,
)
    requires place { port ≤ length slots.old }
    requires wired { IsWired slots.old seat.old }
    ensures wired { IsWired slots.new seat.new }
    ensures gives { give_count seat.new ≡ give_count seat.old }
    ensures slots { (chosen : Option ℕ) (views : ℕ → List Item) → AllStand slots.old views
        → SeatStands seat.old chosen views → AllStand slots.new (acted tick port Km act.now views) }
    ensures seat { (chosen : Option ℕ) (views : ℕ → List Item) → AllStand slots.old views
        → SeatStands seat.old chosen views → SeatStands seat.new chosen (acted tick port Km act.now views) }
    ensures answer { (chosen : Option ℕ) (views : ℕ → List Item) → AllStand slots.old views
        → SeatStands seat.old chosen views → answer.new ≡ answer_to (views port) tick Km act.now }
{
    let place = port.number() as usize - 1;
    answer_km(&mut slots[place], seat, tick, port, act, answer);
}

/// Answers it with the console where the port has it.
fn answer_km(
    slot: &mut Slot,
    seat: &mut Seat,
    tick: Tick,
    port: PortId,
    act: &Act,
    answer: &mut Answer,
)
    requires { IsSlot (is_owner seat.old port) port slot.old }
    ensures slot { IsSlot (is_owner seat.new port) port slot.new }
    ensures owner { (number : ℕ) → is_owner seat.new number ≡ is_owner seat.old number }
    ensures seated { (count : ℕ) → is_seated count seat.new ≡ is_seated count seat.old }
    ensures gives { give_count seat.new ≡ give_count seat.old }
    ensures stands { (chosen : Option ℕ) (views : ℕ → List Item) → SlotStands slot.old (views port)
        → SeatStands seat.old chosen views → SlotStands slot.new (item tick (Own Km act.now) ∷ views port) }
    ensures seat { (chosen : Option ℕ) (views : ℕ → List Item) → SlotStands slot.old (views port)
        → SeatStands seat.old chosen views → SeatStands seat.new chosen (acted tick port Km act.now views) }
    ensures answer { (chosen : Option ℕ) (views : ℕ → List Item) → SlotStands slot.old (views port)
        → SeatStands seat.old chosen views → answer.new ≡ answer_to (views port) tick Km act.now }
{
    match seat {
        Seat::Vacant(_) => slot.answer_apart(tick, act, answer),
        Seat::Owned(console) => answer_beside(slot, console, tick, port, act, answer),
        Seat::Between => slot.answer_apart(tick, act, answer),
    }
}

/// Answers an act at a port's keyboard and mouse while a port, this one or another, has the console.
fn answer_beside(
    slot: &mut Slot,
    console: &mut Console<Owned>,
    tick: Tick,
    port: PortId,
    act: &Act,
    answer: &mut Answer,
)
    requires { IsSlot (console.old.state.port == port) port slot.old }
    ensures slot { IsSlot (console.old.state.port == port) port slot.new }
    ensures port { console.new.state.port ≡ console.old.state.port }
    ensures gives { console.new.gives ≡ console.old.gives }
    ensures stands { (views : ℕ → List Item) → SlotStands slot.old (views port)
        → OwnedStands console.old (views console.old.state.port)
        → SlotStands slot.new (item tick (Own Km act.now) ∷ views port) }
    ensures console { (views : ℕ → List Item) → SlotStands slot.old (views port)
        → OwnedStands console.old (views console.old.state.port)
        → OwnedStands console.new (acted tick port Km act.now views console.old.state.port) }
    ensures answer { (views : ℕ → List Item) → SlotStands slot.old (views port)
        → OwnedStands console.old (views console.old.state.port)
        → answer.new ≡ answer_to (views port) tick Km act.now }
{
    if console.port() == port {
        slot.answer_owned(tick, act, console, answer);
    } else {
        slot.answer_apart(tick, act, answer);
    }
}
