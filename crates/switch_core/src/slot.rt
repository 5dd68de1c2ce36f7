//! A port in one of its states.
ghost use Rattle.std.specs.Prelude.{◌≡◌, ℕ, Bool, true, false, List, ◌∷◌};
ghost use Rattle.psd_base.specs.declared.act.Side.TheVariants.{Km, Ua};
ghost use Rattle.port_model.specs.Concerns.{Item, item, is_live, Own, Wakes, Darkens, Leaves};
ghost use Rattle.km_port.specs.ConsoleStands.{OwnedStands};
ghost use Rattle.port_model.specs.OnePort.{answer_to};

use km_port::{Console, Dark, Farewell, Live, Owned, Port};
use psd_base::act::{Act, Answer};
use psd_base::event::Tick;
use psd_base::port::PortId;
use std::mem;

/// A port in one of its states.
#[derive(Drop)]
pub enum Slot {
    Dark(Port<Dark>),
    Live(Port<Live>),
}

impl Slot {
    ghost use Rattle.switch_core.specs.SlotStands.{SlotStands};
    ghost use Rattle.switch_core.specs.Wired.{slot_number, IsSlot, IsTold};

    /// Answers an act at the keyboard and mouse of the port that has the console.
    #[inline(never)]
    pub fn answer_owned(
        &mut self,
        tick: Tick,
        act: &Act,
        console: &mut Console<Owned>,
        answer: &mut Answer,
    )
        requires { IsSlot true console.old.state.port self.old }
        ensures slot { IsSlot true console.old.state.port self.new }
        ensures port { console.new.state.port ≡ console.old.state.port }
        ensures gives { console.new.gives ≡ console.old.gives }
        ensures stands { (past : List Item) → SlotStands self.old past → OwnedStands console.old past
            → SlotStands self.new (item tick (Own Km act.now) ∷ past) }
        ensures console { (past : List Item) → SlotStands self.old past → OwnedStands console.old past
            → OwnedStands console.new (item tick (Own Km act.now) ∷ past) }
        ensures answer { (past : List Item) → SlotStands self.old past → OwnedStands console.old past
            → answer.new ≡ answer_to past tick Km act.now }
    {
        match self {
            Slot::Dark(_) => unreachable!(),
            Slot::Live(port) => port.km_owned(tick, act, console, answer),
        }
    }

    /// Answers an act at the keyboard and mouse of a port that doesn't have the console. A dark port is silent.
    #[inline(always)]
    pub fn answer_apart(&mut self, tick: Tick, act: &Act, answer: &mut Answer)
        requires { IsTold false self.old }
        ensures slot { (number : ℕ) → IsSlot false number self.old → IsSlot false number self.new }
        ensures stands { (past : List Item) → SlotStands self.old past
            → SlotStands self.new (item tick (Own Km act.now) ∷ past) }
        ensures answer { (past : List Item) → SlotStands self.old past
            → answer.new ≡ answer_to past tick Km act.now }
    {
        match self {
            Slot::Dark(_) => *answer = Answer::Silent,
            Slot::Live(port) => port.km_apart(tick, act, answer),
        }
    }

    /// The port loses the console.
    pub fn part(&mut self, farewell: Farewell)
        requires { IsSlot true farewell.port self.old }
        ensures slot { IsSlot false farewell.port self.new }
        ensures stands { (tick : ℕ) (past : List Item) → SlotStands self.old past
            → SlotStands self.new (item tick Leaves ∷ past) }
    {
        match self {
            Slot::Dark(_) => unreachable!(),
            Slot::Live(port) => port.farewell(farewell),
        }
    }

    /// The number of the port.
    fn id(&self) -> PortId
        ensures { result ≡ slot_number self.now }
    {
        match self {
            Slot::Dark(port) => port.id(),
            Slot::Live(port) => port.id(),
        }
    }

    /// The port awake. One that is awake already stays as it is.
    fn woken(self) -> Slot
        requires { IsTold false self }
        ensures slot { (number : ℕ) → IsSlot false number self → IsSlot false number result }
        ensures stands { (past : List Item) (tick : ℕ) → is_live past ≡ false → SlotStands self past
            → SlotStands result (item tick Wakes ∷ past) }
    {
        match self {
            Slot::Dark(port) => Slot::Live(port.wake()),
            Slot::Live(port) => Slot::Live(port),
        }
    }

    /// The port dark.
    fn darkened(self) -> Slot
        ensures number { slot_number result ≡ slot_number self }
        ensures told { IsTold false result }
        ensures stands { (past : List Item) (tick : ℕ) → SlotStands result (item tick Darkens ∷ past) }
    {
        match self {
            Slot::Dark(port) => Slot::Dark(port),
            Slot::Live(port) => Slot::Dark(port.darken()),
        }
    }

    /// Takes the port out, and leaves a dark one of its number.
    fn take(&mut self) -> Slot
        ensures taken { result ≡ self.old }
        ensures number { slot_number self.new ≡ slot_number self.old }
    {
        let id = self.id();
        mem::replace(self, Slot::Dark(Port::new(id)))
    }

    /// Wakes the port, where it is dark.
    pub fn wake(&mut self)
        requires { IsTold false self.old }
        ensures slot { (number : ℕ) → IsSlot false number self.old → IsSlot false number self.new }
        ensures stands { (past : List Item) (tick : ℕ) → is_live past ≡ false → SlotStands self.old past
            → SlotStands self.new (item tick Wakes ∷ past) }
    {
        let port = self.take();
        *self = port.woken();
    }

    /// Darkens the port.
    pub fn darken(&mut self)
        ensures slot { (number : ℕ) → IsSlot false number self.old → IsSlot false number self.new }
        ensures stands { (past : List Item) (tick : ℕ) → SlotStands self.new (item tick Darkens ∷ past) }
    {
        let port = self.take();
        *self = port.darkened();
    }
}
