//! The ports of a switch and their console: each port lies in the place of its number, and is told what concerns it alone.
ghost use Rattle.std.specs.Prelude.{◌≡◌, ◌≢◌, ℕ, ◌+◌, ◌-◌, ◌<◌, ◌≤◌, List, ◌∷◌, length, true, false, IsTrue, None, Some, Option};
ghost use Rattle.psd_base.specs.declared.act.Side.TheVariants.{Km};
ghost use Rattle.port_model.specs.Concerns.{Item, item, is_live, Own, Wakes, Darkens, Selects};
ghost use Rattle.km_port.specs.ConsoleStands.{OwnedStands, VacantStands};
ghost use Rattle.port_model.specs.OnePort.{answer_to};
ghost use Rattle.port_model.specs.Chosen.{given_after};
ghost use Rattle.switch_core.specs.SeatStands.{CanHave, SeatStands, give_count};
ghost use Rattle.switch_core.specs.Shown.{IsShown, shown_concerns};
ghost use Rattle.switch_core.specs.SlotStands.{AllStand, SlotStands};
ghost use Rattle.port_model.specs.View.{stamped};
ghost use Rattle.switch_core.specs.Views.{acted, given_to, left_by, selected_to, shown_to, to_all};
ghost use Rattle.switch_core.specs.Wired.{AreWired, is_seated, IsSlot, IsWired, is_owner};

use crate::answers::answer_act;
use crate::seat::Seat;
use crate::shown::Shown;
use crate::slot::Slot;
use km_port::{Console, Owned, Port, Vacant};
use psd_base::act::{Act, Answer};
use psd_base::event::Tick;
use psd_base::port::{MAX_PORTS, PortId};
use std::alloc::{AllocError, Global};
use std::mem;

/// The ports of a switch, numbered from 1, and the console that they share in turn. The ports lie in memory of their own.
#[derive(Drop)]
pub struct Ports {
    slots: Vec<Slot>,
    seat: Seat,
    ghost wired: { IsWired slots.items seat },
}

impl Ports {
    ghost use Rattle.std.specs.Prelude.{[], IfOk, IfSome, option_map};
    ghost use Rattle.switch_core.specs.PortsStand.{PortsStand, port_count};

    /// So many dark ports, of which none is selected.
    pub fn new(alloc: Global, count: u8) -> Result<Ports, AllocError>
        requires { count ≤ MAX_PORTS }
        ensures stand { IfOk result (λ ports. PortsStand ports None (λ number. [])) }
        ensures gives { IfOk result (λ ports. give_count ports.seat ≡ 0) }
        ensures count { IfOk result (λ ports. port_count ports ≡ count) }
    {
        let mut made = Vec::with_capacity(alloc, count as usize)?;
        for others in 0..count {
            made.push(dark_port(others))?;
        }
        let console = Console::new(alloc)?;
        Ok(Ports {
            slots: made,
            seat: Seat::Vacant(console),
        })
    }

    /// The console of the selected port, if one is selected.
    pub fn console(&self) -> Option<&Console<Owned>>
        ensures port { (chosen : Option ℕ) (views : ℕ → List Item) → PortsStand self.now chosen views
            → option_map (λ console. console.now.state.port) result ≡ chosen }
        ensures gives { IfSome result (λ console. console.now.gives ≡ give_count self.now.seat) }
    {
        match &self.seat {
            Seat::Vacant(_) => None,
            Seat::Owned(console) => Some(console),
            Seat::Between => None,
        }
    }

    /// Wakes all ports, which are dark.
    pub fn wake(&mut self)
        ensures count { port_count self.new ≡ port_count self.old }
        ensures gives { give_count self.new.seat ≡ give_count self.old.seat }
        ensures stands { (views : ℕ → List Item) (tick : ℕ) → ((number : ℕ) → is_live (views number) ≡ false)
            → PortsStand self.old None views → PortsStand self.new None (to_all tick Wakes views) }
    {
        self.seat = all_woken(&mut self.slots, mem::replace(&mut self.seat, Seat::Between));
    }

    /// Darkens all ports. The selected one loses the console.
    pub fn darken(&mut self)
        ensures count { port_count self.new ≡ port_count self.old }
        ensures gives { give_count self.new.seat ≡ give_count self.old.seat }
        ensures stands { (chosen : Option ℕ) (views : ℕ → List Item) (tick : ℕ)
            → PortsStand self.old chosen views
            → PortsStand self.new None (to_all tick Darkens views) }
    {
        self.seat = all_darkened(&mut self.slots, mem::replace(&mut self.seat, Seat::Between));
    }

    /// The selection is this port from this tick on, or none: the port that was selected loses the console, and this one
    /// gets it. A port that the switch doesn't have, and one that is dark, get nothing.
    pub fn select(&mut self, tick: Tick, chosen: Option<PortId>)
        requires { give_count self.old.seat < u32.MAX }
        ensures count { port_count self.new ≡ port_count self.old }
        ensures few { give_count self.new.seat ≤ give_count self.old.seat + 1 }
        ensures stands { (before : Option ℕ) (views : ℕ → List Item)
            → CanHave (port_count self.old) views chosen
            → PortsStand self.old before views
            → PortsStand self.new chosen (selected_to tick before chosen views) }
        ensures gives { (before : Option ℕ) (views : ℕ → List Item)
            → CanHave (port_count self.old) views chosen
            → PortsStand self.old before views
            → give_count self.new.seat ≡ given_after before chosen (give_count self.old.seat) }
    {
        if self.owner() == chosen {
            return;
        }
        self.hand(tick, chosen);
    }

    /// The port that has the console, if one has.
    fn owner(&self) -> Option<PortId>
        ensures { (chosen : Option ℕ) (views : ℕ → List Item) → PortsStand self.now chosen views
            → result ≡ chosen }
    {
        match &self.seat {
            Seat::Vacant(_) => None,
            Seat::Owned(console) => Some(console.port()),
            Seat::Between => None,
        }
    }

    /// The console goes from the port that has it to this port, which hasn't, or to none.
    #[inline(never)]
    fn hand(&mut self, tick: Tick, chosen: Option<PortId>)
        requires { give_count self.old.seat < u32.MAX }
        ensures count { port_count self.new ≡ port_count self.old }
        ensures few { give_count self.new.seat ≤ give_count self.old.seat + 1 }
        ensures stands { (before : Option ℕ) (views : ℕ → List Item)
            → CanHave (port_count self.old) views chosen
            → PortsStand self.old before views
            → PortsStand self.new chosen (given_to tick chosen (left_by tick before views)) }
        ensures gives { (before : Option ℕ) (views : ℕ → List Item)
            → CanHave (port_count self.old) views chosen
            → PortsStand self.old before views
            → give_count self.new.seat ≡ given_after None chosen (give_count self.old.seat) }
    {
        self.seat = handed(
            &mut self.slots,
            mem::replace(&mut self.seat, Seat::Between),
            tick,
            chosen,
        );
    }

    /// The console shows something to the selected port. While none is selected nothing comes of it.
    pub fn show(&mut self, shown: &Shown)
        requires { IsShown shown.now }
        ensures count { port_count self.new ≡ port_count self.old }
        ensures gives { give_count self.new.seat ≡ give_count self.old.seat }
        ensures stands { (tick : ℕ) (chosen : Option ℕ) (views : ℕ → List Item)
            → PortsStand self.old chosen views
            → PortsStand self.new chosen (shown_to tick chosen (shown_concerns shown.now) views) }
    {
        show_at(&mut self.seat, shown);
    }

    /// Answers an act at a port's keyboard and mouse, in the place that the caller has for the answer. It is a call of its
    /// own: in the loop over the events its registers would be spilled.
    #[inline(never)]
    pub fn answer(&mut self, tick: Tick, port: PortId, act: &Act, answer: &mut Answer)
        requires { port ≤ port_count self.old }
        ensures count { port_count self.new ≡ port_count self.old }
        ensures gives { give_count self.new.seat ≡ give_count self.old.seat }
        ensures stands { (chosen : Option ℕ) (views : ℕ → List Item) → PortsStand self.old chosen views
            → PortsStand self.new chosen (acted tick port Km act.now views) }
        ensures answer { (chosen : Option ℕ) (views : ℕ → List Item) → PortsStand self.old chosen views
            → answer.new ≡ answer_to (views port) tick Km act.now }
    {
        answer_act(&mut self.slots, &mut self.seat, tick, port, act, answer);
    }
}

/// The dark port behind so many others.
fn dark_port(others: u8) -> Slot
    requires { others < MAX_PORTS }
    ensures slot { IsSlot false (others + 1) result }
    ensures dark { (past : List Item) → is_live past ≡ false → SlotStands result past }
{
    match PortId::new(others + 1) {
        Some(id) => Slot::Dark(Port::new(id)),
        None => unreachable!(),
    }
}

/// Wakes all ports, which are dark.
fn wake_all(slots: &mut [Slot])
    requires { AreWired slots.old (λ number. false) }
    ensures wired { AreWired slots.new (λ number. false) }
    ensures stand { (views : ℕ → List Item) (tick : ℕ) → ((number : ℕ) → is_live (views number) ≡ false)
        → AllStand slots.old views → AllStand slots.new (to_all tick Wakes views) }
{
    for slot in slots.iter_mut() {
        slot.wake();
    }
}

/// Darkens all ports.
fn darken_all(slots: &mut [Slot])
    requires { AreWired slots.old (λ number. false) }
    ensures wired { AreWired slots.new (λ number. false) }
    ensures stand { (views : ℕ → List Item) (tick : ℕ) → AllStand slots.new (to_all tick Darkens views) }
{
    for slot in slots.iter_mut() {
        slot.darken();
    }
}

/// Takes the console from the port that has it, and wakes all ports, which are dark.
fn all_woken(slots: &mut [Slot], seat: Seat) -> Seat
    requires { IsWired slots.old seat }
    ensures wired { IsWired slots.new result }
    ensures gives { give_count result ≡ give_count seat }
    ensures slots { (views : ℕ → List Item) (tick : ℕ) → ((number : ℕ) → is_live (views number) ≡ false)
        → AllStand slots.old views → SeatStands seat None views
        → AllStand slots.new (to_all tick Wakes views) }
    ensures seat { (views : ℕ → List Item) (tick : ℕ) → SeatStands seat None views
        → SeatStands result None (to_all tick Wakes views) }
{
    let console = vacated(slots, seat);
    wake_all(slots);
    Seat::Vacant(console)
}

/// Takes the console from the port that has it, and darkens all ports.
fn all_darkened(slots: &mut [Slot], seat: Seat) -> Seat
    requires { IsWired slots.old seat }
    ensures wired { IsWired slots.new result }
    ensures gives { give_count result ≡ give_count seat }
    ensures slots { (views : ℕ → List Item) (tick : ℕ) → AllStand slots.new (to_all tick Darkens views) }
    ensures seat { (chosen : Option ℕ) (views : ℕ → List Item) (tick : ℕ) → SeatStands seat chosen views
        → SeatStands result None (to_all tick Darkens views) }
{
    let console = vacated(slots, seat);
    darken_all(slots);
    Seat::Vacant(console)
}

/// The console goes from the port that has it to this port, or to none.
fn handed(slots: &mut [Slot], seat: Seat, tick: Tick, chosen: Option<PortId>) -> Seat
    requires gives { give_count seat < u32.MAX }
    requires wired { IsWired slots.old seat }
    ensures wired { IsWired slots.new result }
    ensures few { give_count result ≤ give_count seat + 1 }
    ensures slots { (before : Option ℕ) (views : ℕ → List Item) → CanHave (length slots.old) views chosen
        → AllStand slots.old views → SeatStands seat before views
        → AllStand slots.new (given_to tick chosen (left_by tick before views)) }
    ensures seat { (before : Option ℕ) (views : ℕ → List Item) → CanHave (length slots.old) views chosen
        → AllStand slots.old views → SeatStands seat before views
        → SeatStands result chosen (given_to tick chosen (left_by tick before views)) }
    ensures gives { (before : Option ℕ) (views : ℕ → List Item) → CanHave (length slots.old) views chosen
        → AllStand slots.old views → SeatStands seat before views
        → give_count result ≡ given_after None chosen (give_count seat) }
{
    let console = vacated(slots, seat);
    match chosen {
        None => Seat::Vacant(console),
        Some(port) => given(slots, console, tick, port),
    }
}

/// Takes the console from the port that has it, if one has.
fn vacated(slots: &mut [Slot], seat: Seat) -> Console<Vacant>
    requires { IsWired slots.old seat }
    ensures wired { AreWired slots.new (λ number. false) }
    ensures gives { result.gives ≡ give_count seat }
    ensures slots { (tick : ℕ) (chosen : Option ℕ) (views : ℕ → List Item) → AllStand slots.old views
        → SeatStands seat chosen views → AllStand slots.new (left_by tick chosen views) }
    ensures vacant { (chosen : Option ℕ) (views : ℕ → List Item) → SeatStands seat chosen views
        → VacantStands result }
{
    match seat {
        Seat::Vacant(console) => console,
        Seat::Owned(console) => {
            let (console, farewell) = console.leave();
            let place = farewell.port().number() as usize - 1;
            slots[place].part(farewell);
            console
        }
        Seat::Between => unreachable!(),
    }
}

/// Gives the console to the port of this number, where it is there and awake.
fn given(slots: &mut [Slot], console: Console<Vacant>, tick: Tick, port: PortId) -> Seat
    requires gives { console.gives < u32.MAX }
    requires wired { AreWired slots.old (λ number. false) }
    ensures wired { IsWired slots.new result }
    ensures few { give_count result ≤ console.gives + 1 }
    ensures slots { (views : ℕ → List Item) → CanHave (length slots.old) views (Some port)
        → AllStand slots.old views
        → AllStand slots.new (given_to tick (Some port) views) }
    ensures seat { (views : ℕ → List Item) → CanHave (length slots.old) views (Some port)
        → AllStand slots.old views
        → VacantStands console → SeatStands result (Some port) (given_to tick (Some port) views) }
    ensures gives { (views : ℕ → List Item) → CanHave (length slots.old) views (Some port)
        → AllStand slots.old views
        → give_count result ≡ console.gives + 1 }
{
    let place = port.number() as usize - 1;
    if place >= slots.len() {
        return Seat::Vacant(console);
    }
    given_at(&mut slots[place], console, tick, port)
}

/// Gives the console to this port, where it is awake.
fn given_at(slot: &mut Slot, console: Console<Vacant>, tick: Tick, port: PortId) -> Seat
    requires gives { console.gives < u32.MAX }
    requires slot { IsSlot false port slot.old }
    ensures slot { IsSlot (is_owner result port) port slot.new }
    ensures others { (number : ℕ) → number ≢ port → is_owner result number ≡ false }
    ensures seated { (count : ℕ) → port ≤ count → IsTrue (is_seated count result) }
    ensures few { give_count result ≤ console.gives + 1 }
    ensures stands { (past : List Item) → is_live past ≡ true → SlotStands slot.old past
        → SlotStands slot.new (item tick Selects ∷ past) }
    ensures seat { (views : ℕ → List Item) → is_live (views port) ≡ true → SlotStands slot.old (views port)
        → VacantStands console → SeatStands result (Some port) (given_to tick (Some port) views) }
    ensures gives { (past : List Item) → is_live past ≡ true → SlotStands slot.old past
        → give_count result ≡ console.gives + 1 }
{
    match slot {
        Slot::Dark(_) => Seat::Vacant(console),
        Slot::Live(live) => {
            let (console, welcome) = console.give(tick, port);
            live.welcome(welcome);
            Seat::Owned(console)
        }
    }
}

/// Offers what the console shows to the port that has it.
fn show_at(seat: &mut Seat, shown: &Shown)
    requires { IsShown shown.now }
    ensures owner { (number : ℕ) → is_owner seat.new number ≡ is_owner seat.old number }
    ensures seated { (count : ℕ) → is_seated count seat.new ≡ is_seated count seat.old }
    ensures gives { give_count seat.new ≡ give_count seat.old }
    ensures stands { (tick : ℕ) (chosen : Option ℕ) (views : ℕ → List Item) → SeatStands seat.old chosen views
        → SeatStands seat.new chosen (shown_to tick chosen (shown_concerns shown.now) views) }
{
    match seat {
        Seat::Vacant(_) => {}
        Seat::Owned(console) => offer(console, shown),
        Seat::Between => {}
    }
}

/// Offers what the console shows to the latches.
fn offer(console: &mut Console<Owned>, shown: &Shown)
    requires { IsShown shown.now }
    ensures port { console.new.state.port ≡ console.old.state.port }
    ensures gives { console.new.gives ≡ console.old.gives }
    ensures stands { (tick : ℕ) (past : List Item) → OwnedStands console.old past
        → OwnedStands console.new (stamped tick (shown_concerns shown.now) past) }
{
    match shown {
        Shown::Nothing => {}
        Shown::Keys(keys) => {
            let _ = console.keys(keys);
        }
        Shown::Pointer(sample) => {
            let _ = console.pointer(sample);
        }
    }
}
