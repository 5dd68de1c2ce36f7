//! The switch: its ports and its front, and the step that serves one event.
ghost use Rattle.std.specs.Prelude.{◌≡◌, ℕ, ◌+◌, ◌-◌, ◌<◌, ◌≤◌, List, [], ◌∷◌, None, IfOk, IfSome, option_map};
ghost use Rattle.psd_base.specs.Event.{Seen, seen, happening_of, HappensWithin, MovesWithin};
ghost use Rattle.psd_base.specs.Event.{AtFront, Detaches, PanelMoves, PortActs, Reports};
ghost use Rattle.peripheral_filter.specs.declared.rule.RuleSet.{RuleSet};
ghost use Rattle.port_model.specs.FrontEvents.{FrontEvent, front_event, front_of};
ghost use Rattle.port_model.specs.Chosen.{selected_at, selections};
ghost use Rattle.switch_core.specs.Gives.{gives_at, gives_of};
ghost use Rattle.switch_core.specs.Notes.{front_notes, notes_at};
ghost use Rattle.switch_core.specs.Orders.{front_orders, orders_at};
ghost use Rattle.switch_core.specs.SlotStands.{views_of};
ghost use Rattle.switch_core.specs.Visits.{visited, visits_after};
ghost use Rattle.switch_core.specs.PortsStand.{PortsStand, port_count};
ghost use Rattle.switch_core.specs.SeatStands.{give_count};
ghost use Rattle.switch_core.specs.PartsStand.{PartsStand};
ghost use Rattle.port_model.specs.Lines.{line_at, line_with};
ghost use Rattle.port_model.specs.OnePort.{answer_to};
ghost use Rattle.port_model.specs.View.{view};
ghost use Rattle.switch_core.specs.FrontStands.{FrontStands, FrontWithin};
ghost use Rattle.auth_router.specs.Bridge.{BridgePast};
ghost use Rattle.switch_core.specs.Bridges.{bridge_after, bridge_front};

use crate::front::Front;
use crate::ports::Ports;
use crate::turn::Turn;
use crate::visits::Visits;
use fail_secure::HealthChange;
use km_port::{Console, Owned};
use peripheral_filter::RuleSet;
use psd_base::act::{Act, Answer, Side};
use psd_base::console::{Notes, Orders, Panel, Plug};
use psd_base::event::{EVENTS_MAX, Event, Tick, What};
use psd_base::port::{MAX_PORTS, PortId};
use std::alloc::{AllocError, Global};

/// The switch.
#[derive(Drop)]
pub struct Switch {
    ports: Ports,
    front: Front,
    served: u32,
    visits: Visits,
    ghost few: { FrontWithin served front },
    ghost few_gives: { give_count ports.seat ≤ served },
    ghost few_visits: { visits.count ≤ served },
}

impl Switch {
    ghost use Rattle.switch_core.specs.StandsFor.{StandsFor, port_total};

    /// A switch of 2 to `MAX_PORTS` ports in self-test, which served no event. What is attached at its console is judged
    /// by these rules.
    pub fn new(alloc: Global, rules: RuleSet, ports: u8) -> Result<Switch, AllocError>
        requires few { 2 ≤ ports }
        requires many { ports ≤ MAX_PORTS }
        ensures stands { IfOk result (λ switch. StandsFor rules switch []) }
        ensures ports { IfOk result (λ switch. port_total switch ≡ ports) }
        ensures served { IfOk result (λ switch. switch.served ≡ 0) }
        ensures visits { IfOk result (λ switch. switch.visits ≡ record { last = None; count = 0 }) }
    {
        let ports = Ports::new(alloc, ports)?;
        let front = Front::new(alloc, rules)?;
        Ok(Switch {
            ports,
            front,
            served: 0,
            visits: Visits::none(),
        })
    }

    /// How many events were served.
    pub fn served(&self) -> u32
        ensures { result ≡ self.now.served }
    {
        self.served
    }

    /// The port of the last act that was served. None exactly where none was.
    pub fn last_port(&self) -> Option<PortId>
        ensures { result ≡ self.now.visits.last }
    {
        self.visits.last
    }

    /// How many acts weren't at the port of the act before them: so often the switch went to a port.
    pub fn visits(&self) -> u32
        ensures { result ≡ self.now.visits.count }
    {
        self.visits.count
    }

    /// The console of the selected port. None exactly where no port is selected. There is one console, which was given to
    /// one port after the other: `gives` is the number of all selections so far.
    pub fn console(&self) -> Option<&Console<Owned>>
        ensures port { (rules : RuleSet) (past : List Seen) → StandsFor rules self.now past
            → option_map (λ console. console.now.state.port) result ≡ selected_at rules (front_of past) }
        ensures gives { (rules : RuleSet) (past : List Seen) → StandsFor rules self.now past
            → IfSome result (λ console. console.now.gives ≡ selections rules (front_of past)) }
    {
        self.ports.console()
    }

    /// Serves one event. The turn then has what the event gave, and nothing else. It takes no memory.
    #[inline(always)]
    pub fn step(&mut self, event: &Event, turn: &mut Turn)
        requires known { HappensWithin (port_total self.old) (happening_of event.now.what) }
        requires room { self.old.served < EVENTS_MAX }
        ensures stands { (rules : RuleSet) (past : List Seen) → StandsFor rules self.old past
            → StandsFor rules self.new (seen event.now ∷ past) }
        ensures gives { (rules : RuleSet) (past : List Seen) → StandsFor rules self.old past
            → gives_of (seen event.now) turn.new ≡ gives_at rules (seen event.now) past }
        ensures served { self.new.served ≡ self.old.served + 1 }
        ensures visits { self.new.visits ≡ visits_after (happening_of event.now.what) self.old.visits }
        ensures ports { port_total self.new ≡ port_total self.old }
    {
        serve(
            &mut self.ports,
            &mut self.front,
            &mut self.visits,
            event,
            turn,
        );
        self.served += 1;
    }

    /// Serves an act of a computer, as `step` does, for a caller that has a place for each answer. The answer is written there,
    /// and the orders then are what the act ordered, and nothing else. It takes no memory.
    #[inline(always)]
    pub fn act(
        &mut self,
        tick: Tick,
        port: PortId,
        side: Side,
        act: &Act,
        answer: &mut Answer,
        orders: &mut Orders,
    )
        requires known { port ≤ port_total self.old }
        requires room { self.old.served < EVENTS_MAX }
        ensures stands { let event : Seen = record { tick = tick; happening = PortActs port side act.now } in
            (rules : RuleSet) (past : List Seen) → StandsFor rules self.old past
            → StandsFor rules self.new (event ∷ past) }
        ensures answer { (rules : RuleSet) (past : List Seen) → StandsFor rules self.old past
            → answer.new ≡ answer_to (view rules port past) tick side act.now }
        ensures orders { let event : Seen = record { tick = tick; happening = PortActs port side act.now } in
            (rules : RuleSet) (past : List Seen) → StandsFor rules self.old past
            → orders.new.items ≡ orders_at rules event past }
        ensures served { self.new.served ≡ self.old.served + 1 }
        ensures visits { self.new.visits ≡ visited port self.old.visits }
        ensures ports { port_total self.new ≡ port_total self.old }
    {
        orders.clear();
        serve_act(
            &mut self.ports,
            &mut self.front,
            &mut self.visits,
            tick,
            port,
            side,
            act,
            answer,
            orders,
        );
        self.served += 1;
    }
}

/// Serves an act. Its answer is written to its place.
#[inline(always)]
fn serve_act(
    ports: &mut Ports,
    front: &mut Front,
    visits: &mut Visits,
    tick: Tick,
    port: PortId,
    side: Side,
    act: &Act,
    answer: &mut Answer,
    orders: &mut Orders,
)
    requires known { port ≤ port_count ports.old }
    requires within { FrontWithin (u32.MAX - 1) front.old }
    requires visits { visits.old.count < u32.MAX }
    requires no_orders { orders.old.items ≡ [] }
    ensures visits { visits.new ≡ visited port visits.old }
    ensures few_visits { visits.new.count ≤ visits.old.count + 1 }
    ensures count { port_count ports.new ≡ port_count ports.old }
    ensures few { give_count ports.new.seat ≡ give_count ports.old.seat }
    ensures ports { let event : Seen = record { tick = tick; happening = PortActs port side act.now } in
        (rules : RuleSet) (past : List Seen) → PartsStand rules ports.old front.old past
        → PortsStand ports.new (selected_at rules (front_of (event ∷ past))) (views_of rules (event ∷ past)) }
    ensures front { let event : Seen = record { tick = tick; happening = PortActs port side act.now } in
        (rules : RuleSet) (past : List Seen) → PartsStand rules ports.old front.old past
        → FrontStands rules front.new (front_of (event ∷ past)) (bridge_after rules (event ∷ past)) }
    ensures answer { (rules : RuleSet) (past : List Seen) → PartsStand rules ports.old front.old past
        → answer.new ≡ answer_to (view rules port past) tick side act.now }
    ensures orders { let event : Seen = record { tick = tick; happening = PortActs port side act.now } in
        (rules : RuleSet) (past : List Seen) → PartsStand rules ports.old front.old past
        → orders.new.items ≡ orders_at rules event past }
    ensures within { (count : ℕ) → FrontWithin count front.old → FrontWithin (count + 1) front.new }
{
    visits.act_at(port);
    match side {
        Side::Km => ports.answer(tick, port, act, answer),
        Side::Ua => front.answer(port, act, answer, orders),
    }
}

/// Serves one event. The turn is begun in each case by itself: so the first that is asked is what the event is, which the
/// compiler joins with how the reader made it.
#[inline(always)]
fn serve(ports: &mut Ports, front: &mut Front, visits: &mut Visits, event: &Event, turn: &mut Turn)
    requires known { HappensWithin (port_count ports.old) (happening_of event.now.what) }
    requires within { FrontWithin (u32.MAX - 1) front.old }
    requires gives { give_count ports.old.seat < u32.MAX }
    requires visits { visits.old.count < u32.MAX }
    ensures visits { visits.new ≡ visits_after (happening_of event.now.what) visits.old }
    ensures few_visits { visits.new.count ≤ visits.old.count + 1 }
    ensures count { port_count ports.new ≡ port_count ports.old }
    ensures few { give_count ports.new.seat ≤ give_count ports.old.seat + 1 }
    ensures ports { (rules : RuleSet) (past : List Seen) → PartsStand rules ports.old front.old past
        → PortsStand ports.new (selected_at rules (front_of (seen event.now ∷ past)))
        (views_of rules (seen event.now ∷ past)) }
    ensures gives { (rules : RuleSet) (past : List Seen) → PartsStand rules ports.old front.old past
        → give_count ports.new.seat ≡ selections rules (front_of (seen event.now ∷ past)) }
    ensures front { (rules : RuleSet) (past : List Seen) → PartsStand rules ports.old front.old past
        → FrontStands rules front.new (front_of (seen event.now ∷ past))
        (bridge_after rules (seen event.now ∷ past)) }
    ensures line { (rules : RuleSet) (past : List Seen) → PartsStand rules ports.old front.old past
        → line_with (seen event.now) turn.new.answer ≡ line_at rules (seen event.now) past }
    ensures orders { (rules : RuleSet) (past : List Seen) → PartsStand rules ports.old front.old past
        → turn.new.orders.items ≡ orders_at rules (seen event.now) past }
    ensures notes { (rules : RuleSet) (past : List Seen) → PartsStand rules ports.old front.old past
        → turn.new.notes.items ≡ notes_at rules (seen event.now) past }
    ensures within { (count : ℕ) → FrontWithin count front.old → FrontWithin (count + 1) front.new }
{
    let tick = event.tick;
    match &event.what {
        What::Port(port, side, act) => {
            turn.begin();
            serve_act(
                ports,
                front,
                visits,
                tick,
                *port,
                *side,
                act,
                &mut turn.answer,
                &mut turn.orders,
            );
        }
        What::Clock => {
            turn.begin();
            front.clock(tick, &mut turn.orders, &mut turn.notes);
            ports.select(tick, front.selected());
        }
        What::Panel(panel) => {
            turn.begin();
            serve_move(
                ports,
                front,
                tick,
                *panel,
                &mut turn.orders,
                &mut turn.notes,
            );
        }
        What::Attach(plug) => {
            turn.begin();
            front.attach(tick, *plug, &mut turn.orders);
        }
        What::Detach(plug) => {
            turn.begin();
            serve_detach(ports, front, tick, *plug, &mut turn.orders);
        }
        What::Reply {
            plug,
            life,
            number,
            status,
            bytes,
        } => {
            turn.begin();
            front.reply(
                tick,
                *plug,
                *life,
                *number,
                *status,
                bytes,
                &mut turn.orders,
                &mut turn.notes,
            );
        }
        What::Report {
            plug,
            interface,
            bytes,
        } => {
            turn.begin();
            serve_report(ports, front, *plug, *interface, bytes);
        }
        What::JobDone {
            life,
            number,
            status,
            bytes,
        } => {
            turn.begin();
            front.done(*life, *number, *status, bytes);
        }
    }
}

/// Serves that a peripheral is taken off. It is a call of its own, as that for a report is: what is shown lies in memory that
/// is cleared where a call begins.
#[inline(never)]
fn serve_detach(ports: &mut Ports, front: &mut Front, tick: Tick, plug: Plug, orders: &mut Orders)
    requires { orders.old.items ≡ [] }
    ensures count { port_count ports.new ≡ port_count ports.old }
    ensures few { give_count ports.new.seat ≡ give_count ports.old.seat }
    ensures ports { (rules : RuleSet) (past : List Seen)
        → let event : Seen = record { tick = tick; happening = AtFront (Detaches plug) } in
        PartsStand rules ports.old front.old past
        → PortsStand ports.new (selected_at rules (front_of (event ∷ past))) (views_of rules (event ∷ past)) }
    ensures front { (rules : RuleSet) (past : List FrontEvent) (bridge : BridgePast)
        → FrontStands rules front.old past bridge
        → FrontStands rules front.new (front_event tick (Detaches plug) ∷ past)
        (bridge_front rules (front_event tick (Detaches plug)) past bridge) }
    ensures orders { (rules : RuleSet) (past : List FrontEvent) (bridge : BridgePast)
        → FrontStands rules front.old past bridge
        → orders.new.items ≡ front_orders rules (front_event tick (Detaches plug)) past }
    ensures within { (count : ℕ) → FrontWithin count front.old → FrontWithin (count + 1) front.new }
{
    let shown = front.detach(tick, plug, orders);
    ports.show(&shown);
}

/// Serves a report of a peripheral.
#[inline(never)]
fn serve_report(ports: &mut Ports, front: &mut Front, plug: Plug, interface: u8, bytes: &[u8])
    ensures count { port_count ports.new ≡ port_count ports.old }
    ensures few { give_count ports.new.seat ≡ give_count ports.old.seat }
    ensures ports { (rules : RuleSet) (tick : ℕ) (past : List Seen)
        → let event : Seen = record { tick = tick; happening = AtFront (Reports plug interface bytes.now) } in
        PartsStand rules ports.old front.old past
        → PortsStand ports.new (selected_at rules (front_of (event ∷ past))) (views_of rules (event ∷ past)) }
    ensures front { (rules : RuleSet) (tick : ℕ) (past : List FrontEvent) (bridge : BridgePast)
        → FrontStands rules front.old past bridge
        → FrontStands rules front.new (front_event tick (Reports plug interface bytes.now) ∷ past)
        (bridge_front rules (front_event tick (Reports plug interface bytes.now)) past bridge) }
    ensures within { (count : ℕ) → FrontWithin count front.old → FrontWithin (count + 1) front.new }
{
    let shown = front.report(plug, interface, bytes);
    ports.show(&shown);
}

/// Serves a move at the panel.
#[inline(never)]
fn serve_move(
    ports: &mut Ports,
    front: &mut Front,
    tick: Tick,
    panel: Panel,
    orders: &mut Orders,
    notes: &mut Notes,
)
    requires known { MovesWithin (port_count ports.old) panel }
    requires within { FrontWithin (u32.MAX - 1) front.old }
    requires no_orders { orders.old.items ≡ [] }
    requires no_notes { notes.old.items ≡ [] }
    ensures count { port_count ports.new ≡ port_count ports.old }
    ensures few { give_count ports.new.seat ≡ give_count ports.old.seat }
    ensures ports { (rules : RuleSet) (past : List Seen)
        → let event : Seen = record { tick = tick; happening = AtFront (PanelMoves panel) } in
        PartsStand rules ports.old front.old past
        → PortsStand ports.new (selected_at rules (front_of (event ∷ past))) (views_of rules (event ∷ past)) }
    ensures front { (rules : RuleSet) (past : List FrontEvent) (bridge : BridgePast)
        → FrontStands rules front.old past bridge
        → FrontStands rules front.new (front_event tick (PanelMoves panel) ∷ past)
        (bridge_front rules (front_event tick (PanelMoves panel)) past bridge) }
    ensures orders { (rules : RuleSet) (past : List FrontEvent) (bridge : BridgePast)
        → FrontStands rules front.old past bridge
        → orders.new.items ≡ front_orders rules (front_event tick (PanelMoves panel)) past }
    ensures notes { (rules : RuleSet) (past : List FrontEvent) (bridge : BridgePast)
        → FrontStands rules front.old past bridge
        → notes.new.items ≡ front_notes rules tick (PanelMoves panel) past }
    ensures within { (count : ℕ) → FrontWithin count front.old → FrontWithin (count + 1) front.new }
{
    match front.moved(tick, &panel, orders, notes) {
        HealthChange::Stays => {}
        HealthChange::Wakes => ports.wake(),
        HealthChange::Darkens => ports.darken(),
    }
}
