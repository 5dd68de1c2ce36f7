//! The front of the switch: its self-test, its selection and the plugs of its console.
ghost use Rattle.std.specs.Prelude.{◌≡◌, ℕ, ◌<◌, ◌≤◌, ◌+◌, ◌-◌, List, [], ◌∷◌, ◌++◌, length, IfOk, if◌then◌else◌};
ghost use Rattle.psd_base.specs.declared.console.TheConstants.{NOTES_MAX};
ghost use Rattle.psd_base.specs.declared.console.Plug.TheVariants.{Keyboard, Mouse};
ghost use Rattle.psd_base.specs.Event.{TimePasses, PanelMoves, Attaches, Detaches, Replies, Reports, Finishes};
ghost use Rattle.peripheral_filter.specs.declared.rule.RuleSet.{RuleSet};
ghost use Rattle.fail_secure.specs.HealthChange.{change_of, is_alive};
ghost use Rattle.fail_secure.specs.declared.health.TheConstants.{ALL_CHECKS};
ghost use Rattle.selector.specs.Choice.{choice_after, move_of};
ghost use Rattle.selector.specs.Moments.{Moment, Ticked};
ghost use Rattle.selector.specs.SelectorStands.{SelectorStands};
ghost use Rattle.port_model.specs.Chosen.{move_at, selected_at};
ghost use Rattle.port_model.specs.FrontEvents.{FrontEvent, front_event};
ghost use Rattle.port_model.specs.FrontHealth.{IsKnownCheck, checks_in, health_at};
ghost use Rattle.switch_core.specs.Notes.{change_notes, front_notes, move_notes, selector_notes};
ghost use Rattle.switch_core.specs.Shown.{IsShown, shown_concerns};
ghost use Rattle.port_model.specs.Shown.{shown_at};
ghost use Rattle.auth_router.specs.Bridge.{BridgePast, IsDown, after_done};
ghost use Rattle.token_plug.specs.Acts.{acted_at, answer_at, jobs_at};
ghost use Rattle.switch_core.specs.Bridges.{bridge_front};
ghost use Rattle.switch_core.specs.Orders.{front_orders};
ghost use Rattle.port_model.specs.Token.{token_port};

use crate::peripherals::Peripherals;
use crate::self_test::{health_moved, reason_for};
use crate::shown::Shown;
use crate::token::{attach_token, change_token, detach_token, reply_token, select_token};
use fail_secure::{Health, HealthChange, change_between};
use peripheral_filter::RuleSet;
use psd_base::act::{Act, Answer};
use psd_base::console::{Note, Notes, Orders, Panel, Plug};
use psd_base::event::Tick;
use psd_base::port::PortId;
use selector::{Move, Selector};
use std::alloc::{AllocError, Global};
use token_plug::TokenPlug;

/// The self-test, the selection and the console's plugs, under the rules of the administrator. The plugs lie in memory of
/// their own. The promises of a call hold for whatever happened at the front before. No computer moves the front, but for the
/// bridge of the one to which the token is routed.
#[derive(Drop)]
pub struct Front {
    rules: RuleSet,
    health: Health,
    selector: Selector,
    peripherals: Box<Peripherals>,
    token: Box<TokenPlug>,
    ghost unfinished: { checks_in health < ALL_CHECKS },
}

impl Front {
    ghost use Rattle.switch_core.specs.FrontStands.{FrontStands, FrontWithin};

    /// The front before anything happened.
    pub fn new(alloc: Global, rules: RuleSet) -> Result<Front, AllocError>
        ensures stands { IfOk result (λ front. FrontStands rules front [] IsDown) }
        ensures within { IfOk result (FrontWithin 0) }
    {
        let peripherals = Box::new(alloc, Peripherals::new())?;
        let token = Box::new(alloc, TokenPlug::new())?;
        Ok(Front {
            rules,
            health: Health::new(),
            selector: Selector::new(),
            peripherals,
            token,
        })
    }

    /// Time passes: what stayed silent is refused, a token that has rested gets power, and then the selection moves, and the
    /// token with it, while the switch is alive alone.
    pub fn clock(&mut self, tick: Tick, orders: &mut Orders, notes: &mut Notes)
        requires within { FrontWithin (u32.MAX - 1) self.old }
        requires no_orders { orders.old.items ≡ [] }
        requires no_notes { notes.old.items ≡ [] }
        ensures stands { (rules : RuleSet) (past : List FrontEvent) (bridge : BridgePast)
            → FrontStands rules self.old past bridge
            → FrontStands rules self.new (front_event tick TimePasses ∷ past)
            (bridge_front rules (front_event tick TimePasses) past bridge) }
        ensures orders { (rules : RuleSet) (past : List FrontEvent) (bridge : BridgePast)
            → FrontStands rules self.old past bridge
            → orders.new.items ≡ front_orders rules (front_event tick TimePasses) past }
        ensures notes { (rules : RuleSet) (past : List FrontEvent) (bridge : BridgePast)
            → FrontStands rules self.old past bridge
            → notes.new.items ≡ front_notes rules tick TimePasses past }
        ensures within { (count : ℕ) → FrontWithin count self.old → FrontWithin (count + 1) self.new }
    {
        let all_up = self.peripherals.shows_nothing();
        self.peripherals.clock(tick, orders, notes);
        self.token.clock(tick, orders, notes);
        let moved = look(self.health, &mut self.selector, tick, all_up);
        note_move(&moved, notes);
        select_token(&mut self.token, &moved, tick, orders, notes);
    }

    /// The port that is selected. While the switch isn't alive none is.
    pub fn selected(&self) -> Option<PortId>
        ensures { (rules : RuleSet) (past : List FrontEvent) (bridge : BridgePast)
            → FrontStands rules self.now past bridge
            → result ≡ selected_at rules past }
    {
        match self.health {
            Health::Testing { .. } => None,
            Health::Alive => self.selector.selected(),
            Health::Dark => None,
        }
    }

    /// A move at the panel. Gives what it means for the ports.
    pub fn moved(
        &mut self,
        tick: Tick,
        panel: &Panel,
        orders: &mut Orders,
        notes: &mut Notes,
    ) -> HealthChange
        requires known { IsKnownCheck panel.now }
        requires within { FrontWithin (u32.MAX - 1) self.old }
        requires no_orders { orders.old.items ≡ [] }
        requires no_notes { notes.old.items ≡ [] }
        ensures stands { (rules : RuleSet) (past : List FrontEvent) (bridge : BridgePast)
            → FrontStands rules self.old past bridge
            → FrontStands rules self.new (front_event tick (PanelMoves panel.now) ∷ past)
            (bridge_front rules (front_event tick (PanelMoves panel.now)) past bridge) }
        ensures change { (rules : RuleSet) (past : List FrontEvent) (bridge : BridgePast)
            → FrontStands rules self.old past bridge
            → result ≡ change_of (health_at past)
            (health_at (front_event tick (PanelMoves panel.now) ∷ past)) }
        ensures orders { (rules : RuleSet) (past : List FrontEvent) (bridge : BridgePast)
            → FrontStands rules self.old past bridge
            → orders.new.items ≡ front_orders rules (front_event tick (PanelMoves panel.now)) past }
        ensures notes { (rules : RuleSet) (past : List FrontEvent) (bridge : BridgePast)
            → FrontStands rules self.old past bridge
            → notes.new.items ≡ front_notes rules tick (PanelMoves panel.now) past }
        ensures within { (count : ℕ) → FrontWithin count self.old → FrontWithin (count + 1) self.new }
    {
        let before = self.health;
        let after = health_moved(before, panel, self.selector.buttons_up());
        self.selector.panel(tick, panel);
        self.health = after;
        let change = change_between(before, after);
        self.peripherals.change(change, tick, orders);
        change_token(&mut self.token, change, tick, orders);
        note_change(change, panel, notes);
        change
    }

    /// A peripheral is attached to this plug.
    #[inline(never)]
    pub fn attach(&mut self, tick: Tick, plug: Plug, orders: &mut Orders)
        requires within { FrontWithin (u32.MAX - 1) self.old }
        requires no_orders { orders.old.items ≡ [] }
        ensures stands { (rules : RuleSet) (past : List FrontEvent) (bridge : BridgePast)
            → FrontStands rules self.old past bridge
            → FrontStands rules self.new (front_event tick (Attaches plug) ∷ past)
            (bridge_front rules (front_event tick (Attaches plug)) past bridge) }
        ensures orders { (rules : RuleSet) (past : List FrontEvent) (bridge : BridgePast)
            → FrontStands rules self.old past bridge
            → orders.new.items ≡ front_orders rules (front_event tick (Attaches plug)) past }
        ensures within { (count : ℕ) → FrontWithin count self.old → FrontWithin (count + 1) self.new }
    {
        self.peripherals.attach(plug, tick, orders);
        attach_token(&mut self.token, plug, tick, orders);
    }

    /// What is at this plug is taken off. Gives what the console shows then.
    #[inline(never)]
    pub fn detach(&mut self, tick: Tick, plug: Plug, orders: &mut Orders) -> Shown
        requires { orders.old.items ≡ [] }
        ensures stands { (rules : RuleSet) (past : List FrontEvent) (bridge : BridgePast)
            → FrontStands rules self.old past bridge
            → FrontStands rules self.new (front_event tick (Detaches plug) ∷ past)
            (bridge_front rules (front_event tick (Detaches plug)) past bridge) }
        ensures orders { (rules : RuleSet) (past : List FrontEvent) (bridge : BridgePast)
            → FrontStands rules self.old past bridge
            → orders.new.items ≡ front_orders rules (front_event tick (Detaches plug)) past }
        ensures shown { (rules : RuleSet) (past : List FrontEvent) (bridge : BridgePast)
            → FrontStands rules self.old past bridge
            → shown_concerns result ≡ shown_at rules (front_event tick (Detaches plug)) past }
        ensures sample { IsShown result }
        ensures within { (count : ℕ) → FrontWithin count self.old → FrontWithin (count + 1) self.new }
    {
        let shown = self.peripherals.detach(plug, orders);
        detach_token(&mut self.token, plug, tick, orders);
        shown
    }

    /// What is at this plug replies to the order of this number in this life.
    #[inline(never)]
    pub fn reply(
        &mut self,
        tick: Tick,
        plug: Plug,
        life: u32,
        number: u32,
        status: u8,
        bytes: &[u8],
        orders: &mut Orders,
        notes: &mut Notes,
    )
        requires no_orders { orders.old.items ≡ [] }
        requires no_notes { notes.old.items ≡ [] }
        ensures stands { (rules : RuleSet) (past : List FrontEvent) (bridge : BridgePast)
            → FrontStands rules self.old past bridge
            → FrontStands rules self.new (front_event tick (Replies plug life number status bytes.now) ∷ past)
            (bridge_front rules (front_event tick (Replies plug life number status bytes.now)) past bridge) }
        ensures orders { (rules : RuleSet) (past : List FrontEvent) (bridge : BridgePast)
            → FrontStands rules self.old past bridge
            → orders.new.items
            ≡ front_orders rules (front_event tick (Replies plug life number status bytes.now)) past }
        ensures notes { (rules : RuleSet) (past : List FrontEvent) (bridge : BridgePast)
            → FrontStands rules self.old past bridge
            → notes.new.items ≡ front_notes rules tick (Replies plug life number status bytes.now) past }
        ensures within { (count : ℕ) → FrontWithin count self.old → FrontWithin (count + 1) self.new }
    {
        self.peripherals.reply(
            &self.rules,
            plug,
            life,
            number,
            tick,
            status,
            bytes,
            orders,
            notes,
        );
        reply_token(
            &mut self.token,
            &self.rules,
            plug,
            life,
            number,
            tick,
            status,
            bytes,
            orders,
            notes,
        );
    }

    /// What is at this plug sends a report of an interface. Gives what the console shows then.
    #[inline(never)]
    pub fn report(&mut self, plug: Plug, interface: u8, bytes: &[u8]) -> Shown
        ensures stands { (rules : RuleSet) (tick : ℕ) (past : List FrontEvent) (bridge : BridgePast)
            → FrontStands rules self.old past bridge
            → FrontStands rules self.new (front_event tick (Reports plug interface bytes.now) ∷ past)
            (bridge_front rules (front_event tick (Reports plug interface bytes.now)) past bridge) }
        ensures shown { (rules : RuleSet) (tick : ℕ) (past : List FrontEvent) (bridge : BridgePast)
            → FrontStands rules self.old past bridge
            → shown_concerns result
            ≡ shown_at rules (front_event tick (Reports plug interface bytes.now)) past }
        ensures sample { IsShown result }
        ensures within { (count : ℕ) → FrontWithin count self.old → FrontWithin (count + 1) self.new }
    {
        self.peripherals.report(plug, interface, bytes)
    }

    /// Takes an act of a port's computer at its token connector, answers it, and orders the job that it makes
    /// (`TokenPlug::answer`).
    #[inline(never)]
    pub fn answer(&mut self, port: PortId, act: &Act, answer: &mut Answer, orders: &mut Orders)
        requires within { FrontWithin (u32.MAX - 1) self.old }
        requires no_orders { orders.old.items ≡ [] }
        ensures stands { (rules : RuleSet) (past : List FrontEvent) (bridge : BridgePast)
            → FrontStands rules self.old past bridge
            → FrontStands rules self.new past (acted_at port act.now (token_port rules past) bridge) }
        ensures answer { (rules : RuleSet) (past : List FrontEvent) (bridge : BridgePast)
            → FrontStands rules self.old past bridge
            → answer.new ≡ answer_at port act.now (token_port rules past) bridge }
        ensures orders { (rules : RuleSet) (past : List FrontEvent) (bridge : BridgePast)
            → FrontStands rules self.old past bridge
            → orders.new.items ≡ jobs_at port act.now (token_port rules past) bridge }
        ensures within { (count : ℕ) → FrontWithin count self.old → FrontWithin (count + 1) self.new }
    {
        self.token.answer(port, act, answer, orders);
    }

    /// The token has done the job of this number in this life. What isn't the outstanding job changes nothing.
    #[inline(never)]
    pub fn done(&mut self, life: u32, number: u32, status: u8, bytes: &[u8])
        ensures stands { (rules : RuleSet) (tick : ℕ) (past : List FrontEvent) (bridge : BridgePast)
            → FrontStands rules self.old past bridge
            → FrontStands rules self.new (front_event tick (Finishes life number status bytes.now) ∷ past)
            (after_done life number status bytes.now bridge) }
        ensures within { (count : ℕ) → FrontWithin count self.old → FrontWithin (count + 1) self.new }
    {
        let _ = self.token.done(life, number, status, bytes);
    }
}

/// Takes a clock event to the selection, while the switch is alive. Gives what it changes.
fn look(health: Health, selector: &mut Selector, tick: Tick, all_up: bool) -> Move
    ensures stands { (moments : List Moment) → SelectorStands selector.old moments
        → SelectorStands selector.new
        (if is_alive health then Ticked tick all_up ∷ moments else moments) }
    ensures answer { (moments : List Moment) → SelectorStands selector.old moments → result
        ≡ (if is_alive health
        then move_of (choice_after moments) (choice_after (Ticked tick all_up ∷ moments))
        else Move.Stay) }
{
    match health {
        Health::Testing { .. } => Move::Stay,
        Health::Alive => selector.clock(tick, all_up),
        Health::Dark => Move::Stay,
    }
}

/// Notes which port was left and which was selected.
fn note_move(moved: &Move, notes: &mut Notes)
    requires { length notes.old.items + 2 ≤ NOTES_MAX }
    ensures { notes.new.items ≡ notes.old.items ++ move_notes moved.now }
{
    match moved {
        Move::Stay => {}
        Move::Leave(left, _) => notes.push(Note::Leave(*left)),
        Move::Enter(port) => notes.push(Note::Select(*port)),
        Move::LeaveEnter(left, port) => {
            notes.push(Note::Leave(*left));
            notes.push(Note::Select(*port));
        }
    }
}

/// Notes that the switch became alive or dark.
fn note_change(change: HealthChange, panel: &Panel, notes: &mut Notes)
    requires { notes.old.items ≡ [] }
    ensures { notes.new.items ≡ change_notes panel.now change }
{
    match change {
        HealthChange::Stays => {}
        HealthChange::Wakes => notes.push(Note::Alive),
        HealthChange::Darkens => notes.push(Note::Dark(reason_for(panel))),
    }
}
