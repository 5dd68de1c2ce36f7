//! The token's power, its enumeration and its routing, with the bridge.
ghost use Rattle.std.specs.Prelude.{◌≡◌, ◌+◌, ◌<◌, ◌≤◌, ◌++◌, List, [], ◌∷◌, length, true, false, IsTrue, None, Some, if◌then◌else◌};
ghost use Rattle.psd_base.specs.declared.console.TheConstants.{NOTES_MAX};
ghost use Rattle.psd_base.specs.declared.orders.TheConstants.{ORDERS_MAX};
ghost use Rattle.psd_base.specs.declared.console.Plug.TheVariants.{Token};
ghost use Rattle.peripheral_filter.specs.declared.rule.RuleSet.{RuleSet};
ghost use Rattle.peripheral_filter.specs.Steps.{is_packet_size};
ghost use Rattle.console_host.specs.Replies.{reply_of};
ghost use Rattle.console_host.specs.Lives.{Call, Began, standing, is_ready_in, is_silent_in, shape_of_life};
ghost use Rattle.console_host.specs.Stands.{AttachmentStands};
ghost use Rattle.console_plug.specs.PlugGives.{silence_notes};
ghost use Rattle.console_plug.specs.PlugStands.{power_of};
ghost use Rattle.auth_router.specs.SlotCalls.{SlotCall, Attach, Clock, Leave, Bar, Check, Route};
ghost use Rattle.auth_router.specs.Slot.{lives, state_after};
ghost use Rattle.auth_router.specs.SlotStands.{SlotStands};
ghost use Rattle.auth_router.specs.Bridge.{BridgePast, IsDown, after_act, after_done, bridge_answer, bridge_made, bridge_takes};
ghost use Rattle.auth_router.specs.BridgeStands.{BridgeStands, jobs_of};
ghost use Rattle.token_plug.specs.Moments.{Moment, Attached, Detached, Replied, Ticked, Woke, Darkened, Left, Selected};
ghost use Rattle.token_plug.specs.Lives.{Told, life_of, powered, left, waited, chosen, is_checked, power_in, routed_to};
ghost use Rattle.token_plug.specs.Routing.{brought_up, bridged, up_of, routed_at, bridge_at, port_of};
ghost use Rattle.token_plug.specs.TokenGives.{orders_between, routing_notes, orders_at, notes_at};
ghost use Rattle.token_plug.specs.Acts.{answer_at, jobs_at, job_orders, acted_at, is_routed_to};

use auth_router::{Bridge, SlotState, TokenSlot, Up};
use console_host::{Attachment, Next, SILENT, Shape};
use peripheral_filter::RuleSet;
use psd_base::act::{Act, Answer};
use psd_base::console::{Note, Notes, Order, Orders, Plug, RuleName};
use psd_base::event::Tick;
use psd_base::port::PortId;

/// The token's plug.
///
/// A life is a span with power; lives are numbered from 1. The promises of a call hold for whatever happened to the token
/// before, and whatever came to its bridge. Orders and notes are appended, in their order.
#[derive(Drop)]
pub struct TokenPlug {
    /// Whether the switch is alive.
    alive: bool,
    attached: bool,
    selected: Option<PortId>,
    slot: TokenSlot,
    attachment: Attachment,
    bridge: Bridge,
}

impl TokenPlug {
    ghost use Rattle.token_plug.specs.TokenStands.{TokenStands, PartsStand, WaitsAsking};

    /// No token was attached yet, and the switch isn't alive.
    pub fn new() -> TokenPlug
        ensures stands { (rules : RuleSet) → TokenStands rules result [] IsDown }
        ensures unused { result.slot.life ≡ 0 }
        ensures no_jobs { jobs_of result.bridge ≡ 0 }
    {
        TokenPlug {
            alive: false,
            attached: false,
            selected: None,
            slot: TokenSlot::new(),
            attachment: Attachment::new(Plug::Token),
            bridge: Bridge::new(),
        }
    }

    /// The token is attached. While the switch is alive it gets power at once, if it never had any. Where it is there
    /// already, nothing happens.
    pub fn attach(&mut self, tick: Tick, orders: &mut Orders)
        requires lives { self.old.slot.life < u32.MAX }
        requires room { length orders.old.items + 2 ≤ ORDERS_MAX }
        ensures stands { (rules : RuleSet) (past : List Moment) (bridge : BridgePast)
            → TokenStands rules self.old past bridge
            → TokenStands rules self.new (Attached tick ∷ past)
            (bridge_at rules (Attached tick) past bridge) }
        ensures orders { (rules : RuleSet) (past : List Moment) (bridge : BridgePast)
            → TokenStands rules self.old past bridge
            → orders.new.items ≡ orders.old.items ++ orders_at rules (Attached tick) past }
        ensures few { self.new.slot.life ≤ self.old.slot.life + 1 }
        ensures few_orders { length orders.new.items ≤ length orders.old.items + 2 }
        ensures few_jobs { jobs_of self.new.bridge ≤ jobs_of self.old.bridge }
    {
        self.attached = true;
        if self.alive {
            self.arrive(tick, orders);
        }
    }

    /// The switch becomes alive. A token that is there gets power, if it never had any.
    pub fn wake(&mut self, tick: Tick, orders: &mut Orders)
        requires lives { self.old.slot.life < u32.MAX }
        requires room { length orders.old.items + 2 ≤ ORDERS_MAX }
        ensures stands { (rules : RuleSet) (past : List Moment) (bridge : BridgePast)
            → TokenStands rules self.old past bridge
            → TokenStands rules self.new (Woke tick ∷ past) (bridge_at rules (Woke tick) past bridge) }
        ensures orders { (rules : RuleSet) (past : List Moment) (bridge : BridgePast)
            → TokenStands rules self.old past bridge
            → orders.new.items ≡ orders.old.items ++ orders_at rules (Woke tick) past }
        ensures few { self.new.slot.life ≤ self.old.slot.life + 1 }
        ensures few_orders { length orders.new.items ≤ length orders.old.items + 2 }
        ensures few_jobs { jobs_of self.new.bridge ≤ jobs_of self.old.bridge }
    {
        self.alive = true;
        if self.attached {
            self.arrive(tick, orders);
        }
    }

    /// The token is taken off, if it is there.
    pub fn detach(&mut self, tick: Tick, orders: &mut Orders)
        requires room { length orders.old.items + 1 ≤ ORDERS_MAX }
        ensures stands { (rules : RuleSet) (past : List Moment) (bridge : BridgePast)
            → TokenStands rules self.old past bridge
            → TokenStands rules self.new (Detached tick ∷ past)
            (bridge_at rules (Detached tick) past bridge) }
        ensures orders { (rules : RuleSet) (past : List Moment) (bridge : BridgePast)
            → TokenStands rules self.old past bridge
            → orders.new.items ≡ orders.old.items ++ orders_at rules (Detached tick) past }
        ensures few { self.new.slot.life ≡ self.old.slot.life }
        ensures few_orders { length orders.new.items ≤ length orders.old.items + 1 }
        ensures few_jobs { jobs_of self.new.bridge ≤ jobs_of self.old.bridge }
    {
        self.attached = false;
        self.attachment.detach();
        let goes_off = self.slot.detach(tick);
        self.part(goes_off, orders);
    }

    /// The switch goes dark. Nothing is selected any more.
    pub fn darken(&mut self, tick: Tick, orders: &mut Orders)
        requires room { length orders.old.items + 1 ≤ ORDERS_MAX }
        ensures stands { (rules : RuleSet) (past : List Moment) (bridge : BridgePast)
            → TokenStands rules self.old past bridge
            → TokenStands rules self.new (Darkened tick ∷ past)
            (bridge_at rules (Darkened tick) past bridge) }
        ensures orders { (rules : RuleSet) (past : List Moment) (bridge : BridgePast)
            → TokenStands rules self.old past bridge
            → orders.new.items ≡ orders.old.items ++ orders_at rules (Darkened tick) past }
        ensures few { self.new.slot.life ≡ self.old.slot.life }
        ensures few_orders { length orders.new.items ≤ length orders.old.items + 1 }
        ensures few_jobs { jobs_of self.new.bridge ≤ jobs_of self.old.bridge }
    {
        self.alive = false;
        self.depart(tick, orders);
    }

    /// The selected port is left. The token loses its power, so that no other computer finds it as this one left it.
    pub fn leave(&mut self, tick: Tick, orders: &mut Orders)
        requires room { length orders.old.items + 1 ≤ ORDERS_MAX }
        ensures stands { (rules : RuleSet) (past : List Moment) (bridge : BridgePast)
            → TokenStands rules self.old past bridge
            → TokenStands rules self.new (Left tick ∷ past) (bridge_at rules (Left tick) past bridge) }
        ensures orders { (rules : RuleSet) (past : List Moment) (bridge : BridgePast)
            → TokenStands rules self.old past bridge
            → orders.new.items ≡ orders.old.items ++ orders_at rules (Left tick) past }
        ensures few { self.new.slot.life ≡ self.old.slot.life }
        ensures few_orders { length orders.new.items ≤ length orders.old.items + 1 }
        ensures few_jobs { jobs_of self.new.bridge ≤ jobs_of self.old.bridge }
    {
        self.depart(tick, orders);
    }

    /// Time passes. A token whose order has been outstanding too long is refused. Then one that is there without power, and
    /// wasn't refused, gets power where it has rested for `RESET` ticks.
    pub fn clock(&mut self, tick: Tick, orders: &mut Orders, notes: &mut Notes)
        requires lives { self.old.slot.life < u32.MAX }
        requires room { length orders.old.items + 3 ≤ ORDERS_MAX }
        requires lines { length notes.old.items + 1 ≤ NOTES_MAX }
        ensures stands { (rules : RuleSet) (past : List Moment) (bridge : BridgePast)
            → TokenStands rules self.old past bridge
            → TokenStands rules self.new (Ticked tick ∷ past) (bridge_at rules (Ticked tick) past bridge) }
        ensures orders { (rules : RuleSet) (past : List Moment) (bridge : BridgePast)
            → TokenStands rules self.old past bridge
            → orders.new.items ≡ orders.old.items ++ orders_at rules (Ticked tick) past }
        ensures notes { (rules : RuleSet) (past : List Moment) (bridge : BridgePast)
            → TokenStands rules self.old past bridge
            → notes.new.items ≡ notes.old.items ++ notes_at rules (Ticked tick) past }
        ensures few { self.new.slot.life ≤ self.old.slot.life + 1 }
        ensures few_orders { length orders.new.items ≤ length orders.old.items + 3 }
        ensures few_notes { length notes.new.items ≤ length notes.old.items + 1 }
        ensures few_jobs { jobs_of self.new.bridge ≤ jobs_of self.old.bridge }
    {
        self.wait(tick, orders, notes);
        if self.alive {
            self.rest(tick, orders);
        }
    }

    /// The token replies to the order of this number in this life. One to no outstanding order changes nothing. A token
    /// that is accepted is routed to the selected port, if there is one.
    pub fn reply(
        &mut self,
        rules: &RuleSet,
        life: u32,
        number: u32,
        tick: Tick,
        status: u8,
        bytes: &[u8],
        orders: &mut Orders,
        notes: &mut Notes,
    )
        requires room { length orders.old.items + 1 ≤ ORDERS_MAX }
        requires empty { notes.old.items ≡ [] }
        ensures stands { (past : List Moment) (bridge : BridgePast)
            → TokenStands rules.now self.old past bridge
            → TokenStands rules.now self.new
            (Replied life number tick (reply_of status bytes.now) ∷ past)
            (bridge_at rules.now (Replied life number tick (reply_of status bytes.now)) past bridge) }
        ensures orders { (past : List Moment) (bridge : BridgePast)
            → TokenStands rules.now self.old past bridge
            → orders.new.items ≡ orders.old.items
            ++ orders_at rules.now (Replied life number tick (reply_of status bytes.now)) past }
        ensures notes { (past : List Moment) (bridge : BridgePast)
            → TokenStands rules.now self.old past bridge
            → notes.new.items
            ≡ notes_at rules.now (Replied life number tick (reply_of status bytes.now)) past }
        ensures few { self.new.slot.life ≡ self.old.slot.life }
        ensures few_orders { length orders.new.items ≤ length orders.old.items + 1 }
        ensures few_jobs { jobs_of self.new.bridge ≤ jobs_of self.old.bridge }
    {
        if !self.is_asking() {
            return;
        }
        match self
            .attachment
            .reply(rules, life, number, tick, status, bytes, notes)
        {
            Next::Ask(order) => orders.push(order),
            Next::Ready => self.accept(notes),
            Next::Refused(rule) => self.refuse(tick, rule, orders),
            Next::Ignored => {}
        }
    }

    /// A port is selected. A token that was accepted is routed to it. Where one is selected already, nothing happens.
    pub fn select(&mut self, port: PortId, notes: &mut Notes)
        requires lines { length notes.old.items + 1 ≤ NOTES_MAX }
        ensures stands { (rules : RuleSet) (past : List Moment) (bridge : BridgePast)
            → TokenStands rules self.old past bridge
            → TokenStands rules self.new (Selected port ∷ past)
            (bridge_at rules (Selected port) past bridge) }
        ensures notes { (rules : RuleSet) (past : List Moment) (bridge : BridgePast)
            → TokenStands rules self.old past bridge
            → notes.new.items ≡ notes.old.items ++ notes_at rules (Selected port) past }
        ensures few { self.new.slot.life ≡ self.old.slot.life }
        ensures few_notes { length notes.new.items ≤ length notes.old.items + 1 }
        ensures few_jobs { jobs_of self.new.bridge ≤ jobs_of self.old.bridge }
    {
        match self.selected {
            Some(_) => {}
            None => self.choose(port, notes),
        }
    }

    /// The port to which the token is routed.
    pub fn routed(&self) -> Option<PortId>
        ensures value { result ≡ port_of self.now.slot.state }
        ensures routed { (rules : RuleSet) (past : List Moment) (bridge : BridgePast)
            → TokenStands rules self.now past bridge → result ≡ routed_at rules past }
    {
        match self.slot.state() {
            SlotState::Routed(port) => Some(port),
            SlotState::Absent => None,
            SlotState::Off { .. } => None,
            SlotState::Asking => None,
            SlotState::Checked => None,
            SlotState::Barred(_) => None,
        }
    }

    /// Takes an act of a port's computer at its token connector. Writes what it is answered over what was there, and appends
    /// the job for the token that it makes. A port to which the token isn't routed finds nothing there.
    pub fn answer(&mut self, port: PortId, act: &Act, answer: &mut Answer, orders: &mut Orders)
        requires jobs { jobs_of self.old.bridge < u32.MAX }
        requires room { length orders.old.items + 1 ≤ ORDERS_MAX }
        ensures stands { (rules : RuleSet) (past : List Moment) (bridge : BridgePast)
            → TokenStands rules self.old past bridge
            → TokenStands rules self.new past (acted_at port act.now (routed_at rules past) bridge) }
        ensures answer { (rules : RuleSet) (past : List Moment) (bridge : BridgePast)
            → TokenStands rules self.old past bridge
            → answer.new ≡ answer_at port act.now (routed_at rules past) bridge }
        ensures orders { (rules : RuleSet) (past : List Moment) (bridge : BridgePast)
            → TokenStands rules self.old past bridge
            → orders.new.items ≡ orders.old.items ++ jobs_at port act.now (routed_at rules past) bridge }
        ensures few { self.new.slot.life ≡ self.old.slot.life }
        ensures few_orders { length orders.new.items ≤ length orders.old.items + 1 }
        ensures few_jobs { jobs_of self.new.bridge ≤ jobs_of self.old.bridge + 1 }
    {
        if self.is_routed_to(port) {
            cross(&mut self.bridge, act, answer, orders);
        } else {
            *answer = Answer::Silent;
        }
    }

    /// Takes the token's word that a job of a life is done, with a status and bytes. False exactly for a life that isn't
    /// routed, for another number than that of the outstanding job, or where none is outstanding; and then nothing changes.
    pub fn done(&mut self, life: u32, number: u32, status: u8, bytes: &[u8]) -> bool
        ensures stands { (rules : RuleSet) (past : List Moment) (bridge : BridgePast)
            → TokenStands rules self.old past bridge
            → TokenStands rules self.new past (after_done life number status bytes.now bridge) }
        ensures taken { (rules : RuleSet) (past : List Moment) (bridge : BridgePast)
            → TokenStands rules self.old past bridge
            → result ≡ bridge_takes life number bridge }
        ensures few { self.new.slot.life ≡ self.old.slot.life }
        ensures few_jobs { jobs_of self.new.bridge ≤ jobs_of self.old.bridge }
    {
        self.bridge.done(life, number, status, bytes)
    }

    fn is_asking(&self) -> bool
        ensures asking { result ≡ true → self.now.slot.state ≡ SlotState.Asking }
        ensures other { result ≡ false → self.now.slot.state ≡ SlotState.Asking → ⊥ }
    {
        match self.slot.state() {
            SlotState::Asking => true,
            SlotState::Absent => false,
            SlotState::Off { .. } => false,
            SlotState::Checked => false,
            SlotState::Routed(_) => false,
            SlotState::Barred(_) => false,
        }
    }

    fn is_checked(&self) -> bool
        ensures value { result ≡ is_checked self.now.slot.state }
        ensures checked { result ≡ true → self.now.slot.state ≡ SlotState.Checked }
    {
        match self.slot.state() {
            SlotState::Checked => true,
            SlotState::Absent => false,
            SlotState::Off { .. } => false,
            SlotState::Asking => false,
            SlotState::Routed(_) => false,
            SlotState::Barred(_) => false,
        }
    }

    fn is_routed_to(&self, port: PortId) -> bool
        ensures { result ≡ is_routed_to port (port_of self.now.slot.state) }
    {
        match self.slot.state() {
            SlotState::Routed(routed) => routed == port,
            SlotState::Absent => false,
            SlotState::Off { .. } => false,
            SlotState::Asking => false,
            SlotState::Checked => false,
            SlotState::Barred(_) => false,
        }
    }

    /// A token is there while the switch is alive.
    fn arrive(&mut self, tick: Tick, orders: &mut Orders)
        requires lives { self.old.slot.life < u32.MAX }
        requires room { length orders.old.items + 2 ≤ ORDERS_MAX }
        ensures setting { (self.new.alive ≡ self.old.alive) × (self.new.attached ≡ self.old.attached)
            × (self.new.selected ≡ self.old.selected) × (self.new.bridge ≡ self.old.bridge) }
        ensures parts { (rules : RuleSet) (told : Told) → PartsStand rules self.old told
            → PartsStand rules self.new (powered tick Attach told) }
        ensures orders { (rules : RuleSet) (told : Told) → PartsStand rules self.old told
            → orders.new.items ≡ orders.old.items
            ++ orders_between (power_in told.slot) (power_in (Attach ∷ told.slot)) }
        ensures few { self.new.slot.life ≤ self.old.slot.life + 1 }
        ensures few_orders { length orders.new.items ≤ length orders.old.items + 2 }
    {
        if self.slot.attach() {
            self.begin(tick, orders);
        }
    }

    /// Time passes for a token without power.
    fn rest(&mut self, tick: Tick, orders: &mut Orders)
        requires lives { self.old.slot.life < u32.MAX }
        requires room { length orders.old.items + 2 ≤ ORDERS_MAX }
        ensures setting { (self.new.alive ≡ self.old.alive) × (self.new.attached ≡ self.old.attached)
            × (self.new.selected ≡ self.old.selected) × (self.new.bridge ≡ self.old.bridge) }
        ensures parts { (rules : RuleSet) (told : Told) → PartsStand rules self.old told
            → PartsStand rules self.new (powered tick (Clock tick) told) }
        ensures orders { (rules : RuleSet) (told : Told) → PartsStand rules self.old told
            → orders.new.items ≡ orders.old.items
            ++ orders_between (power_in told.slot) (power_in (Clock tick ∷ told.slot)) }
        ensures few { self.new.slot.life ≤ self.old.slot.life + 1 }
        ensures few_orders { length orders.new.items ≤ length orders.old.items + 2 }
    {
        if self.slot.clock(tick) {
            self.begin(tick, orders);
        }
    }

    /// Power came on: a life begins, and the first order is given.
    fn begin(&mut self, tick: Tick, orders: &mut Orders)
        requires room { length orders.old.items + 2 ≤ ORDERS_MAX }
        ensures setting { (self.new.alive ≡ self.old.alive) × (self.new.attached ≡ self.old.attached)
            × (self.new.selected ≡ self.old.selected) × (self.new.bridge ≡ self.old.bridge) }
        ensures slot { self.new.slot ≡ self.old.slot }
        ensures attachment { (rules : RuleSet) (calls : List Call)
            → AttachmentStands Token rules self.old.attachment calls
            → AttachmentStands Token rules self.new.attachment (Began self.old.slot.life tick ∷ calls) }
        ensures orders { (rules : RuleSet) (calls : List Call)
            → AttachmentStands Token rules self.old.attachment calls
            → orders.new.items ≡ orders.old.items ++ orders_between None (Some self.old.slot.life) }
        ensures few_orders { length orders.new.items ≤ length orders.old.items + 2 }
    {
        let life = self.slot.life();
        orders.push(Order::On {
            plug: Plug::Token,
            life,
        });
        orders.push(self.attachment.begin(life, tick));
    }

    /// The selected port is left, or the switch goes dark.
    fn depart(&mut self, tick: Tick, orders: &mut Orders)
        requires room { length orders.old.items + 1 ≤ ORDERS_MAX }
        ensures setting { (self.new.alive ≡ self.old.alive) × (self.new.attached ≡ self.old.attached)
            × (self.new.selected ≡ None) × (self.new.bridge ≡ None) }
        ensures parts { (rules : RuleSet) (told : Told) → PartsStand rules self.old told
            → PartsStand rules self.new (left tick told) }
        ensures orders { (rules : RuleSet) (told : Told) → PartsStand rules self.old told
            → orders.new.items ≡ orders.old.items
            ++ orders_between (power_in told.slot) (power_in (Leave tick ∷ told.slot)) }
        ensures few { self.new.slot.life ≡ self.old.slot.life }
        ensures few_orders { length orders.new.items ≤ length orders.old.items + 1 }
    {
        self.selected = None;
        self.attachment.drop_life();
        let goes_off = self.slot.leave(tick);
        self.part(goes_off, orders);
    }

    /// The token is refused by this rule. It isn't routed yet, so its bridge is down.
    fn refuse(&mut self, tick: Tick, rule: RuleName, orders: &mut Orders)
        requires asking { self.old.slot.state ≡ SlotState.Asking }
        requires room { length orders.old.items + 1 ≤ ORDERS_MAX }
        ensures setting { (self.new.alive ≡ self.old.alive) × (self.new.attached ≡ self.old.attached)
            × (self.new.selected ≡ self.old.selected) × (self.new.bridge ≡ self.old.bridge) }
        ensures attachment { self.new.attachment ≡ self.old.attachment }
        ensures slot { (calls : List SlotCall) → SlotStands self.old.slot calls
            → SlotStands self.new.slot (Bar tick rule ∷ calls) }
        ensures orders { (calls : List SlotCall) → SlotStands self.old.slot calls
            → orders.new.items ≡ orders.old.items
            ++ orders_between (power_in calls) (power_in (Bar tick rule ∷ calls)) }
        ensures few { self.new.slot.life ≡ self.old.slot.life }
        ensures few_orders { length orders.new.items ≤ length orders.old.items + 1 }
    {
        if self.slot.bar(tick, rule) {
            self.order_off(orders);
        }
    }

    /// The token is parted from its computer: the bridge goes down, and so does the power if there was some.
    fn part(&mut self, goes_off: bool, orders: &mut Orders)
        requires room { length orders.old.items + 1 ≤ ORDERS_MAX }
        ensures setting { (self.new.alive ≡ self.old.alive) × (self.new.attached ≡ self.old.attached)
            × (self.new.selected ≡ self.old.selected) × (self.new.bridge ≡ None) }
        ensures parts { (self.new.slot ≡ self.old.slot) × (self.new.attachment ≡ self.old.attachment) }
        ensures orders { orders.new.items ≡ orders.old.items
            ++ orders_between (power_of goes_off self.old.slot.life) None }
        ensures few_orders { length orders.new.items ≤ length orders.old.items + 1 }
    {
        self.bridge.down();
        if goes_off {
            self.order_off(orders);
        }
    }

    /// The console is told that power goes off.
    fn order_off(&self, orders: &mut Orders)
        requires room { length orders.old.items + 1 ≤ ORDERS_MAX }
        ensures orders { orders.new.items ≡ orders.old.items
            ++ orders_between (Some self.now.slot.life) None }
        ensures few_orders { length orders.new.items ≤ length orders.old.items + 1 }
    {
        orders.push(Order::Off {
            plug: Plug::Token,
            life: self.slot.life(),
        });
    }

    /// Judges whether the token stayed silent too long.
    fn wait(&mut self, tick: Tick, orders: &mut Orders, notes: &mut Notes)
        requires room { length orders.old.items + 1 ≤ ORDERS_MAX }
        requires lines { length notes.old.items + 1 ≤ NOTES_MAX }
        ensures setting { (self.new.alive ≡ self.old.alive) × (self.new.attached ≡ self.old.attached)
            × (self.new.selected ≡ self.old.selected) × (self.new.bridge ≡ self.old.bridge) }
        ensures parts { (rules : RuleSet) (told : Told) → PartsStand rules self.old told
            → WaitsAsking rules self.old told
            → PartsStand rules self.new (waited rules tick told) }
        ensures orders { (rules : RuleSet) (told : Told) → PartsStand rules self.old told
            → WaitsAsking rules self.old told
            → orders.new.items ≡ orders.old.items
            ++ orders_between (power_in told.slot) (power_in (waited rules tick told).slot) }
        ensures notes { (rules : RuleSet) (told : Told) → PartsStand rules self.old told
            → WaitsAsking rules self.old told
            → notes.new.items ≡ notes.old.items
            ++ silence_notes Token (is_silent_in Token rules tick (life_of rules told)) }
        ensures few { self.new.slot.life ≡ self.old.slot.life }
        ensures few_orders { length orders.new.items ≤ length orders.old.items + 1 }
        ensures few_notes { length notes.new.items ≤ length notes.old.items + 1 }
    {
        if !self.is_asking() {
            return;
        }
        if self.attachment.clock(tick) {
            self.refuse(tick, SILENT, orders);
            notes.push(Note::Refused {
                plug: Plug::Token,
                rule: SILENT,
            });
        }
    }

    /// The token is accepted. It is routed to the selected port, if there is one.
    fn accept(&mut self, notes: &mut Notes)
        requires asking { self.old.slot.state ≡ SlotState.Asking }
        requires lines { length notes.old.items + 1 ≤ NOTES_MAX }
        ensures setting { (self.new.alive ≡ self.old.alive) × (self.new.attached ≡ self.old.attached)
            × (self.new.selected ≡ self.old.selected) × (self.new.attachment ≡ self.old.attachment) }
        ensures slot { (rules : RuleSet) (told : Told) → PartsStand rules self.old told
            → IsTrue (is_ready_in Token rules (life_of rules told))
            → SlotStands self.new.slot (routed_to self.old.selected (Check ∷ told.slot)) }
        ensures bridge { (rules : RuleSet) (told : Told) → PartsStand rules self.old told
            → IsTrue (is_ready_in Token rules (life_of rules told))
            → BridgeStands self.old.bridge IsDown
            → BridgeStands self.new.bridge (bridged None self.old.selected
            (up_of (lives told.slot) (shape_of_life Token rules (life_of rules told))) IsDown) }
        ensures notes { (rules : RuleSet) (told : Told) → PartsStand rules self.old told
            → IsTrue (is_ready_in Token rules (life_of rules told))
            → notes.new.items ≡ notes.old.items ++ routing_notes None self.old.selected }
        ensures few { self.new.slot.life ≡ self.old.slot.life }
        ensures few_jobs { jobs_of self.new.bridge ≤ jobs_of self.old.bridge }
    {
        self.slot.checked();
        match self.selected {
            Some(port) => self.route(port, notes),
            None => {}
        }
    }

    /// A port is selected where none was.
    fn choose(&mut self, port: PortId, notes: &mut Notes)
        requires lines { length notes.old.items + 1 ≤ NOTES_MAX }
        ensures setting { (self.new.alive ≡ self.old.alive) × (self.new.attached ≡ self.old.attached)
            × (self.new.selected ≡ Some port) × (self.new.attachment ≡ self.old.attachment) }
        ensures slot { (rules : RuleSet) (told : Told) → PartsStand rules self.old told
            → (IsTrue (is_checked (state_after told.slot))
            → IsTrue (is_ready_in Token rules (life_of rules told)))
            → SlotStands self.new.slot (chosen None port told).slot }
        ensures bridge { (rules : RuleSet) (told : Told) → PartsStand rules self.old told
            → (IsTrue (is_checked (state_after told.slot))
            → IsTrue (is_ready_in Token rules (life_of rules told)))
            → (bridge : BridgePast) → BridgeStands self.old.bridge bridge
            → BridgeStands self.new.bridge (if is_checked (state_after told.slot)
            then brought_up
            (up_of (lives told.slot) (shape_of_life Token rules (life_of rules told))) else bridge) }
        ensures notes { (rules : RuleSet) (told : Told) → PartsStand rules self.old told
            → (IsTrue (is_checked (state_after told.slot))
            → IsTrue (is_ready_in Token rules (life_of rules told)))
            → notes.new.items ≡ notes.old.items
            ++ (if is_checked (state_after told.slot) then Note.Routed port ∷ [] else []) }
        ensures few { self.new.slot.life ≡ self.old.slot.life }
        ensures few_notes { length notes.new.items ≤ length notes.old.items + 1 }
        ensures few_jobs { jobs_of self.new.bridge ≤ jobs_of self.old.bridge }
    {
        self.selected = Some(port);
        if self.is_checked() {
            self.route(port, notes);
        }
    }

    /// The token, which was accepted, is routed to this port: a bridge is up for its life.
    fn route(&mut self, port: PortId, notes: &mut Notes)
        requires checked { self.old.slot.state ≡ SlotState.Checked }
        requires lines { length notes.old.items + 1 ≤ NOTES_MAX }
        ensures setting { (self.new.alive ≡ self.old.alive) × (self.new.attached ≡ self.old.attached)
            × (self.new.selected ≡ self.old.selected) × (self.new.attachment ≡ self.old.attachment) }
        ensures slot { (rules : RuleSet) (calls : List Call)
            → AttachmentStands Token rules self.old.attachment calls
            → IsTrue (is_ready_in Token rules (standing Token rules calls).life)
            → (told : List SlotCall) → SlotStands self.old.slot told
            → SlotStands self.new.slot (Route port ∷ told) }
        ensures bridge { (rules : RuleSet) (calls : List Call)
            → AttachmentStands Token rules self.old.attachment calls
            → IsTrue (is_ready_in Token rules (standing Token rules calls).life)
            → BridgeStands self.new.bridge (brought_up
            (up_of self.old.slot.life (shape_of_life Token rules (standing Token rules calls).life))) }
        ensures notes { (rules : RuleSet) (calls : List Call)
            → AttachmentStands Token rules self.old.attachment calls
            → IsTrue (is_ready_in Token rules (standing Token rules calls).life)
            → notes.new.items ≡ notes.old.items ++ Note.Routed port ∷ [] }
        ensures few { self.new.slot.life ≡ self.old.slot.life }
        ensures few_notes { length notes.new.items ≤ length notes.old.items + 1 }
        ensures few_jobs { jobs_of self.new.bridge ≤ jobs_of self.old.bridge }
    {
        match self.attachment.shape() {
            None => {}
            Some(shape) => {
                self.bridge = bridge_for(self.slot.life(), shape);
                self.slot.route(port);
                notes.push(Note::Routed(port));
            }
        }
    }
}

/// A bridge that is up for a life of a token of this shape.
fn bridge_for(life: u32, shape: Shape) -> Bridge
    requires sized { IsTrue (is_packet_size shape.max0) }
    ensures stands { BridgeStands result (brought_up (up_of life (Some shape))) }
    ensures none { jobs_of result ≡ 0 }
{
    let mut bridge = Bridge::new();
    bridge.up(Up {
        life,
        value: shape.value,
        max0: shape.max0,
        ins: shape.ins,
        outs: shape.outs,
    });
    bridge
}

/// Takes an act at the bridge, and appends the job that it makes.
fn cross(bridge: &mut Bridge, act: &Act, answer: &mut Answer, orders: &mut Orders)
    requires jobs { jobs_of bridge.old < u32.MAX }
    requires room { length orders.old.items + 1 ≤ ORDERS_MAX }
    ensures stands { (past : BridgePast) → BridgeStands bridge.old past
        → BridgeStands bridge.new (after_act act.now past) }
    ensures answer { (past : BridgePast) → BridgeStands bridge.old past
        → answer.new ≡ bridge_answer past act.now }
    ensures orders { (past : BridgePast) → BridgeStands bridge.old past
        → orders.new.items ≡ orders.old.items ++ job_orders (bridge_made past act.now) }
    ensures few_orders { length orders.new.items ≤ length orders.old.items + 1 }
    ensures few_jobs { jobs_of bridge.new ≤ jobs_of bridge.old + 1 }
{
    bridge.answer(act, answer, orders);
}
