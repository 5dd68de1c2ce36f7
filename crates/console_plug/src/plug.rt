//! The power of one plug, and the enumeration of the peripheral in it.
ghost use Rattle.std.specs.Prelude.{◌≡◌, ◌+◌, ◌<◌, ◌≤◌, ◌++◌, List, [], ◌∷◌, length, true, false, ◌&&◌, IsTrue, None, Some, IfSome, option_copied};
ghost use Rattle.psd_base.specs.declared.console.TheConstants.{NOTES_MAX};
ghost use Rattle.psd_base.specs.declared.orders.TheConstants.{ORDERS_MAX};
ghost use Rattle.psd_base.specs.declared.console.Plug.{Plug};
ghost use Rattle.peripheral_filter.specs.declared.rule.RuleSet.{RuleSet};
ghost use Rattle.console_host.specs.Replies.{reply_of};
ghost use Rattle.console_plug.specs.Moments.{Moment, Attached, Detached, Replied, Reported, Ticked, Woke, Darkened};
ghost use Rattle.console_plug.specs.PlugGives.{first_ask, notes_at, orders_at, power_orders};
ghost use Rattle.console_host.specs.Lives.{Call, Began, accepted_of, is_ready_in, layout_in, place_in};
ghost use Rattle.console_host.specs.declared.fit.TheConstants.{INTERFACES_MAX};
ghost use Rattle.console_plug.specs.Lives.{is_attached, life_at};

use console_host::{Attachment, Next, SILENT};
use hid_report::Layout;
use peripheral_filter::RuleSet;
use psd_base::console::{Note, Notes, Order, Orders, Plug};
use psd_base::event::Tick;

/// One plug of the console: whether a peripheral is there, whether it has power, and its enumeration.
///
/// A life is a span with power; lives are numbered from 1. The promises of a call hold for whatever happened at the plug
/// before. Orders and notes are appended, in their order.
#[derive(Drop)]
pub struct ConsolePlug {
    plug: Plug,
    /// Whether the switch is alive.
    alive: bool,
    attached: bool,
    /// The number of the last life.
    life: u32,
    powered: bool,
    attachment: Attachment,
    ghost only_then: { IsTrue powered → IsTrue (alive && attached) },
}

impl ConsolePlug {
    ghost use Rattle.console_plug.specs.PlugStands.{PlugStands, power_of};
    ghost use Rattle.console_host.specs.Stands.{AttachmentStands};

    /// A plug to which nothing was attached yet, of a switch that isn't alive.
    pub fn new(plug: Plug) -> ConsolePlug
        ensures stands { (rules : RuleSet) → PlugStands plug rules result [] }
        ensures unused { result.life ≡ 0 }
    {
        ConsolePlug {
            plug,
            alive: false,
            attached: false,
            life: 0,
            powered: false,
            attachment: Attachment::new(plug),
        }
    }

    /// A peripheral is attached. It gets power at once while the switch is alive. Where one is there already, nothing
    /// happens.
    pub fn attach(&mut self, tick: Tick, orders: &mut Orders)
        requires lives { self.old.life < u32.MAX }
        requires room { length orders.old.items + 2 ≤ ORDERS_MAX }
        ensures stands { (plug : Plug) (rules : RuleSet) (past : List Moment)
            → PlugStands plug rules self.old past → PlugStands plug rules self.new (Attached tick ∷ past) }
        ensures orders { (plug : Plug) (rules : RuleSet) (past : List Moment)
            → PlugStands plug rules self.old past
            → orders.new.items ≡ orders.old.items ++ orders_at plug rules (Attached tick) past }
        ensures few { self.new.life ≤ self.old.life + 1 }
        ensures few_orders { length orders.new.items ≤ length orders.old.items + 2 }
    {
        if self.attached {
            return;
        }
        self.attached = true;
        if self.alive {
            self.begin(tick, orders);
        }
    }

    /// The switch becomes alive. A peripheral that is there gets power.
    pub fn wake(&mut self, tick: Tick, orders: &mut Orders)
        requires lives { self.old.life < u32.MAX }
        requires room { length orders.old.items + 2 ≤ ORDERS_MAX }
        ensures stands { (plug : Plug) (rules : RuleSet) (past : List Moment)
            → PlugStands plug rules self.old past → PlugStands plug rules self.new (Woke tick ∷ past) }
        ensures orders { (plug : Plug) (rules : RuleSet) (past : List Moment)
            → PlugStands plug rules self.old past
            → orders.new.items ≡ orders.old.items ++ orders_at plug rules (Woke tick) past }
        ensures few { self.new.life ≤ self.old.life + 1 }
        ensures few_orders { length orders.new.items ≤ length orders.old.items + 2 }
    {
        if self.alive {
            return;
        }
        self.alive = true;
        if self.attached {
            self.begin(tick, orders);
        }
    }

    /// The peripheral is taken off, if one is there.
    pub fn detach(&mut self, orders: &mut Orders)
        requires room { length orders.old.items + 1 ≤ ORDERS_MAX }
        ensures stands { (plug : Plug) (rules : RuleSet) (past : List Moment)
            → PlugStands plug rules self.old past → PlugStands plug rules self.new (Detached ∷ past) }
        ensures orders { (plug : Plug) (rules : RuleSet) (past : List Moment)
            → PlugStands plug rules self.old past
            → orders.new.items ≡ orders.old.items ++ orders_at plug rules Detached past }
        ensures few { self.new.life ≡ self.old.life }
        ensures few_orders { length orders.new.items ≤ length orders.old.items + 1 }
    {
        self.power_off(orders);
        self.attached = false;
        self.attachment.detach();
    }

    /// The switch goes dark.
    pub fn darken(&mut self, orders: &mut Orders)
        requires room { length orders.old.items + 1 ≤ ORDERS_MAX }
        ensures stands { (plug : Plug) (rules : RuleSet) (past : List Moment)
            → PlugStands plug rules self.old past → PlugStands plug rules self.new (Darkened ∷ past) }
        ensures orders { (plug : Plug) (rules : RuleSet) (past : List Moment)
            → PlugStands plug rules self.old past
            → orders.new.items ≡ orders.old.items ++ orders_at plug rules Darkened past }
        ensures few { self.new.life ≡ self.old.life }
        ensures few_orders { length orders.new.items ≤ length orders.old.items + 1 }
    {
        self.power_off(orders);
        self.alive = false;
        self.attachment.drop_life();
    }

    /// Time passes. A peripheral whose order has been outstanding too long is refused.
    pub fn clock(&mut self, tick: Tick, orders: &mut Orders, notes: &mut Notes)
        requires room { length orders.old.items + 1 ≤ ORDERS_MAX }
        requires lines { length notes.old.items + 1 ≤ NOTES_MAX }
        ensures stands { (plug : Plug) (rules : RuleSet) (past : List Moment)
            → PlugStands plug rules self.old past → PlugStands plug rules self.new (Ticked tick ∷ past) }
        ensures orders { (plug : Plug) (rules : RuleSet) (past : List Moment)
            → PlugStands plug rules self.old past
            → orders.new.items ≡ orders.old.items ++ orders_at plug rules (Ticked tick) past }
        ensures notes { (plug : Plug) (rules : RuleSet) (past : List Moment)
            → PlugStands plug rules self.old past
            → notes.new.items ≡ notes.old.items ++ notes_at plug rules (Ticked tick) past }
        ensures few { self.new.life ≡ self.old.life }
        ensures few_orders { length orders.new.items ≤ length orders.old.items + 1 }
        ensures few_notes { length notes.new.items ≤ length notes.old.items + 1 }
    {
        if self.attachment.clock(tick) {
            self.power_off(orders);
            notes.push(Note::Refused {
                plug: self.plug,
                rule: SILENT,
            });
        }
    }

    /// The peripheral replies to the order of this number in this life. One to no outstanding order changes nothing.
    pub fn reply(
        &mut self,
        rules: &RuleSet,
        life: u32,
        number: u32,
        tick: Tick,
        status: u8,
        bytes: &[u8],
        orders: &mut Orders,
        notes: &mut Notes,
    )
        requires room { length orders.old.items + 1 ≤ ORDERS_MAX }
        requires empty { notes.old.items ≡ [] }
        ensures stands { (plug : Plug) (past : List Moment) → PlugStands plug rules.now self.old past
            → PlugStands plug rules.now self.new
            (Replied life number tick (reply_of status bytes.now) ∷ past) }
        ensures orders { (plug : Plug) (past : List Moment) → PlugStands plug rules.now self.old past
            → orders.new.items ≡ orders.old.items
            ++ orders_at plug rules.now (Replied life number tick (reply_of status bytes.now)) past }
        ensures notes { (plug : Plug) (past : List Moment) → PlugStands plug rules.now self.old past
            → notes.new.items
            ≡ notes_at plug rules.now (Replied life number tick (reply_of status bytes.now)) past }
        ensures few { self.new.life ≡ self.old.life }
        ensures few_orders { length orders.new.items ≤ length orders.old.items + 1 }
    {
        match self
            .attachment
            .reply(rules, life, number, tick, status, bytes, notes)
        {
            Next::Ask(order) => orders.push(order),
            Next::Ready => {}
            Next::Refused(_) => self.power_off(orders),
            Next::Ignored => {}
        }
    }

    /// Whether a peripheral is there.
    pub fn is_attached(&self) -> bool
        ensures { (plug : Plug) (rules : RuleSet) (past : List Moment) → PlugStands plug rules self.now past
            → result ≡ is_attached past }
    {
        self.attached
    }

    /// Whether the present life is ready.
    pub fn is_ready(&self) -> bool
        ensures { (plug : Plug) (rules : RuleSet) (past : List Moment) → PlugStands plug rules self.now past
            → result ≡ is_ready_in plug rules (life_at plug rules past) }
    {
        self.attachment.is_ready()
    }

    /// The place of an interface among those that are accepted in the present life.
    pub fn place(&self, interface: u8) -> Option<usize>
        ensures place { (plug : Plug) (rules : RuleSet) (past : List Moment)
            → PlugStands plug rules self.now past
            → result ≡ place_in interface (accepted_of plug (life_at plug rules past)) }
        ensures within { IfSome result (λ place. place < INTERFACES_MAX) }
    {
        self.attachment.place(interface)
    }

    /// The layout of an interface that is accepted in the present life.
    pub fn layout(&self, interface: u8) -> Option<&Layout>
        ensures { (plug : Plug) (rules : RuleSet) (past : List Moment) → PlugStands plug rules self.now past
            → option_copied result ≡ layout_in interface (accepted_of plug (life_at plug rules past)) }
    {
        self.attachment.accepted(interface)
    }

    /// Gives power: a life begins.
    fn begin(&mut self, tick: Tick, orders: &mut Orders)
        requires lives { self.old.life < u32.MAX }
        requires may { IsTrue (self.old.alive && self.old.attached) }
        requires room { length orders.old.items + 2 ≤ ORDERS_MAX }
        ensures place { self.new.plug ≡ self.old.plug }
        ensures state { (self.new.alive ≡ self.old.alive) × (self.new.attached ≡ self.old.attached) }
        ensures power { (self.new.life ≡ self.old.life + 1) × (self.new.powered ≡ true) }
        ensures began { (plug : Plug) (rules : RuleSet) (calls : List Call)
            → AttachmentStands plug rules self.old.attachment calls
            → AttachmentStands plug rules self.new.attachment (Began (self.old.life + 1) tick ∷ calls) }
        ensures orders { (plug : Plug) (rules : RuleSet) (calls : List Call)
            → AttachmentStands plug rules self.old.attachment calls
            → orders.new.items
            ≡ orders.old.items ++ (power_orders self.old.plug None (Some (self.old.life + 1))
            ++ first_ask plug true (self.old.life + 1)) }
        ensures few_orders { length orders.new.items ≤ length orders.old.items + 2 }
    {
        self.life += 1;
        self.powered = true;
        orders.push(Order::On {
            plug: self.plug,
            life: self.life,
        });
        orders.push(self.attachment.begin(self.life, tick));
    }

    /// Takes the power away, if there is some.
    fn power_off(&mut self, orders: &mut Orders)
        requires { length orders.old.items + 1 ≤ ORDERS_MAX }
        ensures place { self.new.plug ≡ self.old.plug }
        ensures state { (self.new.alive ≡ self.old.alive) × (self.new.attached ≡ self.old.attached) }
        ensures power { (self.new.life ≡ self.old.life) × (self.new.powered ≡ false) }
        ensures attachment { self.new.attachment ≡ self.old.attachment }
        ensures orders { orders.new.items ≡ orders.old.items
            ++ power_orders self.old.plug (power_of self.old.powered self.old.life) None }
        ensures few_orders { length orders.new.items ≤ length orders.old.items + 1 }
    {
        if self.powered {
            self.powered = false;
            orders.push(Order::Off {
                plug: self.plug,
                life: self.life,
            });
        }
    }
}
