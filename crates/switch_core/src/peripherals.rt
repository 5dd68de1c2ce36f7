//! The keyboard and the mouse at the console.
ghost use Rattle.std.specs.Prelude.{◌≡◌, ℕ, ◌+◌, ◌-◌, ◌≤◌, List, [], ◌∷◌, ◌++◌, length, if◌then◌else◌};
ghost use Rattle.psd_base.specs.declared.console.Plug.{Plug};
ghost use Rattle.psd_base.specs.declared.console.Plug.TheVariants.{Keyboard, Mouse};
ghost use Rattle.psd_base.specs.declared.console.TheConstants.{NOTES_MAX};
ghost use Rattle.peripheral_filter.specs.declared.rule.RuleSet.{RuleSet};
ghost use Rattle.console_host.specs.Replies.{reply_of};
ghost use Rattle.console_plug.specs.Moments.{Moment, Attached, Detached, Replied, Reported, Ticked};
ghost use Rattle.console_plug.specs.PlugGives.{notes_at, orders_at};
ghost use Rattle.psd_base.specs.KeySet.{no_keys};
ghost use Rattle.console_plug.specs.Given.{still};
ghost use Rattle.switch_core.specs.Shown.{IsShown, shown_concerns};
ghost use Rattle.port_model.specs.Shown.{shown_by};
ghost use Rattle.port_model.specs.Peripherals.{change_moment, if_same_plug, plug_notes, plug_orders, shows_none, with_moment};

use crate::shown::Shown;
use console_plug::{ConsolePlug, ShownButtons, ShownKeys};
use fail_secure::HealthChange;
use peripheral_filter::RuleSet;
use psd_base::console::{Notes, Orders, Plug};
use psd_base::event::Tick;
use psd_base::{KeySet, Sample};

/// The plugs of the keyboard and the mouse, and what they show. What happens at the token's plug is passed over.
///
/// The promises of a call hold for whatever moments came at the two plugs before.
#[derive(Drop)]
pub struct Peripherals {
    keyboard: ConsolePlug,
    mouse: ConsolePlug,
    keys: ShownKeys,
    buttons: ShownButtons,
}

impl Peripherals {
    ghost use Rattle.switch_core.specs.PeripheralsStand.{HasLivesWithin, PeripheralsStand};

    /// Nothing was attached.
    pub fn new() -> Peripherals
        ensures stands { (rules : RuleSet) → PeripheralsStand rules result [] [] }
        ensures lives { HasLivesWithin 0 result }
    {
        Peripherals {
            keyboard: ConsolePlug::new(Plug::Keyboard),
            mouse: ConsolePlug::new(Plug::Mouse),
            keys: ShownKeys::new(),
            buttons: ShownButtons::new(),
        }
    }

    /// Whether no key and no button is down.
    #[tactic(auto, unfolding(port_model::specs::Peripherals::shows_none))]
    pub fn shows_nothing(&self) -> bool
        ensures { (rules : RuleSet) (keyboard mouse : List Moment)
            → PeripheralsStand rules self.now keyboard mouse
            → result ≡ shows_none rules keyboard mouse }
    {
        self.keys.keys().is_empty() && self.buttons.buttons() == 0
    }

    /// Time passes.
    #[tactic(auto, unfolding(console_plug::specs::Shown::shown_keys, console_plug::specs::Shown::shown_buttons))]
    pub fn clock(&mut self, tick: Tick, orders: &mut Orders, notes: &mut Notes)
        requires no_orders { orders.old.items ≡ [] }
        requires no_notes { notes.old.items ≡ [] }
        ensures stands { (rules : RuleSet) (keyboard mouse : List Moment)
            → PeripheralsStand rules self.old keyboard mouse
            → PeripheralsStand rules self.new (Ticked tick ∷ keyboard) (Ticked tick ∷ mouse) }
        ensures orders { (rules : RuleSet) (keyboard mouse : List Moment)
            → PeripheralsStand rules self.old keyboard mouse
            → orders.new.items ≡ orders_at Keyboard rules (Ticked tick) keyboard
            ++ orders_at Mouse rules (Ticked tick) mouse }
        ensures notes { (rules : RuleSet) (keyboard mouse : List Moment)
            → PeripheralsStand rules self.old keyboard mouse
            → notes.new.items ≡ notes_at Keyboard rules (Ticked tick) keyboard
            ++ notes_at Mouse rules (Ticked tick) mouse }
        ensures lives { (count : ℕ) → HasLivesWithin count self.old → HasLivesWithin count self.new }
        ensures few { length notes.new.items ≤ 2 }
        ensures few_orders { length orders.new.items ≤ 2 }
    {
        self.keyboard.clock(tick, orders, notes);
        self.mouse.clock(tick, orders, notes);
    }

    /// The health changes so.
    #[tactic(auto, unfolding(console_plug::specs::Shown::shown_keys, console_plug::specs::Shown::shown_buttons))]
    pub fn change(&mut self, change: HealthChange, tick: Tick, orders: &mut Orders)
        requires lives { HasLivesWithin (u32.MAX - 1) self.old }
        requires no_orders { orders.old.items ≡ [] }
        ensures stands { (rules : RuleSet) (keyboard mouse : List Moment)
            → PeripheralsStand rules self.old keyboard mouse
            → PeripheralsStand rules self.new (with_moment (change_moment tick change) keyboard)
            (with_moment (change_moment tick change) mouse) }
        ensures orders { (rules : RuleSet) (keyboard mouse : List Moment)
            → PeripheralsStand rules self.old keyboard mouse
            → orders.new.items ≡ plug_orders Keyboard rules (change_moment tick change) keyboard
            ++ plug_orders Mouse rules (change_moment tick change) mouse }
        ensures lives { (count : ℕ) → HasLivesWithin count self.old → HasLivesWithin (count + 1) self.new }
        ensures few_orders { length orders.new.items ≤ 4 }
    {
        match change {
            HealthChange::Stays => {}
            HealthChange::Wakes => {
                self.keyboard.wake(tick, orders);
                self.mouse.wake(tick, orders);
            }
            HealthChange::Darkens => {
                self.keyboard.darken(orders);
                self.keys.clear();
                self.mouse.darken(orders);
                self.buttons.clear();
            }
        }
    }

    /// A peripheral is attached to this plug.
    #[tactic(auto, unfolding(console_plug::specs::Shown::shown_keys, console_plug::specs::Shown::shown_buttons))]
    pub fn attach(&mut self, plug: Plug, tick: Tick, orders: &mut Orders)
        requires lives { HasLivesWithin (u32.MAX - 1) self.old }
        requires no_orders { orders.old.items ≡ [] }
        ensures stands { (rules : RuleSet) (keyboard mouse : List Moment)
            → PeripheralsStand rules self.old keyboard mouse
            → PeripheralsStand rules self.new
            (with_moment (if_same_plug Keyboard plug (Attached tick)) keyboard)
            (with_moment (if_same_plug Mouse plug (Attached tick)) mouse) }
        ensures orders { (rules : RuleSet) (keyboard mouse : List Moment)
            → PeripheralsStand rules self.old keyboard mouse
            → orders.new.items
            ≡ plug_orders Keyboard rules (if_same_plug Keyboard plug (Attached tick)) keyboard
            ++ plug_orders Mouse rules (if_same_plug Mouse plug (Attached tick)) mouse }
        ensures lives { (count : ℕ) → HasLivesWithin count self.old → HasLivesWithin (count + 1) self.new }
        ensures few_orders { length orders.new.items ≤ 2 }
    {
        match plug {
            Plug::Keyboard => self.keyboard.attach(tick, orders),
            Plug::Mouse => self.mouse.attach(tick, orders),
            Plug::Token => {}
        }
    }

    /// What is at this plug is taken off. Gives what the console shows then: nothing pressed, where something was there.
    #[tactic(auto, unfolding(console_plug::specs::Shown::shown_keys, console_plug::specs::Shown::shown_buttons))]
    pub fn detach(&mut self, plug: Plug, orders: &mut Orders) -> Shown
        requires { orders.old.items ≡ [] }
        ensures stands { (rules : RuleSet) (keyboard mouse : List Moment)
            → PeripheralsStand rules self.old keyboard mouse
            → PeripheralsStand rules self.new (with_moment (if_same_plug Keyboard plug Detached) keyboard)
            (with_moment (if_same_plug Mouse plug Detached) mouse) }
        ensures orders { (rules : RuleSet) (keyboard mouse : List Moment)
            → PeripheralsStand rules self.old keyboard mouse
            → orders.new.items ≡ plug_orders Keyboard rules (if_same_plug Keyboard plug Detached) keyboard
            ++ plug_orders Mouse rules (if_same_plug Mouse plug Detached) mouse }
        ensures shown { (rules : RuleSet) (keyboard mouse : List Moment)
            → PeripheralsStand rules self.old keyboard mouse
            → shown_concerns result
            ≡ shown_by rules (if_same_plug Keyboard plug Detached)
            (if_same_plug Mouse plug Detached) keyboard mouse }
        ensures sample { IsShown result }
        ensures lives { (count : ℕ) → HasLivesWithin count self.old → HasLivesWithin count self.new }
        ensures few_orders { length orders.new.items ≤ 1 }
    {
        match plug {
            Plug::Keyboard => {
                let was_there = self.keyboard.is_attached();
                self.keyboard.detach(orders);
                self.keys.clear();
                no_keys_if(was_there)
            }
            Plug::Mouse => {
                let was_there = self.mouse.is_attached();
                self.mouse.detach(orders);
                self.buttons.clear();
                no_button_if(was_there)
            }
            Plug::Token => Shown::Nothing,
        }
    }

    /// What is at this plug replies to an order.
    #[tactic(auto, unfolding(console_plug::specs::Shown::shown_keys, console_plug::specs::Shown::shown_buttons))]
    pub fn reply(
        &mut self,
        rules: &RuleSet,
        plug: Plug,
        life: u32,
        number: u32,
        tick: Tick,
        status: u8,
        bytes: &[u8],
        orders: &mut Orders,
        notes: &mut Notes,
    )
        requires no_orders { orders.old.items ≡ [] }
        requires no_notes { notes.old.items ≡ [] }
        ensures stands { let moment = Replied life number tick (reply_of status bytes.now) in
            (keyboard mouse : List Moment) → PeripheralsStand rules.now self.old keyboard mouse
            → PeripheralsStand rules.now self.new (with_moment (if_same_plug Keyboard plug moment) keyboard)
            (with_moment (if_same_plug Mouse plug moment) mouse) }
        ensures orders { let moment = Replied life number tick (reply_of status bytes.now) in
            (keyboard mouse : List Moment) → PeripheralsStand rules.now self.old keyboard mouse
            → orders.new.items ≡ plug_orders Keyboard rules.now (if_same_plug Keyboard plug moment) keyboard
            ++ plug_orders Mouse rules.now (if_same_plug Mouse plug moment) mouse }
        ensures notes { let moment = Replied life number tick (reply_of status bytes.now) in
            (keyboard mouse : List Moment) → PeripheralsStand rules.now self.old keyboard mouse
            → notes.new.items ≡ plug_notes Keyboard rules.now (if_same_plug Keyboard plug moment) keyboard
            ++ plug_notes Mouse rules.now (if_same_plug Mouse plug moment) mouse }
        ensures lives { (count : ℕ) → HasLivesWithin count self.old → HasLivesWithin count self.new }
        ensures few_orders { length orders.new.items ≤ 1 }
        ensures quiet { plug ≡ Plug.Token → notes.new.items ≡ [] }
    {
        match plug {
            Plug::Keyboard => self
                .keyboard
                .reply(rules, life, number, tick, status, bytes, orders, notes),
            Plug::Mouse => self
                .mouse
                .reply(rules, life, number, tick, status, bytes, orders, notes),
            Plug::Token => {}
        }
    }

    /// What is at this plug sends a report of an interface. Gives what the console shows then, where the report says
    /// something.
    pub fn report(&mut self, plug: Plug, interface: u8, bytes: &[u8]) -> Shown
        ensures stands { let moment = Reported interface bytes.now in
            (rules : RuleSet) (keyboard mouse : List Moment) → PeripheralsStand rules self.old keyboard mouse
            → PeripheralsStand rules self.new (with_moment (if_same_plug Keyboard plug moment) keyboard)
            (with_moment (if_same_plug Mouse plug moment) mouse) }
        ensures shown { let moment = Reported interface bytes.now in
            (rules : RuleSet) (keyboard mouse : List Moment) → PeripheralsStand rules self.old keyboard mouse
            → shown_concerns result
            ≡ shown_by rules (if_same_plug Keyboard plug moment)
            (if_same_plug Mouse plug moment) keyboard mouse }
        ensures sample { IsShown result }
        ensures lives { (count : ℕ) → HasLivesWithin count self.old → HasLivesWithin count self.new }
    {
        match plug {
            Plug::Keyboard => match self.keys.report(&self.keyboard, interface, bytes) {
                Some(keys) => Shown::Keys(keys),
                None => Shown::Nothing,
            },
            Plug::Mouse => match self.buttons.report(&self.mouse, interface, bytes) {
                Some(sample) => Shown::Pointer(sample),
                None => Shown::Nothing,
            },
            Plug::Token => Shown::Nothing,
        }
    }
}

/// No key is down, where a keyboard was there.
fn no_keys_if(was_there: bool) -> Shown
    ensures { result ≡ (if was_there then Shown.Keys no_keys else Shown.Nothing) }
{
    if was_there {
        Shown::Keys(KeySet::new())
    } else {
        Shown::Nothing
    }
}

/// No button is down, where a mouse was there.
fn no_button_if(was_there: bool) -> Shown
    ensures { result ≡ (if was_there then Shown.Pointer still else Shown.Nothing) }
{
    if was_there {
        Shown::Pointer(Sample {
            buttons: 0,
            x: 0,
            y: 0,
            wheel: 0,
        })
    } else {
        Shown::Nothing
    }
}
