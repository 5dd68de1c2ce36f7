//! The token's power, and the computer to which it is routed.
ghost use Rattle.std.specs.Prelude.{◌≡◌, ◌+◌, ◌<◌, ◌≤◌, List, [], ◌∷◌, IsTrue};
ghost use Rattle.auth_router.specs.SlotCalls.{SlotCall, Attach, Clock, Detach, Leave, Bar, Check, Route};
ghost use Rattle.auth_router.specs.Slot.{comes_on, goes_off, is_rested, state_after, lives, has_power};

use psd_base::console::RuleName;
use psd_base::event::Tick;
use psd_base::port::PortId;
use std::marker::Model;

/// For how many ticks (milliseconds) the token's power stays off, so that it forgets what it was told.
pub const RESET: Tick = 1_000;

/// How the token stands. With power it is asking, checked or routed.
#[derive(Clone, Copy, Debug, PartialEq, Eq)]
pub enum SlotState {
    /// No token is attached.
    Absent,
    /// The token has no power; `since` is the tick at which power last went off.
    Off { since: Option<Tick> },
    /// The token is being enumerated.
    Asking,
    /// The token was accepted, and no computer has it yet.
    Checked,
    /// The token belongs to this port's computer until its power goes off.
    Routed(PortId),
    /// The token was refused by this rule, and gets no power until it is detached.
    Barred(RuleName),
}

/// The place for a token. Contracts see the state, the tick at which power last went off, and the number of the last
/// life: a span with power, counted from 1.
#[derive(Debug, Drop)]
pub struct TokenSlot {
    state: SlotState,
    last_off: Option<Tick>,
    life: u32,
}

impl Model for TokenSlot {
    ghost use Rattle.auth_router.specs.SlotStands.{SlotValue};

    ghost Value = { SlotValue };

    ghost view = { λ slot. record { state = slot.state; last_off = slot.last_off; life = slot.life } };
}

impl TokenSlot {
    ghost use Rattle.auth_router.specs.SlotStands.{SlotStands};

    /// No token is attached, and none ever had power.
    pub fn new() -> TokenSlot
        ensures stands { SlotStands result [] }
        ensures life { result.life ≡ 0 }
    {
        TokenSlot {
            state: SlotState::Absent,
            last_off: None,
            life: 0,
        }
    }

    /// How the token stands.
    pub fn state(&self) -> SlotState
        ensures value { result ≡ self.now.state }
        ensures state { (past : List SlotCall) → SlotStands self.now past → result ≡ state_after past }
    {
        self.state
    }

    /// The number of the last life, 0 before the first.
    pub fn life(&self) -> u32
        ensures value { result ≡ self.now.life }
        ensures life { (past : List SlotCall) → SlotStands self.now past → result ≡ lives past }
    {
        self.life
    }

    /// A token is attached. True exactly where its power comes on: at the first attachment. Attaching an attached
    /// token changes nothing.
    pub fn attach(&mut self) -> bool
        requires { self.old.life < 4294967295 }
        ensures stands { (past : List SlotCall) → SlotStands self.old past
            → SlotStands self.new (Attach ∷ past) }
        ensures answer { (past : List SlotCall) → SlotStands self.old past → result ≡ comes_on Attach past }
        ensures few { self.new.life ≤ self.old.life + 1 }
    {
        match self.state {
            SlotState::Absent => {
                if self.life == 0 {
                    return self.begin_life();
                }
                self.state = SlotState::Off {
                    since: self.last_off,
                };
                false
            }
            SlotState::Off { .. } => false,
            SlotState::Asking => false,
            SlotState::Checked => false,
            SlotState::Routed(_) => false,
            SlotState::Barred(_) => false,
        }
    }

    /// Time passes. True exactly where the token's power comes on: it is attached without power and not barred, and
    /// `RESET` ticks have passed since power last went off.
    pub fn clock(&mut self, tick: Tick) -> bool
        requires { self.old.life < 4294967295 }
        ensures stands { (past : List SlotCall) → SlotStands self.old past
            → SlotStands self.new (Clock tick ∷ past) }
        ensures answer { (past : List SlotCall) → SlotStands self.old past → result
            ≡ comes_on (Clock tick) past }
        ensures few { self.new.life ≤ self.old.life + 1 }
    {
        match self.state {
            SlotState::Off { since } => {
                if is_rested(since, tick) {
                    self.begin_life()
                } else {
                    false
                }
            }
            SlotState::Absent => false,
            SlotState::Asking => false,
            SlotState::Checked => false,
            SlotState::Routed(_) => false,
            SlotState::Barred(_) => false,
        }
    }

    /// The token is detached. True exactly where its power goes off now. Detaching where none is attached changes
    /// nothing.
    pub fn detach(&mut self, tick: Tick) -> bool
        ensures stands { (past : List SlotCall) → SlotStands self.old past
            → SlotStands self.new (Detach tick ∷ past) }
        ensures answer { (past : List SlotCall) → SlotStands self.old past → result
            ≡ goes_off (Detach tick) past }
        ensures few { self.new.life ≡ self.old.life }
    {
        let had_power = has_power(self.state);
        if had_power {
            self.last_off = Some(tick);
        }
        self.state = SlotState::Absent;
        had_power
    }

    /// The token's computer is left, or the switch goes dark. True exactly where power goes off now.
    pub fn leave(&mut self, tick: Tick) -> bool
        ensures stands { (past : List SlotCall) → SlotStands self.old past
            → SlotStands self.new (Leave tick ∷ past) }
        ensures answer { (past : List SlotCall) → SlotStands self.old past → result
            ≡ goes_off (Leave tick) past }
        ensures few { self.new.life ≡ self.old.life }
    {
        let had_power = has_power(self.state);
        if had_power {
            self.last_off = Some(tick);
            self.state = SlotState::Off { since: Some(tick) };
        }
        had_power
    }

    /// The token is refused by this rule. Power goes off, so it answers true.
    pub fn bar(&mut self, tick: Tick, rule: RuleName) -> bool
        requires { self.old.state ≡ SlotState.Asking }
        ensures stands { (past : List SlotCall) → SlotStands self.old past
            → SlotStands self.new (Bar tick rule ∷ past) }
        ensures answer { (past : List SlotCall) → SlotStands self.old past → result
            ≡ goes_off (Bar tick rule) past }
        ensures few { self.new.life ≡ self.old.life }
    {
        self.last_off = Some(tick);
        self.state = SlotState::Barred(rule);
        true
    }

    /// The token is accepted.
    pub fn checked(&mut self)
        requires { self.old.state ≡ SlotState.Asking }
        ensures stands { (past : List SlotCall) → SlotStands self.old past
            → SlotStands self.new (Check ∷ past) }
        ensures state { self.new.state ≡ SlotState.Checked }
        ensures few { self.new.life ≡ self.old.life }
    {
        self.state = SlotState::Checked;
    }

    /// The token is routed to this port for the rest of its life.
    pub fn route(&mut self, port: PortId)
        requires { self.old.state ≡ SlotState.Checked }
        ensures stands { (past : List SlotCall) → SlotStands self.old past
            → SlotStands self.new (Route port ∷ past) }
        ensures state { self.new.state ≡ SlotState.Routed port }
        ensures few { self.new.life ≡ self.old.life }
    {
        self.state = SlotState::Routed(port);
    }

    /// Power comes on.
    fn begin_life(&mut self) -> bool
        requires { self.old.life < 4294967295 }
        ensures value { self.new ≡ record {
          state = SlotState.Asking;
          last_off = self.old.last_off;
          life = 1 + self.old.life;
        } }
        ensures on { IsTrue result }
    {
        self.state = SlotState::Asking;
        self.life += 1;
        true
    }
}

/// Whether a token that stands so has power.
fn has_power(state: SlotState) -> bool
    ensures { result ≡ has_power state }
{
    match state {
        SlotState::Absent => false,
        SlotState::Off { .. } => false,
        SlotState::Asking => true,
        SlotState::Checked => true,
        SlotState::Routed(_) => true,
        SlotState::Barred(_) => false,
    }
}

/// Whether the token's power has been off for long enough at this tick.
fn is_rested(since: Option<Tick>, tick: Tick) -> bool
    ensures { result ≡ is_rested since tick }
{
    match since {
        None => true,
        Some(since) => since <= tick && tick - since >= RESET,
    }
}
