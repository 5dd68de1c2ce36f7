//! The console that all ports share in turn: the latches of what is typed and moved there.
ghost use Rattle.std.specs.Prelude.{◌≡◌, ◌+◌, ◌<◌, ◌≤ℤ◌, negsuc, ℕ, List, ◌∷◌, IfOk};
ghost use Rattle.psd_base.specs.declared.sample.Sample.{Sample};
ghost use Rattle.port_model.specs.Concerns.{Item, item, Selects, Keys, Pointer};
ghost use Rattle.input_latch.specs.KeyHistory.{KeyEntry, counts_of as key_counts};
ghost use Rattle.input_latch.specs.KeyHistory as keys;
ghost use Rattle.input_latch.specs.KeyLatchStands.{KeyLatchStands};
ghost use Rattle.input_latch.specs.PointerHistory.{PointerEntry, counts_of as pointer_counts};
ghost use Rattle.input_latch.specs.PointerHistory as pointer;
ghost use Rattle.input_latch.specs.PointerLatchStands.{PointerLatchStands};
ghost use Rattle.port_model.specs.OnePort.{parts_of, key_sides, pointer_sides};
ghost use Rattle.km_port.specs.ConsoleStands.{IsApart, OwnedStands, VacantStands, keys_flushed, pointer_flushed};

use control_pipe::reaction::Effect;
use input_latch::{KeyLatch, Offered, PointerLatch};
use psd_base::event::Tick;
use psd_base::port::PortId;
use psd_base::{KeySet, Sample};
use std::alloc::{AllocError, Global};

/// No port has the console. Its latches are empty, and no call lends them.
#[derive(Drop)]
pub struct Vacant {
    pub(crate) keys: KeyLatch,
    pub(crate) pointer: PointerLatch,
}

/// A port has the console.
#[derive(Drop)]
pub struct Owned {
    pub(crate) port: PortId,
    pub(crate) keys: KeyLatch,
    pub(crate) pointer: PointerLatch,
}

/// The console. There is one, which is given to one port after the other.
#[derive(Drop)]
pub struct Console<S> {
    /// How often it was given.
    pub(crate) gives: u32,
    pub(crate) state: S,
}

/// Says that a port got the console, and has to be spent there.
pub struct Welcome {
    pub(crate) port: PortId,
    pub(crate) tick: Tick,
}

/// Says that a port lost the console, and has to be spent there: it makes the release due of what the port's computer
/// saw pressed.
pub struct Farewell {
    pub(crate) port: PortId,
}

impl Welcome {
    /// The port that got the console.
    pub fn port(&self) -> PortId
        ensures { result ≡ self.now.port }
    {
        self.port
    }

    /// The tick at which it got it.
    pub fn tick(&self) -> Tick
        ensures { result ≡ self.now.tick }
    {
        self.tick
    }
}

impl Farewell {
    /// The port that lost the console.
    pub fn port(&self) -> PortId
        ensures { result ≡ self.now.port }
    {
        self.port
    }
}

impl<S> Console<S> {
    /// How often the console was given to a port.
    pub fn gives(&self) -> u32
        ensures { result ≡ self.now.gives }
    {
        self.gives
    }
}

impl Console<Vacant> {
    /// A console that was never given. This alone takes memory.
    pub fn new(alloc: Global) -> Result<Console<Vacant>, AllocError>
        ensures vacant { IfOk result VacantStands }
        ensures gives { IfOk result (λ console. console.gives ≡ 0) }
    {
        let keys = KeyLatch::new(alloc)?;
        let pointer = PointerLatch::new(alloc)?;
        Ok(Console {
            gives: 0,
            state: Vacant { keys, pointer },
        })
    }

    /// The port gets the console at this tick.
    pub fn give(self, tick: Tick, port: PortId) -> (Console<Owned>, Welcome)
        requires { self.gives < u32.MAX }
        ensures port { result.0.state.port ≡ port }
        ensures gives { result.0.gives ≡ self.gives + 1 }
        ensures names { result.1.port ≡ port }
        ensures tick { result.1.tick ≡ tick }
        ensures stands { (past : List Item) → VacantStands self → IsApart (parts_of past)
            → OwnedStands result.0 (item tick Selects ∷ past) }
    {
        let Console { gives, state } = self;
        let Vacant { keys, pointer } = state;
        let console = Console {
            gives: gives + 1,
            state: Owned {
                port,
                keys,
                pointer,
            },
        };
        (console, Welcome { port, tick })
    }
}

impl Console<Owned> {
    /// The port that has the console.
    pub fn port(&self) -> PortId
        ensures { result ≡ self.now.state.port }
    {
        self.state.port
    }

    /// The latch of what is typed.
    pub fn key_latch(&self) -> &KeyLatch
        ensures { result.now ≡ self.now.state.keys }
    {
        &self.state.keys
    }

    /// The latch of what is moved and clicked.
    pub fn pointer_latch(&self) -> &PointerLatch
        ensures { result.now ≡ self.now.state.pointer }
    {
        &self.state.pointer
    }

    /// Takes the keys that the keyboard shows. Their changes are offered to the key latch (`KeyLatch::snapshot`). Answers
    /// how many it took and refused.
    pub fn keys(&mut self, keys: &KeySet) -> Offered
        ensures port { self.new.state.port ≡ self.old.state.port }
        ensures gives { self.new.gives ≡ self.old.gives }
        ensures stands { (tick : ℕ) (past : List Item) → OwnedStands self.old past
            → OwnedStands self.new (item tick (Keys keys.now) ∷ past) }
        ensures counts { (past : List Item) → OwnedStands self.old past
            → result ≡ key_counts keys.now (key_sides past).latch }
    {
        self.state.keys.snapshot(keys)
    }

    /// Takes what a report of the mouse says. Its changes are offered to the pointer latch (`PointerLatch::sample`).
    /// Answers how many it took and refused.
    pub fn pointer(&mut self, sample: &Sample) -> Offered
        requires buttons { sample.now.buttons < 32 }
        requires x { negsuc 2147483646 ≤ℤ sample.now.x }
        requires y { negsuc 2147483646 ≤ℤ sample.now.y }
        requires wheel { negsuc 2147483646 ≤ℤ sample.now.wheel }
        ensures port { self.new.state.port ≡ self.old.state.port }
        ensures gives { self.new.gives ≡ self.old.gives }
        ensures stands { (tick : ℕ) (past : List Item) → OwnedStands self.old past
            → OwnedStands self.new (item tick (Pointer sample.now) ∷ past) }
        ensures counts { (past : List Item) → OwnedStands self.old past
            → result ≡ pointer_counts sample.now (pointer_sides past).latch }
    {
        self.state.pointer.sample(sample)
    }

    /// A bus reset of the port, and a SET_CONFIGURATION that its computer completed, drop what isn't delivered and what is
    /// held. What was shown last stays.
    pub(crate) fn flush_at(&mut self, effect: Effect)
        ensures port { self.new.state.port ≡ self.old.state.port }
        ensures gives { self.new.gives ≡ self.old.gives }
        ensures keys { (past : List KeyEntry) → KeyLatchStands self.old.state.keys past
            → KeyLatchStands self.new.state.keys (keys_flushed effect past) }
        ensures pointer { (past : List PointerEntry) → PointerLatchStands self.old.state.pointer past
            → PointerLatchStands self.new.state.pointer (pointer_flushed effect past) }
    {
        match effect {
            Effect::Nothing => {}
            Effect::Reset => self.flush(),
            Effect::Configured => self.flush(),
            Effect::Restart(_) => {}
        }
    }

    /// Drops what isn't delivered and what is held.
    fn flush(&mut self)
        ensures port { self.new.state.port ≡ self.old.state.port }
        ensures gives { self.new.gives ≡ self.old.gives }
        ensures keys { (past : List KeyEntry) → KeyLatchStands self.old.state.keys past
            → KeyLatchStands self.new.state.keys (keys.Flushed ∷ past) }
        ensures pointer { (past : List PointerEntry) → PointerLatchStands self.old.state.pointer past
            → PointerLatchStands self.new.state.pointer (pointer.Flushed ∷ past) }
    {
        self.state.keys.flush();
        self.state.pointer.flush();
    }

    /// The port loses the console, and both latches forget all.
    pub fn leave(self) -> (Console<Vacant>, Farewell)
        ensures gives { result.0.gives ≡ self.gives }
        ensures names { result.1.port ≡ self.state.port }
        ensures stands { (past : List Item) → OwnedStands self past → VacantStands result.0 }
    {
        let Console { gives, state } = self;
        let Owned {
            port,
            mut keys,
            mut pointer,
        } = state;
        keys.clear();
        pointer.clear();
        let console = Console {
            gives,
            state: Vacant { keys, pointer },
        };
        (console, Farewell { port })
    }
}
