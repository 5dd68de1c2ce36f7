//! The keyboard and mouse connector of one computer.
ghost use Rattle.std.specs.Prelude.{◌≡◌, ℕ, Bool, true, false, IsTrue, List, ◌∷◌};
ghost use Rattle.psd_base.specs.declared.act.Side.TheVariants.{Km};
ghost use Rattle.control_pipe.specs.Control.{is_control_act, control_answer, control_effect};
ghost use Rattle.port_model.specs.Concerns.{Item, item, Own, Wakes, Selects, Leaves};
ghost use Rattle.km_port.specs.ConsoleStands.{OwnedStands, LatchesStand};
ghost use Rattle.port_model.specs.OnePort.{Parts, answer_to, km_act, poll_answer, with_control_act, with_poll};
ghost use Rattle.port_model.specs.Polled.{polled_by};
ghost use Rattle.km_port.specs.PortStands.{IsEntered, KmStands, LiveStands};

use crate::console::{Console, Farewell, Owned, Welcome};
use crate::km_function::KmFunction;
use crate::polled::polled_by;
use control_pipe::pipe::Pipe;
use control_pipe::reaction::Effect;
use port_model::polled::Polled;
use psd_base::act::{Act, Answer};
use psd_base::event::Tick;
use psd_base::port::PortId;

/// A port of a switch that is not alive. It has no call that answers.
#[derive(Clone, Copy, Debug, PartialEq, Eq)]
pub struct Dark;

/// The emulated keyboard and mouse of a port that is alive.
#[derive(Drop)]
pub struct Live {
    pipe: Pipe<KmFunction>,
}

/// The connectors of one computer. Nothing in it belongs to another.
#[derive(Drop)]
pub struct Port<S> {
    id: PortId,
    state: S,
}

impl<S> Port<S> {
    /// The number of the port.
    pub fn id(&self) -> PortId
        ensures { result ≡ self.now.id }
    {
        self.id
    }
}

impl Port<Dark> {
    /// A dark port of this number.
    pub fn new(id: PortId) -> Port<Dark>
        ensures { result.id ≡ id }
    {
        Port { id, state: Dark }
    }

    /// The port awake: unaddressed, not configured and not selected.
    pub fn wake(self) -> Port<Live>
        ensures id { result.id ≡ self.id }
        ensures entered { IsEntered false result.state.pipe.function }
        ensures stands { (tick : ℕ) (past : List Item) → LiveStands result (item tick Wakes ∷ past) }
    {
        let Port { id, state: _ } = self;
        Port {
            id,
            state: Live {
                pipe: Pipe::new(KmFunction::new()),
            },
        }
    }
}

impl Port<Live> {
    /// The port dark. What its computer did is forgotten.
    pub fn darken(self) -> Port<Dark>
        ensures { result.id ≡ self.id }
    {
        Port::new(self.id)
    }

    /// The port is selected: it got the console.
    pub fn welcome(&mut self, welcome: Welcome)
        requires names { welcome.port ≡ self.old.id }
        requires entered { IsEntered false self.old.state.pipe.function }
        ensures id { self.new.id ≡ self.old.id }
        ensures entered { IsEntered true self.new.state.pipe.function }
        ensures stands { (past : List Item) → LiveStands self.old past
            → LiveStands self.new (item welcome.tick Selects ∷ past) }
    {
        let Welcome { port: _, tick } = welcome;
        self.state.pipe.function_mut().enter(tick);
    }

    /// The port is left: it lost the console. A release is due of what its computer saw pressed.
    pub fn farewell(&mut self, farewell: Farewell)
        requires names { farewell.port ≡ self.old.id }
        requires entered { IsEntered true self.old.state.pipe.function }
        ensures id { self.new.id ≡ self.old.id }
        ensures entered { IsEntered false self.new.state.pipe.function }
        ensures stands { (tick : ℕ) (past : List Item) → LiveStands self.old past
            → LiveStands self.new (item tick Leaves ∷ past) }
    {
        let Farewell { port: _ } = farewell;
        self.state.pipe.function_mut().part();
    }

    /// Answers an act at the keyboard and mouse of the port that has the console, in the place that the caller has for the
    /// answer. No other call takes from the latches.
    pub fn km_owned(
        &mut self,
        tick: Tick,
        act: &Act,
        console: &mut Console<Owned>,
        answer: &mut Answer,
    )
        requires owner { console.old.state.port ≡ self.old.id }
        requires entered { IsEntered true self.old.state.pipe.function }
        ensures id { self.new.id ≡ self.old.id }
        ensures entered { IsEntered true self.new.state.pipe.function }
        ensures port { console.new.state.port ≡ console.old.state.port }
        ensures gives { console.new.gives ≡ console.old.gives }
        ensures stands { (past : List Item) → LiveStands self.old past → OwnedStands console.old past
            → LiveStands self.new (item tick (Own Km act.now) ∷ past) }
        ensures console { (past : List Item) → LiveStands self.old past → OwnedStands console.old past
            → OwnedStands console.new (item tick (Own Km act.now) ∷ past) }
        ensures answer { (past : List Item) → LiveStands self.old past → OwnedStands console.old past
            → answer.new ≡ answer_to past tick Km act.now }
    {
        if is_at_control_endpoint(act) {
            control_owned(&mut self.state.pipe, tick, act, console, answer);
        } else {
            poll_owned(&mut self.state.pipe, tick, act, console, answer);
        }
    }

    /// Answers an act at the keyboard and mouse of a port that isn't selected.
    #[inline(always)]
    pub fn km_apart(&mut self, tick: Tick, act: &Act, answer: &mut Answer)
        requires { IsEntered false self.old.state.pipe.function }
        ensures id { self.new.id ≡ self.old.id }
        ensures entered { IsEntered false self.new.state.pipe.function }
        ensures stands { (past : List Item) → LiveStands self.old past
            → LiveStands self.new (item tick (Own Km act.now) ∷ past) }
        ensures answer { (past : List Item) → LiveStands self.old past
            → answer.new ≡ answer_to past tick Km act.now }
    {
        if is_at_control_endpoint(act) {
            let _ = control(&mut self.state.pipe, tick, act, answer);
        } else {
            poll_apart(&mut self.state.pipe, tick, act, answer);
        }
    }
}

/// Whether an act is a bus reset or a transaction at endpoint 0.
fn is_at_control_endpoint(act: &Act) -> bool
    ensures { result ≡ is_control_act act.now }
{
    match act {
        Act::Reset => true,
        Act::Setup { .. } => true,
        Act::Out { endpoint, .. } => *endpoint == 0,
        Act::In { endpoint, .. } => *endpoint == 0,
    }
}

/// Answers an act at the control endpoint, and tells the keyboard and the mouse what it completed. Gives that.
#[inline(never)]
fn control(pipe: &mut Pipe<KmFunction>, tick: Tick, act: &Act, answer: &mut Answer) -> Effect
    requires { IsTrue (is_control_act act.now) }
    ensures entered { (entered : Bool) → IsEntered entered pipe.old.function
        → IsEntered entered pipe.new.function }
    ensures stands { (parts : Parts) → KmStands pipe.old parts
        → KmStands pipe.new (with_control_act tick act.now parts) }
    ensures answer { (parts : Parts) → KmStands pipe.old parts
        → answer.new ≡ control_answer parts.control act.now }
    ensures effect { (parts : Parts) → KmStands pipe.old parts
        → result ≡ control_effect parts.control (km_act parts act.now) }
{
    let effect = pipe.answer(tick, act, answer);
    pipe.function_mut().tell(tick, effect);
    effect
}

/// Answers an act at the control endpoint of the port that has the console.
fn control_owned(
    pipe: &mut Pipe<KmFunction>,
    tick: Tick,
    act: &Act,
    console: &mut Console<Owned>,
    answer: &mut Answer,
)
    requires control { IsTrue (is_control_act act.now) }
    requires entered { IsEntered true pipe.old.function }
    ensures entered { IsEntered true pipe.new.function }
    ensures port { console.new.state.port ≡ console.old.state.port }
    ensures gives { console.new.gives ≡ console.old.gives }
    ensures stands { (parts : Parts) → KmStands pipe.old parts
        → KmStands pipe.new (with_control_act tick act.now parts) }
    ensures console { (parts : Parts) → KmStands pipe.old parts → LatchesStand console.old parts
        → LatchesStand console.new (with_control_act tick act.now parts) }
    ensures answer { (parts : Parts) → KmStands pipe.old parts
        → answer.new ≡ control_answer parts.control act.now }
{
    let effect = control(pipe, tick, act, answer);
    console.flush_at(effect);
}

/// Answers an act at another endpoint of the port that has the console. It is a call of its own, and so are those beside
/// it: an act pays for the room of the one that it needs.
#[inline(never)]
fn poll_owned(
    pipe: &mut Pipe<KmFunction>,
    tick: Tick,
    act: &Act,
    console: &mut Console<Owned>,
    answer: &mut Answer,
)
    requires { IsEntered true pipe.old.function }
    ensures entered { IsEntered true pipe.new.function }
    ensures port { console.new.state.port ≡ console.old.state.port }
    ensures gives { console.new.gives ≡ console.old.gives }
    ensures stands { (parts : Parts) → KmStands pipe.old parts → LatchesStand console.old parts
        → KmStands pipe.new (with_poll tick (polled_by act.now parts.control) parts) }
    ensures console { (parts : Parts) → KmStands pipe.old parts → LatchesStand console.old parts
        → LatchesStand console.new (with_poll tick (polled_by act.now parts.control) parts) }
    ensures answer { (parts : Parts) → KmStands pipe.old parts → LatchesStand console.old parts
        → answer.new ≡ poll_answer tick (polled_by act.now parts.control) parts }
{
    match polled_by(pipe, act) {
        Polled::Nothing => *answer = Answer::Silent,
        Polled::Halted => *answer = Answer::Stall,
        Polled::Keyboard(acked) => {
            let keyboard = &mut pipe.function_mut().keyboard;
            keyboard.poll_into(tick, acked, &mut console.state.keys, answer);
        }
        Polled::Mouse(acked) => {
            let mouse = &mut pipe.function_mut().mouse;
            mouse.poll_into(acked, &mut console.state.pointer, answer);
        }
    }
}

/// Answers an act at another endpoint of a port that isn't selected.
#[inline(never)]
fn poll_apart(pipe: &mut Pipe<KmFunction>, tick: Tick, act: &Act, answer: &mut Answer)
    requires { IsEntered false pipe.old.function }
    ensures entered { IsEntered false pipe.new.function }
    ensures stands { (parts : Parts) → KmStands pipe.old parts
        → KmStands pipe.new (with_poll tick (polled_by act.now parts.control) parts) }
    ensures answer { (parts : Parts) → KmStands pipe.old parts
        → answer.new ≡ poll_answer tick (polled_by act.now parts.control) parts }
{
    match polled_by(pipe, act) {
        Polled::Nothing => *answer = Answer::Silent,
        Polled::Halted => *answer = Answer::Stall,
        Polled::Keyboard(acked) => pipe.function_mut().keyboard.poll_apart_into(acked, answer),
        Polled::Mouse(acked) => pipe.function_mut().mouse.poll_apart_into(acked, answer),
    }
}
