//! The control endpoint of an emulated device.
ghost use Rattle.std.specs.Prelude.{IsTrue, ◌≡◌, ◌≤◌, ℕ, Bool, List, [], ◌∷◌, ◌==◌, length, None, if◌then◌else◌};
ghost use Rattle.control_pipe.specs.PipeStep.{registers_for, IsKeptBy};
ghost use Rattle.psd_base.specs.declared.packet.TheConstants.{PACKET_SIZE};
ghost use Rattle.std.specs.Borrow.{sem};
ghost use Rattle.control_pipe.specs.Control.{ControlAct, is_control_act, offer_for, offer_at, moment_of, control_answer, control_effect, control_function, address_after, is_configured_after, is_halted_after};
ghost use Rattle.control_pipe.specs.Requests.{request_of, is_configured, due_for, effect_for, function_for};
ghost use Rattle.control_pipe.specs.Progress.{Refusing, begun_progress, after_in, in_answer, completion};
ghost use Rattle.control_pipe.specs.Registers.{halted_at, reset_registers};

use crate::function::Function;
use crate::reaction::{Effect, Reaction};
use crate::registers::Registers;
use crate::request::Request;
use crate::transfer::{Completed, Transfer};
use psd_base::act::{Act, Answer};
use psd_base::event::Tick;
use psd_base::setup::Setup;
use std::marker::Model;

/// The control endpoint of an emulated device with this function: its address, configuration and halts, and the
/// present control transfer.
#[derive(Debug, Drop)]
pub struct Pipe<F> {
    function: F,
    registers: Registers,
    transfer: Transfer,
}

impl<F> Model for Pipe<F> {
    ghost use Rattle.control_pipe.specs.PipeStands.{PipeValue};

    ghost Value = { PipeValue F };

    ghost view = { λ pipe. record {
      function = pipe.function;
      registers = pipe.registers;
      progress = pipe.transfer;
    } };
}

impl<F: Function> Pipe<F> {
    ghost use Rattle.control_pipe.specs.PipeStands.{PipeStands};
    ghost use Rattle.control_pipe.specs.Lending.{LendsFunction};
    ghost use Rattle.control_pipe.specs.PipeStep.{completed_by, registers_at, progress_at, answer_at, effect_at, completed_function, completed_registers, completed_effect};

    /// A device in its default state: at address 0, not configured, and nothing halted.
    pub fn new(function: F) -> Pipe<F>
        ensures stands { PipeStands result [] }
        ensures function { result.function ≡ function }
    {
        Pipe {
            function,
            registers: Registers::new(),
            transfer: Transfer::new(),
        }
    }

    /// Takes a bus reset or a transaction at endpoint 0 (USB 2.0, 8.5.3), at this tick. Writes what the act is answered
    /// to `answer`, over what was there, and gives what the act completed.
    ///
    /// The promises hold for each history for which the pipe stood before the act.
    pub fn answer(&mut self, tick: Tick, act: &Act, answer: &mut Answer) -> Effect
        requires { IsTrue (is_control_act act.now) }
        ensures stands { (past : List ControlAct) → PipeStands self.old past
            → PipeStands self.new (moment_of (F.descriptor_of self.old.function)
            (F.class_input_of self.old.function) F.takes_class act.now ∷ past) }
        ensures answer { (past : List ControlAct) → PipeStands self.old past
            → answer.new ≡ control_answer past act.now }
        ensures effect { (past : List ControlAct) → PipeStands self.old past
            → result ≡ control_effect past (moment_of (F.descriptor_of self.old.function)
            (F.class_input_of self.old.function) F.takes_class act.now) }

        // A class request is carried out once, at the act that completes it, and nothing else changes the function.
        ensures function { (past : List ControlAct) → PipeStands self.old past
            → self.new.function ≡ control_function F.after_class past tick act.now self.old.function }

        // So what no class request changes stays, whatever the pipe stood for.
        ensures keeps { (test : F → Bool) → IsKeptBy F.after_class test
            → test self.new.function ≡ test self.old.function }
    {
        self.step(tick, act, answer)
    }

    /// Takes an act as `answer` does, and gives the answer too.
    pub fn act(&mut self, tick: Tick, act: &Act) -> Reaction
        requires { IsTrue (is_control_act act.now) }
        ensures stands { (past : List ControlAct) → PipeStands self.old past
            → PipeStands self.new (moment_of (F.descriptor_of self.old.function)
            (F.class_input_of self.old.function) F.takes_class act.now ∷ past) }
        ensures answer { (past : List ControlAct) → PipeStands self.old past
            → result.answer ≡ control_answer past act.now }
        ensures effect { (past : List ControlAct) → PipeStands self.old past
            → result.effect ≡ control_effect past (moment_of (F.descriptor_of self.old.function)
            (F.class_input_of self.old.function) F.takes_class act.now) }
        ensures function { (past : List ControlAct) → PipeStands self.old past
            → self.new.function ≡ control_function F.after_class past tick act.now self.old.function }
    {
        let mut answer = Answer::Silent;
        let effect = self.answer(tick, act, &mut answer);
        Reaction { answer, effect }
    }

    /// The device's address (USB 2.0, 9.4.6).
    pub fn address(&self) -> u8
        ensures { (past : List ControlAct) → PipeStands self.now past → result ≡ address_after past }
    {
        self.registers.address
    }

    /// Whether the device is configured (USB 2.0, 9.4.7).
    pub fn configured(&self) -> bool
        ensures { (past : List ControlAct) → PipeStands self.now past → result ≡ is_configured_after past }
    {
        self.registers.is_configured()
    }

    /// Whether an endpoint is halted (USB 2.0, 9.4.5). Only the interrupt endpoints 1 and 2 can be.
    pub fn halted(&self, endpoint: u8) -> bool
        ensures { (past : List ControlAct) → PipeStands self.now past
            → result ≡ is_halted_after endpoint past }
    {
        self.registers.is_halted(endpoint)
    }

    /// The device's function.
    pub fn function(&self) -> &F
        ensures { result.now ≡ self.now.function }
    {
        &self.function
    }

    /// The device's function, to be changed from outside. The rest of the pipe stays as it is.
    pub fn function_mut(&mut self) -> &mut F
        ensures* writes_back { sem 𝓛 (LendsFunction F.row self.entry result) }
        ensures value { result.now ≡ self.old.function }
    {
        &mut self.function
    }

    /// Takes an act. Its contract is the exact step, from which `answer` promises what holds over all histories.
    fn step(&mut self, tick: Tick, act: &Act, answer: &mut Answer) -> Effect
        ensures registers { self.new.registers ≡ registers_at self.old.registers self.old.progress act.now }
        ensures progress { self.new.progress ≡ progress_at self.old.registers self.old.progress
            (offer_at (F.descriptor_of self.old.function)
            (F.class_input_of self.old.function) F.takes_class act.now) act.now }
        ensures function { self.new.function ≡ completed_function F.after_class tick
            (completed_by self.old.registers self.old.progress act.now) self.old.function }
        ensures answer { answer.new ≡ answer_at self.old.registers self.old.progress act.now }
        ensures effect { result ≡ effect_at self.old.registers self.old.progress act.now }
    {
        match act {
            Act::Reset => self.reset(answer),
            Act::Setup { address, setup } => {
                if *address != self.registers.address {
                    return silence(answer);
                }
                *answer = Answer::Ack;
                self.begin(setup);
                Effect::Nothing
            }
            Act::Out {
                address,
                toggle,
                bytes,
                ..
            } => {
                if *address != self.registers.address {
                    return silence(answer);
                }
                self.transfer.take_out(*toggle, bytes.as_slice(), answer);
                Effect::Nothing
            }
            Act::In { address, acked, .. } => {
                if *address != self.registers.address {
                    return silence(answer);
                }
                self.take_in(tick, *acked, answer)
            }
        }
    }

    /// Takes a bus reset.
    fn reset(&mut self, answer: &mut Answer) -> Effect
        ensures registers { self.new.registers ≡ reset_registers }
        ensures progress { self.new.progress ≡ Refusing }
        ensures function { self.new.function ≡ self.old.function }
        ensures answer { answer.new ≡ Answer.Silent }
        ensures effect { result ≡ Effect.Reset }
    {
        self.registers = Registers::new();
        self.transfer.refuse();
        *answer = Answer::Silent;
        Effect::Reset
    }

    /// Takes up the request of a setup. It stands out of line, so that a setup alone pays for its room on the stack.
    #[inline(never)]
    fn begin(&mut self, setup: &Setup)
        ensures progress { self.new.progress
            ≡ begun_progress PACKET_SIZE setup.now (due_for self.old.registers
            (offer_for (F.descriptor_of self.old.function)
            (F.class_input_of self.old.function) F.takes_class setup.now)
            (request_of setup.now)) }
        ensures registers { self.new.registers ≡ self.old.registers }
        ensures function { self.new.function ≡ self.old.function }
    {
        match Request::of(setup) {
            None => self.transfer.begin(setup, None),
            Some(Request::Standard(request)) => {
                let due = self.registers.reply(request);
                self.transfer.begin(setup, due);
            }
            Some(Request::GetDescriptor) => {
                let due = self.function.descriptor(setup);
                self.transfer.begin(setup, due);
            }
            Some(Request::ClassIn) => self.begin_class_in(setup),
            Some(Request::ClassOut) => {
                if self.registers.is_configured() && self.function.class_takes(setup) {
                    self.transfer.begin(setup, Some(&[]));
                } else {
                    self.transfer.begin(setup, None);
                }
            }
        }
    }

    /// Takes up a class request that reads.
    fn begin_class_in(&mut self, setup: &Setup)
        requires reads { 128 ≤ setup.now.kind }
        ensures progress { self.new.progress ≡ begun_progress PACKET_SIZE setup.now
            (if is_configured self.old.registers
            then F.class_input_of self.old.function setup.now else None) }
        ensures registers { self.new.registers ≡ self.old.registers }
        ensures function { self.new.function ≡ self.old.function }
    {
        if !self.registers.is_configured() {
            self.transfer.begin(setup, None);
            return;
        }
        match self.function.class_in(setup) {
            Some(packet) => self.transfer.begin(setup, Some(packet.as_slice())),
            None => self.transfer.begin(setup, None),
        }
    }

    /// Takes an IN at the device's address.
    fn take_in(&mut self, tick: Tick, acked: bool, answer: &mut Answer) -> Effect
        ensures progress { self.new.progress ≡ after_in acked self.old.progress }
        ensures registers { self.new.registers
            ≡ completed_registers (if acked then completion self.old.progress else None) self.old.registers }
        ensures function { self.new.function ≡ completed_function F.after_class tick
            (if acked then completion self.old.progress else None) self.old.function }
        ensures answer { answer.new ≡ in_answer self.old.progress }
        ensures effect { result ≡ completed_effect (if acked then completion self.old.progress else None) }
    {
        let effect = if acked {
            self.complete(tick)
        } else {
            Effect::Nothing
        };
        self.transfer.take_in(acked, answer);
        effect
    }

    /// Carries out the request that an acknowledged IN completes, if it does.
    fn complete(&mut self, tick: Tick) -> Effect
        ensures progress { self.new.progress ≡ self.old.progress }
        ensures registers { self.new.registers
            ≡ completed_registers (completion self.old.progress) self.old.registers }
        ensures function { self.new.function
            ≡ completed_function F.after_class tick (completion self.old.progress) self.old.function }
        ensures effect { result ≡ completed_effect (completion self.old.progress) }
    {
        match self.transfer.completed() {
            None => Effect::Nothing,
            Some(done) => carry_out(&mut self.function, &mut self.registers, tick, &done),
        }
    }
}

/// An act at another address isn't answered.
fn silence(answer: &mut Answer) -> Effect
    ensures answer { answer.new ≡ Answer.Silent }
    ensures effect { result ≡ Effect.Nothing }
{
    *answer = Answer::Silent;
    Effect::Nothing
}

/// Carries out a completed request.
fn carry_out<F: Function>(
    function: &mut F,
    registers: &mut Registers,
    tick: Tick,
    done: &Completed<'_>,
) -> Effect
    requires whole { length done.now.bytes.now ≡ done.now.setup.length }
    requires fits { length done.now.bytes.now ≤ PACKET_SIZE }
    ensures registers { registers.new ≡ registers_for (request_of done.now.setup) registers.old }
    ensures function { function.new ≡ function_for (request_of done.now.setup)
        (F.after_class function.old tick done.now.setup done.now.bytes.now) function.old }
    ensures effect { result ≡ effect_for (request_of done.now.setup) }
{
    match Request::of(&done.setup) {
        None => Effect::Nothing,
        Some(Request::Standard(request)) => registers.complete(request),
        Some(Request::GetDescriptor) => Effect::Nothing,
        Some(Request::ClassIn) => Effect::Nothing,
        Some(Request::ClassOut) => {
            function.class_out(tick, &done.setup, done.bytes);
            Effect::Nothing
        }
    }
}
