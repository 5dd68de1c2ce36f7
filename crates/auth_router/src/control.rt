//! The transfer at endpoint 0 of the bridge: its stages, and what it waits for.
ghost use Rattle.std.specs.Prelude.{◌≡◌, ◌+◌, ◌*◌, ◌%◌, ◌==◌, ◌<◌, ◌≤◌, IsTrue, true, false, [], length, take, drop, not, if◌then◌else◌};
ghost use Rattle.control_pipe.specs.Transfer.{packets_of, form_of};
ghost use Rattle.auth_router.specs.ControlStep.{forwarding_for, stage_for, is_due};
ghost use Rattle.auth_router.specs.Bridge.{reads};
ghost use Rattle.psd_base.specs.declared.packet.TheConstants.{PACKET_SIZE};
ghost use Rattle.control_pipe.specs.Progress.{Refusing, DoneOut, is_status_out, in_answer, out_answer, after_in};
ghost use Rattle.auth_router.specs.Forwarding.{is_set_address};

use crate::request::is_set_address;
use arrayvec::ArrayVec;
use control_pipe::codes::TO_HOST;
use psd_base::act::Answer;
use psd_base::packet::{BLOCK_SIZE, Block, Packet};
use psd_base::setup::Setup;
use std::marker::Model;

/// The stages of a control transfer (USB 2.0, 8.5.3).
#[derive(Clone, Copy, Debug)]
pub(crate) enum Stage {
    /// All is answered STALL: no setup since the bus reset, a request error, or a transfer that is over.
    Refusing,
    /// The data go to the host, in `count` packets, of which `sent` were acknowledged.
    DataIn { sent: usize, count: usize },
    /// The data are acknowledged, and the host's empty packet, which ends the transfer, is awaited.
    StatusOut,
    /// The host's empty packet came, and may be repeated.
    DoneOut,
    /// The data come from the host. `toggle` is that of the next packet.
    DataOut { toggle: bool },
    /// There are no data, and the empty packet that ends the transfer is due.
    StatusIn,
}

/// What a transfer waits for.
#[derive(Clone, Copy, Debug)]
pub(crate) enum Forwarding {
    /// Nothing: the token has answered, or isn't asked.
    Known,
    /// The token is to be asked.
    Due,
    /// The token was asked, and hasn't answered.
    Asked,
}

/// One control transfer of the bridge.
#[derive(Debug, Drop)]
pub(crate) struct Control {
    setup: Setup,
    stage: Stage,
    bytes: ArrayVec<u8, BLOCK_SIZE>,
    forwarding: Forwarding,
    /// The most bytes of a packet.
    maximum: usize,
}

impl Model for Control {
    ghost use Rattle.auth_router.specs.ControlStep.{ControlValue, progress_in, IsSound};

    ghost Value = { ControlValue };

    ghost view = { λ control. record {
      setup = control.setup;
      progress = progress_in control.stage control.setup control.bytes.items control.maximum;
      forwarding = control.forwarding;
      maximum = control.maximum;
    } };

    ghost invariant = { λ control. IsSound control.stage control.setup control.bytes.items control.maximum };
}

/// No setup yet.
const NO_SETUP: Setup = Setup {
    kind: 0,
    request: 0,
    value: 0,
    index: 0,
    length: 0,
};

impl Control {
    ghost use Rattle.auth_router.specs.ControlStep.{begun, waits, is_withheld, control_in_answer, after_control_in, after_control_out, settled_control, control_completes, sent_bytes};

    /// No transfer yet, at an endpoint with this maximum packet size.
    pub(crate) fn new(maximum: u8) -> Control
        requires some { 0 < maximum }
        requires fits { maximum ≤ PACKET_SIZE }
        ensures { result ≡ record {
          setup = record { kind = 0; request = 0; value = 0; index = 0; length = 0 };
          progress = Refusing;
          forwarding = Forwarding.Known;
          maximum = maximum;
        } }
    {
        Control {
            setup: NO_SETUP,
            stage: Stage::Refusing,
            bytes: ArrayVec::new(),
            forwarding: Forwarding::Known,
            maximum: maximum as usize,
        }
    }

    /// Forgets the transfer, at a bus reset.
    pub(crate) fn reset(&mut self)
        ensures { self.new ≡ record {
          setup = record { kind = 0; request = 0; value = 0; index = 0; length = 0 };
          progress = Refusing;
          forwarding = Forwarding.Known;
          maximum = self.old.maximum;
        } }
    {
        self.setup = NO_SETUP;
        self.stage = Stage::Refusing;
        self.forwarding = Forwarding::Known;
    }

    /// Begins the transfer of a setup, which the bridge lets pass or not.
    pub(crate) fn begin(&mut self, setup: &Setup, passes: bool)
        requires { IsTrue passes → setup.now.length ≤ BLOCK_SIZE }
        ensures { self.new ≡ begun setup.now passes self.old }
    {
        self.setup = *setup;
        self.bytes.clear();
        self.forwarding = forwarding_for(setup, passes);
        self.stage = if passes {
            first_stage(setup)
        } else {
            Stage::Refusing
        };
    }

    /// Whether the token hasn't answered yet.
    pub(crate) fn is_waiting(&self) -> bool
        ensures { result ≡ waits self.now.forwarding }
    {
        match self.forwarding {
            Forwarding::Known => false,
            Forwarding::Due => true,
            Forwarding::Asked => true,
        }
    }

    /// Whether the token is still to be asked.
    pub(crate) fn is_due(&self) -> bool
        ensures { result ≡ is_due self.now.forwarding }
    {
        match self.forwarding {
            Forwarding::Known => false,
            Forwarding::Due => true,
            Forwarding::Asked => false,
        }
    }

    /// Whether an IN is answered NAK: it would be answered with data, and the token hasn't answered yet.
    pub(crate) fn is_withheld(&self) -> bool
        ensures { result ≡ is_withheld self.now }
    {
        if !self.is_waiting() {
            return false;
        }
        match self.stage {
            Stage::Refusing => false,
            Stage::DataIn { .. } => true,
            Stage::StatusOut => false,
            Stage::DoneOut => false,
            Stage::DataOut { .. } => self.bytes.len() == self.setup.length as usize,
            Stage::StatusIn => true,
        }
    }

    /// Whether the data of the transfer go to the host.
    pub(crate) fn reads(&self) -> bool
        ensures { result ≡ reads self.now.setup }
    {
        self.setup.length != 0 && self.setup.kind >= TO_HOST
    }

    /// The token was asked.
    pub(crate) fn ask(&mut self)
        ensures { self.new ≡ record self.old { forwarding = Forwarding.Asked } }
    {
        self.forwarding = Forwarding::Asked;
    }

    /// The setup of the transfer.
    pub(crate) fn setup(&self) -> Setup
        ensures { result ≡ self.now.setup }
    {
        self.setup
    }

    /// Whether the data of the transfer come from the host, and there may be some.
    pub(crate) fn sends(&self) -> bool
        ensures none { result ≡ false → sent_bytes self.now.progress ≡ [] }
    {
        match self.stage {
            Stage::Refusing => false,
            Stage::DataIn { .. } => false,
            Stage::StatusOut => false,
            Stage::DoneOut => false,
            Stage::DataOut { .. } => true,
            Stage::StatusIn => false,
        }
    }

    /// The bytes that the host sent.
    pub(crate) fn payload(&self) -> Block
        ensures { result ≡ sent_bytes self.now.progress }
    {
        match self.stage {
            Stage::Refusing => Block::new(),
            Stage::DataIn { .. } => Block::new(),
            Stage::StatusOut => Block::new(),
            Stage::DoneOut => Block::new(),
            Stage::DataOut { .. } => Block::from_slice(self.bytes.as_slice()),
            Stage::StatusIn => Block::new(),
        }
    }

    /// The request that an IN completes, which is acknowledged or not.
    pub(crate) fn completes(&self, acked: bool) -> Option<Setup>
        ensures { result ≡ control_completes acked self.now }
    {
        if !acked || self.is_waiting() {
            return None;
        }
        match self.stage {
            Stage::Refusing => None,
            Stage::DataIn { .. } => None,
            Stage::StatusOut => None,
            Stage::DoneOut => None,
            Stage::DataOut { .. } => {
                if self.bytes.len() == self.setup.length as usize {
                    Some(self.setup)
                } else {
                    None
                }
            }
            Stage::StatusIn => Some(self.setup),
        }
    }

    /// Takes an IN, and writes what it is answered: NAK in place of data while the token hasn't answered.
    pub(crate) fn take_in(&mut self, acked: bool, answer: &mut Answer)
        ensures answer { answer.new ≡ control_in_answer self.old }
        ensures after { self.new ≡ after_control_in acked self.old }
    {
        if self.is_withheld() {
            *answer = Answer::Nak;
        } else {
            self.give(acked, answer);
        }
    }

    /// Takes an IN where all is known.
    fn give(&mut self, acked: bool, answer: &mut Answer)
        ensures answer { answer.new ≡ in_answer self.old.progress }
        ensures after { self.new ≡ record self.old { progress = after_in acked self.old.progress } }
    {
        match self.stage {
            Stage::Refusing => *answer = Answer::Stall,
            Stage::DataIn { sent, count } => {
                data_packet(self.bytes.as_slice(), sent, self.maximum, answer);
                if acked {
                    self.stage = if 1 + sent < count {
                        Stage::DataIn {
                            sent: 1 + sent,
                            count,
                        }
                    } else {
                        Stage::StatusOut
                    };
                }
            }
            Stage::StatusOut => self.stall(answer),
            Stage::DoneOut => self.stall(answer),
            Stage::DataOut { .. } => {
                if self.bytes.len() == self.setup.length as usize {
                    self.end(acked, answer);
                } else {
                    self.stall(answer);
                }
            }
            Stage::StatusIn => self.end(acked, answer),
        }
    }

    /// Takes an OUT, and writes what it is answered.
    pub(crate) fn take_out(&mut self, toggle: bool, packet: &[u8], answer: &mut Answer)
        ensures answer { answer.new ≡ out_answer toggle packet.now self.old.progress }
        ensures after { self.new ≡ after_control_out toggle packet.now self.old }
    {
        match self.stage {
            Stage::Refusing => self.stall(answer),
            Stage::DataIn { .. } => self.take_status(toggle, packet, answer),
            Stage::StatusOut => self.take_status(toggle, packet, answer),
            Stage::DoneOut => self.take_status(toggle, packet, answer),
            Stage::DataOut { toggle: next } => {
                if toggle != next {
                    *answer = Answer::Ack;
                    return;
                }
                let count = self.bytes.len();
                let asked = self.setup.length as usize;
                if count < asked && count + packet.len() <= asked {
                    let _ = self.bytes.try_extend_from_slice(packet);
                    self.stage = Stage::DataOut { toggle: !toggle };
                    *answer = Answer::Ack;
                } else {
                    self.stall(answer);
                }
            }
            Stage::StatusIn => self.stall(answer),
        }
    }

    /// Takes the token's answer to the transfer's job.
    pub(crate) fn settle(&mut self, status: u8, bytes: &[u8])
        ensures { self.new ≡ settled_control status bytes.now self.old }
    {
        self.forwarding = Forwarding::Known;
        if status != 0 {
            self.stage = Stage::Refusing;
            return;
        }
        match self.stage {
            Stage::Refusing => {}
            Stage::DataIn { .. } => supply(
                &mut self.stage,
                &mut self.bytes,
                &self.setup,
                self.maximum,
                bytes,
            ),
            Stage::StatusOut => {}
            Stage::DoneOut => {}
            Stage::DataOut { .. } => {}
            Stage::StatusIn => {}
        }
    }

    /// Takes an OUT that can only be the status stage.
    fn take_status(&mut self, toggle: bool, packet: &[u8], answer: &mut Answer)
        ensures answer { answer.new ≡ (if is_status_out toggle packet.now then Answer.Ack else Answer.Stall) }
        ensures after { self.new
            ≡ record self.old { progress = if is_status_out toggle packet.now then DoneOut else Refusing } }
    {
        if toggle && packet.is_empty() {
            self.stage = Stage::DoneOut;
            *answer = Answer::Ack;
        } else {
            self.stall(answer);
        }
    }

    /// Refuses an act that doesn't fit, and all later ones.
    fn stall(&mut self, answer: &mut Answer)
        ensures answer { answer.new ≡ Answer.Stall }
        ensures after { self.new ≡ record self.old { progress = Refusing } }
    {
        self.stage = Stage::Refusing;
        *answer = Answer::Stall;
    }

    /// Writes the empty packet of the status stage.
    fn end(&mut self, acked: bool, answer: &mut Answer)
        ensures answer { answer.new ≡ Answer.Data true [] }
        ensures after { self.new ≡ (if acked then record self.old { progress = Refusing } else self.old) }
    {
        if acked {
            self.stage = Stage::Refusing;
        }
        *answer = Answer::Data {
            toggle: true,
            bytes: Packet::new(),
        };
    }
}

/// What the transfer of a setup waits for.
fn forwarding_for(setup: &Setup, passes: bool) -> Forwarding
    ensures { result ≡ forwarding_for setup.now passes }
{
    if passes && !is_set_address(setup) {
        Forwarding::Due
    } else {
        Forwarding::Known
    }
}

/// The stage in which the transfer of a setup begins, before anything is known of its data.
fn first_stage(setup: &Setup) -> Stage
    ensures { result ≡ stage_for (form_of setup.now) }
{
    if setup.length == 0 {
        Stage::StatusIn
    } else if setup.kind < TO_HOST {
        Stage::DataOut { toggle: true }
    } else {
        Stage::DataIn { sent: 0, count: 1 }
    }
}

/// The first bytes, as many as the host asked for.
fn cut_to(bytes: &[u8], asked: usize) -> &[u8]
    ensures value { result.now ≡ take asked bytes.now }
    ensures fits { length result.now ≤ asked }
{
    if asked < bytes.len() {
        &bytes[..asked]
    } else {
        bytes
    }
}

/// How many packets of a maximum size so many bytes take, where the host asked for `asked`. A packet below the maximum
/// size, an empty one if need be, ends data that are shorter than that.
fn packet_count(count: usize, asked: u16, maximum: usize) -> usize
    requires count { count ≤ BLOCK_SIZE }
    requires some { 0 < maximum }
    requires fits { maximum ≤ PACKET_SIZE }
    ensures { result ≡ packets_of count asked maximum }
{
    if count < asked as usize {
        count / maximum + 1
    } else {
        (count + (maximum - 1)) / maximum
    }
}

/// Takes the data due for a setup, cut to the length that the host asked for.
fn supply(
    stage: &mut Stage,
    due: &mut ArrayVec<u8, BLOCK_SIZE>,
    setup: &Setup,
    maximum: usize,
    bytes: &[u8],
)
    requires short { setup.now.length ≤ BLOCK_SIZE }
    requires some { 0 < maximum }
    requires fits { maximum ≤ PACKET_SIZE }
    ensures bytes { due.new.items ≡ take setup.now.length bytes.now }
    ensures stage { stage.new ≡ Stage.DataIn 0
        (packets_of (length (take setup.now.length bytes.now)) setup.now.length maximum) }
{
    let cut = cut_to(bytes, setup.length as usize);
    due.clear();
    let _ = due.try_extend_from_slice(cut);
    *stage = Stage::DataIn {
        sent: 0,
        count: packet_count(cut.len(), setup.length, maximum),
    };
}

/// Writes the packet of this number, counted from 0, as an answer.
fn data_packet(bytes: &[u8], number: usize, maximum: usize, answer: &mut Answer)
    requires within { number * maximum ≤ length bytes.now }
    requires fits { maximum ≤ PACKET_SIZE }
    ensures { answer.new ≡ Answer.Data (number % 2 == 0) (take maximum (drop (number * maximum) bytes.now)) }
{
    let rest = &bytes[number * maximum..];
    *answer = Answer::Data {
        toggle: number % 2 == 0,
        bytes: Packet::new(),
    };
    if let Answer::Data { bytes, .. } = answer {
        bytes.append(cut_to(rest, maximum));
    }
}
