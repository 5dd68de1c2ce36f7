//! The stages of one control transfer (USB 2.0, 8.5.3).
ghost use Rattle.std.specs.Prelude.{◌≡◌, ◌+◌, ◌*◌, ◌%◌, ◌==◌, ◌<◌, ◌≤◌, true, [], length, take, drop, IfSome, option_map, if◌then◌else◌};
ghost use Rattle.std.specs.Option.{ForSome, option_copied};
ghost use Rattle.control_pipe.specs.Transfer.{form_of, packets_of};

use psd_base::act::Answer;
use psd_base::buffer::Buffer;
use psd_base::packet::{BLOCK_SIZE, PACKET_SIZE, Packet};
use psd_base::setup::Setup;
use std::marker::Model;

/// The stages of a control transfer.
#[derive(Clone, Copy, Debug)]
pub(crate) enum Stage {
    /// All is answered STALL: no setup since the bus reset, a request that isn't supported, or a transfer that is over.
    Refusing,
    /// The data go to the host, in `count` packets, of which `sent` were acknowledged.
    DataIn { sent: usize, count: usize },
    /// The data are acknowledged, and the host's empty packet, which ends the transfer, is awaited.
    StatusOut,
    /// The host's empty packet came, and may be repeated.
    DoneOut,
    /// The data come from the host. `toggle` is that of the next packet.
    DataOut { toggle: bool },
    /// There are no data, and the empty packet that ends the transfer is due.
    StatusIn,
}

/// One control transfer. Contracts see how far it is.
#[derive(Debug, Drop)]
pub(crate) struct Transfer {
    setup: Setup,
    stage: Stage,
    bytes: Buffer,
}

impl Model for Transfer {
    ghost use Rattle.control_pipe.specs.Progress.{Progress};

    ghost Value = { Progress };

    ghost use Rattle.control_pipe.specs.TransferFields.{progress_in, IsSound};
    ghost use Rattle.psd_base.specs.declared.packet.TheConstants.{PACKET_SIZE};

    ghost view = { λ transfer. progress_in PACKET_SIZE transfer.stage transfer.setup transfer.bytes };

    ghost invariant = { λ transfer.
        IsSound PACKET_SIZE PACKET_SIZE transfer.stage transfer.setup transfer.bytes };
}

impl Transfer {
    ghost use Rattle.control_pipe.specs.Progress.{Progress, Refusing, DoneOut, begun_progress, first_stage, in_answer, after_in, completion, is_status_out, out_answer, after_out};

    /// No transfer yet.
    pub(crate) fn new() -> Transfer
        ensures { result ≡ Refusing }
    {
        Transfer {
            setup: Setup {
                kind: 0,
                request: 0,
                value: 0,
                index: 0,
                length: 0,
            },
            stage: Stage::Refusing,
            bytes: Buffer::new(),
        }
    }

    /// Refuses all until the next setup.
    pub(crate) fn refuse(&mut self)
        ensures { self.new ≡ Refusing }
    {
        self.stage = Stage::Refusing;
    }

    /// Begins the transfer of a setup. Where no data are due, not even empty ones, the request isn't supported.
    pub(crate) fn begin(&mut self, setup: &Setup, due: Option<&[u8]>)
        requires short { ForSome due (λ bytes. length bytes.now ≤ BLOCK_SIZE) }
        requires writes_little { ForSome due (λ _. setup.now.kind < 128 → setup.now.length ≤ PACKET_SIZE) }
        ensures { self.new ≡ begun_progress PACKET_SIZE setup.now (option_copied due.entry) }
    {
        match due {
            Some(bytes) => self.begin_supported(setup, bytes),
            None => self.refuse(),
        }
    }

    /// Begins the transfer of a supported request.
    fn begin_supported(&mut self, setup: &Setup, due: &[u8])
        requires short { length due.now ≤ BLOCK_SIZE }
        requires writes_little { setup.now.kind < 128 → setup.now.length ≤ PACKET_SIZE }
        ensures { self.new ≡ first_stage PACKET_SIZE (form_of setup.now) setup.now
            (take setup.now.length due.now) }
    {
        self.setup = *setup;
        self.bytes.clear();
        if setup.length == 0 {
            self.stage = Stage::StatusIn;
        } else if setup.kind < 0x80 {
            self.stage = Stage::DataOut { toggle: true };
        } else {
            let cut = cut_to(due, setup.length);
            self.bytes.append(cut);
            self.stage = Stage::DataIn {
                sent: 0,
                count: packet_count(cut.len(), setup.length),
            };
        }
    }

    /// Takes an IN, and writes what it is answered.
    pub(crate) fn take_in(&mut self, acked: bool, answer: &mut Answer)
        ensures answer { answer.new ≡ in_answer self.old }
        ensures after { self.new ≡ after_in acked self.old }
    {
        match self.stage {
            Stage::Refusing => *answer = Answer::Stall,
            Stage::DataIn { sent, count } => {
                data_packet(self.bytes.as_slice(), sent, answer);
                if acked {
                    self.stage = if 1 + sent < count {
                        Stage::DataIn {
                            sent: 1 + sent,
                            count,
                        }
                    } else {
                        Stage::StatusOut
                    };
                }
            }
            Stage::StatusOut => self.stall(answer),
            Stage::DoneOut => self.stall(answer),
            Stage::DataOut { .. } => {
                if self.bytes.len() == self.setup.length as usize {
                    self.end(acked, answer);
                } else {
                    self.stall(answer);
                }
            }
            Stage::StatusIn => self.end(acked, answer),
        }
    }

    /// What an acknowledged IN completes.
    pub(crate) fn completed(&self) -> Option<Completed<'_>>
        ensures value { option_map (λ done. (done.setup, done.bytes.now)) result ≡ completion self.now }
        ensures whole { IfSome result (λ done. length done.bytes.now ≡ done.setup.length) }
        ensures fits { IfSome result (λ done. length done.bytes.now ≤ PACKET_SIZE) }
    {
        match self.stage {
            Stage::Refusing => None,
            Stage::DataIn { .. } => None,
            Stage::StatusOut => None,
            Stage::DoneOut => None,
            Stage::DataOut { .. } => {
                if self.bytes.len() == self.setup.length as usize {
                    Some(Completed {
                        setup: self.setup,
                        bytes: self.bytes.as_slice(),
                    })
                } else {
                    None
                }
            }
            Stage::StatusIn => Some(Completed {
                setup: self.setup,
                bytes: self.bytes.as_slice(),
            }),
        }
    }

    /// Takes an OUT, and writes what it is answered.
    pub(crate) fn take_out(&mut self, toggle: bool, packet: &[u8], answer: &mut Answer)
        ensures answer { answer.new ≡ out_answer toggle packet.now self.old }
        ensures after { self.new ≡ after_out toggle packet.now self.old }
    {
        match self.stage {
            Stage::Refusing => self.stall(answer),
            Stage::DataIn { .. } => self.take_status(toggle, packet, answer),
            Stage::StatusOut => self.take_status(toggle, packet, answer),
            Stage::DoneOut => self.take_status(toggle, packet, answer),
            Stage::DataOut { toggle: next } => {
                if toggle != next {
                    *answer = Answer::Ack;
                    return;
                }
                let count = self.bytes.len();
                let asked = self.setup.length as usize;
                if count < asked && count + packet.len() <= asked {
                    self.bytes.append(packet);
                    self.stage = Stage::DataOut { toggle: !toggle };
                    *answer = Answer::Ack;
                } else {
                    self.stall(answer);
                }
            }
            Stage::StatusIn => self.stall(answer),
        }
    }

    /// Takes an OUT that can only be the status stage.
    fn take_status(&mut self, toggle: bool, packet: &[u8], answer: &mut Answer)
        ensures answer { answer.new ≡ (if is_status_out toggle packet.now then Answer.Ack else Answer.Stall) }
        ensures after { self.new ≡ (if is_status_out toggle packet.now then DoneOut else Refusing) }
    {
        if toggle && packet.is_empty() {
            self.stage = Stage::DoneOut;
            *answer = Answer::Ack;
        } else {
            self.stall(answer);
        }
    }

    /// Refuses an act that doesn't fit, and all later ones.
    fn stall(&mut self, answer: &mut Answer)
        ensures answer { answer.new ≡ Answer.Stall }
        ensures after { self.new ≡ Refusing }
    {
        self.stage = Stage::Refusing;
        *answer = Answer::Stall;
    }

    /// Writes the empty packet of the status stage.
    fn end(&mut self, acked: bool, answer: &mut Answer)
        ensures answer { answer.new ≡ Answer.Data true [] }
        ensures after { self.new ≡ (if acked then Refusing else self.old) }
    {
        if acked {
            self.stage = Stage::Refusing;
        }
        *answer = Answer::Data {
            toggle: true,
            bytes: Packet::new(),
        };
    }
}

/// A request whose status stage is acknowledged.
#[derive(Clone, Copy)]
pub(crate) struct Completed<'a> {
    pub(crate) setup: Setup,
    /// The bytes that the host sent.
    pub(crate) bytes: &'a [u8],
}

/// The first bytes, as many as the host asked for.
fn cut_to(bytes: &[u8], asked: u16) -> &[u8]
    ensures value { result.now ≡ take asked bytes.now }
    ensures fits { length result.now ≤ asked }
{
    let asked = asked as usize;
    if asked < bytes.len() {
        &bytes[..asked]
    } else {
        bytes
    }
}

/// How many packets so many bytes take, where the host asked for `asked`. A packet below the maximum size, an empty one
/// if need be, ends data that are shorter than that.
fn packet_count(count: usize, asked: u16) -> usize
    requires { count ≤ BLOCK_SIZE }
    ensures { result ≡ packets_of count asked PACKET_SIZE }
{
    if count < asked as usize {
        count / PACKET_SIZE + 1
    } else {
        (count + (PACKET_SIZE - 1)) / PACKET_SIZE
    }
}

/// Writes the packet of this number, counted from 0, as an answer.
fn data_packet(bytes: &[u8], number: usize, answer: &mut Answer)
    requires { number * PACKET_SIZE ≤ length bytes.now }
    ensures { answer.new
        ≡ Answer.Data (number % 2 == 0) (take PACKET_SIZE (drop (number * PACKET_SIZE) bytes.now)) }
{
    let rest = &bytes[number * PACKET_SIZE..];
    *answer = Answer::Data {
        toggle: number % 2 == 0,
        bytes: Packet::new(),
    };
    if let Answer::Data { bytes, .. } = answer {
        bytes.append(cut_to(rest, PACKET_SIZE as u16));
    }
}
