//! What the bridge keeps of the token's endpoints other than 0: halts, toggles and packets.
ghost use Rattle.std.specs.Prelude.{◌≡◌, ◌<◌, not, if◌then◌else◌, slice_set, slice_index_or, false};
ghost use Rattle.auth_router.specs.EndpointStep.{idle, restarted, restarted_at, polled_answer, after_poll, out_reply, out_sends, after_out, after_in_answer, after_out_answer};
ghost use Rattle.auth_router.specs.Bridge.{is_in_set};

use psd_base::act::Answer;
use psd_base::packet::{PACKET_SIZE, Packet};

/// Endpoint numbers are below this (USB 2.0, 8.3.2.2).
pub(crate) const ENDPOINTS: usize = 16;

/// The endpoints by their numbers. A toggle is that of the next packet, true for DATA1.
#[derive(Debug, Drop)]
pub(crate) struct Endpoints {
    in_halts: [bool; ENDPOINTS],
    out_halts: [bool; ENDPOINTS],
    in_toggles: [bool; ENDPOINTS],
    out_toggles: [bool; ENDPOINTS],
    /// The packet that the token gave and the computer hasn't acknowledged.
    held: [Option<Packet>; ENDPOINTS],
}

impl Endpoints {
    /// Nothing is halted or held, and each toggle is DATA0.
    pub(crate) fn new() -> Endpoints
        ensures { result ≡ idle }
    {
        Endpoints {
            in_halts: [false; ENDPOINTS],
            out_halts: [false; ENDPOINTS],
            in_toggles: [false; ENDPOINTS],
            out_toggles: [false; ENDPOINTS],
            held: [
                None, None, None, None, None, None, None, None, None, None, None, None, None, None,
                None, None,
            ],
        }
    }

    /// Ends all halts, and sets all toggles to DATA0.
    pub(crate) fn restart(&mut self)
        ensures { self.new ≡ restarted self.old }
    {
        self.in_halts = [false; ENDPOINTS];
        self.out_halts = [false; ENDPOINTS];
        self.in_toggles = [false; ENDPOINTS];
        self.out_toggles = [false; ENDPOINTS];
    }

    /// Ends the halt of the endpoint that an index names, and sets its toggle to DATA0 (USB 2.0, 9.3.4).
    pub(crate) fn restart_at(&mut self, index: u16)
        ensures { self.new ≡ restarted_at index self.old }
    {
        let low = (index % 256) as usize;
        if low >= 0x80 {
            let number = low - 0x80;
            if number < ENDPOINTS {
                self.in_halts[number] = false;
                self.in_toggles[number] = false;
            }
        } else if low < ENDPOINTS {
            self.out_halts[low] = false;
            self.out_toggles[low] = false;
        }
    }

    /// Takes an IN at an endpoint, and writes what it is answered: NAK where no packet is held.
    pub(crate) fn poll(&mut self, number: usize, acked: bool, answer: &mut Answer)
        requires { number < ENDPOINTS }
        ensures answer { answer.new ≡ polled_answer number self.old }
        ensures after { self.new ≡ after_poll number acked self.old }
    {
        if self.in_halts[number] {
            *answer = Answer::Stall;
            return;
        }
        match &self.held[number] {
            None => *answer = Answer::Nak,
            Some(packet) => {
                *answer = Answer::Data {
                    toggle: self.in_toggles[number],
                    bytes: packet.duplicate(),
                };
                if acked {
                    self.in_toggles[number] = !self.in_toggles[number];
                    self.held[number] = None;
                }
            }
        }
    }

    /// Takes an OUT at an endpoint, and writes what it is answered. `busy` says whether a job is outstanding. True where
    /// the packet goes to the token.
    pub(crate) fn take(
        &mut self,
        number: usize,
        toggle: bool,
        busy: bool,
        answer: &mut Answer,
    ) -> bool
        requires { number < ENDPOINTS }
        ensures answer { answer.new ≡ out_reply number toggle busy self.old }
        ensures sends { result ≡ out_sends number toggle busy self.old }
        ensures after { self.new ≡ after_out number toggle busy self.old }
    {
        if self.out_halts[number] {
            *answer = Answer::Stall;
            return false;
        }
        if toggle != self.out_toggles[number] {
            *answer = Answer::Ack;
            return false;
        }
        if busy {
            *answer = Answer::Nak;
            return false;
        }
        self.out_toggles[number] = !toggle;
        *answer = Answer::Ack;
        true
    }

    /// Takes the token's answer to the job of an IN endpoint.
    pub(crate) fn settle_in(&mut self, number: usize, status: u8, bytes: &[u8])
        ensures { self.new ≡ after_in_answer number status bytes.now self.old }
    {
        if number >= ENDPOINTS {
            return;
        }
        if status == 0 && bytes.len() <= PACKET_SIZE {
            self.held[number] = Some(Packet::from_slice(bytes));
        } else if status != 3 {
            self.in_halts[number] = true;
        }
    }

    /// Takes the token's answer to the job of an OUT endpoint.
    pub(crate) fn settle_out(&mut self, number: usize, status: u8)
        ensures { self.new ≡ after_out_answer number status self.old }
    {
        if number < ENDPOINTS && status != 0 {
            self.out_halts[number] = true;
        }
    }
}

/// Whether an endpoint is one of a set, in which bit n stands for endpoint n.
pub(crate) fn is_in_set(set: u16, number: u8) -> bool
    ensures { result ≡ is_in_set set number }
{
    number < 16 && (set >> number) % 2 == 1
}
