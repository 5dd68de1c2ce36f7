//! The bridge while it is up.
ghost use Rattle.std.specs.Prelude.{◌≡◌, ◌+◌, ◌<◌, ◌≤◌, ◌==◌, ◌&&◌, ◌||◌, not, IsTrue, if◌then◌else◌, option_map, is_some, length, []};
ghost use Rattle.psd_base.specs.declared.packet.TheConstants.{PACKET_SIZE};
ghost use Rattle.psd_base.specs.declared.orders.TheConstants.{ORDERS_MAX};
ghost use Rattle.auth_router.specs.JobOrders.{ordered};
ghost use Rattle.auth_router.specs.LiveStep.{opened_live, reset_live, is_reached_live, begun_live, orphaned_control, orphaned_endpoint, completed_live, endpoints_after, with_job, control_in_live, control_in_job, ask_job, asked_live, is_control_work, control_out_live, in_live, in_job_live, out_live, out_job_live, settled_live, settled_work, live_answer, live_job, live_after, hears, heard_live};
ghost use Rattle.auth_router.specs.EndpointStep.{polled_answer, out_reply};
ghost use Rattle.auth_router.specs.ControlStep.{control_in_answer, waits, sent_bytes};
ghost use Rattle.control_pipe.specs.Progress.{out_answer};
ghost use Rattle.auth_router.specs.Bridge.{is_ack, is_nak};

use crate::control::Control;
use crate::endpoints::{ENDPOINTS, Endpoints, is_in_set};
use crate::request::{
    address_told, is_clear_halt, is_passable, is_set_configuration, is_set_interface,
};
use crate::up::Up;
use psd_base::act::{Act, Answer};
use psd_base::console::{Job, JobKind, Order, Orders};
use psd_base::packet::{Block, Packet};
use psd_base::setup::Setup;

/// Whose job it is.
#[derive(Clone, Copy, Debug)]
pub(crate) enum Work {
    /// The last request's, or an earlier one's if it is orphaned.
    Control,
    /// That of an IN endpoint.
    In(u8),
    /// That of an OUT endpoint.
    Out(u8),
}

/// The job that the token hasn't done yet.
#[derive(Clone, Copy, Debug)]
pub(crate) struct Outstanding {
    work: Work,
    /// Nothing asks for its answer any more.
    orphaned: bool,
}

/// What the bridge keeps while it is up.
#[derive(Debug, Drop)]
pub(crate) struct Live {
    up: Up,
    address: u16,
    configured: bool,
    control: Control,
    endpoints: Endpoints,
    /// How many jobs were made.
    jobs: u32,
    outstanding: Option<Outstanding>,
}

impl Live {
    /// In the default state.
    pub(crate) fn new(up: Up) -> Live
        requires some { 0 < up.max0 }
        requires fits { up.max0 ≤ PACKET_SIZE }
        ensures { result ≡ opened_live up }
    {
        Live {
            up,
            address: 0,
            configured: false,
            control: Control::new(up.max0),
            endpoints: Endpoints::new(),
            jobs: 0,
            outstanding: None,
        }
    }

    /// Takes an act of the computer. Writes what it is answered over what was there, and appends the job that it makes.
    pub(crate) fn act(&mut self, act: &Act, answer: &mut Answer, orders: &mut Orders)
        requires jobs { self.old.jobs < 4294967295 }
        requires room { length orders.old.items + 1 ≤ ORDERS_MAX }
        ensures answer { answer.new ≡ live_answer act.now self.old }
        ensures orders { orders.new.items ≡ ordered self.old (live_job act.now self.old) orders.old.items }
        ensures after { self.new ≡ live_after act.now self.old }
    {
        match act {
            Act::Reset => {
                self.reset();
                *answer = Answer::Silent;
            }
            Act::Setup { address, setup } => self.take_setup(*address, setup, answer),
            Act::Out {
                address,
                endpoint,
                toggle,
                bytes,
            } => self.take_out(*address, *endpoint, *toggle, bytes, answer, orders),
            Act::In {
                address,
                endpoint,
                acked,
            } => self.take_in(*address, *endpoint, *acked, answer, orders),
        }
    }

    /// Takes a SETUP.
    fn take_setup(&mut self, address: u8, setup: &Setup, answer: &mut Answer)
        ensures answer { answer.new ≡ live_answer (Act.Setup address setup.now) self.old }
        ensures after { self.new ≡ live_after (Act.Setup address setup.now) self.old }
    {
        *answer = Answer::Silent;
        if address as u16 == self.address {
            self.begin(setup);
            *answer = Answer::Ack;
        }
    }

    /// Takes an OUT.
    fn take_out(
        &mut self,
        address: u8,
        number: u8,
        toggle: bool,
        packet: &Packet,
        answer: &mut Answer,
        orders: &mut Orders,
    )
        requires jobs { self.old.jobs < 4294967295 }
        requires room { length orders.old.items + 1 ≤ ORDERS_MAX }
        ensures answer { answer.new ≡ live_answer (Act.Out address number toggle packet.now) self.old }
        ensures orders { orders.new.items
            ≡ ordered self.old (live_job (Act.Out address number toggle packet.now) self.old)
            orders.old.items }
        ensures after { self.new ≡ live_after (Act.Out address number toggle packet.now) self.old }
    {
        if !self.is_reached(self.up.outs, address, number) {
            *answer = Answer::Silent;
        } else if number == 0 {
            self.control_out(toggle, packet, answer);
        } else {
            self.take(number, toggle, packet, answer, orders);
        }
    }

    /// Takes an IN.
    fn take_in(
        &mut self,
        address: u8,
        number: u8,
        acked: bool,
        answer: &mut Answer,
        orders: &mut Orders,
    )
        requires jobs { self.old.jobs < 4294967295 }
        requires room { length orders.old.items + 1 ≤ ORDERS_MAX }
        ensures answer { answer.new ≡ live_answer (Act.In address number acked) self.old }
        ensures orders { orders.new.items
            ≡ ordered self.old (live_job (Act.In address number acked) self.old) orders.old.items }
        ensures after { self.new ≡ live_after (Act.In address number acked) self.old }
    {
        if !self.is_reached(self.up.ins, address, number) {
            *answer = Answer::Silent;
        } else if number == 0 {
            self.control_in(acked, answer, orders);
        } else {
            self.poll(number, acked, answer, orders);
        }
    }

    /// Takes a bus reset.
    fn reset(&mut self)
        ensures { self.new ≡ reset_live self.old }
    {
        self.address = 0;
        self.configured = false;
        self.control.reset();
        self.endpoints = Endpoints::new();
        self.outstanding = orphaned_control(orphaned_endpoint(self.outstanding));
    }

    /// Whether an act at this address and endpoint is for the bridge, where these endpoints are there.
    fn is_reached(&self, set: u16, address: u8, number: u8) -> bool
        ensures { result ≡ is_reached_live set address number self.now }
    {
        address as u16 == self.address
            && (number == 0 || (self.configured && is_in_set(set, number)))
    }

    /// Takes up the request of a setup.
    fn begin(&mut self, setup: &Setup)
        ensures { self.new ≡ begun_live setup.now self.old }
    {
        let passes = is_passable(self.up.value, self.configured, setup);
        self.control.begin(setup, passes);
        self.outstanding = orphaned_control(self.outstanding);
    }

    /// Takes an IN at endpoint 0.
    fn control_in(&mut self, acked: bool, answer: &mut Answer, orders: &mut Orders)
        requires jobs { self.old.jobs < 4294967295 }
        requires room { length orders.old.items + 1 ≤ ORDERS_MAX }
        ensures answer { answer.new ≡ control_in_answer self.old.control }
        ensures orders { orders.new.items
            ≡ ordered self.old (control_in_job acked self.old) orders.old.items }
        ensures after { self.new ≡ control_in_live acked self.old }
    {
        let withheld = self.control.is_withheld();
        let completed = self.control.completes(acked);
        self.control.take_in(acked, answer);
        if withheld {
            self.ask(orders);
        } else if let Some(setup) = completed {
            self.complete(&setup);
        }
    }

    /// Asks the token for the request, where it is still to be asked and no job is outstanding.
    fn ask(&mut self, orders: &mut Orders)
        requires jobs { self.old.jobs < 4294967295 }
        requires room { length orders.old.items + 1 ≤ ORDERS_MAX }
        ensures orders { orders.new.items ≡ ordered self.old (ask_job self.old) orders.old.items }
        ensures after { self.new ≡ asked_live self.old }
    {
        if self.outstanding.is_none() && self.control.is_due() {
            self.control.ask();
            if self.control.sends() {
                self.make_write(orders);
            } else {
                self.make_request(orders);
            }
        }
    }

    /// Takes an OUT at endpoint 0.
    fn control_out(&mut self, toggle: bool, packet: &Packet, answer: &mut Answer)
        ensures answer { answer.new ≡ out_answer toggle packet.now self.old.control.progress }
        ensures after { self.new ≡ control_out_live toggle packet.now self.old }
    {
        let reads = self.control.reads();
        self.control.take_out(toggle, packet.as_slice(), answer);
        if reads && is_ack(answer) {
            self.outstanding = orphaned_control(self.outstanding);
        }
    }

    /// Takes an IN at another endpoint.
    fn poll(&mut self, number: u8, acked: bool, answer: &mut Answer, orders: &mut Orders)
        requires numbered { number < ENDPOINTS }
        requires jobs { self.old.jobs < 4294967295 }
        requires room { length orders.old.items + 1 ≤ ORDERS_MAX }
        ensures answer { answer.new ≡ polled_answer number self.old.endpoints }
        ensures orders { orders.new.items ≡ ordered self.old (in_job_live number self.old) orders.old.items }
        ensures after { self.new ≡ in_live number acked self.old }
    {
        self.endpoints.poll(number as usize, acked, answer);
        if is_nak(answer) && self.outstanding.is_none() {
            self.make_in(number, orders);
        }
    }

    /// Takes an OUT at another endpoint.
    fn take(
        &mut self,
        number: u8,
        toggle: bool,
        packet: &Packet,
        answer: &mut Answer,
        orders: &mut Orders,
    )
        requires numbered { number < ENDPOINTS }
        requires jobs { self.old.jobs < 4294967295 }
        requires room { length orders.old.items + 1 ≤ ORDERS_MAX }
        ensures answer { answer.new
            ≡ out_reply number toggle (is_some self.old.outstanding) self.old.endpoints }
        ensures orders { orders.new.items
            ≡ ordered self.old (out_job_live number toggle packet.now self.old) orders.old.items }
        ensures after { self.new ≡ out_live number toggle self.old }
    {
        let busy = self.outstanding.is_some();
        let sends = self.endpoints.take(number as usize, toggle, busy, answer);
        if sends {
            self.make_out(number, packet, orders);
        }
    }

    /// How many jobs were made.
    pub(crate) fn jobs(&self) -> u32
        ensures { result ≡ self.now.jobs }
    {
        self.jobs
    }

    /// Takes the token's word on the outstanding job, if life and number are these. False where they aren't, and then
    /// nothing changes.
    pub(crate) fn hear(&mut self, life: u32, number: u32, status: u8, bytes: &[u8]) -> bool
        ensures taken { result ≡ hears life number self.old }
        ensures after { self.new ≡ heard_live life number status bytes.now self.old }
    {
        life == self.up.life && self.done(number, status, bytes)
    }

    /// Takes the token's word on the outstanding job, if its number is this one. False where it isn't, and then nothing
    /// changes.
    fn done(&mut self, number: u32, status: u8, bytes: &[u8]) -> bool
        ensures taken { result ≡ (is_some self.old.outstanding && number == self.old.jobs) }
        ensures after { self.new ≡ settled_live number status bytes.now self.old }
    {
        match self.outstanding {
            None => false,
            Some(Outstanding { work, orphaned }) => {
                if number != self.jobs {
                    return false;
                }
                self.outstanding = None;
                if !orphaned {
                    self.settle(work, status, bytes);
                }
                true
            }
        }
    }

    /// Takes the token's answer to a job.
    fn settle(&mut self, work: Work, status: u8, bytes: &[u8])
        ensures { self.new ≡ settled_work work status bytes.now self.old }
    {
        match work {
            Work::Control => self.control.settle(status, bytes),
            Work::In(number) => self.endpoints.settle_in(number as usize, status, bytes),
            Work::Out(number) => self.endpoints.settle_out(number as usize, status),
        }
    }

    /// Makes the job of a request for which the host sends no bytes.
    fn make_request(&mut self, orders: &mut Orders)
        requires jobs { self.old.jobs < 4294967295 }
        requires room { length orders.old.items + 1 ≤ ORDERS_MAX }
        ensures orders { orders.new.items
            ≡ ordered self.old (Some (JobKind.Control self.old.control.setup [])) orders.old.items }
        ensures after { self.new ≡ with_job Work.Control self.old }
    {
        let kind = JobKind::Control {
            setup: self.control.setup(),
            bytes: Block::new(),
        };
        self.make(kind, Work::Control, orders);
    }

    /// Makes the job of a request with the bytes that the host sent.
    fn make_write(&mut self, orders: &mut Orders)
        requires jobs { self.old.jobs < 4294967295 }
        requires room { length orders.old.items + 1 ≤ ORDERS_MAX }
        ensures orders { orders.new.items
            ≡ ordered self.old
            (Some (JobKind.Control self.old.control.setup (sent_bytes self.old.control.progress)))
            orders.old.items }
        ensures after { self.new ≡ with_job Work.Control self.old }
    {
        let kind = JobKind::Control {
            setup: self.control.setup(),
            bytes: self.control.payload(),
        };
        self.make(kind, Work::Control, orders);
    }

    /// Makes the job of an IN endpoint.
    fn make_in(&mut self, number: u8, orders: &mut Orders)
        requires jobs { self.old.jobs < 4294967295 }
        requires room { length orders.old.items + 1 ≤ ORDERS_MAX }
        ensures orders { orders.new.items ≡ ordered self.old (Some (JobKind.In number)) orders.old.items }
        ensures after { self.new ≡ with_job (Work.In number) self.old }
    {
        self.make(JobKind::In { endpoint: number }, Work::In(number), orders);
    }

    /// Makes the job of an OUT endpoint.
    fn make_out(&mut self, number: u8, packet: &Packet, orders: &mut Orders)
        requires jobs { self.old.jobs < 4294967295 }
        requires room { length orders.old.items + 1 ≤ ORDERS_MAX }
        ensures orders { orders.new.items
            ≡ ordered self.old (Some (JobKind.Out number packet.now)) orders.old.items }
        ensures after { self.new ≡ with_job (Work.Out number) self.old }
    {
        let kind = JobKind::Out {
            endpoint: number,
            bytes: packet.duplicate(),
        };
        self.make(kind, Work::Out(number), orders);
    }

    /// Makes a job, which is outstanding then.
    fn make(&mut self, kind: JobKind, work: Work, orders: &mut Orders)
        requires jobs { self.old.jobs < 4294967295 }
        requires room { length orders.old.items + 1 ≤ ORDERS_MAX }
        ensures orders { orders.new.items ≡ ordered self.old (Some kind) orders.old.items }
        ensures after { self.new ≡ with_job work self.old }
    {
        self.jobs += 1;
        self.outstanding = Some(Outstanding {
            work,
            orphaned: false,
        });
        orders.push(Order::Job(Job {
            life: self.up.life,
            number: self.jobs,
            kind,
        }));
    }

    /// Does what a completed request asks of the bridge itself.
    fn complete(&mut self, setup: &Setup)
        ensures { self.new ≡ completed_live setup.now self.old }
    {
        if let Some(address) = address_told(setup) {
            self.address = address;
        }
        if is_set_configuration(setup) {
            self.configured = setup.value != 0;
            self.outstanding = orphaned_endpoint(self.outstanding);
        }
        restart(&mut self.endpoints, setup);
    }
}

/// Ends halts and sets toggles anew, as a completed request asks.
fn restart(endpoints: &mut Endpoints, setup: &Setup)
    ensures { endpoints.new ≡ endpoints_after setup.now endpoints.old }
{
    if is_set_configuration(setup) {
        *endpoints = Endpoints::new();
    } else if is_set_interface(setup) {
        endpoints.restart();
    } else if is_clear_halt(setup) {
        endpoints.restart_at(setup.index);
    }
}

/// The outstanding job, orphaned if it is a request's.
fn orphaned_control(outstanding: Option<Outstanding>) -> Option<Outstanding>
    ensures { result ≡ orphaned_control outstanding }
{
    match outstanding {
        None => None,
        Some(Outstanding { work, orphaned }) => Some(Outstanding {
            work,
            orphaned: orphaned || is_control(work),
        }),
    }
}

/// The outstanding job, orphaned if it is another endpoint's.
fn orphaned_endpoint(outstanding: Option<Outstanding>) -> Option<Outstanding>
    ensures { result ≡ orphaned_endpoint outstanding }
{
    match outstanding {
        None => None,
        Some(Outstanding { work, orphaned }) => Some(Outstanding {
            work,
            orphaned: orphaned || !is_control(work),
        }),
    }
}

/// Whether a job is a request's.
fn is_control(work: Work) -> bool
    ensures { result ≡ is_control_work work }
{
    match work {
        Work::Control => true,
        Work::In(_) => false,
        Work::Out(_) => false,
    }
}

/// Whether an answer is ACK.
fn is_ack(answer: &Answer) -> bool
    ensures { result ≡ is_ack answer.now }
{
    match answer {
        Answer::Ack => true,
        Answer::Nak => false,
        Answer::Stall => false,
        Answer::Silent => false,
        Answer::Data { .. } => false,
    }
}

/// Whether an answer is NAK.
fn is_nak(answer: &Answer) -> bool
    ensures { result ≡ is_nak answer.now }
{
    match answer {
        Answer::Ack => false,
        Answer::Nak => true,
        Answer::Stall => false,
        Answer::Silent => false,
        Answer::Data { .. } => false,
    }
}
