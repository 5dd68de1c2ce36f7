//! What happens at the switch, one event at a time.
use crate::act::{Act, Side};
use crate::console::{Panel, Plug};
use crate::port::PortId;

/// A time in ticks. One tick is a millisecond.
pub type Tick = u32;

/// The most events that one run serves.
pub const EVENTS_MAX: u32 = 16_777_216;

/// What happened at a tick. It is small: what is long is lent.
#[derive(Clone, Copy, Debug)]
pub struct Event<'a> {
    pub tick: Tick,
    pub what: What<'a>,
}

/// The kinds of event.
#[derive(Clone, Copy, Debug)]
pub enum What<'a> {
    /// Time passes. Timers move at these events alone.
    Clock,
    /// A computer acts at one of its connectors.
    Port(PortId, Side, &'a Act),
    /// A button moves, a check of the self-test ends, or the case is opened.
    Panel(Panel),
    /// A peripheral is attached to a plug of the console.
    Attach(Plug),
    /// The peripheral at a plug is taken off.
    Detach(Plug),
    /// A peripheral replies to the order of this number in this life. The status is 0 where the request was served, 1
    /// where it was stalled, 2 where it failed, and 3 where the peripheral wasn't ready.
    Reply {
        plug: Plug,
        life: u32,
        number: u32,
        status: u8,
        bytes: &'a [u8],
    },
    /// A peripheral sends a report of one of its interfaces (HID 1.11, 5.6).
    Report {
        plug: Plug,
        interface: u8,
        bytes: &'a [u8],
    },
    /// The token has done the job of this number in this life. The status is that of a reply.
    JobDone {
        life: u32,
        number: u32,
        status: u8,
        bytes: &'a [u8],
    },
}
