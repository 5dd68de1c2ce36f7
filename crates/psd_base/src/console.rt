//! What the switch orders from the console's peripherals, and what it notes of itself.
pub use crate::orders::{ORDERS_MAX, Orders};
use crate::packet::{Block, Packet};
use crate::port::PortId;
use crate::setup::Setup;
use arrayvec::ArrayVec;

/// A place for a peripheral at the console.
#[derive(Clone, Copy, Debug, PartialEq, Eq)]
pub enum Plug {
    Keyboard,
    Mouse,
    Token,
}

/// A rule by which a peripheral or an interface is refused.
#[derive(Clone, Copy, Debug, PartialEq, Eq)]
pub enum RuleName {
    /// A rule that always holds, 1 to 11.
    Fixed(u8),
    /// An entry of the administrator's deny list, from 1.
    Deny(u8),
    /// There is an allow list, and no entry of it matches.
    NotAllowed,
}

/// Why the switch went dark.
#[derive(Clone, Copy, Debug, PartialEq, Eq)]
pub enum Reason {
    /// The self-test's check of this number failed.
    Check(u8),
    Tamper,
    /// A button was down when the self-test ended.
    Button,
}

/// What the token is asked to do for the computer to which it is routed.
#[derive(Debug, PartialEq, Eq, Drop)]
pub enum JobKind {
    /// A control transfer, with the bytes that the host sent.
    Control { setup: Setup, bytes: Block },
    In { endpoint: u8 },
    Out { endpoint: u8, bytes: Packet },
}

/// A job of the token. Jobs of a life are numbered from 1.
#[derive(Debug, PartialEq, Eq, Drop)]
pub struct Job {
    pub life: u32,
    pub number: u32,
    pub kind: JobKind,
}

/// What the console is told to do. A life is a span in which a peripheral has power; lives of a plug are numbered from 1.
#[derive(Debug, PartialEq, Eq, Drop)]
pub enum Order {
    On {
        plug: Plug,
        life: u32,
    },
    Off {
        plug: Plug,
        life: u32,
    },
    /// A control transfer of the enumeration. Orders of a life are numbered from 1.
    Ask {
        plug: Plug,
        life: u32,
        number: u32,
        setup: Setup,
    },
    Job(Job),
}

impl Default for Order {
    /// An order to be written over.
    fn default() -> Order {
        Order::Off {
            plug: Plug::Keyboard,
            life: 0,
        }
    }
}

/// What the log says.
#[derive(Clone, Copy, Debug, Default, PartialEq, Eq)]
pub enum Note {
    #[default]
    Alive,
    Dark(Reason),
    Leave(PortId),
    Select(PortId),
    /// The token was routed to this port.
    Routed(PortId),
    InterfaceAccepted {
        plug: Plug,
        interface: u8,
    },
    InterfaceRefused {
        plug: Plug,
        interface: u8,
        rule: RuleName,
    },
    Accepted(Plug),
    Refused {
        plug: Plug,
        rule: RuleName,
    },
}

/// How many notes one event gives at most.
pub const NOTES_MAX: usize = 12;

/// The notes of one event, in the order in which the log has them.
pub type Notes = ArrayVec<Note, NOTES_MAX>;

/// The number of checks of the self-test. They are numbered from 1.
pub const CHECKS: u8 = 4;

/// An event of the button panel or of the self-test; the truth value is down, or passed.
#[derive(Clone, Copy, Debug, PartialEq, Eq)]
pub enum Panel {
    Guard(bool),
    Button(PortId, bool),
    /// The self-test's check of this number, 1 to `CHECKS`, passed or failed.
    Check(u8, bool),
    Tamper,
}
