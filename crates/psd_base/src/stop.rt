//! Why a run ended early.
ghost use Rattle.std.specs.Prelude.{◌≡◌};

use crate::outlet::{Input, Outlet};
use thiserror::Error;

/// What is wrong at a place of the capture.
#[derive(Clone, Copy, Debug, PartialEq, Eq)]
pub enum CaptureFault {
    /// The header doesn't begin with the four bytes `KVC1`.
    BadMagic,
    /// The number of ports is out of range, or a byte that must be zero isn't.
    BadPorts,
    /// The header or a record is cut off.
    Truncated,
    /// A record's tick is below that of the record before it.
    TickBack,
    /// There is no such kind of record.
    BadKind,
    /// No such acting party for this kind, or a port above the header's number.
    BadWho,
    /// A length that this kind of record can't have.
    BadLength,
    /// A field of the payload is out of range.
    BadField,
}

/// What is wrong at a line of the script.
#[derive(Clone, Copy, Debug, PartialEq, Eq)]
pub enum ScriptFault {
    /// More than 64 bytes before the line feed.
    LineTooLong,
    /// The line has none of the script's forms.
    NotALine,
    /// The line's tick is below that of the line before it.
    TickBack,
    /// A port above the capture's number.
    NoSuchPort,
}

/// A list of the rule file, or its root.
#[derive(Clone, Copy, Debug, PartialEq, Eq)]
pub enum RuleList {
    Root,
    Allow,
    Deny,
}

/// What is wrong with the rule file.
#[derive(Clone, Copy, Debug, PartialEq, Eq, Error)]
pub enum RulesFault {
    /// More than 65,536 bytes.
    #[error("the rules have more than 65,536 bytes")]
    TooBig,
    /// Not a TOML document.
    #[error("the rules are not a TOML document")]
    Syntax,
    /// A faulty key or value. Entries count from 1; the root is entry 0.
    #[error("a key or a value of the rules is faulty")]
    Shape { list: RuleList, entry: u16 },
    /// More than 64 entries.
    #[error("a list of the rules has more than 64 entries")]
    TooMany(RuleList),
}

/// Why a run ended early.
#[derive(Clone, Copy, Debug, PartialEq, Eq)]
pub enum Stop {
    /// The words aren't a command.
    Usage,
    Rules(RulesFault),
    /// `offset` counts the capture's bytes from 0 to the faulty place.
    Capture { offset: u64, why: CaptureFault },
    /// `line` counts the script's lines from 1.
    Script { line: u32, why: ScriptFault },
    /// As many events were served as one run may serve, and a further one stands.
    TooLong,
    ReadFault(Input),
    WriteFault(Outlet),
    OutOfMemory,
}

impl Stop {
    ghost use Rattle.psd_base.specs.Stop.{status_of};

    /// The exit status of a run that ended so, 1 to 8.
    pub fn status(&self) -> u8
        ensures { result ≡ status_of self.now }
    {
        match self {
            Stop::Usage => 1,
            Stop::Rules(_) => 2,
            Stop::Capture { .. } => 3,
            Stop::Script { .. } => 4,
            Stop::TooLong => 5,
            Stop::ReadFault(_) => 6,
            Stop::WriteFault(_) => 7,
            Stop::OutOfMemory => 8,
        }
    }
}
