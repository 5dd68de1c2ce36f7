//! Why no further event comes.
ghost use Rattle.std.specs.Prelude.{◌≡◌};
ghost use Rattle.capture_reader.specs.Fault.{stop_of};

use psd_base::{CaptureFault, Input, ScriptFault, Stop};

/// Why there is no next record.
#[derive(Clone, Copy, Debug, PartialEq, Eq)]
pub enum RecordFault {
    /// A read of the capture failed.
    Unread,
    /// `offset` counts the capture's bytes from 0 to the faulty place.
    Faulty { offset: u64, why: CaptureFault },
}

/// Why there is no next line.
#[derive(Clone, Copy, Debug, PartialEq, Eq)]
pub enum LineFault {
    /// A read of the script failed.
    Unread,
    /// `line` counts the script's lines from 1.
    Faulty { line: u32, why: ScriptFault },
}

/// Why there is no next event.
#[derive(Clone, Copy, Debug, PartialEq, Eq)]
pub enum Fault {
    Record(RecordFault),
    Line(LineFault),
    /// As many events were given as the limit allows, and a further one stands.
    TooMany,
}

impl Fault {
    /// The stop of a run at this fault.
    pub fn stop(self) -> Stop
        ensures { result ≡ stop_of self }
    {
        match self {
            Fault::Record(RecordFault::Unread) => Stop::ReadFault(Input::Capture),
            Fault::Record(RecordFault::Faulty { offset, why }) => Stop::Capture { offset, why },
            Fault::Line(LineFault::Unread) => Stop::ReadFault(Input::Script),
            Fault::Line(LineFault::Faulty { line, why }) => Stop::Script { line, why },
            Fault::TooMany => Stop::TooLong,
        }
    }
}
