//! What a replay reads, and where it writes.
use crate::port::PortId;

/// What is read.
#[derive(Clone, Copy, Debug, PartialEq, Eq)]
pub enum Input {
    /// The administrator's rule file.
    Rules,
    /// The recorded events.
    Capture,
    /// The recorded buttons and self-test results.
    Script,
}

/// Where is written.
#[derive(Clone, Copy, Debug, PartialEq, Eq)]
pub enum Outlet {
    /// The summary of a run.
    Report,
    /// The line of a run that stopped.
    Faults,
    /// The orders to the console's peripherals.
    Console,
    /// What became of selection, self-test and peripherals.
    Log,
    /// The transcript of one port.
    Port(PortId),
}
