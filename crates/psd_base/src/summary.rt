//! What a run that came to its end reports.
use crate::port::MAX_PORTS;

/// The counts of a run that came to its end.
#[derive(Clone, Copy, Debug, PartialEq, Eq)]
pub struct Summary {
    /// Events served.
    pub events: u32,
    /// Ports of the capture.
    pub ports: u8,
    /// Devices and interfaces that were refused.
    pub refused: u32,
    /// Times that a selected port was left.
    pub left: u32,
    /// Bytes of each port's transcript, port 1 first.
    pub bytes: [u64; MAX_PORTS as usize],
}
