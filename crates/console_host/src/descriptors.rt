//! What is kept of a peripheral's descriptors.
use psd_base::packet::{Block, Bytes};

/// How many bytes a device descriptor has (USB 2.0, section 9.6.1).
pub const DEVICE_SIZE: usize = 18;

/// The descriptors of a peripheral as it gave them.
#[derive(Drop)]
pub struct Descriptors {
    /// The device descriptor.
    pub device: Bytes<DEVICE_SIZE>,
    /// The configuration with all that belongs to it.
    pub configuration: Block,
}

/// What a peripheral that is ready looks like to a host.
#[derive(Clone, Copy, Debug, PartialEq, Eq)]
pub struct Shape {
    /// bConfigurationValue (USB 2.0, section 9.6.3).
    pub value: u8,
    /// bMaxPacketSize0: 8, 16, 32 or 64 bytes (USB 2.0, section 9.6.1).
    pub max0: u8,
    /// The bulk and interrupt IN endpoints, bit n for endpoint n (USB 2.0, section 9.6.6).
    pub ins: u16,
    /// The bulk and interrupt OUT endpoints, bit n for endpoint n.
    pub outs: u16,
}
