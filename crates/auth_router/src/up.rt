//! What the bridge is told of the token when the token is routed.

/// A life of the token, as its descriptors show it. Endpoint numbers are bits: bit n stands for endpoint n, from 1 to 15.
#[derive(Clone, Copy, Debug, PartialEq, Eq)]
pub struct Up {
    /// The number of the life.
    pub life: u32,
    /// The value of the configuration (USB 2.0, 9.6.3, bConfigurationValue).
    pub value: u8,
    /// The most bytes of a packet at endpoint 0 (USB 2.0, 9.6.1, bMaxPacketSize0).
    pub max0: u8,
    /// The IN endpoints.
    pub ins: u16,
    /// The OUT endpoints.
    pub outs: u16,
}
