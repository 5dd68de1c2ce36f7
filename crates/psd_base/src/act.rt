//! What a host does at a connector of its port, and what it is answered.
ghost use Rattle.std.specs.Prelude.{◌≡◌};

use crate::packet::Packet;
use crate::setup::Setup;

/// One of the two connectors of a port.
#[derive(Clone, Copy, Debug, PartialEq, Eq)]
pub enum Side {
    /// The emulated keyboard and mouse.
    Km,
    /// The bridge to the smart-card token.
    Ua,
}

/// One act of a host at a connector: a bus reset, or a transaction (USB 2.0, 8.5). Addresses are at most 127 and endpoints at most 15.
#[derive(Debug, PartialEq, Eq, Drop)]
pub enum Act {
    Reset,
    Setup {
        address: u8,
        setup: Setup,
    },
    /// `toggle` is true for DATA1.
    Out {
        address: u8,
        endpoint: u8,
        toggle: bool,
        bytes: Packet,
    },
    /// `acked` says whether the host's handshake reached the device. It means nothing where the answer isn't data.
    In {
        address: u8,
        endpoint: u8,
        acked: bool,
    },
}

/// What the device answers. The answer to a bus reset is `Silent`.
#[derive(Debug, PartialEq, Eq, Drop)]
pub enum Answer {
    Ack,
    Nak,
    Stall,
    Silent,
    /// `toggle` is true for DATA1.
    Data { toggle: bool, bytes: Packet },
}

impl Act {
    /// The same act again. It takes no memory.
    pub fn duplicate(&self) -> Act
        ensures { result ≡ self.now }
    {
        let mut copy = Act::Reset;
        self.copy_to(&mut copy);
        copy
    }

    /// Writes the same act to a place, over what was there. It costs less than an act by value, which has room for a
    /// packet.
    pub fn copy_to(&self, place: &mut Act)
        ensures { place.new ≡ self.now }
    {
        match self {
            Act::Reset => *place = Act::Reset,
            Act::Setup { address, setup } => {
                *place = Act::Setup {
                    address: *address,
                    setup: *setup,
                }
            }
            Act::Out {
                address,
                endpoint,
                toggle,
                bytes,
            } => {
                *place = Act::Out {
                    address: *address,
                    endpoint: *endpoint,
                    toggle: *toggle,
                    bytes: Packet::new(),
                };
                if let Act::Out { bytes: copy, .. } = place {
                    copy.append(bytes.as_slice());
                }
            }
            Act::In {
                address,
                endpoint,
                acked,
            } => {
                *place = Act::In {
                    address: *address,
                    endpoint: *endpoint,
                    acked: *acked,
                }
            }
        }
    }
}
