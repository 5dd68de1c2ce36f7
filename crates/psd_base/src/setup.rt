//! The eight bytes that begin a control transfer.
ghost use Rattle.std.specs.Prelude.{◌≡◌};

/// The setup data of a control transfer (USB 2.0, 9.3): the fields are bmRequestType, bRequest, wValue, wIndex and wLength.
#[derive(Clone, Copy, Debug, PartialEq, Eq)]
pub struct Setup {
    pub kind: u8,
    pub request: u8,
    pub value: u16,
    pub index: u16,
    pub length: u16,
}

impl Setup {
    ghost use Rattle.psd_base.specs.Setup.{setup_of, setup_bytes};

    /// Reads the eight bytes as they come on the bus. Fields of two bytes have their low byte first.
    pub fn read(bytes: &[u8; 8]) -> Setup
        ensures fields { result ≡ setup_of bytes.now }
        ensures back { setup_bytes result ≡ bytes.now }
    {
        Setup {
            kind: bytes[0],
            request: bytes[1],
            value: u16::from_le_bytes([bytes[2], bytes[3]]),
            index: u16::from_le_bytes([bytes[4], bytes[5]]),
            length: u16::from_le_bytes([bytes[6], bytes[7]]),
        }
    }

    /// The eight bytes as they come on the bus.
    pub fn bytes(&self) -> [u8; 8]
        ensures bytes { result ≡ setup_bytes self.now }
        ensures back { setup_of result ≡ self.now }
    {
        let value = self.value.to_le_bytes();
        let index = self.index.to_le_bytes();
        let length = self.length.to_le_bytes();
        [
            self.kind,
            self.request,
            value[0],
            value[1],
            index[0],
            index[1],
            length[0],
            length[1],
        ]
    }
}
