//! The device descriptor (USB 2.0, section 9.6.1).

ghost use Rattle.std.specs.Prelude.{◌≡◌};
ghost use Rattle.usb_descriptor.specs.Device.{device_verdict};

use crate::fault::{DescFault, DescWhy};

/// What a device descriptor says of its device.
#[derive(Clone, Copy, Debug, PartialEq, Eq, Hash)]
pub struct DeviceDesc {
    /// bDeviceClass.
    pub class: u8,
    /// bMaxPacketSize0: the largest packet of endpoint 0, in bytes.
    pub max0: u8,
    /// idVendor.
    pub vendor: u16,
    /// idProduct.
    pub product: u16,
}

/// Reads a device descriptor: exactly 18 bytes that begin `12 01`.
///
/// Of the faults the first is named: Short at 0 where there aren't 18 bytes, Length at 0 where byte 0
/// isn't 12 hexadecimal, Kind at 1 where byte 1 isn't 1.
pub fn read_device(bytes: &[u8]) -> Result<DeviceDesc, DescFault>
    ensures { result ≡ device_verdict bytes.now }
{
    if bytes.len() != 18 {
        return Err(DescFault {
            at: 0,
            why: DescWhy::Short,
        });
    }
    if bytes[0] != 0x12 {
        return Err(DescFault {
            at: 0,
            why: DescWhy::Length,
        });
    }
    if bytes[1] != 1 {
        return Err(DescFault {
            at: 1,
            why: DescWhy::Kind,
        });
    }
    Ok(DeviceDesc {
        class: bytes[4],
        max0: bytes[7],
        vendor: u16::from_le_bytes([bytes[8], bytes[9]]),
        product: u16::from_le_bytes([bytes[10], bytes[11]]),
    })
}
