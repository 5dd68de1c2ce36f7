//! What a peripheral is asked in turn. The first five orders of a life are the same for each; a report descriptor is asked for
//! by each further one.
ghost use Rattle.std.specs.Prelude.{◌≡◌};
ghost use Rattle.console_host.specs.Orders.{get_configuration, set_configuration, get_report};

use crate::fit::ReportAsk;
use psd_base::setup::Setup;

/// The number of the order for the device descriptor.
pub const DEVICE: u32 = 1;
/// The number of the order that gives the peripheral its address.
pub const ADDRESS: u32 = 2;
/// The number of the order for the first bytes of the configuration, which say how long it is.
pub const HEAD: u32 = 3;
/// The number of the order for the whole configuration.
pub const CONFIGURATION: u32 = 4;
/// The number of the order that chooses the configuration.
pub const CONFIGURE: u32 = 5;

/// GET_DESCRIPTOR(device), 18 bytes (USB 2.0, sections 9.4.3 and 9.6.1).
pub const GET_DEVICE: Setup = Setup {
    kind: 0x80,
    request: 6,
    value: 0x0100,
    index: 0,
    length: 18,
};

/// SET_ADDRESS(1) (USB 2.0, section 9.4.6).
pub const SET_ADDRESS: Setup = Setup {
    kind: 0,
    request: 5,
    value: 1,
    index: 0,
    length: 0,
};

/// GET_DESCRIPTOR(configuration), its 9 first bytes (USB 2.0, sections 9.4.3 and 9.6.3).
pub const GET_HEAD: Setup = Setup {
    kind: 0x80,
    request: 6,
    value: 0x0200,
    index: 0,
    length: 9,
};

/// GET_DESCRIPTOR(configuration), so many bytes.
pub fn get_configuration(total: u16) -> Setup
    ensures { result ≡ get_configuration total }
{
    Setup {
        kind: 0x80,
        request: 6,
        value: 0x0200,
        index: 0,
        length: total,
    }
}

/// SET_CONFIGURATION of the configuration with this bConfigurationValue (USB 2.0, section 9.4.7).
pub fn set_configuration(value: u8) -> Setup
    ensures { result ≡ set_configuration value }
{
    Setup {
        kind: 0,
        request: 9,
        value: u16::from(value),
        index: 0,
        length: 0,
    }
}

/// GET_DESCRIPTOR(report) of an interface (HID 1.11, section 7.1.1).
pub fn get_report(ask: &ReportAsk) -> Setup
    ensures { result ≡ get_report ask.now }
{
    Setup {
        kind: 0x81,
        request: 6,
        value: 0x2200,
        index: u16::from(ask.interface),
        length: ask.length,
    }
}
