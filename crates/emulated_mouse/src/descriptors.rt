//! The fixed descriptors of the emulated mouse's interface.
ghost use Rattle.std.specs.Prelude.{◌≡◌};
ghost use Rattle.std.specs.Option.{option_copied};
ghost use Rattle.emulated_mouse.specs.Descriptors.{is_asked_for, mouse_descriptor};

use crate::mouse::INTERFACE;
use control_pipe::codes::{FROM_INTERFACE, GET_DESCRIPTOR, HID_DESCRIPTOR, REPORT_DESCRIPTOR};
use psd_base::setup::Setup;

/// The HID descriptor (HID 1.11, 6.2.1): version 1.11, no country, and one report descriptor of 52 bytes.
#[rattlefmt::skip]
pub const MOUSE_HID: [u8; 9] = [
    0x09, 0x21, 0x11, 0x01, 0x00, 0x01, 0x22, 0x34, 0x00,
];

/// The report descriptor (HID 1.11, appendix B.2): five buttons, and relative X, Y and wheel.
#[rattlefmt::skip]
pub const MOUSE_REPORT: [u8; 52] = [
    0x05, 0x01, 0x09, 0x02, 0xa1, 0x01, 0x09, 0x01, 0xa1, 0x00, 0x05, 0x09, 0x19, 0x01, 0x29, 0x05,
    0x15, 0x00, 0x25, 0x01, 0x95, 0x05, 0x75, 0x01, 0x81, 0x02, 0x95, 0x01, 0x75, 0x03, 0x81, 0x01,
    0x05, 0x01, 0x09, 0x30, 0x09, 0x31, 0x09, 0x38, 0x15, 0x81, 0x25, 0x7f, 0x75, 0x08, 0x95, 0x03,
    0x81, 0x06, 0xc0, 0xc0,
];

/// The descriptor of the mouse's interface that a setup asks for, if it asks for one.
#[tactic(auto, unfolding(crate::specs::Descriptors::mouse_descriptor))]
pub fn descriptor(setup: &Setup) -> Option<&'static [u8]>
    ensures { option_copied result ≡ mouse_descriptor setup.now }
{
    if is_asked_for(setup, HID_DESCRIPTOR) {
        Some(&MOUSE_HID)
    } else if is_asked_for(setup, REPORT_DESCRIPTOR) {
        Some(&MOUSE_REPORT)
    } else {
        None
    }
}

/// Whether a setup is GET_DESCRIPTOR of the interface's descriptor with this value (HID 1.11, 7.1.1).
fn is_asked_for(setup: &Setup, value: u16) -> bool
    ensures { result ≡ is_asked_for setup.now value }
{
    setup.kind == FROM_INTERFACE
        && setup.request == GET_DESCRIPTOR
        && setup.value == value
        && setup.index == INTERFACE
}
