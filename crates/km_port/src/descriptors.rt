//! Which descriptor of the emulated device as a whole a setup is answered.
ghost use Rattle.std.specs.Prelude.{◌≡◌};
ghost use Rattle.std.specs.Option.{option_copied};
ghost use Rattle.port_model.specs.Descriptors.{is_asked_for, device_descriptor};

use control_pipe::codes::{
    CONFIGURATION_DESCRIPTOR, DEVICE_DESCRIPTOR, FROM_DEVICE, GET_DESCRIPTOR,
};
use port_model::descriptors::{CONFIGURATION, DEVICE};
use psd_base::setup::Setup;

/// The descriptor of the device as a whole that a setup asks for, if it asks for one.
#[tactic(auto, unfolding(port_model::specs::Descriptors::device_descriptor))]
pub fn descriptor(setup: &Setup) -> Option<&'static [u8]>
    ensures { option_copied result ≡ device_descriptor setup.now }
{
    if is_asked_for(setup, DEVICE_DESCRIPTOR) {
        Some(&DEVICE)
    } else if is_asked_for(setup, CONFIGURATION_DESCRIPTOR) {
        Some(&CONFIGURATION)
    } else {
        None
    }
}

/// Whether a setup is GET_DESCRIPTOR of the device's descriptor with this value (USB 2.0, 9.4.3).
fn is_asked_for(setup: &Setup, value: u16) -> bool
    ensures { result ≡ is_asked_for setup.now value }
{
    setup.kind == FROM_DEVICE
        && setup.request == GET_DESCRIPTOR
        && setup.value == value
        && setup.index == 0
}
