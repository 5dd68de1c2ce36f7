//! Which requests a computer may send to the token, and which of them concern the bridge itself (USB 2.0, 9.4).
ghost use Rattle.std.specs.Prelude.{◌≡◌, ◌==◌, ◌&&◌};
ghost use Rattle.auth_router.specs.Forwarding.{is_set_address, is_set_configuration, is_set_interface, is_clear_halt, is_passable, address_told};

use control_pipe::codes::{
    CLEAR_FEATURE, ENDPOINT_HALT, SET_ADDRESS, SET_CONFIGURATION, SET_INTERFACE, TO_DEVICE,
    TO_ENDPOINT, TO_INTERFACE,
};
use psd_base::packet::BLOCK_SIZE;
use psd_base::setup::Setup;

/// The least number that is no address.
const ADDRESSES: u16 = 128;

/// Whether it is SET_ADDRESS, which the bridge serves itself.
pub(crate) fn is_set_address(setup: &Setup) -> bool
    ensures { result ≡ is_set_address setup.now }
{
    setup.kind == TO_DEVICE && setup.request == SET_ADDRESS
}

/// The address that a setup sets, where it is SET_ADDRESS with an address, 0 to 127 (USB 2.0, 9.4.6).
pub(crate) fn address_told(setup: &Setup) -> Option<u16>
    ensures { result ≡ address_told setup.now }
{
    if is_set_address(setup) && setup.value < ADDRESSES && setup.index == 0 && setup.length == 0 {
        Some(setup.value)
    } else {
        None
    }
}

/// Whether it is SET_CONFIGURATION.
pub(crate) fn is_set_configuration(setup: &Setup) -> bool
    ensures { result ≡ is_set_configuration setup.now }
{
    setup.kind == TO_DEVICE && setup.request == SET_CONFIGURATION
}

/// Whether it is SET_INTERFACE.
pub(crate) fn is_set_interface(setup: &Setup) -> bool
    ensures { result ≡ is_set_interface setup.now }
{
    setup.kind == TO_INTERFACE && setup.request == SET_INTERFACE
}

/// Whether it is CLEAR_FEATURE of an endpoint's halt.
pub(crate) fn is_clear_halt(setup: &Setup) -> bool
    ensures { result ≡ is_clear_halt setup.now }
{
    setup.kind == TO_ENDPOINT && setup.request == CLEAR_FEATURE && setup.value == ENDPOINT_HALT
}

/// Whether the bridge lets a request pass, where the token's configuration has this value.
pub(crate) fn is_passable(value: u8, configured: bool, setup: &Setup) -> bool
    ensures { result ≡ is_passable value configured setup.now }
{
    if setup.length as usize > BLOCK_SIZE {
        return false;
    }
    if is_set_address(setup) {
        return address_told(setup).is_some() && !configured;
    }
    if is_set_configuration(setup) {
        return setup.value == 0 || setup.value == value as u16;
    }
    if is_set_interface(setup) {
        return setup.value == 0;
    }
    true
}
