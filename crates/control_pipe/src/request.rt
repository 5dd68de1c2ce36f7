//! The requests of an emulated device (USB 2.0, tables 9-2 to 9-4; HID 1.11, 7.2). A setup is decoded here alone.
ghost use Rattle.std.specs.Prelude.{◌≡◌, ◌+◌, ◌&&◌, ◌==◌, nat_lt};
ghost use Rattle.control_pipe.specs.Requests.{when, interrupt_endpoint, interface_endpoint, endpoint_number, of_device, of_interface, endpoint_status, halt_of, address_to_set, configuration_to_set, interface_to_set, read_request, write_request, standard_of, request_of};

use crate::codes::{
    CLASS_FROM_INTERFACE, CLASS_TO_INTERFACE, CLEAR_FEATURE, ENDPOINT_HALT, FROM_DEVICE,
    FROM_ENDPOINT, FROM_INTERFACE, GET_CONFIGURATION, GET_DESCRIPTOR, GET_INTERFACE, GET_STATUS,
    SET_ADDRESS, SET_CONFIGURATION, SET_FEATURE, SET_INTERFACE, TO_DEVICE, TO_ENDPOINT, TO_HOST,
    TO_INTERFACE,
};
use psd_base::setup::Setup;

/// The least number that is no address.
pub(crate) const ADDRESSES: u16 = 128;

/// The configurations are 0, in which the device isn't configured, and 1.
pub(crate) const CONFIGURATIONS: u16 = 2;

/// An interrupt endpoint: that of interface 0, or that of interface 1.
#[derive(Clone, Copy, Debug)]
pub(crate) enum Endpoint {
    /// IN endpoint 1.
    First,
    /// IN endpoint 2.
    Second,
}

/// A request whose fields are right.
#[derive(Clone, Copy, Debug)]
pub(crate) enum Request {
    /// A request that every device has, beside GET_DESCRIPTOR.
    Standard(Standard),
    /// GET_DESCRIPTOR of the device or of an interface.
    GetDescriptor,
    /// A class request of an interface whose data go to the host, if there are any.
    ClassIn,
    /// A class request of an interface whose data come from the host, if there are any.
    ClassOut,
}

/// A standard request beside GET_DESCRIPTOR.
#[derive(Clone, Copy, Debug)]
pub(crate) enum Standard {
    /// GET_STATUS of the device.
    GetDeviceStatus,
    /// GET_STATUS of an interface.
    GetInterfaceStatus,
    /// GET_STATUS of endpoint 0.
    GetControlStatus,
    /// GET_STATUS of an interrupt endpoint.
    GetEndpointStatus(Endpoint),
    /// CLEAR_FEATURE of an interrupt endpoint's halt.
    ClearHalt(Endpoint),
    /// SET_FEATURE of an interrupt endpoint's halt.
    SetHalt(Endpoint),
    SetAddress(u8),
    GetConfiguration,
    SetConfiguration(u8),
    GetInterface,
    /// SET_INTERFACE of the interface that has this endpoint.
    SetInterface(Endpoint),
}

impl Endpoint {
    /// The endpoint's number.
    pub(crate) fn number(self) -> u8
        ensures { result ≡ endpoint_number self }
    {
        match self {
            Endpoint::First => 1,
            Endpoint::Second => 2,
        }
    }

    /// The interrupt endpoint with this address, as an index gives it.
    fn at_address(index: u16) -> Option<Endpoint>
        ensures { result ≡ interrupt_endpoint index }
    {
        match index {
            0x81 => Some(Endpoint::First),
            0x82 => Some(Endpoint::Second),
            _ => None,
        }
    }

    /// The interrupt endpoint of the interface with this number.
    fn of_interface(index: u16) -> Option<Endpoint>
        ensures { result ≡ interface_endpoint index }
    {
        match index {
            0 => Some(Endpoint::First),
            1 => Some(Endpoint::Second),
            _ => None,
        }
    }
}

impl Request {
    /// The request that a setup is, if all its fields are right.
    #[inline(always)]
    pub(crate) fn of(setup: &Setup) -> Option<Request>
        ensures { result ≡ request_of setup.now }
    {
        match (setup.kind, setup.request) {
            (CLASS_FROM_INTERFACE, _) => Some(Request::ClassIn),
            (CLASS_TO_INTERFACE, _) => Some(Request::ClassOut),
            (FROM_DEVICE, GET_DESCRIPTOR) => Some(Request::GetDescriptor),
            (FROM_INTERFACE, GET_DESCRIPTOR) => Some(Request::GetDescriptor),
            _ => Standard::of(setup).map(|request| Request::Standard(request)),
        }
    }
}

impl Standard {
    /// The standard request that a setup is, GET_DESCRIPTOR left out. None of them has data from the host.
    fn of(setup: &Setup) -> Option<Standard>
        ensures { result ≡ standard_of setup.now }
    {
        if setup.kind >= TO_HOST {
            return Standard::that_reads(setup);
        }
        if setup.length == 0 {
            return Standard::that_writes(setup);
        }
        None
    }

    fn that_reads(setup: &Setup) -> Option<Standard>
        ensures { result ≡ read_request setup.now }
    {
        match (setup.kind, setup.request) {
            (FROM_DEVICE, GET_STATUS) => of_device(setup, Standard::GetDeviceStatus),
            (FROM_INTERFACE, GET_STATUS) => of_interface(setup, Standard::GetInterfaceStatus),
            (FROM_ENDPOINT, GET_STATUS) => endpoint_status(setup),
            (FROM_DEVICE, GET_CONFIGURATION) => of_device(setup, Standard::GetConfiguration),
            (FROM_INTERFACE, GET_INTERFACE) => of_interface(setup, Standard::GetInterface),
            _ => None,
        }
    }

    fn that_writes(setup: &Setup) -> Option<Standard>
        ensures { result ≡ write_request setup.now }
    {
        match (setup.kind, setup.request) {
            (TO_ENDPOINT, CLEAR_FEATURE) => halt_of(setup).map(|end| Standard::ClearHalt(end)),
            (TO_ENDPOINT, SET_FEATURE) => halt_of(setup).map(|end| Standard::SetHalt(end)),
            (TO_DEVICE, SET_ADDRESS) => set_address(setup),
            (TO_DEVICE, SET_CONFIGURATION) => set_configuration(setup),
            (TO_INTERFACE, SET_INTERFACE) => set_interface(setup),
            _ => None,
        }
    }
}

/// A request that reads something of the device.
fn of_device(setup: &Setup, request: Standard) -> Option<Standard>
    ensures { result ≡ of_device request setup.now }
{
    (setup.value == 0 && setup.index == 0).then_some(request)
}

/// A request that reads something of an interface.
fn of_interface(setup: &Setup, request: Standard) -> Option<Standard>
    ensures { result ≡ of_interface request setup.now }
{
    if setup.value != 0 {
        return None;
    }
    Endpoint::of_interface(setup.index).map(|_| request)
}

/// GET_STATUS of endpoint 0, in either direction, or of an interrupt endpoint.
fn endpoint_status(setup: &Setup) -> Option<Standard>
    ensures { result ≡ endpoint_status setup.now }
{
    if setup.value != 0 {
        return None;
    }
    if setup.index == 0x00 || setup.index == 0x80 {
        return Some(Standard::GetControlStatus);
    }
    Endpoint::at_address(setup.index).map(|end| Standard::GetEndpointStatus(end))
}

/// The interrupt endpoint whose halt CLEAR_FEATURE or SET_FEATURE is of.
fn halt_of(setup: &Setup) -> Option<Endpoint>
    ensures { result ≡ halt_of setup.now }
{
    if setup.value != ENDPOINT_HALT {
        return None;
    }
    Endpoint::at_address(setup.index)
}

fn set_address(setup: &Setup) -> Option<Standard>
    ensures { result ≡ address_to_set setup.now }
{
    if setup.value < ADDRESSES && setup.index == 0 {
        Some(Standard::SetAddress(setup.value as u8))
    } else {
        None
    }
}

fn set_configuration(setup: &Setup) -> Option<Standard>
    ensures { result ≡ configuration_to_set setup.now }
{
    if setup.value < CONFIGURATIONS && setup.index == 0 {
        Some(Standard::SetConfiguration(setup.value as u8))
    } else {
        None
    }
}

fn set_interface(setup: &Setup) -> Option<Standard>
    ensures { result ≡ interface_to_set setup.now }
{
    if setup.value != 0 {
        return None;
    }
    Endpoint::of_interface(setup.index).map(|end| Standard::SetInterface(end))
}
