//! The registers of an emulated device, which completed requests set (USB 2.0, 9.4).
ghost use Rattle.std.specs.Prelude.{◌≡◌, ◌==◌, ◌&&◌, [], ◌∷◌};
ghost use Rattle.std.specs.Option.{option_copied};
ghost use Rattle.std.specs.Prelude.{length, ◌≤◌, IfSome};
ghost use Rattle.control_pipe.specs.Requests.{when, is_configured, halt_at, status, standard_due, effect_of};

use crate::reaction::Effect;
use crate::request::{Endpoint, Request, Standard};
use std::slice;

/// The status of what isn't halted (USB 2.0, 9.4.5).
const STATUS: [u8; 2] = [0, 0];

/// The status of a halted endpoint.
const HALTED_STATUS: [u8; 2] = [1, 0];

/// The alternate setting of each interface.
const ALTERNATE_SETTING: [u8; 1] = [0];

/// The registers of an emulated device with the interrupt endpoints 1 and 2.
#[derive(Clone, Copy, Debug)]
pub(crate) struct Registers {
    pub(crate) address: u8,
    pub(crate) configuration: u8,
    pub(crate) first_halted: bool,
    pub(crate) second_halted: bool,
}

impl Registers {
    ghost use Rattle.control_pipe.specs.Registers.{reset_registers, registers_after, halted_at, with_halt};

    /// The registers after a bus reset.
    pub(crate) fn new() -> Registers
        ensures { result ≡ reset_registers }
    {
        Registers {
            address: 0,
            configuration: 0,
            first_halted: false,
            second_halted: false,
        }
    }

    /// Whether the device is configured.
    pub(crate) fn is_configured(&self) -> bool
        ensures { result ≡ is_configured self.now }
    {
        self.configuration == 1
    }

    /// Whether the endpoint of this number is halted.
    pub(crate) fn is_halted(&self, number: u8) -> bool
        ensures { result ≡ halted_at self.now number }
    {
        match number {
            1 => self.first_halted,
            2 => self.second_halted,
            _ => false,
        }
    }

    /// The status of an interrupt endpoint.
    fn status_of(&self, endpoint: Endpoint) -> &'static [u8]
        ensures { result.now ≡ status (halt_at self.now endpoint) }
    {
        let halted = match endpoint {
            Endpoint::First => self.first_halted,
            Endpoint::Second => self.second_halted,
        };
        if halted { &HALTED_STATUS } else { &STATUS }
    }

    /// The data due for a request, or `None` where the device has to be configured, or not to be, and isn't so.
    pub(crate) fn reply(&self, request: Standard) -> Option<&[u8]>
        ensures value { option_copied result ≡ standard_due self.now request }
        ensures short { IfSome result (λ bytes. length bytes.now ≤ 2) }
    {
        match request {
            Standard::GetDeviceStatus => Some(&STATUS),
            Standard::GetControlStatus => Some(&STATUS),
            Standard::GetInterfaceStatus => self.if_configured(&STATUS),
            Standard::GetEndpointStatus(endpoint) => self.if_configured(self.status_of(endpoint)),
            Standard::ClearHalt(_) => self.if_configured(&[]),
            Standard::SetHalt(_) => self.if_configured(&[]),
            Standard::SetAddress(_) => {
                if self.is_configured() {
                    None
                } else {
                    Some(&[])
                }
            }
            Standard::GetConfiguration => Some(slice::from_ref(&self.configuration)),
            Standard::SetConfiguration(_) => Some(&[]),
            Standard::GetInterface => self.if_configured(&ALTERNATE_SETTING),
            Standard::SetInterface(_) => self.if_configured(&[]),
        }
    }

    /// These bytes, if the device is configured.
    fn if_configured<'a>(&self, bytes: &'a [u8]) -> Option<&'a [u8]>
        ensures { option_copied result ≡ when (is_configured self.now) bytes.now }
    {
        if self.is_configured() {
            Some(bytes)
        } else {
            None
        }
    }

    /// Carries out a completed request.
    pub(crate) fn complete(&mut self, request: Standard) -> Effect
        ensures registers { self.new ≡ registers_after (Request.Standard request) self.old }
        ensures effect { result ≡ effect_of (Request.Standard request) }
    {
        match request {
            Standard::GetDeviceStatus => Effect::Nothing,
            Standard::GetInterfaceStatus => Effect::Nothing,
            Standard::GetControlStatus => Effect::Nothing,
            Standard::GetEndpointStatus(_) => Effect::Nothing,
            Standard::GetConfiguration => Effect::Nothing,
            Standard::GetInterface => Effect::Nothing,
            Standard::ClearHalt(endpoint) => {
                self.set_halt(endpoint, false);
                Effect::Restart(endpoint.number())
            }
            Standard::SetHalt(endpoint) => {
                self.set_halt(endpoint, true);
                Effect::Nothing
            }
            Standard::SetAddress(address) => {
                self.address = address;
                Effect::Nothing
            }
            Standard::SetConfiguration(configuration) => {
                self.configuration = configuration;
                self.first_halted = false;
                self.second_halted = false;
                Effect::Configured
            }
            Standard::SetInterface(endpoint) => Effect::Restart(endpoint.number()),
        }
    }

    /// Halts an interrupt endpoint, or ends its halt.
    fn set_halt(&mut self, endpoint: Endpoint, halted: bool)
        ensures { self.new ≡ with_halt endpoint halted self.old }
    {
        match endpoint {
            Endpoint::First => self.first_halted = halted,
            Endpoint::Second => self.second_halted = halted,
        }
    }
}
