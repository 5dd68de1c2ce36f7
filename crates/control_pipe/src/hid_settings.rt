//! What a host sets at a HID interface and reads back: its idle rate and its protocol (HID 1.11, 7.2.3 to 7.2.6).
ghost use Rattle.std.specs.Prelude.{◌≡◌};
ghost use Rattle.control_pipe.specs.HidSettings.{reset_settings, settings_after, settings_answer};

use crate::hid_request::{HidRequest, Protocol};
use psd_base::packet::Packet;

/// The idle rate and the protocol of a HID interface.
#[derive(Clone, Copy, Debug, PartialEq, Eq)]
pub struct HidSettings {
    /// In units of 4 milliseconds; 0 is never.
    pub idle_rate: u8,
    pub protocol: Protocol,
}

impl HidSettings {
    /// The settings after a bus reset, where the idle rate is this (HID 1.11, 7.2.4 and 7.2.6).
    pub fn new(idle_rate: u8) -> HidSettings
        ensures { result ≡ reset_settings idle_rate }
    {
        HidSettings {
            idle_rate,
            protocol: Protocol::Report,
        }
    }

    /// Carries out a completed request, if it sets one of them.
    pub fn carry_out(&mut self, request: HidRequest)
        ensures { self.new ≡ settings_after request self.old }
    {
        match request {
            HidRequest::GetInput => {}
            HidRequest::GetOutput => {}
            HidRequest::GetIdle => {}
            HidRequest::GetProtocol => {}
            HidRequest::SetOutput => {}
            HidRequest::SetIdle(rate) => self.idle_rate = rate,
            HidRequest::SetProtocol(protocol) => self.protocol = protocol,
        }
    }

    /// What a request that reads one of them is answered: its one byte.
    pub fn answer(self, request: HidRequest) -> Option<Packet>
        ensures { result ≡ settings_answer request self }
    {
        match request {
            HidRequest::GetInput => None,
            HidRequest::GetOutput => None,
            HidRequest::GetIdle => Some(Packet::from_slice(&[self.idle_rate])),
            HidRequest::GetProtocol => Some(Packet::from_slice(&[self.protocol.code()])),
            HidRequest::SetOutput => None,
            HidRequest::SetIdle(_) => None,
            HidRequest::SetProtocol(_) => None,
        }
    }
}
