//! The class requests of a HID interface (HID 1.11, 7.2). A setup is decoded here, once for all interfaces.
ghost use Rattle.std.specs.Prelude.{◌≡◌};
ghost use Rattle.control_pipe.specs.HidRequests.{reading_request, idle_to_set, protocol_to_set, writing_request, hid_request, protocol_code, is_setting};

use crate::codes::{
    CLASS_FROM_INTERFACE, CLASS_TO_INTERFACE, GET_IDLE, GET_PROTOCOL, GET_REPORT, INPUT_REPORT,
    OUTPUT_REPORT, SET_IDLE, SET_PROTOCOL, SET_REPORT,
};
use psd_base::setup::Setup;

/// The protocol of a boot interface (HID 1.11, 7.2.5 and 7.2.6).
#[derive(Clone, Copy, Debug, PartialEq, Eq)]
pub enum Protocol {
    /// Reports have the form that a BIOS reads (HID 1.11, appendix B).
    Boot,
    /// Reports have the form that the report descriptor describes.
    Report,
}

impl Protocol {
    /// The protocol's number in requests.
    pub fn code(self) -> u8
        ensures { result ≡ protocol_code self }
    {
        match self {
            Protocol::Boot => 0,
            Protocol::Report => 1,
        }
    }
}

/// A class request whose fields are right, without the interface that it is for.
#[derive(Clone, Copy, Debug, PartialEq, Eq)]
pub enum HidRequest {
    /// GET_REPORT of the input report (HID 1.11, 7.2.1).
    GetInput,
    /// GET_REPORT of the output report.
    GetOutput,
    /// GET_IDLE (HID 1.11, 7.2.3).
    GetIdle,
    /// GET_PROTOCOL (HID 1.11, 7.2.5).
    GetProtocol,
    /// SET_REPORT of the output report, which has one byte (HID 1.11, 7.2.2).
    SetOutput,
    /// SET_IDLE of all reports to this rate, in units of 4 milliseconds, where 0 is never (HID 1.11, 7.2.4).
    SetIdle(u8),
    /// SET_PROTOCOL (HID 1.11, 7.2.6).
    SetProtocol(Protocol),
}

impl HidRequest {
    /// The request of the interface with this number that a setup is, if all its fields are right.
    pub fn of(setup: &Setup, interface: u16) -> Option<HidRequest>
        ensures { result ≡ hid_request interface setup.now }
    {
        if setup.index != interface {
            return None;
        }
        match setup.kind {
            CLASS_FROM_INTERFACE => HidRequest::that_reads(setup),
            CLASS_TO_INTERFACE => HidRequest::that_writes(setup),
            _ => None,
        }
    }

    /// Whether the request sets something.
    pub fn is_setting(self) -> bool
        ensures { result ≡ is_setting self }
    {
        match self {
            HidRequest::GetInput => false,
            HidRequest::GetOutput => false,
            HidRequest::GetIdle => false,
            HidRequest::GetProtocol => false,
            HidRequest::SetOutput => true,
            HidRequest::SetIdle(_) => true,
            HidRequest::SetProtocol(_) => true,
        }
    }

    /// A request whose data go to the host, which may ask for any number of bytes.
    fn that_reads(setup: &Setup) -> Option<HidRequest>
        ensures { result ≡ reading_request setup.now }
    {
        match (setup.request, setup.value) {
            (GET_REPORT, INPUT_REPORT) => Some(HidRequest::GetInput),
            (GET_REPORT, OUTPUT_REPORT) => Some(HidRequest::GetOutput),
            (GET_IDLE, 0) => Some(HidRequest::GetIdle),
            (GET_PROTOCOL, 0) => Some(HidRequest::GetProtocol),
            _ => None,
        }
    }

    /// A request whose data come from the host, or that has none.
    fn that_writes(setup: &Setup) -> Option<HidRequest>
        ensures { result ≡ writing_request setup.now }
    {
        match (setup.request, setup.length) {
            (SET_REPORT, 1) => (setup.value == OUTPUT_REPORT).then_some(HidRequest::SetOutput),
            (SET_IDLE, 0) => idle_to_set(setup.value),
            (SET_PROTOCOL, 0) => protocol_to_set(setup.value),
            _ => None,
        }
    }
}

/// SET_IDLE: the rate is the value's high byte, and the low one, which names a report, is 0 for all.
fn idle_to_set(value: u16) -> Option<HidRequest>
    ensures { result ≡ idle_to_set value }
{
    if value % 256 == 0 {
        Some(HidRequest::SetIdle((value / 256) as u8))
    } else {
        None
    }
}

/// SET_PROTOCOL: the value is the protocol's number.
fn protocol_to_set(value: u16) -> Option<HidRequest>
    ensures { result ≡ protocol_to_set value }
{
    match value {
        0 => Some(HidRequest::SetProtocol(Protocol::Boot)),
        1 => Some(HidRequest::SetProtocol(Protocol::Report)),
        _ => None,
    }
}
