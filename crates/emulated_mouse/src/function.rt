//! The emulated mouse as what a device is for: its descriptors and its class requests.
ghost use Rattle.std.specs.Prelude.{◌≡◌, refl};
ghost use Rattle.emulated_mouse.specs.Descriptors.{mouse_descriptor, mouse_descriptor-short};
ghost use Rattle.emulated_mouse.specs.ClassRequests.{class_answer, is_taken, takes_request, takes_class_request, after_class_request, taken-short, not_taken};

use crate::descriptors::descriptor;
use crate::mouse::{INTERFACE, Mouse};
use control_pipe::{Function, HidRequest};
use psd_base::event::Tick;
use psd_base::packet::Packet;
use psd_base::setup::Setup;

impl Function for Mouse {
    ghost descriptor_of = { λ _ setup. mouse_descriptor setup };

    ghost class_input_of = { class_answer };

    ghost takes_class = { takes_class_request };

    ghost after_class = { λ mouse _ setup _. after_class_request mouse setup };

    ghost short_descriptor = { λ _ setup. mouse_descriptor-short setup };

    ghost short_class = { taken-short };

    ghost refuses_class = { λ mouse _ setup _. not_taken mouse setup };

    ghost keeps_descriptors = { λ _ _ _ _ _. refl };

    fn descriptor(&self, setup: &Setup) -> Option<&[u8]> {
        descriptor(setup)
    }

    fn class_in(&self, setup: &Setup) -> Option<Packet> {
        match HidRequest::of(setup, INTERFACE) {
            Some(request) => self.read(request),
            None => None,
        }
    }

    fn class_takes(&self, setup: &Setup) -> bool {
        takes(HidRequest::of(setup, INTERFACE))
    }

    fn class_out(&mut self, _tick: Tick, setup: &Setup, _bytes: &[u8]) {
        match HidRequest::of(setup, INTERFACE) {
            Some(request) => self.carry_out(request),
            None => {}
        }
    }
}

/// Whether a request, if it is one, sets something of the mouse.
fn takes(request: Option<HidRequest>) -> bool
    ensures { result ≡ takes_request request }
{
    match request {
        Some(request) => is_taken(request),
        None => false,
    }
}

/// Whether a request sets something of the mouse, which has no output report.
fn is_taken(request: HidRequest) -> bool
    ensures { result ≡ is_taken request }
{
    match request {
        HidRequest::GetInput => false,
        HidRequest::GetOutput => false,
        HidRequest::GetIdle => false,
        HidRequest::GetProtocol => false,
        HidRequest::SetOutput => false,
        HidRequest::SetIdle(_) => true,
        HidRequest::SetProtocol(_) => true,
    }
}
