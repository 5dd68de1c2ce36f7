//! The emulated keyboard as what a device is for: its descriptors and its class requests.
ghost use Rattle.std.specs.Prelude.{◌≡◌, refl};
ghost use Rattle.emulated_keyboard.specs.Descriptors.{keyboard_descriptor, keyboard_descriptor-short};
ghost use Rattle.emulated_keyboard.specs.ClassRequests.{class_answer, takes_request, takes_class_request, after_class_request, taken-short, not_taken};

use crate::descriptors::descriptor;
use crate::keyboard::{INTERFACE, Keyboard};
use control_pipe::{Function, HidRequest};
use psd_base::event::Tick;
use psd_base::packet::Packet;
use psd_base::setup::Setup;

impl Function for Keyboard {
    ghost descriptor_of = { λ _ setup. keyboard_descriptor setup };

    ghost class_input_of = { class_answer };

    ghost takes_class = { takes_class_request };

    ghost after_class = { after_class_request };

    ghost short_descriptor = { λ _ setup. keyboard_descriptor-short setup };

    ghost short_class = { taken-short };

    ghost refuses_class = { not_taken };

    ghost keeps_descriptors = { λ _ _ _ _ _. refl };

    fn descriptor(&self, setup: &Setup) -> Option<&[u8]> {
        descriptor(setup)
    }

    fn class_in(&self, setup: &Setup) -> Option<Packet> {
        match HidRequest::of(setup, INTERFACE) {
            Some(request) => self.read(request),
            None => None,
        }
    }

    fn class_takes(&self, setup: &Setup) -> bool {
        takes(HidRequest::of(setup, INTERFACE))
    }

    fn class_out(&mut self, tick: Tick, setup: &Setup, bytes: &[u8]) {
        match HidRequest::of(setup, INTERFACE) {
            Some(request) => self.carry_out(tick, request, bytes),
            None => {}
        }
    }
}

/// Whether a request, if it is one, sets something.
fn takes(request: Option<HidRequest>) -> bool
    ensures { result ≡ takes_request request }
{
    match request {
        Some(request) => request.is_setting(),
        None => false,
    }
}
