//! The function of the emulated device at a connector: a keyboard and a mouse, each an interface of its own.
ghost use Rattle.std.specs.Prelude.{◌≡◌, [], refl};
ghost use Rattle.port_model.specs.Descriptors.{km_descriptor, km_descriptor-short};
ghost use Rattle.km_port.specs.KmFunction.{class_answer, after_class_request, taken-short, not_taken};
ghost use Rattle.port_model.specs.ClassRequests.{takes_class_request};

use crate::descriptors::descriptor;
use control_pipe::Function;
use emulated_keyboard::Keyboard;
use emulated_mouse::Mouse;
use psd_base::event::Tick;
use psd_base::packet::Packet;
use psd_base::setup::Setup;

/// What the device at a connector is for.
#[derive(Drop)]
pub struct KmFunction {
    pub keyboard: Keyboard,
    pub mouse: Mouse,
}

impl KmFunction {
    ghost use Rattle.emulated_keyboard.specs.KeyboardStands.{KeyboardStands};
    ghost use Rattle.emulated_mouse.specs.MouseStands.{MouseStands};

    /// A keyboard and a mouse of a port that isn't selected, with nothing pressed.
    pub fn new() -> KmFunction
        ensures keyboard { KeyboardStands result.keyboard [] }
        ensures mouse { MouseStands result.mouse [] }
    {
        KmFunction {
            keyboard: Keyboard::new(),
            mouse: Mouse::new(),
        }
    }
}

impl Function for KmFunction {
    ghost descriptor_of = { λ _ setup. km_descriptor setup };

    ghost class_input_of = { class_answer };

    ghost takes_class = { takes_class_request };

    ghost after_class = { after_class_request };

    ghost short_descriptor = { λ _ setup. km_descriptor-short setup };

    ghost short_class = { taken-short };

    ghost refuses_class = { not_taken };

    ghost keeps_descriptors = { λ _ _ _ _ _. refl };

    fn descriptor(&self, setup: &Setup) -> Option<&[u8]> {
        match descriptor(setup) {
            Some(bytes) => Some(bytes),
            None => match self.keyboard.descriptor(setup) {
                Some(bytes) => Some(bytes),
                None => self.mouse.descriptor(setup),
            },
        }
    }

    fn class_in(&self, setup: &Setup) -> Option<Packet> {
        match self.keyboard.class_in(setup) {
            Some(answer) => Some(answer),
            None => self.mouse.class_in(setup),
        }
    }

    fn class_takes(&self, setup: &Setup) -> bool {
        self.keyboard.class_takes(setup) || self.mouse.class_takes(setup)
    }

    /// A request of one interface changes nothing of the other.
    fn class_out(&mut self, tick: Tick, setup: &Setup, bytes: &[u8]) {
        self.keyboard.class_out(tick, setup, bytes);
        self.mouse.class_out(tick, setup, bytes);
    }
}
