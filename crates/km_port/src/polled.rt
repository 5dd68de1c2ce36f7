//! Which interrupt endpoint of its keyboard and mouse an act at a connector polls.
ghost use Rattle.std.specs.Prelude.{◌≡◌, List};
ghost use Rattle.control_pipe.specs.Control.{ControlAct};
ghost use Rattle.control_pipe.specs.PipeStands.{PipeStands};
ghost use Rattle.port_model.specs.Polled.{polled_at, polled_by};

use crate::km_function::KmFunction;
use control_pipe::pipe::Pipe;
use port_model::polled::Polled;
use psd_base::act::Act;

/// What an act at another endpoint than 0 polls.
pub(crate) fn polled_by(pipe: &Pipe<KmFunction>, act: &Act) -> Polled
    ensures { (acts : List ControlAct) → PipeStands pipe.now acts → result ≡ polled_by act.now acts }
{
    match act {
        Act::Reset => Polled::Nothing,
        Act::Setup { .. } => Polled::Nothing,
        Act::Out { .. } => Polled::Nothing,
        Act::In {
            address,
            endpoint,
            acked,
        } => {
            if *address != pipe.address() || !pipe.configured() {
                return Polled::Nothing;
            }
            polled_at(pipe, *endpoint, *acked)
        }
    }
}

/// What an IN at this endpoint of a configured device polls: the keyboard has endpoint 1, and the mouse endpoint 2.
fn polled_at(pipe: &Pipe<KmFunction>, endpoint: u8, acked: bool) -> Polled
    ensures { (acts : List ControlAct) → PipeStands pipe.now acts → result ≡ polled_at endpoint acked acts }
{
    match endpoint {
        1 => {
            if pipe.halted(1) {
                Polled::Halted
            } else {
                Polled::Keyboard(acked)
            }
        }
        2 => {
            if pipe.halted(2) {
                Polled::Halted
            } else {
                Polled::Mouse(acked)
            }
        }
        _ => Polled::Nothing,
    }
}
