//! The place of each input, and of each outlet, in a table.
ghost use Rattle.std.specs.Prelude.{◌≡◌, ◌<◌};
ghost use Rattle.psd_base.specs.Places.{place_of_input, place_of_outlet};

use crate::outlet::{Input, Outlet};
use crate::port::MAX_PORTS;

/// How many inputs there are.
pub const INPUTS: usize = 3;

/// How many places a table of outlets has.
pub const OUTLETS: usize = MAX_PORTS as usize + 5;

/// The place of an input in a table of `INPUTS`.
pub fn input_place(input: &Input) -> usize
    ensures value { result ≡ place_of_input input.now }
    ensures within { result < INPUTS }
{
    match input {
        Input::Rules => 0,
        Input::Capture => 1,
        Input::Script => 2,
    }
}

/// The place of an outlet in a table of `OUTLETS`. No two outlets share a place.
pub fn outlet_place(outlet: &Outlet) -> usize
    ensures value { result ≡ place_of_outlet outlet.now }
    ensures within { result < OUTLETS }
{
    match outlet {
        Outlet::Report => 0,
        Outlet::Faults => 1,
        Outlet::Console => 2,
        Outlet::Log => 3,
        Outlet::Port(port) => 4 + port.number() as usize,
    }
}
