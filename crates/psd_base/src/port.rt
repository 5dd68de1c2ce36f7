//! The number of a port, and how many ports there can be.
ghost use Rattle.std.specs.Prelude.{◌≡◌, ℕ, ◌≤◌, ◌↔◌, IsSome, IfSome};
ghost use Rattle.psd_base.specs.Port.{IsPort};

use std::marker::Model;

/// The greatest number of computers that one switch serves.
pub const MAX_PORTS: u8 = 8;

/// The number of a port, from 1 to `MAX_PORTS`. Each port belongs to one computer.
#[derive(Clone, Copy, Debug, PartialEq, Eq, PartialOrd, Ord, Hash)]
pub struct PortId {
    number: u8,
}

impl Model for PortId {
    ghost use Rattle.std.specs.Prelude.{ℕ};
    ghost use Rattle.psd_base.specs.Port.{IsPort};

    ghost Value = { ℕ };

    ghost view = { λ port. port.number };

    ghost invariant = { λ port. IsPort port.number };

    ghost inverse = { λ number. record { number = number } };
}

impl PortId {
    /// The port of this number, or `None` exactly outside 1 to `MAX_PORTS`.
    pub fn new(number: u8) -> Option<PortId>
        ensures found { IsSome result ↔ IsPort number }
        ensures value { IfSome result (λ port. port ≡ number) }
    {
        if number >= 1 && number <= MAX_PORTS {
            Some(PortId { number })
        } else {
            None
        }
    }

    /// The number, from 1 to `MAX_PORTS`.
    pub fn number(self) -> u8
        ensures value { result ≡ self }
        ensures port { IsPort result }
    {
        self.number
    }
}
