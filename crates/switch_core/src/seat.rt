//! Who has the console.
use km_port::{Console, Owned, Vacant};

/// The console, with one of the ports or with none.
#[derive(Drop)]
pub enum Seat {
    /// No port is selected.
    Vacant(Console<Vacant>),
    /// The selected port has the console.
    Owned(Console<Owned>),
    /// The console goes from one to the other: so it is within a call alone.
    Between,
}
