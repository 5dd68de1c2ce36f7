//! What a computer reads at its keyboard and mouse of what was typed and moved, as a law over all views of its port.
//!
//! A span of a view begins where the port is selected and where it is left, and while it's selected also at a bus reset
//! and at a completed SET_CONFIGURATION of its keyboard and mouse. The law speaks of the span in which a view ends. A
//! view that stops earlier is a view too, so the law speaks of each span, and of each moment in it.
ghost use Rattle.std.specs.Prelude.{List};
ghost use Rattle.port_model.specs.Concerns.{Item};
ghost use Rattle.km_port.specs.Delivery.{Delivery};

/// While the port is selected, its computer reads the accepted changes in order and whole, and is answered NAK only
/// where it has read all of them. While it isn't, its computer reads no more than it was owed, and is answered NAK only
/// where it saw nothing left pressed.
pub fn delivers()
    ensures { (past : List Item) → Delivery past }
{}
