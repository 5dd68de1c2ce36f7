//! What a computer finds at its mouse: an emulated one, exact in every report and toggle, whoever is selected.
#![tactic(auto)]

mod buttons;
pub mod delivery;
pub mod descriptors;
mod function;
pub mod given;
pub mod motion;
pub mod mouse;
pub mod report;

pub use buttons::Buttons;
pub use given::Given;
pub use motion::{COUNTS, Motion, Piece};
pub use mouse::{IDLE_RATE, INTERFACE, Mouse};
pub use report::Report;
