//! What a computer finds at its keyboard: an emulated one, exact in every report and toggle, whoever is selected.
#![tactic(auto)]

pub mod delivery;
pub mod descriptors;
mod function;
pub mod given;
pub mod keyboard;
mod report;

pub use given::Given;
pub use keyboard::{IDLE_RATE, INTERFACE, Keyboard};
