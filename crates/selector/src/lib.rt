//! The selection of a port, which is made by hand alone.
#![tactic(auto)]

mod buttons;
mod choice;
pub mod selector;

pub use selector::{HOLD, Move, Selector};
