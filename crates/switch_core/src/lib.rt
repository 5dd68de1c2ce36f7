//! The switch: the ports of its computers, the console that they share in turn, self-test and selection, and the step that
//! serves one event.
#![tactic(auto)]

mod answers;
pub mod front;
pub mod laws;
pub mod peripherals;
pub mod ports;
pub mod seat;
mod self_test;
pub mod shown;
pub mod slot;
pub mod switch;
mod token;
pub mod turn;
pub mod visits;

pub use switch::Switch;
pub use turn::Turn;
pub use visits::Visits;
