//! Reads a capture and a button script, and gives their events one at a time in the order of the ticks.
#![tactic(auto)]

mod ahead;
mod decode;
mod fault;
mod form;
mod line;
mod next;
mod payload;
mod progress;
mod reader;
mod script;
mod source;
mod window;

pub use reader::Reader;
pub use window::read_behind;
