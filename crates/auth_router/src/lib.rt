//! The smart-card token at the console: its power and routing, and the bridge from one computer to it.
#![tactic(auto)]

pub mod bridge;
mod control;
mod endpoints;
mod live;
mod request;
pub mod slot;
pub mod up;

pub use bridge::Bridge;
pub use slot::{RESET, SlotState, TokenSlot};
pub use up::Up;
