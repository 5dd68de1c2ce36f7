//! The token's plug at the console: when the token has power, what it is told, to which computer it is routed, and the
//! bridge of that computer.
//!
//! The token gets power while the switch is alive, is taken through its enumeration, and is routed to the selected port.
//! Its power goes off where that port is left, so no computer finds it as another one left it. Nothing here takes memory,
//! and nothing that a computer does changes its power or its routing.
#![tactic(auto)]

pub mod laws;
pub mod plug;

pub use plug::TokenPlug;
