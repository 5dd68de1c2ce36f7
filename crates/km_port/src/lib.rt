//! The keyboard and mouse connector of one computer, the console that the connectors share in turn, and what a switch with
//! one port answers.
#![tactic(auto)]

pub mod console;
pub mod delivery;
pub mod descriptors;
pub mod km_function;
pub mod polled;
pub mod port;
mod told;

pub use console::{Console, Farewell, Owned, Vacant, Welcome};
pub use km_function::KmFunction;
pub use port::{Dark, Live, Port};
