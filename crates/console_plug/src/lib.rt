//! The plugs of the console: when a peripheral has power, what it is told, and what it shows.
//!
//! A plug gives its peripheral power, takes it through its enumeration, and takes the power away where it is refused, taken
//! off, or the switch goes dark. What an accepted keyboard or mouse shows is the union over its interfaces. Nothing here
//! takes memory, and nothing that a computer does is told to it.
#![tactic(auto)]

pub mod laws;
pub mod plug;
pub mod shown_buttons;
pub mod shown_keys;

pub use plug::ConsolePlug;
pub use shown_buttons::ShownButtons;
pub use shown_keys::ShownKeys;
