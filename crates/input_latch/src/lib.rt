//! The changes of the console's keyboard and mouse that the selected computer hasn't read yet.
//!
//! A latch is shown what is down now, and keeps the changes in the order in which they are read. It never loses the
//! release of what it let through: each press that is taken keeps a place for its release.
#![tactic(auto)]

mod buttons;
mod held_keys;
mod key_class;
pub mod key_latch;
mod motion;
pub mod offered;
mod places;
pub mod pointer_latch;

pub use buttons::BUTTONS;
pub use key_latch::{KEYS_MAX, KeyChange, KeyLatch};
pub use offered::{Offered, PLACES};
pub use pointer_latch::{PointerChange, PointerLatch};
