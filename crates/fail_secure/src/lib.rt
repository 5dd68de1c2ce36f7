//! The self-test: what its four checks come to, and when the switch goes dark for good.
#![tactic(auto)]

pub mod health;
pub mod health_change;

pub use health::Health;
pub use health_change::{HealthChange, change_between};
