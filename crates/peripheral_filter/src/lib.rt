//! Which peripherals are let in: the fixed rules and the administrator's.
//!
//! A peripheral is judged in four steps, by its device descriptor, its configuration, each interface and
//! the interface's report descriptor. Each call names the first rule that holds of those of its step, in
//! the order in which `fixed` has them, then the deny list and the allow list. Nothing here takes memory.
#![tactic(auto)]

mod before;
mod class;
mod config;
mod device;
pub mod fixed;
mod layout;
mod matching;
pub mod rule;

pub use config::{judge_config, judge_interface};
pub use device::judge_device;
pub use layout::judge_layout;
pub use rule::{RULES_MAX, Rule, RuleSet, Verdict};
