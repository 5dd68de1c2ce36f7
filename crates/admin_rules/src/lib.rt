//! The administrator's rule file, a TOML document, read into the rules that it gives.
#![tactic(auto)]

mod document;
mod entry;
mod entry_list;
mod keys;
mod read;

pub use read::{RULES_FILE_SIZE, read_rules};
