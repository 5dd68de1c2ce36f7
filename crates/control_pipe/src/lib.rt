//! Control transfers at endpoint 0 of an emulated device (USB 2.0, 8.5.3 and chapter 9).
#![tactic(auto)]

pub mod codes;
pub mod function;
pub mod hid_request;
pub mod hid_settings;
pub mod pipe;
pub mod reaction;
mod registers;
mod request;
mod transfer;

pub use function::Function;
pub use hid_request::{HidRequest, Protocol};
pub use hid_settings::HidSettings;
pub use pipe::Pipe;
pub use reaction::{Effect, Reaction};
