//! Reads USB device and configuration descriptors in place, and names the first fault of what it
//! refuses (USB 2.0, section 9.6; HID 1.11, section 6.2.1).
#![tactic(auto)]

mod config;
mod descriptor;
mod device;
mod fault;
mod tally;
mod view;

pub use config::read_config;
pub use device::{DeviceDesc, read_device};
pub use fault::{DescFault, DescWhy};
pub use view::{ConfigView, InterfaceDesc};
