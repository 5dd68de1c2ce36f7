//! The peripherals at the console: what each is asked, and what its replies come to.
//!
//! An `Attachment` takes one peripheral through its enumeration (USB 2.0, section 9.1.2; HID 1.11, section 7.1): it asks for
//! the descriptors, one order at a time, judges each reply by the rules, and comes to a verdict. Nothing here takes memory.
#![tactic(auto)]

mod attachment;
mod configuration;
mod descriptors;
mod device;
mod fit;
mod head;
mod interface;
mod next;
pub mod order;
mod packet_size;
mod rank;
mod report;
mod rules;
mod status;
mod step;
mod total;

pub use attachment::Attachment;
pub use descriptors::Shape;
pub use fit::INTERFACES_MAX;
pub use next::{Next, SILENCE};
pub use rules::SILENT;
