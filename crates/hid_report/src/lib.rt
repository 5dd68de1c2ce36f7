//! Report descriptors of HID 1.11, and the reports that they describe.
//!
//! `read_layout` reads a report descriptor in one pass. A `Layout` then reads key reports into a `KeySet`
//! and pointer reports into a `Sample`. Nothing here takes memory.
#![tactic(auto)]

mod array;
mod bit_place;
mod bit_size;
mod element;
mod fault;
mod field;
mod flag_row;
mod globals;
mod item;
mod keys;
mod layout;
mod number;
mod page;
mod pass;
mod pointer;
mod pointer_report;
mod read;
mod report_form;
mod source;
mod usage;

pub use fault::{LayoutFault, LayoutWhy};
pub use layout::Layout;
pub use read::read_layout;
