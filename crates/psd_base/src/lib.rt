//! The words that all crates of the switch share: ports, USB acts and answers, events, transcript lines, stops and the desk.
#![tactic(auto)]

pub mod act;
pub mod buffer;
mod calls;
pub mod console;
pub mod desk;
pub mod event;
mod fault_counts;
pub mod file_desk;
pub mod key_set;
pub mod line;
pub mod memory_desk;
pub mod number;
pub mod orders;
pub mod outlet;
pub mod packet;
pub mod place;
mod places;
pub mod port;
pub mod render;
pub mod sample;
pub mod setup;
mod sink;
mod source;
pub mod stop;
mod store;
pub mod summary;
mod tape;
mod waiting;
pub mod words;

pub use act::{Act, Answer, Side};
pub use buffer::Buffer;
pub use console::{
    CHECKS, Job, JobKind, NOTES_MAX, Note, Notes, ORDERS_MAX, Order, Orders, Panel, Plug, Reason,
    RuleName,
};
pub use desk::{Desk, DeskFailed};
pub use event::{EVENTS_MAX, Event, Tick, What};
pub use file_desk::FileDesk;
pub use key_set::KeySet;
pub use line::Line;
pub use memory_desk::MemoryDesk;
pub use number::number_in;
pub use outlet::{Input, Outlet};
pub use packet::{BLOCK_SIZE, Block, Bytes, PACKET_SIZE, Packet};
pub use port::{MAX_PORTS, PortId};
pub use render::{RENDERED_MAX, Render};
pub use sample::Sample;
pub use setup::Setup;
pub use stop::{CaptureFault, RuleList, RulesFault, ScriptFault, Stop};
pub use summary::Summary;
pub use words::Words;
