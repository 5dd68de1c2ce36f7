//! The firmware's loop over acts of computers: what came between two events at the front is served port by port, with the same
//! promise as served in the order of the schedule.
#![tactic(auto)]

pub mod batch;
mod lane;
pub mod lanes;
mod row;
pub mod serving;
pub mod timed_job;

pub use batch::BATCH_MAX;
pub use lanes::Lanes;
pub use serving::serve;
pub use timed_job::TimedJob;
