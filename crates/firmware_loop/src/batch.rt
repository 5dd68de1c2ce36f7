//! How many acts of computers wait at most before they are served.

/// How many acts a batch has at most. A batch is acts that follow one another in the schedule.
pub const BATCH_MAX: usize = 64;
