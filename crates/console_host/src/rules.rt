//! The fixed rules that are judged here alone: those of replies without bytes.
use psd_base::console::RuleName;

/// The peripheral stalled the request.
pub const STALLED: RuleName = RuleName::Fixed(8);

/// The peripheral failed, wasn't ready, or didn't answer in time.
pub const SILENT: RuleName = RuleName::Fixed(11);
