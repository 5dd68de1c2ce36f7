//! How many reads of each input, and writes to each outlet, failed.
ghost use Rattle.std.specs.Prelude.{◌≡◌};
ghost use Rattle.psd_base.specs.Desk.{OnlyReads, OnlyWrites, ReadFailed, WriteFailed, silent};
ghost use Rattle.psd_base.specs.FaultCounts.{no_faults, with_failed_read, with_failed_write};

use crate::outlet::{Input, Outlet};
use crate::places::{INPUTS, OUTLETS, input_place, outlet_place};
use std::marker::Model;

/// How many reads of each input, and writes to each outlet, failed. A count stays at `u64::MAX`.
#[derive(Debug, Drop)]
pub struct FaultCounts {
    reads: [u64; INPUTS],
    writes: [u64; OUTLETS],
}

impl Model for FaultCounts {
    ghost use Rattle.psd_base.specs.FaultCounts.{Faults};

    ghost Value = { Faults };

    ghost view = { λ counts. record { reads = counts.reads; writes = counts.writes } };
}

impl FaultCounts {
    /// No failures.
    pub fn new() -> FaultCounts
        ensures { result ≡ no_faults }
    {
        FaultCounts {
            reads: [0; INPUTS],
            writes: [0; OUTLETS],
        }
    }

    /// Counts a failed read of this input.
    pub fn count_read(&mut self, from: &Input)
        ensures after { self.new ≡ with_failed_read self.old from.now }
        ensures failed { ReadFailed from.now (silent self.old) (silent self.new) }
        ensures only { OnlyReads from.now (silent self.old) (silent self.new) }
    {
        let count = &mut self.reads[input_place(from)];
        *count = count.saturating_add(1);
    }

    /// Counts a failed write to this outlet.
    pub fn count_write(&mut self, to: &Outlet)
        ensures after { self.new ≡ with_failed_write self.old to.now }
        ensures failed { WriteFailed to.now (silent self.old) (silent self.new) }
        ensures only { OnlyWrites to.now (silent self.old) (silent self.new) }
    {
        let count = &mut self.writes[outlet_place(to)];
        *count = count.saturating_add(1);
    }
}
