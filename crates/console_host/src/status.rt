//! The status of a reply.
ghost use Rattle.std.specs.Prelude.{◌≡◌, ◌++◌, List, Bool};
ghost use Rattle.psd_base.specs.declared.console.RuleName.{RuleName};
ghost use Rattle.peripheral_filter.specs.Verdicts.{first_that_holds};
ghost use Rattle.console_host.specs.Judging.{status_rules};
ghost use Rattle.console_host.specs.Machine.{then_by};

use crate::rules::{SILENT, STALLED};
use peripheral_filter::Verdict;

/// The status of a request that was stalled. One that was served has the status below it; those above it say that it failed or
/// that the peripheral wasn't ready.
pub const STALL: u8 = 1;

/// Judges the status of a reply: a stall, and then a failure.
pub fn judge_status(status: u8) -> Verdict
    ensures verdict { result ≡ first_that_holds (status_rules status) }
    ensures then { (rules : List (RuleName × Bool))
        → first_that_holds (status_rules status ++ rules) ≡ then_by result (first_that_holds rules) }
{
    if status == STALL {
        return Verdict::Refused(STALLED);
    }
    if status > STALL {
        return Verdict::Refused(SILENT);
    }
    Verdict::Accepted
}
