//! The report descriptors (HID 1.11, section 6.2.2).
ghost use Rattle.std.specs.Prelude.{◌≡◌};
ghost use Rattle.console_host.specs.Replies.{reply_of};
ghost use Rattle.console_host.specs.Judging.{finding};

use crate::rules::STALLED;
use crate::status::STALL;
use hid_report::{Layout, read_layout};
use peripheral_filter::fixed::MALFORMED_REPORT;
use peripheral_filter::{Verdict, judge_layout};
use psd_base::console::{Plug, RuleName};

/// The kind of a report descriptor (HID 1.11, section 7.1).
pub const REPORT_DESCRIPTOR: u8 = 0x22;

/// Judges the reply of an interface that was asked for `length` bytes of report descriptor. Gives its layout, or the rule that
/// refuses the interface.
pub fn judge_report(plug: Plug, length: u16, status: u8, bytes: &[u8]) -> Result<Layout, RuleName>
    ensures { result ≡ finding plug length (reply_of status bytes.now) }
{
    if status == STALL {
        return Err(STALLED);
    }
    if bytes.len() != usize::from(length) {
        return Err(MALFORMED_REPORT);
    }
    match judge_layout(plug, bytes) {
        Verdict::Refused(rule) => Err(rule),
        Verdict::Accepted => match read_layout(bytes) {
            Ok(layout) => Ok(layout),
            Err(_) => Err(MALFORMED_REPORT),
        },
    }
}
