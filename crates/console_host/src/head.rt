//! The first bytes of a configuration (USB 2.0, section 9.6.3), which say how long it is.
ghost use Rattle.std.specs.Prelude.{◌≡◌};
ghost use Rattle.peripheral_filter.specs.Verdicts.{first_that_holds};
ghost use Rattle.console_host.specs.Replies.{reply_of};
ghost use Rattle.console_host.specs.Judging.{head_rules, is_head};
ghost use Rattle.usb_descriptor.specs.Device.{word_at};
ghost use Rattle.console_host.specs.Machine.{head_reading, unless_refused};

use crate::status::judge_status;
use crate::total::TotalLength;
use peripheral_filter::Verdict;
use peripheral_filter::fixed::{MALFORMED_DESCRIPTOR, SIZE_LIMITS};
use psd_base::console::RuleName;
use psd_base::packet::BLOCK_SIZE;

/// How many bytes a configuration descriptor has alone.
pub const HEAD_SIZE: u8 = 9;
/// The kind of a configuration descriptor.
pub const CONFIGURATION_KIND: u8 = 2;

/// Judges the first bytes of a configuration. Gives its total length, or the rule that refuses the device.
pub fn judge_head(status: u8, bytes: &[u8]) -> Result<TotalLength, RuleName>
    ensures { result ≡ head_reading (reply_of status bytes.now) }
{
    match judge_status(status) {
        Verdict::Refused(rule) => Err(rule),
        Verdict::Accepted => read_head(bytes),
    }
}

/// The total length that the first bytes of a configuration give.
fn read_head(bytes: &[u8]) -> Result<TotalLength, RuleName>
    ensures { result ≡ unless_refused (first_that_holds (head_rules bytes.now)) (word_at bytes.now 2) }
{
    if !is_head(bytes) {
        return Err(MALFORMED_DESCRIPTOR);
    }
    let total = u16::from_le_bytes([bytes[2], bytes[3]]);
    if usize::from(total) > BLOCK_SIZE {
        return Err(SIZE_LIMITS);
    }
    Ok(TotalLength::new(total))
}

/// Whether these are the first bytes of a configuration that is at least as long as they are.
fn is_head(bytes: &[u8]) -> bool
    ensures { result ≡ is_head bytes.now }
{
    bytes.len() == usize::from(HEAD_SIZE)
        && bytes[0] == HEAD_SIZE
        && bytes[1] == CONFIGURATION_KIND
        && u16::from_le_bytes([bytes[2], bytes[3]]) >= u16::from(HEAD_SIZE)
}
