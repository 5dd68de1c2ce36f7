//! The step in which a device is judged by its device descriptor (USB 2.0, section 9.6.1).
ghost use Rattle.std.specs.Prelude.{◌≡◌, option_copied};
ghost use Rattle.peripheral_filter.specs.Steps.{device_rules, is_packet_size};
ghost use Rattle.peripheral_filter.specs.Verdicts.{first_that_holds, NamesFirst};

use crate::before::is_changed;
use crate::class::HUB_CLASS;
use crate::fixed::{CHANGED, HUB, MALFORMED_DESCRIPTOR, SIZE_LIMITS};
use crate::rule::Verdict;
use usb_descriptor::read_device;

/// Judges the reply to GET_DESCRIPTOR(device) (USB 2.0, section 9.4.3). `before` has the bytes that were
/// accepted in an earlier life of the device, if there are any to compare with.
///
/// The rules of this step: a malformed descriptor, a hub, a size of endpoint 0 that USB 2.0 doesn't have,
/// and a change.
#[tactic(auto, using(crate::proofs::VerdictLaws::named))]
pub fn judge_device(bytes: &[u8], before: Option<&[u8]>) -> Verdict
    ensures verdict { result ≡ first_that_holds (device_rules bytes.now (option_copied before.entry)) }
    ensures first { NamesFirst (device_rules bytes.now (option_copied before.entry)) result }
{
    judged(bytes, before)
}

fn judged(bytes: &[u8], before: Option<&[u8]>) -> Verdict
    ensures { result ≡ first_that_holds (device_rules bytes.now (option_copied before.entry)) }
{
    let device = match read_device(bytes) {
        Ok(device) => device,
        Err(_) => return Verdict::Refused(MALFORMED_DESCRIPTOR),
    };
    if device.class == HUB_CLASS {
        return Verdict::Refused(HUB);
    }
    if !is_packet_size(device.max0) {
        return Verdict::Refused(SIZE_LIMITS);
    }
    if is_changed(before, bytes) {
        return Verdict::Refused(CHANGED);
    }
    Verdict::Accepted
}

/// Whether USB 2.0 has this size of endpoint 0, in bytes.
fn is_packet_size(size: u8) -> bool
    ensures { result ≡ is_packet_size size }
{
    match size {
        8 | 16 | 32 | 64 => true,
        _ => false,
    }
}
