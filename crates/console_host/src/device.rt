//! The device descriptor (USB 2.0, section 9.6.1).
ghost use Rattle.std.specs.Prelude.{◌≡◌, ◌≤◌, length, option_copied, OnOk, IfOk, IsTrue};
ghost use Rattle.peripheral_filter.specs.Steps.{device_rules, is_packet_size};
ghost use Rattle.peripheral_filter.specs.Verdicts.{first_that_holds};
ghost use Rattle.usb_descriptor.specs.Device.{device_of};
ghost use Rattle.console_host.specs.declared.descriptors.TheConstants.{DEVICE_SIZE};
ghost use Rattle.console_host.specs.Replies.{reply_of};
ghost use Rattle.console_host.specs.Machine.{device_reading, unless_refused};

use crate::descriptors::{DEVICE_SIZE, Descriptors};
use crate::status::judge_status;
use peripheral_filter::fixed::MALFORMED_DESCRIPTOR;
use peripheral_filter::{Verdict, judge_device as judge_descriptor};
use psd_base::console::RuleName;
use usb_descriptor::{DeviceDesc, read_device};

/// Judges the reply with a device descriptor. Gives its fields, or the rule that refuses the device. `before` has the
/// descriptors that were accepted in an earlier life.
pub fn judge_device(
    before: &Option<Descriptors>,
    status: u8,
    bytes: &[u8],
) -> Result<DeviceDesc, RuleName>
    ensures reading { result ≡ device_reading before.now (reply_of status bytes.now) }
    ensures long { OnOk result (length bytes.now ≤ DEVICE_SIZE) }
    ensures sized { IfOk result (λ device. IsTrue (is_packet_size device.max0)) }
{
    match judge_status(status) {
        Verdict::Refused(rule) => Err(rule),
        Verdict::Accepted => match before {
            None => judge_bytes(bytes, None),
            Some(known) => judge_bytes(bytes, Some(known.device.as_slice())),
        },
    }
}

/// Judges a device descriptor, by the one that was accepted before too.
#[tactic(auto, using(crate::proofs::Sized::sized_by))]
fn judge_bytes(bytes: &[u8], before: Option<&[u8]>) -> Result<DeviceDesc, RuleName>
    ensures reading { result ≡ unless_refused (first_that_holds
        (device_rules bytes.now (option_copied before.entry))) (device_of bytes.now) }
    ensures long { OnOk result (length bytes.now ≤ DEVICE_SIZE) }
    ensures sized { IfOk result (λ device. IsTrue (is_packet_size device.max0)) }
{
    let device = match read_device(bytes) {
        Ok(device) => device,
        Err(_) => return Err(MALFORMED_DESCRIPTOR),
    };
    match judge_descriptor(bytes, before) {
        Verdict::Refused(rule) => Err(rule),
        Verdict::Accepted => Ok(device),
    }
}
