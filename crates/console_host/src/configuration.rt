//! The configuration with all that belongs to it (USB 2.0, sections 9.6.3 to 9.6.6).
ghost use Rattle.std.specs.Prelude.{◌≡◌, ◌≤◌, [], length, option_copied, IfSome};
ghost use Rattle.psd_base.specs.declared.packet.TheConstants.{BLOCK_SIZE};
ghost use Rattle.peripheral_filter.specs.Verdicts.{first_that_holds};
ghost use Rattle.peripheral_filter.specs.Steps.{config_rules};
ghost use Rattle.usb_descriptor.specs.Fault.{config_fault};
ghost use Rattle.console_host.specs.declared.fit.TheConstants.{INTERFACES_MAX};
ghost use Rattle.console_host.specs.Replies.{reply_of};
ghost use Rattle.console_host.specs.Fits.{entry_of, fits, fits_in, misfits, misfits_in, settings};
ghost use Rattle.console_host.specs.Judging.{configuration_step};
ghost use Rattle.console_host.specs.Machine.{shape_of};

use crate::descriptors::{Descriptors, Shape};
use crate::fit::{Fit, Fits, ReportEntry};
use crate::report::REPORT_DESCRIPTOR;
use crate::status::judge_status;
use crate::total::TotalLength;
use peripheral_filter::fixed::MALFORMED_DESCRIPTOR;
use peripheral_filter::{RuleSet, Verdict, judge_config, judge_interface};
use psd_base::console::{Note, Notes, Plug};
use psd_base::packet::BLOCK_SIZE;
use usb_descriptor::{ConfigView, DeviceDesc};

/// Judges the reply with a configuration of which `total` bytes were asked for, of the device with this descriptor. `before`
/// has the descriptors that were accepted in an earlier life.
pub fn judge_configuration(
    plug: Plug,
    rules: &RuleSet,
    device: &DeviceDesc,
    total: TotalLength,
    before: &Option<Descriptors>,
    status: u8,
    bytes: &[u8],
) -> Verdict
    ensures verdict { result ≡ first_that_holds
        (configuration_step plug rules.now device.now total before.now (reply_of status bytes.now)) }
    ensures faultless { result ≡ Verdict.Accepted → config_fault bytes.now ≡ None }
    ensures short { result ≡ Verdict.Accepted → length bytes.now ≤ BLOCK_SIZE }
{
    match judge_status(status) {
        Verdict::Refused(rule) => Verdict::Refused(rule),
        Verdict::Accepted => {
            if bytes.len() != usize::from(total.bytes()) {
                return Verdict::Refused(MALFORMED_DESCRIPTOR);
            }
            match before {
                None => judge_whole(plug, rules, device, bytes, None),
                Some(known) => {
                    judge_whole(
                        plug,
                        rules,
                        device,
                        bytes,
                        Some(known.configuration.as_slice()),
                    )
                }
            }
        }
    }
}

/// Judges a whole configuration. One that no rule refuses can be read.
#[tactic(auto, using(crate::proofs::Faultless::faultless_by))]
fn judge_whole(
    plug: Plug,
    rules: &RuleSet,
    device: &DeviceDesc,
    bytes: &[u8],
    before: Option<&[u8]>,
) -> Verdict
    ensures verdict { result ≡ first_that_holds (config_rules plug rules.now device.now bytes.now
        (option_copied before.entry)) }
    ensures faultless { result ≡ Verdict.Accepted → config_fault bytes.now ≡ None }
{
    judge_config(plug, rules, device, bytes, before)
}

/// What a device with this descriptor and configuration looks like to a host.
pub fn shape_of(device: &DeviceDesc, config: &ConfigView) -> Shape
    ensures { result ≡ shape_of device.now config.now }
{
    let (ins, outs) = config.endpoints();
    Shape {
        value: config.value(),
        max0: device.max0,
        ins,
        outs,
    }
}

/// Sorts the interfaces of a configuration at this plug: those that the plug is for go to `fitting`, the others are noted as
/// refused. A token's interfaces have no lines.
pub fn sort_interfaces(plug: Plug, config: &ConfigView, fitting: &mut Fits, notes: &mut Notes)
    requires { notes.old.items ≡ [] }
    ensures fits { fitting.new.items ≡ fits plug config.now }
    ensures notes { notes.new.items ≡ misfits plug config.now }
    ensures few_fits { length fitting.new.items ≤ INTERFACES_MAX }
    ensures few_notes { length notes.new.items ≤ INTERFACES_MAX }
{
    fitting.clear();
    match plug {
        Plug::Keyboard => sort_all(plug, config, fitting, notes),
        Plug::Mouse => sort_all(plug, config, fitting, notes),
        Plug::Token => {}
    }
}

fn sort_all(plug: Plug, config: &ConfigView, fitting: &mut Fits, notes: &mut Notes)
    requires no_fits { fitting.old.items ≡ [] }
    requires no_notes { notes.old.items ≡ [] }
    ensures fits { fitting.new.items ≡ fits_in plug (settings config.now) }
    ensures notes { notes.new.items ≡ misfits_in plug (settings config.now) }
    ensures few_fits { length fitting.new.items ≤ INTERFACES_MAX }
    ensures few_notes { length notes.new.items ≤ INTERFACES_MAX }
{
    for i in 0..config.interfaces() {
        match judge_interface(plug, config, i) {
            Verdict::Accepted => fitting.push(Fit {
                number: config.interface(i).number,
                entry: entry_of(config.hid(i)),
            }),
            Verdict::Refused(rule) => notes.push(Note::InterfaceRefused {
                plug,
                interface: config.interface(i).number,
                rule,
            }),
        }
    }
}

/// What an interface's first HID descriptor says of its report descriptor. Byte 6 is the kind of the first descriptor that it
/// names, and the two bytes after it say how long that is (HID 1.11, section 6.2.1).
fn entry_of(hid: Option<&[u8]>) -> ReportEntry
    requires { IfSome hid (λ bytes. 9 ≤ length bytes.now) }
    ensures { result ≡ entry_of (option_copied hid.entry) }
{
    match hid {
        None => ReportEntry::Missing,
        Some(bytes) => {
            if bytes[6] != REPORT_DESCRIPTOR {
                return ReportEntry::Missing;
            }
            let length = u16::from_le_bytes([bytes[7], bytes[8]]);
            if usize::from(length) > BLOCK_SIZE {
                ReportEntry::TooLong
            } else {
                ReportEntry::Length(length)
            }
        }
    }
}
