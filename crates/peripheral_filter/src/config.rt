//! The steps in which a device is judged by its configuration and the interfaces in it (USB 2.0, sections
//! 9.6.3 to 9.6.6).
ghost use Rattle.std.specs.Prelude.{◌≡◌, ◌<◌, ◌==◌, not, option_copied};
ghost use Rattle.std.specs.List.{list_any};
ghost use Rattle.usb_descriptor.specs.View.{interface_count, interface_at};
ghost use Rattle.peripheral_filter.specs.Steps.{config_rules, read_config_rules, interface_rules, has_no_interface, refused_config_rules};
ghost use Rattle.peripheral_filter.specs.Verdicts.{first_that_holds, NamesFirst};

use crate::before::is_changed;
use crate::class::{HID_CLASS, HUB_CLASS, SMART_CARD_CLASS, class_for, classes_of};
use crate::fixed::{CHANGED, HUB, MALFORMED_DESCRIPTOR, NO_INTERFACE, SIZE_LIMITS};
use crate::matching::judge_lists;
use crate::rule::{RuleSet, Verdict};
use psd_base::console::Plug;
use usb_descriptor::{ConfigView, DescWhy, DeviceDesc, read_config};

/// Judges the bytes of a configuration with all that belongs to it, of the device with this descriptor.
/// `before` has the bytes that were accepted in an earlier life of the device, if there are any to compare
/// with.
///
/// A configuration that can't be read is malformed, or beyond the limits on sizes. The rules for the others:
/// a hub, no interface for this plug, a change, each entry of the deny list that matches, and an allow list
/// of which no entry matches.
#[tactic(auto, using(crate::proofs::VerdictLaws::named))]
pub fn judge_config(
    plug: Plug,
    rules: &RuleSet,
    device: &DeviceDesc,
    bytes: &[u8],
    before: Option<&[u8]>,
) -> Verdict
    ensures verdict { result
        ≡ first_that_holds (config_rules plug rules.now device.now bytes.now (option_copied before.entry)) }
    ensures first { NamesFirst
        (config_rules plug rules.now device.now bytes.now (option_copied before.entry)) result }
{
    judged(plug, rules, device, bytes, before)
}

fn judged(
    plug: Plug,
    rules: &RuleSet,
    device: &DeviceDesc,
    bytes: &[u8],
    before: Option<&[u8]>,
) -> Verdict
    ensures { result ≡ first_that_holds
        (config_rules plug rules.now device.now bytes.now (option_copied before.entry)) }
{
    match read_config(bytes) {
        Err(fault) => judge_refused(fault.why),
        Ok(config) => {
            let classes = classes_of(&config);
            judge_read(
                plug,
                rules,
                device,
                classes.as_slice(),
                is_changed(before, bytes),
            )
        }
    }
}

/// The verdict on a configuration that can't be read.
fn judge_refused(why: DescWhy) -> Verdict
    ensures { result ≡ first_that_holds (refused_config_rules why) }
{
    match why {
        DescWhy::TooMany => Verdict::Refused(SIZE_LIMITS),
        DescWhy::Short | DescWhy::Length | DescWhy::Kind | DescWhy::Total | DescWhy::Order =>
            Verdict::Refused(MALFORMED_DESCRIPTOR),
    }
}

/// The verdict on a configuration that can be read, whose interfaces have these classes.
fn judge_read(
    plug: Plug,
    rules: &RuleSet,
    device: &DeviceDesc,
    classes: &[u8],
    changed: bool,
) -> Verdict
    ensures { result ≡ first_that_holds (read_config_rules plug rules.now device.now classes.now changed) }
{
    if classes.contains(&HUB_CLASS) {
        return Verdict::Refused(HUB);
    }
    if has_no_interface(plug, classes) {
        return Verdict::Refused(NO_INTERFACE);
    }
    if changed {
        return Verdict::Refused(CHANGED);
    }
    judge_lists(plug, rules, device, classes)
}

/// Whether no interface is one for this plug, or a token has one that isn't.
fn has_no_interface(plug: Plug, classes: &[u8]) -> bool
    ensures { result ≡ has_no_interface plug classes.now }
{
    match plug {
        Plug::Keyboard | Plug::Mouse => !classes.contains(&HID_CLASS),
        Plug::Token => classes.is_empty() || has_other_class(classes),
    }
}

/// Whether some class isn't that of smart card readers.
fn has_other_class(classes: &[u8]) -> bool
    ensures { result ≡ list_any (λ class. not (class == SMART_CARD_CLASS)) classes.now }
{
    classes.iter().any(|class| *class != SMART_CARD_CLASS)
}

/// Judges the interface in place `i` of a configuration: its class is the one for this plug, or it is refused.
#[tactic(auto, using(crate::proofs::VerdictLaws::named))]
pub fn judge_interface(plug: Plug, config: &ConfigView, i: u8) -> Verdict
    requires { i < interface_count config.now }
    ensures verdict { result ≡ first_that_holds (interface_rules plug (interface_at i config.now)) }
    ensures first { NamesFirst (interface_rules plug (interface_at i config.now)) result }
{
    judged_interface(plug, config, i)
}

fn judged_interface(plug: Plug, config: &ConfigView, i: u8) -> Verdict
    requires { i < interface_count config.now }
    ensures { result ≡ first_that_holds (interface_rules plug (interface_at i config.now)) }
{
    if config.interface(i).class == class_for(plug) {
        Verdict::Accepted
    } else {
        Verdict::Refused(NO_INTERFACE)
    }
}
