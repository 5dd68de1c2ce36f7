//! Which devices an entry of the administrator's lists matches, and what the lists refuse.
ghost use Rattle.std.specs.Prelude.{◌≡◌, ◌<◌, ◌==◌, length, IfSome};
ghost use Rattle.std.specs.List.{list_any, position_from};
ghost use Rattle.peripheral_filter.specs.Classes.{has_class};
ghost use Rattle.peripheral_filter.specs.Rules.{is_same_plug, agrees, matches, is_not_allowed, allow_rules, list_rules};
ghost use Rattle.peripheral_filter.specs.Verdicts.{first_that_holds};

use crate::rule::{Rule, RuleSet, Verdict};
use psd_base::console::{Plug, RuleName};
use usb_descriptor::DeviceDesc;

fn is_same_plug(wanted: Plug, plug: Plug) -> bool
    ensures { result ≡ is_same_plug wanted plug }
{
    wanted == plug
}

fn is_plug(wanted: Option<Plug>, plug: Plug) -> bool
    ensures { result ≡ agrees wanted (λ wanted. is_same_plug wanted plug) }
{
    match wanted {
        None => true,
        Some(wanted) => is_same_plug(wanted, plug),
    }
}

fn is_number(wanted: Option<u16>, number: u16) -> bool
    ensures { result ≡ agrees wanted (λ wanted. wanted == number) }
{
    match wanted {
        None => true,
        Some(wanted) => wanted == number,
    }
}

fn is_among(wanted: Option<u8>, classes: &[u8]) -> bool
    ensures { result ≡ agrees wanted (λ wanted. has_class wanted classes.now) }
{
    match wanted {
        None => true,
        Some(wanted) => classes.contains(&wanted),
    }
}

/// Whether an entry matches the device at this plug, whose interfaces have these classes.
fn is_match(plug: Plug, device: &DeviceDesc, classes: &[u8], rule: &Rule) -> bool
    ensures { result ≡ matches plug device.now classes.now rule.now }
{
    is_plug(rule.plug, plug)
        && is_number(rule.vendor, device.vendor)
        && is_number(rule.product, device.product)
        && is_among(rule.class, classes)
}

/// The place of the first entry that matches, from 0.
fn find_match(plug: Plug, device: &DeviceDesc, classes: &[u8], rules: &[Rule]) -> Option<usize>
    ensures place { result ≡ position_from (matches plug device.now classes.now) 0 rules.now }
    ensures within { IfSome result (λ place. place < length rules.now) }
{
    rules
        .iter()
        .position(|rule| is_match(plug, device, classes, rule))
}

fn matches_any(plug: Plug, device: &DeviceDesc, classes: &[u8], rules: &[Rule]) -> bool
    ensures { result ≡ list_any (matches plug device.now classes.now) rules.now }
{
    rules
        .iter()
        .any(|rule| is_match(plug, device, classes, rule))
}

/// Whether there is an allow list, and no entry of it matches.
fn is_not_allowed(plug: Plug, device: &DeviceDesc, classes: &[u8], rules: &[Rule]) -> bool
    ensures { result ≡ is_not_allowed (matches plug device.now classes.now) rules.now }
{
    !rules.is_empty() && !matches_any(plug, device, classes, rules)
}

/// The verdict by the allow list.
fn judge_allowed(plug: Plug, device: &DeviceDesc, classes: &[u8], rules: &[Rule]) -> Verdict
    ensures { result ≡ first_that_holds (allow_rules (matches plug device.now classes.now) rules.now) }
{
    if is_not_allowed(plug, device, classes, rules) {
        Verdict::Refused(RuleName::NotAllowed)
    } else {
        Verdict::Accepted
    }
}

/// The verdict by both lists: the deny list is judged first.
#[tactic(auto, using(crate::proofs::RuleLaws::deny_first))]
pub(crate) fn judge_lists(
    plug: Plug,
    rules: &RuleSet,
    device: &DeviceDesc,
    classes: &[u8],
) -> Verdict
    ensures { result ≡ first_that_holds (list_rules (matches plug device.now classes.now) rules.now) }
{
    match find_match(plug, device, classes, rules.deny.as_slice()) {
        Some(place) => Verdict::Refused(RuleName::Deny(place as u8 + 1)),
        None => judge_allowed(plug, device, classes, rules.allow.as_slice()),
    }
}
