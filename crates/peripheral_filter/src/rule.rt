//! The administrator's rules, and what a judgement comes to.
use arrayvec::ArrayVec;
use psd_base::console::{Plug, RuleName};

/// How many entries a list of rules has at most.
pub const RULES_MAX: usize = 64;

/// One entry of a list of rules. It matches a device where each part that is given agrees.
#[derive(Clone, Copy, Debug, Default, PartialEq, Eq)]
pub struct Rule {
    /// The plug at which the device is.
    pub plug: Option<Plug>,
    /// The device's idVendor (USB 2.0, 9.6.1).
    pub vendor: Option<u16>,
    /// The device's idProduct (USB 2.0, 9.6.1).
    pub product: Option<u16>,
    /// The bInterfaceClass of some interface of the device (USB 2.0, 9.6.5).
    pub class: Option<u8>,
}

/// The administrator's rules.
#[derive(Debug, PartialEq, Eq, Drop)]
pub struct RuleSet {
    /// Where this list has an entry, a device that no entry matches is refused.
    pub allow: ArrayVec<Rule, RULES_MAX>,
    /// A device is refused by the first entry that matches it.
    pub deny: ArrayVec<Rule, RULES_MAX>,
}

/// What a judgement comes to.
#[derive(Clone, Copy, Debug, PartialEq, Eq)]
pub enum Verdict {
    Accepted,
    /// Refused by this rule.
    Refused(RuleName),
}
