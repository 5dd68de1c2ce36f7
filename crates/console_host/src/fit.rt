//! The interfaces of a keyboard or a mouse that its plug is for, and which of them are asked for their report descriptor.
ghost use Rattle.std.specs.Prelude.{◌≡◌, ◌+◌, ◌≤◌, ◌==◌, ◌++◌, length, map, filter, IfSome};
ghost use Rattle.std.specs.List.{find};
ghost use Rattle.console_host.specs.declared.order.TheConstants.{CONFIGURE};
ghost use Rattle.console_host.specs.Fits.{barring, barring_rules, asks_from, barred_from, barred_note};
ghost use Rattle.console_host.specs.Judging.{least_from};

use crate::order::CONFIGURE;
use crate::rank::lesser;
use arrayvec::ArrayVec;
use peripheral_filter::fixed::{MALFORMED_REPORT, REPORT_LIMITS};
use psd_base::console::{Note, Notes, Plug, RuleName};

/// How many interfaces a configuration has at most.
pub const INTERFACES_MAX: usize = 8;

/// What an interface's HID descriptor says of its report descriptor (HID 1.11, section 6.2.1).
#[derive(Clone, Copy, Debug, Default, PartialEq, Eq)]
pub enum ReportEntry {
    /// There is no HID descriptor, or it names no report descriptor.
    #[default]
    Missing,
    /// The report descriptor is longer than any that is read.
    TooLong,
    /// The report descriptor has so many bytes.
    Length(u16),
}

/// An interface that its plug is for.
#[derive(Clone, Copy, Debug, Default, PartialEq, Eq)]
pub struct Fit {
    /// bInterfaceNumber (USB 2.0, section 9.6.5).
    pub number: u8,
    pub entry: ReportEntry,
}

/// The fits of a configuration, in its order.
pub type Fits = ArrayVec<Fit, INTERFACES_MAX>;

/// An order for an interface's report descriptor.
#[derive(Clone, Copy, Debug)]
pub struct ReportAsk {
    /// bInterfaceNumber.
    pub interface: u8,
    /// How many bytes are asked for.
    pub length: u16,
    /// The order's number in its life.
    pub number: u32,
}

impl ReportEntry {
    /// The rule by which the interface is refused without an order.
    pub fn barring(self) -> Option<RuleName>
        ensures { result ≡ barring self }
    {
        match self {
            ReportEntry::Missing => Some(MALFORMED_REPORT),
            ReportEntry::TooLong => Some(REPORT_LIMITS),
            ReportEntry::Length(_) => None,
        }
    }
}

/// The order that comes after order `number`, if it is one for a report descriptor.
pub fn ask_after(fits: &[Fit], number: u32) -> Option<ReportAsk>
    requires { length fits.now ≤ INTERFACES_MAX }
    ensures ask { result ≡ find (λ ask. ask.number == number + 1) (asks_from CONFIGURE fits.now) }
    ensures small { IfSome result (λ ask. ask.number ≤ CONFIGURE + INTERFACES_MAX) }
{
    let mut answered = CONFIGURE;
    for fit in fits {
        match fit.entry {
            ReportEntry::Missing => {}
            ReportEntry::TooLong => {}
            ReportEntry::Length(length) => {
                if answered == number {
                    return Some(ReportAsk {
                        interface: fit.number,
                        length,
                        number: answered + 1,
                    });
                }
                answered += 1;
            }
        }
    }
    None
}

/// Notes the interfaces that are refused without an order and whose turn comes after the reply to order `number`.
pub fn note_barred(plug: Plug, fits: &[Fit], number: u32, notes: &mut Notes)
    requires few { length fits.now ≤ INTERFACES_MAX }
    requires room { length notes.old.items ≤ 1 }
    ensures notes { notes.new.items
        ≡ notes.old.items ++ map (barred_note plug) (filter (λ barred. barred.due == number)
        (barred_from CONFIGURE fits.now)) }
    ensures room { length notes.new.items ≤ 1 + INTERFACES_MAX }
{
    let mut answered = CONFIGURE;
    for fit in fits {
        match fit.entry.barring() {
            None => answered += 1,
            Some(rule) => {
                if answered == number {
                    notes.push(Note::InterfaceRefused {
                        plug,
                        interface: fit.number,
                        rule,
                    });
                }
            }
        }
    }
}

/// The least of this rule and those by which interfaces are refused without an order.
pub fn least_barred(fits: &[Fit], least: Option<RuleName>) -> Option<RuleName>
    ensures { result ≡ least_from least (barring_rules fits.now) }
{
    let mut found = least;
    for fit in fits {
        match fit.entry.barring() {
            None => {}
            Some(rule) => found = Some(lesser(found, rule)),
        }
    }
    found
}
