//! The step in which an interface is judged by its report descriptor (HID 1.11, section 6.2.2).
ghost use Rattle.std.specs.Prelude.{◌≡◌, ◌<◌, ◌^◌, length};
ghost use Rattle.peripheral_filter.specs.Steps.{layout_rules, refused_layout_rules, read_layout_rules, has_no_field, is_absolute_pointer};
ghost use Rattle.peripheral_filter.specs.Verdicts.{first_that_holds, NamesFirst};

use crate::fixed::{ABSOLUTE_POINTER, MALFORMED_REPORT, NO_FIELD, REPORT_LIMITS};
use crate::rule::Verdict;
use hid_report::{Layout, LayoutWhy, read_layout};
use psd_base::console::Plug;

/// Judges a report descriptor of an interface at this plug.
///
/// One that can't be read is malformed, or beyond a limit. The rules for the others: a keyboard or a mouse
/// without a field that can be used, and a mouse with an X or a Y that isn't relative. At the token's plug
/// none of them holds.
#[tactic(auto, using(crate::proofs::VerdictLaws::named))]
pub fn judge_layout(plug: Plug, bytes: &[u8]) -> Verdict
    requires { length bytes.now < 2 ^ 16 }
    ensures verdict { result ≡ first_that_holds (layout_rules plug bytes.now) }
    ensures first { NamesFirst (layout_rules plug bytes.now) result }
{
    judged(plug, bytes)
}

fn judged(plug: Plug, bytes: &[u8]) -> Verdict
    requires { length bytes.now < 2 ^ 16 }
    ensures { result ≡ first_that_holds (layout_rules plug bytes.now) }
{
    match read_layout(bytes) {
        Err(fault) => judge_refused(fault.why),
        Ok(layout) => judge_read(plug, &layout),
    }
}

/// The verdict on a report descriptor that can't be read.
fn judge_refused(why: LayoutWhy) -> Verdict
    ensures { result ≡ first_that_holds (refused_layout_rules why) }
{
    match why {
        LayoutWhy::Truncated | LayoutWhy::Unbalanced | LayoutWhy::ZeroSize | LayoutWhy::BadId => {
            Verdict::Refused(MALFORMED_REPORT)
        }
        LayoutWhy::Fields
        | LayoutWhy::Usages
        | LayoutWhy::Depth
        | LayoutWhy::Pushes
        | LayoutWhy::Wide
        | LayoutWhy::Long => Verdict::Refused(REPORT_LIMITS),
    }
}

/// The verdict on the layout of a report descriptor.
fn judge_read(plug: Plug, layout: &Layout) -> Verdict
    ensures { result ≡ first_that_holds (read_layout_rules plug layout.now) }
{
    if has_no_field(plug, layout) {
        return Verdict::Refused(NO_FIELD);
    }
    if is_absolute_pointer(plug, layout) {
        return Verdict::Refused(ABSOLUTE_POINTER);
    }
    Verdict::Accepted
}

/// Whether no field can be used at this plug. A token has no reports.
fn has_no_field(plug: Plug, layout: &Layout) -> bool
    ensures { result ≡ has_no_field plug layout.now }
{
    match plug {
        Plug::Keyboard => !layout.has_keys(),
        Plug::Mouse => !layout.has_pointer(),
        Plug::Token => false,
    }
}

/// Whether an X or a Y of a mouse isn't relative.
fn is_absolute_pointer(plug: Plug, layout: &Layout) -> bool
    ensures { result ≡ is_absolute_pointer plug layout.now }
{
    match plug {
        Plug::Mouse => layout.has_absolute(),
        Plug::Keyboard | Plug::Token => false,
    }
}
