//! Buttons that lie in a row.
ghost use Rattle.std.specs.Prelude.{◌≡◌, ◌<◌, ◌+◌, ◌^◌};
ghost use Rattle.hid_report.specs.FlagRows.{is_flag, row_of};

use crate::bit_place::BitPlace;
use crate::source::Source;

/// Whether a source is this bit, and counts whether it is 0 or 1.
fn is_flag(source: &Option<Source>, bit: u64) -> bool
    ensures { result ≡ is_flag bit source.now }
{
    match source {
        None => false,
        Some(source) => {
            source.place.bit() == bit
                && source.size.bits() == 1
                && 0 <= source.minimum
                && source.minimum <= 0
                && 1 <= source.maximum
        }
    }
}

/// The place of the first of five flags, if each lies behind the one before.
pub fn row_of(
    first: &Option<Source>,
    second: &Option<Source>,
    third: &Option<Source>,
    fourth: &Option<Source>,
    fifth: &Option<Source>,
) -> Option<BitPlace>
    ensures { result ≡ row_of first.now second.now third.now fourth.now fifth.now }
{
    let place = match first {
        None => return None,
        Some(source) => source.place,
    };
    let bit = place.bit();
    if is_flag(first, bit)
        && is_flag(second, bit + 1)
        && is_flag(third, bit + 2)
        && is_flag(fourth, bit + 3)
        && is_flag(fifth, bit + 4)
    {
        Some(place)
    } else {
        None
    }
}
