//! The boot report of a keyboard (HID 1.11, appendix B.1).
ghost use Rattle.std.specs.Prelude.{◌≡◌, ◌≤◌, if◌then◌else◌};
ghost use Rattle.psd_base.specs.KeySet.{has_key};
ghost use Rattle.emulated_keyboard.specs.Report.{modifiers_of, key_report};

use psd_base::KeySet;

/// The first ordinary key, and the last one.
const FIRST: u8 = 0x04;

const LAST: u8 = 0xa4;

/// The bytes of a report, and the first of those that show an ordinary key.
const SIZE: usize = 8;

const FIRST_PLACE: usize = 2;

/// The report that shows these keys: a bit for each modifier, a zero byte, and six places for the ordinary keys,
/// ascending, filled up with zeros.
pub fn report_of(keys: &KeySet) -> [u8; SIZE]
    ensures { result ≡ key_report keys.now }
{
    let mut report = [0; SIZE];
    report[0] = modifiers_of(keys);
    let mut next = FIRST;
    'places: for place in FIRST_PLACE..SIZE {
        match keys.least_between(next, LAST) {
            Some(usage) => {
                report[place] = usage;
                next = usage + 1;
            }
            None => break,
        }
    }
    report
}

/// A bit for each modifier, that of the left control key first.
fn modifiers_of(keys: &KeySet) -> u8
    ensures { result ≡ modifiers_of keys.now }
{
    bit(keys, 0xe0, 1)
        + bit(keys, 0xe1, 2)
        + bit(keys, 0xe2, 4)
        + bit(keys, 0xe3, 8)
        + bit(keys, 0xe4, 16)
        + bit(keys, 0xe5, 32)
        + bit(keys, 0xe6, 64)
        + bit(keys, 0xe7, 128)
}

/// The bit of a modifier, if it is down.
fn bit(keys: &KeySet, usage: u8, bit: u8) -> u8
    ensures value { result ≡ (if has_key keys.now usage then bit else 0) }
    ensures bounded { result ≤ bit }
{
    if keys.has(usage) { bit } else { 0 }
}
