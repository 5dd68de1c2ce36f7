//! The usages that are read (HID Usage Tables), each with its page in the high half.
ghost use Rattle.std.specs.Prelude.{◌≡◌, ◌||◌};
ghost use Rattle.hid_report.specs.Elements.{is_key, is_rollover, is_button, is_axis, is_wheel};
ghost use Rattle.hid_report.specs.Keys.{press};

use psd_base::KeySet;

/// The first usage of the keyboard page.
pub const KEYBOARD_PAGE: u64 = 0x7_0000;

/// The first usage of the button page.
pub const BUTTON_PAGE: u64 = 0x9_0000;

/// X, Y and the wheel of the generic desktop page.
pub const X: u64 = 0x1_0030;

pub const Y: u64 = 0x1_0031;

pub const WHEEL: u64 = 0x1_0038;

/// Whether a usage is a key that is passed on.
pub fn is_passed_key(usage: u64) -> bool
    ensures { result ≡ is_key usage }
{
    if usage / 65536 != 7 {
        return false;
    }
    let key = usage % 65536;
    (4 <= key && key <= 0xA4) || (0xE0 <= key && key <= 0xE7)
}

pub fn is_rollover_usage(usage: u64) -> bool
    ensures { result ≡ is_rollover usage }
{
    KEYBOARD_PAGE + 1 <= usage && usage <= KEYBOARD_PAGE + 3
}

pub fn is_button_usage(usage: u64) -> bool
    ensures { result ≡ is_button usage }
{
    BUTTON_PAGE + 1 <= usage && usage <= BUTTON_PAGE + 5
}

pub fn is_axis_usage(usage: u64) -> bool
    ensures { result ≡ is_axis usage }
{
    usage == X || usage == Y
}

pub fn is_motion_usage(usage: u64) -> bool
    ensures { result ≡ (is_axis usage || is_wheel usage) }
{
    is_axis_usage(usage) || usage == WHEEL
}

/// Puts a usage into a set where it is a key that is passed on.
pub fn add_key(keys: &mut KeySet, usage: u64)
    ensures { keys.new ≡ press keys.old usage }
{
    if is_passed_key(usage) {
        keys.add((usage % 65536) as u8);
    }
}
