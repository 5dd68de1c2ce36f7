//! One descriptor in a row of them (USB 2.0, section 9.5): it begins with its length and its kind.

ghost use Rattle.std.specs.Prelude.{◌≡◌, ℕ, ◌<◌, ◌≤◌, length, false, IsTrue, MatchOption};
ghost use Rattle.usb_descriptor.specs.Descriptor.{kind_of, front_of, least_length, is_whole, SplitsFirst};
ghost use Rattle.usb_descriptor.specs.Setting.{begins_interface};

/// The kind of a configuration descriptor.
pub(crate) const CONFIGURATION: u8 = 2;
/// The kind of an interface descriptor.
pub(crate) const INTERFACE: u8 = 4;
/// The kind of an endpoint descriptor.
pub(crate) const ENDPOINT: u8 = 5;
/// The kind of a HID descriptor (HID 1.11, section 7.1).
pub(crate) const HID: u8 = 0x21;

/// How many bytes a descriptor of this kind has at least.
fn least_length(kind: u8) -> u8
    ensures { result ≡ least_length kind }
{
    match kind {
        CONFIGURATION | INTERFACE | HID => 9,
        ENDPOINT => 7,
        _ => 2,
    }
}

/// Whether the descriptor begins an interface: an interface descriptor with alternate setting 0 does.
pub(crate) fn begins_interface(descriptor: &[u8]) -> bool
    requires { least_length (kind_of descriptor.now) ≤ length descriptor.now }
    ensures { result ≡ begins_interface descriptor.now }
{
    descriptor[1] == INTERFACE && descriptor[3] == 0
}

/// The first descriptor of the bytes, which is whole, and the bytes after it.
pub(crate) fn split_whole(bytes: &[u8]) -> (&[u8], &[u8])
    requires { IsTrue (is_whole (front_of bytes.now)) }
    ensures { SplitsFirst bytes.now result.0.now result.1.now }
{
    bytes.split_at(usize::from(bytes[0]))
}

/// The first descriptor of the bytes and the bytes after it. None where the descriptor isn't whole.
pub(crate) fn split_first(bytes: &[u8]) -> Option<(&[u8], &[u8])>
    requires { 0 < length bytes.now }
    ensures { MatchOption result (is_whole (front_of bytes.now) ≡ false)
        (λ p. SplitsFirst bytes.now p.0.now p.1.now) }
{
    if bytes.len() < 2 {
        return None;
    }
    if bytes[0] < least_length(bytes[1]) || bytes.len() < usize::from(bytes[0]) {
        return None;
    }
    Some(split_whole(bytes))
}
