//! The accepted interfaces.
ghost use Rattle.std.specs.Prelude.{◌≡◌, ◌<◌, length, option_copied, IfSome};
ghost use Rattle.console_host.specs.Lives.{layout_in, place_in};

use hid_report::Layout;

/// An accepted interface of a keyboard or a mouse.
#[derive(Default, Drop)]
pub struct Interface {
    /// bInterfaceNumber (USB 2.0, section 9.6.5).
    pub number: u8,
    /// The layout of its reports.
    pub layout: Option<Layout>,
}

/// The place of the first interface of this number.
pub fn place_of(interfaces: &[Interface], number: u8) -> Option<usize>
    ensures place { result ≡ place_in number interfaces.now }
    ensures within { IfSome result (λ place. place < length interfaces.now) }
{
    interfaces
        .iter()
        .position(|interface| interface.number == number)
}

/// The layout of the first interface of this number.
pub fn layout_of(interfaces: &[Interface], number: u8) -> Option<&Layout>
    ensures { option_copied result ≡ layout_in number interfaces.now }
{
    for interface in interfaces {
        if interface.number == number {
            return interface.layout.as_ref();
        }
    }
    None
}
