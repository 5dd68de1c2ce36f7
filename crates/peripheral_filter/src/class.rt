//! The classes of interfaces (USB 2.0, section 9.6.5).
ghost use Rattle.std.specs.Prelude.{◌≡◌};
ghost use Rattle.peripheral_filter.specs.Classes.{classes_of, class_for};

use arrayvec::ArrayVec;
use psd_base::console::Plug;
use usb_descriptor::ConfigView;

/// The class of hubs (USB 2.0, section 11.23.1).
pub(crate) const HUB_CLASS: u8 = 9;
/// The class of keyboards and mice (HID 1.11, section 4.1).
pub(crate) const HID_CLASS: u8 = 3;
/// The class of smart card readers (USB CCID 1.1, interface descriptor).
pub(crate) const SMART_CARD_CLASS: u8 = 0x0b;

/// How many interfaces a configuration has at most.
const INTERFACES_MAX: usize = 8;

/// The class of the interfaces that this plug is for.
pub(crate) fn class_for(plug: Plug) -> u8
    ensures { result ≡ class_for plug }
{
    match plug {
        Plug::Keyboard | Plug::Mouse => HID_CLASS,
        Plug::Token => SMART_CARD_CLASS,
    }
}

/// The classes of a configuration's interfaces, in their order.
#[tactic(auto, using(crate::proofs::ClassLaws::classes_more))]
pub(crate) fn classes_of(config: &ConfigView) -> ArrayVec<u8, INTERFACES_MAX>
    ensures { result.items ≡ classes_of config.now }
{
    let mut classes = ArrayVec::new();
    for i in 0..config.interfaces() {
        classes.push(config.interface(i).class);
    }
    classes
}
