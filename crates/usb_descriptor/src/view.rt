//! A configuration that was read, and what it says.

ghost use Rattle.std.specs.Prelude.{◌≡◌, ℕ, ◌<◌, ◌≤◌, ◌∷◌, length, find, slice_get, Some, None, option_copied, IfSome, ◌==◌, if◌then◌else◌};
ghost use Rattle.std.specs.Int.{bit_at};
ghost use Rattle.std.specs.List.{list_any};
ghost use Rattle.usb_descriptor.specs.Endpoint.{in_numbers, out_numbers};
ghost use Rattle.usb_descriptor.specs.Descriptor.{descriptors_of, is_hid, AllWhole};
ghost use Rattle.usb_descriptor.specs.Setting.{Setting, interfaces_of, up_to_interface};

use crate::descriptor::{HID, INTERFACE, begins_interface, split_whole};
use crate::tally::Tally;
use std::marker::Model;

/// An interface, by its descriptor (USB 2.0, section 9.6.5).
#[derive(Clone, Copy, Debug, PartialEq, Eq, Hash)]
pub struct InterfaceDesc {
    /// bInterfaceNumber.
    pub number: u8,
    /// bInterfaceClass.
    pub class: u8,
    /// bInterfaceSubClass.
    pub subclass: u8,
    /// bInterfaceProtocol.
    pub protocol: u8,
}

/// A configuration without a fault. It borrows the bytes that it was read from.
///
/// An interface is an interface descriptor with alternate setting 0. What follows an interface descriptor
/// with another alternate setting, up to the next one, is passed over.
#[derive(Debug, Drop)]
pub struct ConfigView<'a> {
    bytes: &'a [u8],
    interfaces: u8,
    ins: u16,
    outs: u16,
}

impl<'a> Model for ConfigView<'a> {
    ghost use Rattle.std.specs.Prelude.{List, ℕ};
    ghost use Rattle.usb_descriptor.specs.View.{Describes};

    ghost Value = { List ℕ };

    ghost view = { λ v. v.bytes.now };

    ghost invariant = { λ v. Describes v.bytes.now v.interfaces v.ins v.outs };
}

impl<'a> ConfigView<'a> {
    ghost use Rattle.usb_descriptor.specs.Fault.{config_fault};
    ghost use Rattle.usb_descriptor.specs.Tally.{Tallies};
    ghost use Rattle.usb_descriptor.specs.View.{configuration_value, interface_count, interface_at, hid_of, in_set, out_set};

    /// The view of bytes without a fault, whose descriptors the tally took.
    pub(crate) fn new(bytes: &'a [u8], tally: &Tally) -> ConfigView<'a>
        requires faultless { config_fault bytes.now ≡ None }
        requires tally { Tallies (descriptors_of bytes.now) tally.now }
        ensures { result ≡ bytes.now }
    {
        ConfigView {
            bytes,
            interfaces: tally.numbers.as_slice().len() as u8,
            ins: tally.ins,
            outs: tally.outs,
        }
    }

    /// bConfigurationValue (USB 2.0, section 9.6.3).
    pub fn value(&self) -> u8
        ensures { result ≡ configuration_value self.now }
    {
        self.bytes[5]
    }

    /// How many interfaces there are, at most 8.
    pub fn interfaces(&self) -> u8
        ensures count { result ≡ interface_count self.now }
        ensures few { result ≤ 8 }
    {
        self.interfaces
    }

    /// The interface in place `i` of the configuration's order.
    pub fn interface(&self, i: u8) -> InterfaceDesc
        requires { i < interface_count self.now }
        ensures { result ≡ interface_at i self.now }
    {
        let (descriptor, _) = interface_from(self.bytes, i);
        InterfaceDesc {
            number: descriptor[2],
            class: descriptor[5],
            subclass: descriptor[6],
            protocol: descriptor[7],
        }
    }

    /// The first HID descriptor of the interface in place `i`, from its length byte to its last byte. None
    /// exactly where the interface has none.
    pub fn hid(&self, i: u8) -> Option<&[u8]>
        requires { i < interface_count self.now }
        ensures value { option_copied result ≡ hid_of i self.now }
        ensures long { IfSome result (λ hid. 9 ≤ length hid.now) }
    {
        let (_, after) = interface_from(self.bytes, i);
        first_hid(after)
    }

    /// The IN and the OUT endpoints of the interfaces, of bulk or interrupt kind and with a number from 1 to
    /// 15. Bit n stands for endpoint n (USB 2.0, section 9.6.6).
    pub fn endpoints(&self) -> (u16, u16)
        ensures sets { result ≡ (in_set self.now, out_set self.now) }
        ensures ins { (n : ℕ) → bit_at result.0 n
            ≡ (if list_any (λ k. k == n) (in_numbers (descriptors_of self.now)) then 1 else 0) }
        ensures outs { (n : ℕ) → bit_at result.1 n
            ≡ (if list_any (λ k. k == n) (out_numbers (descriptors_of self.now)) then 1 else 0) }
    {
        (self.ins, self.outs)
    }
}

/// The interface descriptor in place `i`, and the bytes after it.
fn interface_from(bytes: &[u8], i: u8) -> (&[u8], &[u8])
    requires whole { AllWhole (descriptors_of bytes.now) }
    requires within { i < length (interfaces_of (descriptors_of bytes.now)) }
    ensures place { slice_get (interfaces_of (descriptors_of bytes.now)) i
        ≡ Some (record { interface = result.0.now; others = up_to_interface (descriptors_of result.1.now) }) }
    ensures long { 9 ≤ length result.0.now }
    ensures whole { AllWhole (descriptors_of result.1.now) }
{
    let mut left = i;
    let mut rest = bytes;
    loop {
        let (descriptor, after) = split_whole(rest);
        rest = after;
        if !begins_interface(descriptor) {
            continue;
        }
        if left == 0 {
            return (descriptor, after);
        }
        left -= 1;
    }
}

/// The first HID descriptor before the next interface descriptor.
fn first_hid(bytes: &[u8]) -> Option<&[u8]>
    requires { AllWhole (descriptors_of bytes.now) }
    ensures value { option_copied result ≡ find is_hid (up_to_interface (descriptors_of bytes.now)) }
    ensures long { IfSome result (λ hid. 9 ≤ length hid.now) }
{
    let mut rest = bytes;
    while !rest.is_empty() {
        let (descriptor, after) = split_whole(rest);
        match descriptor[1] {
            INTERFACE => return None,
            HID => return Some(descriptor),
            _ => rest = after,
        }
    }
    None
}
