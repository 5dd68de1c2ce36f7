//! What the descriptors of a configuration come to, as they are read in turn.

ghost use Rattle.std.specs.Prelude.{◌≡◌, ℕ, ◌%◌, ◌^◌, ◌<◌, ◌≤◌, List, [], ◌∷◌, length, true, IsTrue, slice_index, nat_le, ◌&&◌, if◌then◌else◌, Some, MatchResult, ◌==◌};
ghost use Rattle.std.specs.List.{list_any};
ghost use Rattle.usb_descriptor.specs.declared.descriptor.TheConstants.{CONFIGURATION, INTERFACE, ENDPOINT, HID};
ghost use Rattle.usb_descriptor.specs.Descriptor.{front_of, is_whole, kind_of};
ghost use Rattle.usb_descriptor.specs.Endpoint.{endpoint_number, is_usable};

use crate::descriptor::{CONFIGURATION, ENDPOINT, HID, INTERFACE, begins_interface, split_first};
use crate::fault::DescWhy;
use arrayvec::ArrayVec;

/// The limit of interfaces in a configuration.
const MOST_INTERFACES: usize = 8;
/// The limit of endpoint descriptors in a configuration.
const MOST_ENDPOINTS: u8 = 16;

/// Where the next descriptor belongs.
#[derive(Clone, Copy)]
pub(crate) enum Within {
    /// To the configuration: no interface came yet.
    Configuration,
    /// To an interface.
    Interface,
    /// To an alternate setting of an interface, which isn't counted.
    Alternate,
}

/// What the descriptors so far come to.
#[derive(Drop)]
pub(crate) struct Tally {
    /// The interface numbers, in the configuration's order.
    pub(crate) numbers: ArrayVec<u8, MOST_INTERFACES>,
    /// The number of endpoint descriptors.
    pub(crate) endpoints: u8,
    /// Where the next descriptor belongs.
    pub(crate) within: Within,
    /// The bulk and interrupt IN endpoints: bit n for endpoint n.
    pub(crate) ins: u16,
    /// The bulk and interrupt OUT endpoints: bit n for endpoint n.
    pub(crate) outs: u16,
}

/// The bit of an endpoint in a set of endpoints, if it is a bulk or interrupt endpoint other than 0.
fn endpoint_bit(descriptor: &[u8]) -> u16
    requires { 7 ≤ length descriptor.now }
    ensures { result ≡ (if is_usable descriptor.now then 2 ^ endpoint_number descriptor.now else 0) }
{
    let number = descriptor[2] % 16;
    let transfer = descriptor[3] % 4;
    if transfer >= 2 && number >= 1 {
        1 << number
    } else {
        0
    }
}

impl Tally {
    ghost use Rattle.usb_descriptor.specs.Fault.{fault_of};
    ghost use Rattle.usb_descriptor.specs.Tally.{Tallies, Takes, TakesFirst};

    /// The tally of a configuration descriptor alone.
    pub(crate) fn new() -> Tally
        ensures { (d : List ℕ) → kind_of d ≡ CONFIGURATION → Tallies (d ∷ []) result }
    {
        Tally {
            numbers: ArrayVec::new(),
            endpoints: 0,
            within: Within::Configuration,
            ins: 0,
            outs: 0,
        }
    }

    /// Takes the first descriptor of the bytes and gives the bytes after it, or says what is wrong with it.
    pub(crate) fn add_first<'b>(&mut self, bytes: &'b [u8]) -> Result<&'b [u8], DescWhy>
        requires { 0 < length bytes.now }
        ensures { (ds : List (List ℕ)) → Tallies ds self.old → MatchResult result
            (λ rest. TakesFirst ds bytes.now rest.now self.new)
            (λ why. fault_of ds (front_of bytes.now) ≡ Some why) }
    {
        let Some((descriptor, rest)) = split_first(bytes) else {
            return Err(DescWhy::Length);
        };
        self.add(descriptor)?;
        Ok(rest)
    }

    /// Takes a whole descriptor, or says what is wrong with it.
    fn add(&mut self, descriptor: &[u8]) -> Result<(), DescWhy>
        requires { IsTrue (is_whole descriptor.now) }
        ensures { Takes self.old descriptor.now result self.new }
    {
        match descriptor[1] {
            CONFIGURATION => Err(DescWhy::Order),
            INTERFACE => self.add_interface(descriptor),
            ENDPOINT => self.add_endpoint(descriptor),
            HID => self.add_hid(descriptor),
            _ => Ok(()),
        }
    }

    /// Whether an interface with this number came.
    fn has_number(&self, number: u8) -> bool
        ensures { result ≡ list_any (λ n. n == number) self.now.numbers.items }
    {
        self.numbers.as_slice().contains(&number)
    }

    fn add_interface(&mut self, descriptor: &[u8]) -> Result<(), DescWhy>
        requires whole { IsTrue (is_whole descriptor.now) }
        requires kind { kind_of descriptor.now ≡ INTERFACE }
        ensures { Takes self.old descriptor.now result self.new }
    {
        if !begins_interface(descriptor) {
            self.within = Within::Alternate;
            return Ok(());
        }
        let number = descriptor[2];
        if self.has_number(number) {
            return Err(DescWhy::Order);
        }
        if self.numbers.is_full() {
            return Err(DescWhy::TooMany);
        }
        self.numbers.push(number);
        self.within = Within::Interface;
        Ok(())
    }

    fn add_endpoint(&mut self, descriptor: &[u8]) -> Result<(), DescWhy>
        requires whole { IsTrue (is_whole descriptor.now) }
        requires kind { kind_of descriptor.now ≡ ENDPOINT }
        ensures { Takes self.old descriptor.now result self.new }
    {
        match self.within {
            Within::Configuration => return Err(DescWhy::Order),
            Within::Alternate => return Ok(()),
            Within::Interface => {}
        }
        if self.endpoints >= MOST_ENDPOINTS {
            return Err(DescWhy::TooMany);
        }
        self.endpoints += 1;
        let bit = endpoint_bit(descriptor);
        if descriptor[2] >= 0x80 {
            self.ins |= bit;
        } else {
            self.outs |= bit;
        }
        Ok(())
    }

    fn add_hid(&mut self, descriptor: &[u8]) -> Result<(), DescWhy>
        requires whole { IsTrue (is_whole descriptor.now) }
        requires kind { kind_of descriptor.now ≡ HID }
        ensures { Takes self.old descriptor.now result self.new }
    {
        match self.within {
            Within::Configuration => Err(DescWhy::Order),
            Within::Interface | Within::Alternate => Ok(()),
        }
    }
}
