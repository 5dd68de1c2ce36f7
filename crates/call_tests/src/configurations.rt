//! Device and configuration descriptors with their answers: worked rows, each fault at its limit and one beyond, and each
//! call of a view, found by hand from USB 2.0, 9.6 and HID 1.11, 6.2.1.
//!
//! A row is `BYTES => ANSWER`: the fault with its place, or what was read. A configuration's interfaces are `number class
//! subclass protocol hid`, `-` where there is no HID descriptor, and its endpoints are the two numbers of the call. A row
//! with `#` gives the reason for the next ones.
ghost use Rattle.std.specs.Prelude.{◌<◌};
ghost use Rattle.usb_descriptor.specs.View.{interface_count};

use crate::hexadecimal::{hex, push_hex};
use std::alloc::{AllocError, Global};
use std::process::Abort;
use std::test::Fail;
use usb_descriptor::{ConfigView, read_config, read_device};

/// What a device descriptor reads as: class, size of endpoint 0, vendor and product.
const DEVICES: &str = "
120100020000000834120100000100000001 => 0 8 4660 1
1201000209000040cdab1100000100000001 => 9 64 43981 17
# seventeen bytes
1201000200000008341201000001000000 => Short 0
# nineteen bytes
120100020000000834120100000100000001 00 => Short 0
# byte 0 is 11 hexadecimal
1101000200000008341201000001000000 01 => Length 0
# byte 0 is 13 hexadecimal
130100020000000834120100000100000001 => Length 0
# the length is judged before the kind
1102000200000008341201000001000000 01 => Length 0
# byte 1 is 2
120200020000000834120100000100000001 => Kind 1
";

/// What a configuration reads as: its value, its endpoints in and out, and its interfaces.
const VIEWS: &str = "
# a keyboard
09022200010100a032 090400000103010100 092111010001224000 0705810308000a => 1 2 0, 0 3 1 1 092111010001224000
# a token
090220000101008032 09040000020b000000 07058102400000 07050202400000 => 1 2 4, 0 11 0 0 -
# Interface 3 has an alternate setting with a HID descriptor and endpoint 83 of its own, which are passed over. Of the
# endpoints 04, 85, 86, 80 and 0f of interface 5 the second is isochronous, the third is for control and the fourth has the
# number 0.
090271000201008032 090403000103010100 092111010001224000 0705810308000a 090403010103010100 092111010001229900 0705830308000a 090405000103010100 0aff1122334455667788 0705040208000a 0705850108000a 0705860008000a 0705800308000a 07050f0308000a => 1 2 32784, 3 3 1 1 092111010001224000, 5 3 1 1 -
";

/// The fault of a configuration, or `ok`.
const CONFIGURATIONS: &str = "
# a keyboard without its last byte
09022200010100a032 090400000103010100 092111010001224000 070581030800 => Total 2
# eight bytes are too few
0902080000010080 => Short 0
# nine bytes are a configuration without interfaces
090209000101008032 => ok
# the first descriptor is of kind 1
090109000001008032 => Kind 0
# the kind is judged before the length
000109000001008032 => Kind 0
# a configuration descriptor of 8 bytes lacks one
0802090000010080 32 => Length 0
# a length of 0 is below 2
000209000001008032 => Length 0
# the first of 10 bytes runs past the ninth, which is judged before the total
0a020a000001008032 => Length 0
# the total is one more than the bytes
090213000101008032 090400000103010100 => Total 2
# the total is one less than the bytes
090211000101008032 090400000103010100 => Total 2
# the total is the number of bytes
090212000101008032 090400000103010100 => ok
# the total is judged before a length behind it
090213000101008032 0804000001030101 00 => Total 2
# a length of 1 is below 2
09020b000101008032 01ff => Length 9
# a length of 2 is enough for a kind without a meaning
09020b000101008032 02ff => ok
# one byte is left at the end
090213000101008032 090400000103010100 09 => Length 18
# an interface descriptor of 8 bytes lacks one
090211000101008032 0804000001030101 => Length 9
# an interface descriptor of 9 bytes
090212000101008032 090400000103010100 => ok
# an endpoint descriptor of 6 bytes lacks one
090218000101008032 090400000103010100 060581030800 => Length 18
# an endpoint descriptor of 7 bytes
090219000101008032 090400000103010100 0705810308000a => ok
# a HID descriptor of 8 bytes lacks one
09021a000101008032 090400000103010100 0821110100012240 => Length 18
# a HID descriptor of 9 bytes
09021b000101008032 090400000103010100 092111010001224000 => ok
# a descriptor of 5 bytes runs past the four that are left
090216000101008032 090400000103010100 05ff0000 => Length 18
# a descriptor of 4 bytes ends with the bytes
090216000101008032 090400000103010100 04ff0000 => ok
# a length in another alternate setting is judged too
090218000101008032 090400010103010100 060581030800 => Length 18
# an endpoint comes before any interface
090219000101008032 0705810308000a 090400000103010100 => Order 9
# a HID descriptor comes before any interface
09021b000101008032 092111010001224000 090400000103010100 => Order 9
# both come after an alternate setting
090222000101008032 090400010103010100 092111010001224000 0705810308000a => ok
# the length is judged before the order
090218000101008032 060581030800 090400000103010100 => Length 9
# a second configuration descriptor comes
09021b000101008032 090400000103010100 090209000001008032 => Order 18
# interface number 0 comes twice
09021b000101008032 2*090400000103010100 => Order 18
# interface number 0 comes again with another alternate setting
09021b000101008032 090400000103010100 090400010103010100 => ok
# interface number 0 comes first with another alternate setting
09021b000101008032 090400010103010100 090400000103010100 => ok
# interface number 0 comes twice around another alternate setting
090224000101008032 090400000103010100 090400010103010100 090400000103010100 => Order 27
# eight interfaces
090251000101008032 090400000103010100 090401000103010100 090402000103010100 090403000103010100 090404000103010100 090405000103010100 090406000103010100 090407000103010100 => ok
# a ninth interface
09025a000101008032 090400000103010100 090401000103010100 090402000103010100 090403000103010100 090404000103010100 090405000103010100 090406000103010100 090407000103010100 090408000103010100 => TooMany 81
# a number that comes twice is judged before the ninth interface
09025a000101008032 090400000103010100 090401000103010100 090402000103010100 090403000103010100 090404000103010100 090405000103010100 090406000103010100 2*090407000103010100 => Order 81
# a ninth interface descriptor with another alternate setting
09025a000101008032 090400000103010100 090401000103010100 090402000103010100 090403000103010100 090404000103010100 090405000103010100 090406000103010100 090407000103010100 090408010103010100 => ok
# sixteen endpoints
090282000101008032 090400000103010100 16*0705810308000a => ok
# a seventeenth endpoint, by its address one of the others
090289000101008032 090400000103010100 17*0705810308000a => TooMany 130
# a seventeenth endpoint, of isochronous kind
090289000101008032 090400000103010100 16*0705810308000a 0705820108000a => TooMany 130
# a seventeenth endpoint in a second interface
090292000101008032 090400000103010100 16*0705810308000a 090401000103010100 0705810308000a => TooMany 139
# a seventeenth endpoint in another alternate setting
090292000101008032 090400000103010100 16*0705810308000a 090400010103010100 0705810308000a => ok
";

/// Which call a row is for.
#[derive(Clone, Copy)]
enum Call {
    Device,
    Fault,
    View,
}

#[test]
fn devices(rt: HostRuntime) -> Result<(), Fail> {
    check_rows(&rt, rt.alloc(), Call::Device, DEVICES)
}

#[test]
fn views(rt: HostRuntime) -> Result<(), Fail> {
    check_rows(&rt, rt.alloc(), Call::View, VIEWS)
}

#[test]
fn limits(rt: HostRuntime) -> Result<(), Fail> {
    check_rows(&rt, rt.alloc(), Call::Fault, CONFIGURATIONS)
}

fn check_rows(rt: &impl Abort, alloc: Global, call: Call, rows: &str) -> Result<(), Fail> {
    for row in rows.lines() {
        if let Some((question, want)) = row.split_once(" => ") {
            let bytes = hex(alloc, &[], question)?;
            let answer = match call {
                Call::Device => device_text(alloc, bytes.as_slice())?,
                Call::Fault => fault_text(alloc, bytes.as_slice())?,
                Call::View => view_text(alloc, bytes.as_slice())?,
            };
            assert_eq!(rt; answer.as_str(), want, "{question}");
        }
    }
    Ok(())
}

fn device_text(alloc: Global, bytes: &[u8]) -> Result<String, AllocError> {
    match read_device(bytes) {
        Err(fault) => format!(in alloc; "{:?} {}", fault.why, fault.at),
        Ok(device) => format!(in alloc;
            "{} {} {} {}",
            device.class, device.max0, device.vendor, device.product
        ),
    }
}

fn fault_text(alloc: Global, bytes: &[u8]) -> Result<String, AllocError> {
    match read_config(bytes) {
        Err(fault) => format!(in alloc; "{:?} {}", fault.why, fault.at),
        Ok(_) => String::from_str(alloc, "ok"),
    }
}

fn view_text(alloc: Global, bytes: &[u8]) -> Result<String, Fail> {
    let view = read_config(bytes).ok().ok_or("refused")?;
    let (to_host, from_host) = view.endpoints();
    let mut text = format!(in alloc; "{} {to_host} {from_host}", view.value())?;
    for place in 0..view.interfaces() {
        push_interface(alloc, &mut text, &view, place)?;
    }
    Ok(text)
}

fn push_interface(
    alloc: Global,
    text: &mut String,
    view: &ConfigView<'_>,
    place: u8,
) -> Result<(), AllocError>
    requires { place < interface_count view.now }
{
    let of = view.interface(place);
    let words = format!(in alloc;
        ", {} {} {} {} ",
        of.number, of.class, of.subclass, of.protocol
    )?;
    text.push_str(words.as_str())?;
    match view.hid(place) {
        None => text.push_str("-"),
        Some(bytes) => push_hex(alloc, text, bytes),
    }
}
