//! Devices, configurations, interfaces and report descriptors with their verdicts, found by hand from the
//! order of the rules.
//!
//! A verdict is `ok`, `F` with the number of a fixed rule, `D` with the place of a deny entry, or `A` where
//! no allow entry matches. Bytes are hexadecimal, `17*a101` is 17 times a101, and a name with `@` stands for
//! bytes given below. A row with `#` gives the reason for the next ones.
use crate::hexadecimal::hex;
use arrayvec::ArrayVec;
use peripheral_filter::{
    RULES_MAX, Rule, RuleSet, Verdict, judge_config, judge_device, judge_interface, judge_layout,
};
use psd_base::console::{Plug, RuleName};
use std::alloc::{AllocError, Global};
use std::process::Abort;
use std::test::Fail;
use usb_descriptor::{read_config, read_device};

/// The bytes with a name.
const NAMES: [(&str, &str); 7] = [
    ("@keyboard", KEYBOARD),
    ("@hub", HUB),
    ("@token", TOKEN),
    ("@keyboard-config", KEYBOARD_CONFIG),
    ("@token-config", TOKEN_CONFIG),
    ("@keys", KEYS),
    ("@pointer", POINTER),
];

/// A keyboard of vendor 1234 and product 1, hexadecimal.
const KEYBOARD: &str = "120100020000000834120100000100000001";

/// A hub of this vendor.
const HUB: &str = "120100020900004034120900000100000001";

/// A token of this vendor and product 3.
const TOKEN: &str = "120100020000000834120300000100000001";

/// The configuration of the keyboard: one interface of class HID.
const KEYBOARD_CONFIG: &str =
    "09022200010100a032 090400000103010100 092111010001224000 0705810308000a";

/// The configuration of the token: one interface of class smart card.
const TOKEN_CONFIG: &str = "090220000101008032 09040000020b000000 07058102400000 07050202400000";

/// A report descriptor of 8 modifiers, 5 lamps and 6 keys.
const KEYS: &str =
    "05010906a101050719e029e71500250175019508810295017508810195057501050819012905910295017503910195067508150026a4000507190029a48100c0";

/// A report descriptor of 5 buttons and relative X, Y and wheel.
const POINTER: &str =
    "05010902a1010901a1000509190129051500250195057501810295017503810105010930093109381581257f750895038106c0c0";

/// Rows DEVICE => VERDICT, and DEVICE | BEFORE => VERDICT.
const DEVICES: &str = "
@keyboard => ok
@hub => F2
# 17 bytes, 19 bytes, another length byte, another kind
1201000200000008341201000001000000 => F1
@keyboard 00 => F1
110100020000000834120100000100000001 => F1
120200020000000834120100000100000001 => F1
 => F1
# sizes of endpoint 0
120100020000001034120100000100000001 => ok
120100020000002034120100000100000001 => ok
120100020000004034120100000100000001 => ok
120100020000000034120100000100000001 => F3
120100020000000734120100000100000001 => F3
120100020000000934120100000100000001 => F3
120100020000008034120100000100000001 => F3
# a hub is named before the size of its endpoint 0
120100020900000034120900000100000001 => F2
# bytes of an earlier life: the same, others, fewer, none
@keyboard | @keyboard => ok
@keyboard | @token => F9
@keyboard | 12010002 => F9
@keyboard |  => F9
# a change is judged last
@hub | @keyboard => F2
120100020000000734120100000100000001 | @keyboard => F3
1201 | @keyboard => F1
";

/// Rows PLUG | ALLOW | DENY | DEVICE | CONFIGURATION => VERDICT, with | BEFORE after the configuration. An
/// entry is its parts with commas between them, `any` has none, and `-` is a list without entries.
const CONFIGURATIONS: &str = "
keyboard | - | - | @keyboard | @keyboard-config => ok
mouse | - | - | @keyboard | @keyboard-config => ok
token | - | - | @token | @token-config => ok
# no interface for the plug
token | - | - | @keyboard | @keyboard-config => F4
keyboard | - | - | @token | @token-config => F4
mouse | - | - | @token | @token-config => F4
keyboard | - | - | @keyboard | 090209000001008032 => F4
token | - | - | @token | 090209000001008032 => F4
# class HID beside smart card: enough for a keyboard, too much for a token
keyboard | - | - | @keyboard | 09021b000201008032 09040000000b000000 090401000003010100 => ok
token | - | - | @token | 09021b000201008032 09040000000b000000 090401000003010100 => F4
# a class of another alternate setting isn't looked at
keyboard | - | - | @keyboard | 09021b000101008032 090400000003010100 090400010009000000 => ok
keyboard | - | - | @keyboard | 09021b000101008032 090400000009000000 090400010003010100 => F2
# a hub's interface behind one of class HID, and alone
keyboard | - | - | @keyboard | 09021b000201008032 090400000003010100 090401000009000000 => F2
token | - | - | @token | 090212000101008032 090400000009000000 => F2
# a configuration that can't be read: the total is wrong, and there is a hub's interface
keyboard | - | any | @keyboard | 090223000101008032 090400000103010100 => F1
keyboard | - | - | @keyboard | 090213000101008032 090400000009000000 => F1
# nine interfaces, and hubs among them
keyboard | - | any | @keyboard | 09025a000901008032 090400000003000000 090401000003000000 090402000003000000 090403000003000000 090404000003000000 090405000003000000 090406000003000000 090407000003000000 090408000003000000 => F3
keyboard | - | - | @keyboard | 09025a000901008032 090400000009000000 090401000009000000 090402000009000000 090403000009000000 090404000009000000 090405000009000000 090406000009000000 090407000009000000 090408000009000000 | 00 => F3
# bytes of an earlier life
keyboard | - | - | @keyboard | @keyboard-config | 09 => F9
keyboard | - | - | @keyboard | @keyboard-config | @keyboard-config => ok
keyboard | - | any | @keyboard | @keyboard-config | @token-config => F9
token | - | - | @keyboard | @keyboard-config | @token-config => F4
# the deny list names its first entry that matches
keyboard | - | class=9 vendor=4660 | @keyboard | @keyboard-config => D2
keyboard | - | class=9 vendor=4660 any | @keyboard | @keyboard-config => D2
keyboard | - | 63*class=9 vendor=4660 | @keyboard | @keyboard-config => D64
keyboard | - | any | @keyboard | @keyboard-config => D1
token | - | any | @keyboard | @keyboard-config => F4
# each part of an entry has to agree
keyboard | - | plug=keyboard,vendor=4660,product=1,class=3 | @keyboard | @keyboard-config => D1
keyboard | - | plug=mouse,vendor=4660,product=1,class=3 | @keyboard | @keyboard-config => ok
keyboard | - | plug=keyboard,vendor=4661,product=1,class=3 | @keyboard | @keyboard-config => ok
keyboard | - | plug=keyboard,vendor=4660,product=2,class=3 | @keyboard | @keyboard-config => ok
keyboard | - | plug=keyboard,vendor=4660,product=1,class=0 | @keyboard | @keyboard-config => ok
mouse | - | plug=token plug=mouse | @keyboard | @keyboard-config => D2
token | - | plug=keyboard plug=mouse plug=token | @token | @token-config => D3
# the class is that of an interface, the second one too, and not that of the device
token | - | class=3 | 120100020300000834120300000100000001 | @token-config => ok
keyboard | - | class=11 | @keyboard | 09021b000201008032 090400000003010100 09040100000b000000 => D1
# the allow list
keyboard | plug=mouse | - | @keyboard | @keyboard-config => A
keyboard | plug=mouse vendor=4660 | - | @keyboard | @keyboard-config => ok
keyboard | any | - | @keyboard | @keyboard-config => ok
# the deny list comes first
keyboard | plug=mouse | vendor=4660 | @keyboard | @keyboard-config => D1
keyboard | vendor=4660 | vendor=4660 | @keyboard | @keyboard-config => D1
keyboard | vendor=1 | vendor=2 | @keyboard | @keyboard-config => A
";

/// Rows PLUG | CONFIGURATION | PLACE => VERDICT.
const INTERFACES: &str = "
keyboard | @keyboard-config | 0 => ok
mouse | @keyboard-config | 0 => ok
token | @keyboard-config | 0 => F4
token | @token-config | 0 => ok
keyboard | @token-config | 0 => F4
mouse | @token-config | 0 => F4
keyboard | 09021b000201008032 09040000000b000000 090401000003010100 | 0 => F4
keyboard | 09021b000201008032 09040000000b000000 090401000003010100 | 1 => ok
";

/// Rows PLUG | DESCRIPTOR => VERDICT.
const LAYOUTS: &str = "
keyboard | @keys => ok
mouse | @pointer => ok
mouse | @keys => F7
keyboard | @pointer => F7
token | @keys => ok
token | @pointer => ok
# no item
keyboard |  => F7
mouse |  => F7
token |  => ok
# a cut item, an end without a beginning, a size of 0, a report ID of 0; at the token's plug too
keyboard | 05 => F5
keyboard | c0 => F5
keyboard | 9501 8102 => F5
keyboard | 8500 => F5
token | 05 => F5
# 65 fields, 33 usages, 17 collections, 5 pushes, 33 bits a field, 544 bits a report; at the token's plug too
mouse | 7501 9501 65*8102 => F6
mouse | 33*0901 => F6
mouse | 17*a101 => F6
mouse | 5*a4 => F6
mouse | 7521 9501 8102 => F6
mouse | 7520 9511 8102 => F6
token | 5*a4 => F6
# absolute X and Y beside buttons, and without them
mouse | 0509 1901 2908 15002501 7501 9508 8102 0501 0930 0931 26ff00 7508 9502 8102 => F10
mouse | 0501 0930 0931 1500 26ff00 7508 9502 8102 => F7
# absolute X beside relative Y, and beside keys
mouse | 0501 0930 1581 257f 7508 9501 8102 0931 8106 => F10
keyboard | 0507 0904 15002501 7501 9501 8102 0501 0930 1581 257f 7508 9501 8102 => ok
token | 0501 0930 1581 257f 7508 9501 8102 0931 8106 => ok
# a relative Y alone
mouse | 0501 0931 1581 257f 7508 9501 8106 => ok
";

#[test]
fn devices(rt: HostRuntime) -> Result<(), Fail> {
    check_rows(&rt, rt.alloc(), Step::Device, DEVICES)
}

#[test]
fn configurations(rt: HostRuntime) -> Result<(), Fail> {
    check_rows(&rt, rt.alloc(), Step::Config, CONFIGURATIONS)
}

#[test]
fn interfaces(rt: HostRuntime) -> Result<(), Fail> {
    check_rows(&rt, rt.alloc(), Step::Interface, INTERFACES)
}

#[test]
fn layouts(rt: HostRuntime) -> Result<(), Fail> {
    check_rows(&rt, rt.alloc(), Step::Layout, LAYOUTS)
}

/// Which call a row is for.
#[derive(Clone, Copy)]
enum Step {
    Device,
    Config,
    Interface,
    Layout,
}

fn check_rows(rt: &impl Abort, alloc: Global, step: Step, rows: &str) -> Result<(), Fail> {
    for row in rows.lines() {
        if let Some((question, want)) = row.split_once(" => ") {
            let verdict = judged(alloc, step, question)?;
            let answer = verdict_text(alloc, verdict)?;
            assert_eq!(rt; answer.as_str(), want, "{question}");
        }
    }
    Ok(())
}

/// A verdict as a row has it.
fn verdict_text(alloc: Global, verdict: Verdict) -> Result<String, AllocError> {
    match verdict {
        Verdict::Accepted => String::from_str(alloc, "ok"),
        Verdict::Refused(RuleName::Fixed(number)) => format!(in alloc; "F{number}"),
        Verdict::Refused(RuleName::Deny(place)) => format!(in alloc; "D{place}"),
        Verdict::Refused(RuleName::NotAllowed) => String::from_str(alloc, "A"),
    }
}

fn judged(alloc: Global, step: Step, question: &str) -> Result<Verdict, Fail> {
    match step {
        Step::Device => judged_device(alloc, question),
        Step::Config => judged_config(alloc, question),
        Step::Interface => judged_interface(alloc, question),
        Step::Layout => judged_layout(alloc, question),
    }
}

fn judged_device(alloc: Global, question: &str) -> Result<Verdict, Fail> {
    match question.split_once(" | ") {
        None => {
            let bytes = hex(alloc, &NAMES, question)?;
            Ok(judge_device(bytes.as_slice(), None))
        }
        Some((reply, before)) => {
            let bytes = hex(alloc, &NAMES, reply)?;
            let before = hex(alloc, &NAMES, before)?;
            Ok(judge_device(bytes.as_slice(), Some(before.as_slice())))
        }
    }
}

fn judged_config(alloc: Global, question: &str) -> Result<Verdict, Fail> {
    let (plug, question) = question.split_once(" | ").ok_or("no plug")?;
    let (allow, question) = question.split_once(" | ").ok_or("no allow list")?;
    let (deny, question) = question.split_once(" | ").ok_or("no deny list")?;
    let (device, question) = question.split_once(" | ").ok_or("no device")?;
    let plug = plug_of(plug)?;
    let rules = RuleSet {
        allow: entries(allow)?,
        deny: entries(deny)?,
    };
    let device = read_device(hex(alloc, &NAMES, device)?.as_slice())?;
    match question.split_once(" | ") {
        None => {
            let bytes = hex(alloc, &NAMES, question)?;
            Ok(judge_config(plug, &rules, &device, bytes.as_slice(), None))
        }
        Some((reply, before)) => {
            let bytes = hex(alloc, &NAMES, reply)?;
            let before = hex(alloc, &NAMES, before)?;
            let before = Some(before.as_slice());
            Ok(judge_config(plug, &rules, &device, bytes.as_slice(), before))
        }
    }
}

fn judged_interface(alloc: Global, question: &str) -> Result<Verdict, Fail> {
    let (plug, question) = question.split_once(" | ").ok_or("no plug")?;
    let (config, place) = question.split_once(" | ").ok_or("no place")?;
    let bytes = hex(alloc, &NAMES, config)?;
    let config = read_config(bytes.as_slice()).ok().ok_or("refused")?;
    let place: u8 = place.parse()?;
    if place < config.interfaces() {
        Ok(judge_interface(plug_of(plug)?, &config, place))
    } else {
        Err("no such interface".into())
    }
}

fn judged_layout(alloc: Global, question: &str) -> Result<Verdict, Fail> {
    let (plug, descriptor) = question.split_once(" | ").ok_or("no plug")?;
    let bytes = hex(alloc, &NAMES, descriptor)?;
    if bytes.len() < 65536 {
        Ok(judge_layout(plug_of(plug)?, bytes.as_slice()))
    } else {
        Err("too long".into())
    }
}

fn plug_of(word: &str) -> Result<Plug, Fail> {
    match word {
        "keyboard" => Ok(Plug::Keyboard),
        "mouse" => Ok(Plug::Mouse),
        "token" => Ok(Plug::Token),
        _ => Err("no such plug".into()),
    }
}

/// The entries of a list, some of them repeated.
fn entries(text: &str) -> Result<ArrayVec<Rule, RULES_MAX>, Fail> {
    let mut rules = ArrayVec::new();
    if text == "-" {
        return Ok(rules);
    }
    for word in text.split_whitespace() {
        let (times, parts) = word.split_once('*').unwrap_or(("1", word));
        let times: u8 = times.parse()?;
        let rule = entry(parts)?;
        for _ in 0..times {
            rules.try_push(rule)?;
        }
    }
    Ok(rules)
}

fn entry(text: &str) -> Result<Rule, Fail> {
    let mut rule = Rule::default();
    for part in text.split(',') {
        if let Some((key, value)) = part.split_once('=') {
            match key {
                "plug" => rule.plug = Some(plug_of(value)?),
                "vendor" => rule.vendor = Some(value.parse()?),
                "product" => rule.product = Some(value.parse()?),
                "class" => rule.class = Some(value.parse()?),
                _ => return Err("no such part".into()),
            }
        }
    }
    Ok(rule)
}
