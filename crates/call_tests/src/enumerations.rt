//! Enumerations at the console, call by call, found by hand from USB 2.0, chapter 9, HID 1.11, section 7 and the order of the
//! rules.
//!
//! A row is `CALL => ANSWER`, and a row `PLUG`, `PLUG deny VENDOR` or `PLUG allow VENDOR` begins a new attachment. `serve N
//! DEVICE | CONFIGURATION` begins life 1 at tick 0 and serves its orders up to N; its answer is that to order N. The other calls
//! are `begin LIFE TICK`, `reply LIFE NUMBER TICK STATUS BYTES`, `clock TICK`, `drop`, `detach`, `accepted INTERFACE`, `bytes`
//! and `shape`. The answer to a reply is what comes next, and then the lines of the log that it brings. Bytes are hexadecimal, and
//! a name with `@` stands for bytes given below. A row with `#` gives the reason for the next ones.
use crate::hexadecimal::{hex, push_hex};
use arrayvec::ArrayVec;
use console_host::{Attachment, Next};
use peripheral_filter::{RULES_MAX, Rule, RuleSet};
use psd_base::console::{Note, Notes, Order, Plug, RuleName};
use std::alloc::{AllocError, Global};
use std::test::Fail;

/// The bytes with a name.
const NAMES: [(&str, &str); 21] = [
    ("@keyboard", "120100020000000834120100000100000001"),
    ("@hub", "120100020900004034120900000100000001"),
    ("@mouse", "120100020000000834120200000100000001"),
    ("@token", "120100020000000834120300000100000001"),
    ("@other-token", "120100020000000834120400000100000001"),
    ("@keyboard-config", KEYBOARD_CONFIG),
    ("@everyday-config", EVERYDAY_CONFIG),
    ("@mouse-config", MOUSE_CONFIG),
    ("@token-config", TOKEN_CONFIG),
    ("@gap-config", GAP_CONFIG),
    ("@eight-config", EIGHT_CONFIG),
    ("@mixed-config", MIXED_CONFIG),
    ("@two-config", TWO_CONFIG),
    ("@none-config", NONE_CONFIG),
    ("@hid-0", HID_0),
    ("@hid-1024", HID_1024),
    ("@hid-1025", HID_1025),
    ("@keys", KEYS),
    ("@consumer", CONSUMER),
    ("@pointer", POINTER),
    ("@absolute", ABSOLUTE),
];

/// One interface of class HID.
const KEYBOARD_CONFIG: &str =
    "09022200010100a032 090400000103010100 092111010001224000 0705810308000a";

/// A key interface and one for consumer keys.
const EVERYDAY_CONFIG: &str =
    "09023b00020100a032 090400000103010100 092111010001224000 0705810308000a 090401000103000000 092111010001221900 0705820304000a";

const MOUSE_CONFIG: &str =
    "09022200010100a032 090400000103010200 092111010001223400 0705810304000a";

const TOKEN_CONFIG: &str = "090220000101008032 09040000020b000000 07058102400000 07050202400000";

/// Three interfaces of class HID, the second without a HID descriptor.
const GAP_CONFIG: &str =
    "09023600030100a032 090400000103010100 092111010001224000 090401000103000000 090402000103010100 092111010001224000";

/// Eight interfaces of class HID.
const EIGHT_CONFIG: &str =
    "09029900080100a032 090400000103010100 092111010001224000 090401000103010100 092111010001224000 090402000103010100 092111010001224000 090403000103010100 092111010001224000 090404000103010100 092111010001224000 090405000103010100 092111010001224000 090406000103010100 092111010001224000 090407000103010100 092111010001224000";

/// An interface of class mass storage before one of class HID.
const MIXED_CONFIG: &str =
    "09022400020100a032 090400000008065000 090401000103010100 092111010001224000";

/// Two interfaces of class HID, of which the first has a report descriptor of 25 bytes.
const TWO_CONFIG: &str =
    "09022d00020100a032 090400000103000000 092111010001221900 090401000103010100 092111010001224000";

/// A configuration without interfaces.
const NONE_CONFIG: &str = "090209000001008032";

/// A report descriptor of 0, of 1,024 and of 1,025 bytes.
const HID_0: &str = "09021b00010100a032 090400000103010100 092111010001220000";

const HID_1024: &str = "09021b00010100a032 090400000103010100 092111010001220004";

const HID_1025: &str = "09021b00010100a032 090400000103010100 092111010001220104";

/// A report descriptor of 8 modifiers, 5 lamps and 6 keys.
const KEYS: &str =
    "05010906a101050719e029e71500250175019508810295017508810195057501050819012905910295017503910195067508150026a4000507190029a48100c0";

/// A report descriptor of consumer keys.
const CONSUMER: &str = "050c0901a101850119002a3c021500263c02950175108100c0";

/// A report descriptor of 5 buttons and relative X, Y and wheel.
const POINTER: &str =
    "05010902a1010901a1000509190129051500250195057501810295017503810105010930093109381581257f750895038106c0c0";

/// The same with X, Y and wheel that aren't relative.
const ABSOLUTE: &str =
    "05010902a1010901a1000509190129051500250195057501810295017503810105010930093109381581257f750895038102c0c0";

/// The calls with their answers.
const CALLS: &str = "
# a keyboard, each order
keyboard
begin 1 0 => ask 1 1 8006000100001200
reply 1 1 0 0 @keyboard => ask 1 2 0005010000000000
reply 1 2 0 0 => ask 1 3 8006000200000900
reply 1 3 0 0 09022200010100a032 => ask 1 4 8006000200002200
reply 1 4 0 0 @keyboard-config => ask 1 5 0009010000000000
shape => -
bytes => -
reply 1 5 0 0 => ask 1 6 8106002200004000
accepted 0 => no
reply 1 6 0 0 @keys => ready, interface 0 ok, ok
accepted 0 => keys
accepted 1 => no
shape => 1 8 2 0
bytes => @keyboard @keyboard-config
# it is ready, so a further reply and a tick change nothing
reply 1 6 0 0 @keys => ignored
clock 9000 => fine
shape => 1 8 2 0
# a life that is dropped has no interfaces; what was accepted is kept up to the detachment
drop => done
accepted 0 => no
shape => -
bytes => @keyboard @keyboard-config
reply 1 6 0 0 @keys => ignored
detach => done
bytes => -

# the same device at the mouse's plug has no field for it
mouse
serve 5 @keyboard | @keyboard-config => ask 1 6 8106002200004000
reply 1 6 0 0 @keys => refused F7, interface 0 F7, F7
reply 1 6 0 0 @keys => ignored
accepted 0 => no
shape => -
bytes => -

# a mouse, and one with an absolute pointer
mouse
serve 5 @mouse | @mouse-config => ask 1 6 8106002200003400
reply 1 6 0 0 @pointer => ready, interface 0 ok, ok
accepted 0 => pointer
mouse
serve 5 @mouse | @mouse-config => ask 1 6 8106002200003400
reply 1 6 0 0 @absolute => refused F10, interface 0 F10, F10

# two interfaces, of which the second gives no keys
keyboard
serve 5 @keyboard | @everyday-config => ask 1 6 8106002200004000
reply 1 6 0 0 @keys => ask 1 7 8106002201001900, interface 0 ok
reply 1 7 0 0 @consumer => ready, interface 1 F7, ok
accepted 1 => no
shape => 1 8 6 0

# a hub, by its device descriptor; other device descriptors that are none
keyboard
serve 1 @hub | - => refused F2, F2
keyboard
begin 1 0 => ask 1 1 8006000100001200
reply 1 1 0 0 1201000200000008341201000001000000 => refused F1, F1
keyboard
begin 1 0 => ask 1 1 8006000100001200
reply 1 1 0 0 @keyboard 00 => refused F1, F1
# endpoint 0 has 9 bytes
keyboard
begin 1 0 => ask 1 1 8006000100001200
reply 1 1 0 0 120100020000000934120100000100000001 => refused F3, F3

# the lists
keyboard deny 4660
serve 3 @keyboard | @keyboard-config => ask 1 4 8006000200002200
reply 1 4 0 0 @keyboard-config => refused D1, D1
keyboard deny 4661
serve 4 @keyboard | @keyboard-config => ask 1 5 0009010000000000
keyboard allow 4661
serve 3 @keyboard | @keyboard-config => ask 1 4 8006000200002200
reply 1 4 0 0 @keyboard-config => refused A, A
# a hub is one before the lists are asked
keyboard deny 4660
serve 1 @hub | - => refused F2, F2

# a stall at each order
keyboard
begin 1 0 => ask 1 1 8006000100001200
reply 1 1 0 1 => refused F8, F8
keyboard
serve 1 @keyboard | - => ask 1 2 0005010000000000
reply 1 2 0 1 => refused F8, F8
keyboard
serve 2 @keyboard | - => ask 1 3 8006000200000900
reply 1 3 0 1 09022200010100a032 => refused F8, F8
keyboard
serve 3 @keyboard | @keyboard-config => ask 1 4 8006000200002200
reply 1 4 0 1 @keyboard-config => refused F8, F8
keyboard
serve 4 @keyboard | @keyboard-config => ask 1 5 0009010000000000
reply 1 5 0 1 => refused F8, F8
# at a report descriptor it refuses the interface
keyboard
serve 5 @keyboard | @keyboard-config => ask 1 6 8106002200004000
reply 1 6 0 1 @keys => refused F8, interface 0 F8, F8
keyboard
serve 5 @keyboard | @everyday-config => ask 1 6 8106002200004000
reply 1 6 0 0 @keys => ask 1 7 8106002201001900, interface 0 ok
reply 1 7 0 1 => ready, interface 1 F8, ok

# a failure, and a peripheral that isn't ready, refuse the device at each order
keyboard
begin 1 0 => ask 1 1 8006000100001200
reply 1 1 0 2 @keyboard => refused F11, F11
keyboard
serve 1 @keyboard | - => ask 1 2 0005010000000000
reply 1 2 0 3 => refused F11, F11
keyboard
serve 2 @keyboard | - => ask 1 3 8006000200000900
reply 1 3 0 2 => refused F11, F11
keyboard
serve 3 @keyboard | @keyboard-config => ask 1 4 8006000200002200
reply 1 4 0 3 => refused F11, F11
keyboard
serve 4 @keyboard | @keyboard-config => ask 1 5 0009010000000000
reply 1 5 0 2 => refused F11, F11
# an interface that was accepted before keeps its line, and the asked one has none
keyboard
serve 5 @keyboard | @everyday-config => ask 1 6 8106002200004000
reply 1 6 0 0 @keys => ask 1 7 8106002201001900, interface 0 ok
reply 1 7 0 3 @consumer => refused F11, F11
accepted 0 => keys
shape => -
drop => done
accepted 0 => no

# the head of a configuration: too short, too long, of another kind, with a total below its length
keyboard
serve 2 @keyboard | - => ask 1 3 8006000200000900
reply 1 3 0 0 09022200010100a0 => refused F1, F1
keyboard
serve 2 @keyboard | - => ask 1 3 8006000200000900
reply 1 3 0 0 09022200010100a03209 => refused F1, F1
keyboard
serve 2 @keyboard | - => ask 1 3 8006000200000900
reply 1 3 0 0 09072200010100a032 => refused F1, F1
keyboard
serve 2 @keyboard | - => ask 1 3 8006000200000900
reply 1 3 0 0 09020800010100a032 => refused F1, F1
# a total of 9, of 1,024 and of 1,025 bytes
keyboard
serve 2 @keyboard | - => ask 1 3 8006000200000900
reply 1 3 0 0 09020900010100a032 => ask 1 4 8006000200000900
keyboard
serve 2 @keyboard | - => ask 1 3 8006000200000900
reply 1 3 0 0 09020004010100a032 => ask 1 4 8006000200000004
keyboard
serve 2 @keyboard | - => ask 1 3 8006000200000900
reply 1 3 0 0 09020104010100a032 => refused F3, F3

# a configuration that is a byte short, and one that is a byte long
keyboard
serve 3 @keyboard | @keyboard-config => ask 1 4 8006000200002200
reply 1 4 0 0 09022200010100a032 090400000103010100 092111010001224000 070581030800 => refused F1, F1
keyboard
serve 3 @keyboard | @keyboard-config => ask 1 4 8006000200002200
reply 1 4 0 0 @keyboard-config 00 => refused F1, F1
# its own total is another than the head's
keyboard
serve 3 @keyboard | @keyboard-config => ask 1 4 8006000200002200
reply 1 4 0 0 09022300010100a032 090400000103010100 092111010001224000 0705810308000a => refused F1, F1

# replies of another life and another number, early and late ones
keyboard
reply 1 1 0 0 @keyboard => ignored
begin 2 0 => ask 2 1 8006000100001200
reply 1 1 0 0 @keyboard => ignored
reply 3 1 0 0 @keyboard => ignored
reply 2 0 0 0 @keyboard => ignored
reply 2 2 0 0 => ignored
reply 2 1 0 0 @keyboard => ask 2 2 0005010000000000
reply 2 1 0 0 @keyboard => ignored
reply 2 1 0 1 => ignored
reply 2 2 0 0 => ask 2 3 8006000200000900
# a new life is numbered from 1, and the old one's replies are none to it
begin 3 10 => ask 3 1 8006000100001200
reply 2 3 10 0 09022200010100a032 => ignored
reply 3 1 10 0 @keyboard => ask 3 2 0005010000000000

# silence
mouse
begin 1 0 => ask 1 1 8006000100001200
clock 1999 => fine
clock 2000 => silent
clock 4000 => fine
reply 1 1 4000 0 @mouse => ignored
begin 2 5000 => ask 2 1 8006000100001200
clock 6999 => fine
reply 2 1 6999 0 @mouse => ask 2 2 0005010000000000
clock 8998 => fine
# a reply that is ignored doesn't begin the time anew
reply 2 1 8998 0 @mouse => ignored
clock 8999 => silent
reply 2 2 8999 0 => ignored

# an interface that is refused without an order between two that are accepted
keyboard
serve 5 @keyboard | @gap-config => ask 1 6 8106002200004000
reply 1 6 0 0 @keys => ask 1 7 8106002202004000, interface 0 ok, interface 1 F5
reply 1 7 0 0 @keys => ready, interface 2 ok, ok
accepted 0 => keys
accepted 1 => no
accepted 2 => keys

# an interface that isn't one of class HID has its line with the configuration
keyboard
serve 3 @keyboard | @mixed-config => ask 1 4 8006000200002400
reply 1 4 0 0 @mixed-config => ask 1 5 0009010000000000, interface 0 F4
reply 1 5 0 0 => ask 1 6 8106002201004000
reply 1 6 0 0 @keys => ready, interface 1 ok, ok
# but not where the device is refused
keyboard deny 4660
serve 3 @keyboard | @mixed-config => ask 1 4 8006000200002400
reply 1 4 0 0 @mixed-config => refused D1, D1

# without an accepted interface the least rule refuses the device
keyboard
serve 5 @keyboard | @two-config => ask 1 6 8106002200001900
reply 1 6 0 0 @consumer => ask 1 7 8106002201004000, interface 0 F7
reply 1 7 0 0 => refused F5, interface 1 F5, F5
keyboard
serve 5 @keyboard | @two-config => ask 1 6 8106002200001900
reply 1 6 0 1 => ask 1 7 8106002201004000, interface 0 F8
reply 1 7 0 1 => refused F8, interface 1 F8, F8

# a report descriptor that is a byte long, one with a fault, and ones beyond a limit
keyboard
serve 5 @keyboard | @two-config => ask 1 6 8106002200001900
reply 1 6 0 0 @consumer 00 => ask 1 7 8106002201004000, interface 0 F5
reply 1 7 0 0 @keys => ready, interface 1 ok, ok
keyboard
serve 5 @keyboard | @two-config => ask 1 6 8106002200001900
reply 1 6 0 0 25*c0 => ask 1 7 8106002201004000, interface 0 F5
reply 1 7 0 0 64*a4 => refused F5, interface 1 F6, F5
keyboard
serve 5 @keyboard | @keyboard-config => ask 1 6 8106002200004000
reply 1 6 0 0 32*a100 => refused F6, interface 0 F6, F6

# a report descriptor of no bytes
keyboard
serve 5 @keyboard | @hid-0 => ask 1 6 8106002200000000
reply 1 6 0 0 => refused F7, interface 0 F7, F7
keyboard
serve 5 @keyboard | @hid-0 => ask 1 6 8106002200000000
reply 1 6 0 0 00 => refused F5, interface 0 F5, F5
# of 1,024 bytes, and of more than that, which isn't asked for
keyboard
serve 5 @keyboard | @hid-1024 => ask 1 6 8106002200000004
keyboard
serve 4 @keyboard | @hid-1025 => ask 1 5 0009010000000000
reply 1 5 0 0 => refused F6, interface 0 F6, F6

# eight interfaces
keyboard
serve 5 @keyboard | @eight-config => ask 1 6 8106002200004000
reply 1 6 0 0 @keys => ask 1 7 8106002201004000, interface 0 ok
reply 1 7 0 0 @keys => ask 1 8 8106002202004000, interface 1 ok
reply 1 8 0 0 @keys => ask 1 9 8106002203004000, interface 2 ok
reply 1 9 0 0 @keys => ask 1 10 8106002204004000, interface 3 ok
reply 1 10 0 0 @keys => ask 1 11 8106002205004000, interface 4 ok
reply 1 11 0 0 @keys => ask 1 12 8106002206004000, interface 5 ok
reply 1 12 0 0 @keys => ask 1 13 8106002207004000, interface 6 ok
reply 1 13 0 0 @keys => ready, interface 7 ok, ok
accepted 7 => keys

# a device without an interface of its plug's class
keyboard
serve 3 @token | @token-config => ask 1 4 8006000200002000
reply 1 4 0 0 @token-config => refused F4, F4
token
serve 3 @keyboard | @keyboard-config => ask 1 4 8006000200002200
reply 1 4 0 0 @keyboard-config => refused F4, F4
token
serve 3 @token | @none-config => ask 1 4 8006000200000900
reply 1 4 0 0 @none-config => refused F4, F4

# a token has no report descriptors, and its descriptors stay the same while it is attached
token
serve 4 @token | @token-config => ask 1 5 0009010000000000
reply 1 5 0 0 => ready, ok
accepted 0 => no
shape => 1 8 2 4
bytes => @token @token-config
drop => done
begin 2 1000 => ask 2 1 8006000100001200
reply 2 1 1000 0 @other-token => refused F9, F9
bytes => @token @token-config
drop => done
serve 3 @token | @token-config => ask 1 4 8006000200002000
reply 1 4 0 0 09022000010100a032 09040000020b000000 07058102400000 07050202400000 => refused F9, F9
drop => done
serve 4 @token | @token-config => ask 1 5 0009010000000000
reply 1 5 0 0 => ready, ok
detach => done
serve 4 @other-token | @token-config => ask 1 5 0009010000000000
reply 1 5 0 0 => ready, ok
bytes => @other-token @token-config
# a life that didn't become ready has no descriptors to compare with
token
serve 4 @token | @token-config => ask 1 5 0009010000000000
reply 1 5 0 2 => refused F11, F11
drop => done
serve 4 @other-token | @token-config => ask 1 5 0009010000000000
reply 1 5 0 0 => ready, ok
bytes => @other-token @token-config
";

#[test]
fn enumerations(rt: HostRuntime) -> Result<(), Fail> {
    let alloc = rt.alloc();
    let mut attachment = Attachment::new(Plug::Keyboard);
    let mut rules = no_rules();
    for row in CALLS.lines() {
        match row.split_once(" => ") {
            Some((call, want)) => {
                let answer = answer_to(alloc, &mut attachment, &rules, call)?;
                let want = meant(alloc, want)?;
                assert_eq!(rt; answer.as_str(), want.as_str(), "{call}");
            }
            None => {
                if !row.is_empty() && !row.starts_with("#") {
                    attachment = Attachment::new(plug_of(row)?);
                    rules = rules_of(row)?;
                }
            }
        }
    }
    Ok(())
}

fn no_rules() -> RuleSet {
    RuleSet {
        allow: ArrayVec::new(),
        deny: ArrayVec::new(),
    }
}

/// The plug that a row begins with.
fn plug_of(row: &str) -> Result<Plug, Fail> {
    match row.split_whitespace().next() {
        Some("keyboard") => Ok(Plug::Keyboard),
        Some("mouse") => Ok(Plug::Mouse),
        Some("token") => Ok(Plug::Token),
        _ => Err("no such plug".into()),
    }
}

/// The rules that follow the plug in a row.
fn rules_of(row: &str) -> Result<RuleSet, Fail> {
    let mut rules = no_rules();
    if let Some((_, vendor)) = row.split_once(" deny ") {
        rules.deny = one_vendor(vendor.parse()?);
    }
    if let Some((_, vendor)) = row.split_once(" allow ") {
        rules.allow = one_vendor(vendor.parse()?);
    }
    Ok(rules)
}

fn one_vendor(vendor: u16) -> ArrayVec<Rule, RULES_MAX> {
    let mut list = ArrayVec::new();
    let _ = list.try_push(Rule {
        plug: None,
        vendor: Some(vendor),
        product: None,
        class: None,
    });
    list
}

/// The text of an answer, with the bytes of its names.
fn meant(alloc: Global, want: &str) -> Result<String, Fail> {
    let mut text = String::new(alloc);
    for word in want.split_whitespace() {
        if !text.is_empty() {
            text.push_str(" ")?;
        }
        if word.starts_with("@") {
            push_hex(alloc, &mut text, hex(alloc, &NAMES, word)?.as_slice())?;
        } else {
            text.push_str(word)?;
        }
    }
    Ok(text)
}

fn answer_to(
    alloc: Global,
    attachment: &mut Attachment,
    rules: &RuleSet,
    call: &str,
) -> Result<String, Fail> {
    let (name, rest) = call.split_once(" ").unwrap_or((call, ""));
    match name {
        "serve" => serve(alloc, attachment, rules, rest),
        "begin" => begin(alloc, attachment, rest),
        "reply" => reply(alloc, attachment, rules, rest),
        _ => short_answer(alloc, attachment, name, rest),
    }
}

fn short_answer(
    alloc: Global,
    attachment: &mut Attachment,
    name: &str,
    rest: &str,
) -> Result<String, Fail> {
    match name {
        "clock" => {
            let silent = attachment.clock(rest.parse()?);
            Ok(String::from_str(alloc, if silent { "silent" } else { "fine" })?)
        }
        "drop" => {
            attachment.drop_life();
            Ok(String::from_str(alloc, "done")?)
        }
        "detach" => {
            attachment.detach();
            Ok(String::from_str(alloc, "done")?)
        }
        "accepted" => Ok(String::from_str(alloc, layout_kind(attachment, rest.parse()?))?),
        "bytes" => bytes_text(alloc, attachment),
        "shape" => shape_text(alloc, attachment),
        _ => Err("no such call".into()),
    }
}

/// What the layout of an interface reads.
fn layout_kind(attachment: &Attachment, interface: u8) -> &'static str {
    match attachment.accepted(interface) {
        None => "no",
        Some(layout) => { if layout.has_keys() { "keys" } else { "pointer" } }
    }
}

fn bytes_text(alloc: Global, attachment: &Attachment) -> Result<String, Fail> {
    let mut text = String::new(alloc);
    match attachment.accepted_bytes() {
        None => text.push_str("-")?,
        Some((device, configuration)) => {
            push_hex(alloc, &mut text, device)?;
            text.push_str(" ")?;
            push_hex(alloc, &mut text, configuration)?;
        }
    }
    Ok(text)
}

fn shape_text(alloc: Global, attachment: &Attachment) -> Result<String, Fail> {
    match attachment.shape() {
        None => Ok(String::from_str(alloc, "-")?),
        Some(shape) => {
            let (value, max0, ins, outs) = (shape.value, shape.max0, shape.ins, shape.outs);
            Ok(format!(in alloc; "{value} {max0} {ins} {outs}")?)
        }
    }
}

fn begin(alloc: Global, attachment: &mut Attachment, rest: &str) -> Result<String, Fail> {
    let (life, tick) = rest.split_once(" ").ok_or("no tick")?;
    let order = attachment.begin(life.parse()?, tick.parse()?);
    let mut text = String::new(alloc);
    push_order(alloc, &mut text, &order)?;
    Ok(text)
}

fn reply(
    alloc: Global,
    attachment: &mut Attachment,
    rules: &RuleSet,
    rest: &str,
) -> Result<String, Fail> {
    let (life, rest) = rest.split_once(" ").ok_or("no number")?;
    let (number, rest) = rest.split_once(" ").ok_or("no tick")?;
    let (tick, rest) = rest.split_once(" ").ok_or("no status")?;
    let (status, bytes) = rest.split_once(" ").unwrap_or((rest, ""));
    let bytes = hex(alloc, &NAMES, bytes)?;
    let mut notes = Notes::new();
    let next = attachment.reply(
        rules,
        life.parse()?,
        number.parse()?,
        tick.parse()?,
        status.parse()?,
        bytes.as_slice(),
        &mut notes,
    );
    let mut text = String::new(alloc);
    push_next(alloc, &mut text, &next)?;
    for note in notes.as_slice() {
        push_note(alloc, &mut text, note)?;
    }
    Ok(text)
}

/// Serves the orders of life 1 up to this number. Gives the answer to the last.
fn serve(
    alloc: Global,
    attachment: &mut Attachment,
    rules: &RuleSet,
    rest: &str,
) -> Result<String, Fail> {
    let (last, rest) = rest.split_once(" ").ok_or("no device")?;
    let (device, configuration) = rest.split_once(" | ").ok_or("no configuration")?;
    let last: u32 = last.parse()?;
    let whole = hex(alloc, &NAMES, configuration)?;
    let _ = begin(alloc, attachment, "1 0")?;
    let mut answer = String::new(alloc);
    for number in 1..=last {
        let line = match number {
            1 => format!(in alloc; "1 1 0 0 {device}")?,
            3 => {
                let mut line = String::from_str(alloc, "1 3 0 0 ")?;
                for byte in whole.iter().take(9) {
                    push_hex(alloc, &mut line, &[*byte])?;
                }
                line
            }
            4 => format!(in alloc; "1 4 0 0 {configuration}")?,
            _ => format!(in alloc; "1 {number} 0 0")?,
        };
        answer = reply(alloc, attachment, rules, line.as_str())?;
    }
    Ok(answer)
}

fn push_order(alloc: Global, text: &mut String, order: &Order) -> Result<(), AllocError> {
    match order {
        Order::Ask {
            plug: _,
            life,
            number,
            setup,
        } => {
            text.push_str(format!(in alloc; "ask {life} {number} ")?.as_str())?;
            push_hex(alloc, text, &setup.bytes())
        }
        Order::On { .. } => text.push_str("on"),
        Order::Off { .. } => text.push_str("off"),
        Order::Job(_) => text.push_str("job"),
    }
}

fn push_next(alloc: Global, text: &mut String, next: &Next) -> Result<(), AllocError> {
    match next {
        Next::Ask(order) => push_order(alloc, text, order),
        Next::Ready => text.push_str("ready"),
        Next::Refused(rule) => {
            text.push_str("refused ")?;
            push_rule(alloc, text, *rule)
        }
        Next::Ignored => text.push_str("ignored"),
    }
}

fn push_note(alloc: Global, text: &mut String, note: &Note) -> Result<(), AllocError> {
    match note {
        Note::InterfaceAccepted { plug: _, interface } => {
            text.push_str(format!(in alloc; ", interface {interface} ok")?.as_str())
        }
        Note::InterfaceRefused {
            plug: _,
            interface,
            rule,
        } => {
            text.push_str(format!(in alloc; ", interface {interface} ")?.as_str())?;
            push_rule(alloc, text, *rule)
        }
        Note::Accepted(_) => text.push_str(", ok"),
        Note::Refused { plug: _, rule } => {
            text.push_str(", ")?;
            push_rule(alloc, text, *rule)
        }
        _ => text.push_str(", another line"),
    }
}

fn push_rule(alloc: Global, text: &mut String, rule: RuleName) -> Result<(), AllocError> {
    match rule {
        RuleName::Fixed(number) => text.push_str(format!(in alloc; "F{number}")?.as_str()),
        RuleName::Deny(place) => text.push_str(format!(in alloc; "D{place}")?.as_str()),
        RuleName::NotAllowed => text.push_str("A"),
    }
}
