//! Captures and scripts, and what a reader gives of them, worked by hand from their forms.
//!
//! A row is `CAPTURE | SCRIPT => EVENTS ; END`. The capture is in hexadecimal digits, with names for what comes often and
//! `17*a101` for 17 times a101; `/` in the script stands for a line feed. An event is its tick and its text, and an end is
//! the fault line, or `end`. Each row is read in pieces of one byte, of seven, and whole.
ghost use Rattle.std.specs.Prelude.{◌≤◌, ◌<◌, IsSome};

use crate::hexadecimal::{hex, push_hex};
use capture_reader::Reader;
use port_transcript::stop_line;
use psd_base::{Act, EVENTS_MAX, MemoryDesk, Panel, Plug, PortId, Side, Stop, What};
use std::alloc::{AllocError, Global};
use std::process::Abort;
use std::test::Fail;

/// The header of two ports and that of eight, Clock records at the ticks 0, 1, 2 and the last, and the records of a port
/// that asks for the device descriptor: a SETUP, an IN and an OUT.
const NAMES: [(&str, &str); 9] = [
    ("two", "4b564331 02000000"),
    ("eight", "4b564331 08000000"),
    ("clock0", "00000000 01 00 0000"),
    ("clock1", "01000000 01 00 0000"),
    ("clock2", "02000000 01 00 0000"),
    ("last", "ffffffff 01 00 0000"),
    ("setup", "01000000 11 41 0900 00 8006000100004000"),
    ("in", "01000000 13 41 0300 00 00 01"),
    ("out", "01000000 12 41 0300 00 00 01"),
];

const ACTS: &str = "
two | => ; end
two setup in out | => 1 KM1 SETUP 0 8006000100004000, 1 KM1 IN 0 0 1, 1 KM1 OUT 0 0 1 - ; end
# both sides, the first and the last port, each at its largest fields
eight 00000000 10 41 0000 00000000 10 88 0000 | => 0 KM1 RESET, 0 UA8 RESET ; end
two 00000000 11 82 0900 7f ffffffffffffffff | => 0 UA2 SETUP 127 ffffffffffffffff ; end
two 05000000 12 42 4300 7f 0f 00 8*0102030405060708 | => 5 KM2 OUT 127 15 0 01020304050607080102030405060708010203040506070801020304050607080102030405060708010203040506070801020304050607080102030405060708 ; end
two 00010000 13 81 0300 7f 0f 00 | => 256 UA1 IN 127 15 0 ; end
";

const LINES: &str = "
# every form of line, the last without its line feed, among four clocks
eight clock0 clock1 clock1 last | 0 guard down/1 guard up/1 8 down/20 1 up/65536 check 1 pass/4294967295 check 4 fail/4294967295 tamper => 0 guard 1, 0 clock, 1 guard 0, 1 button 8 1, 1 clock, 1 clock, 20 button 1 0, 65536 check 1 1, 4294967295 check 4 0, 4294967295 tamper, 4294967295 clock ; end
# the script's fault comes once its last line was given, and the records that are left don't
eight clock0 clock1 clock1 last | 1 guard down/1 guard/ => 0 clock, 1 guard 1 ; script 2 not-a-line
two | 0 3 down => ; script 1 no-such-port
two clock0 | 5 tamper/4 tamper => 0 clock, 5 tamper ; script 2 tick-back
two clock0 00 | 0 tamper => 0 tamper, 0 clock ; capture 16 truncated
";

const PLUGS: &str = "
# each kind at both plugs, with its least and its largest fields
two 00000000 20 01 0000 00000000 20 02 0000 | => 0 ATTACH keyboard, 0 ATTACH mouse ; end
two 00000000 21 02 0000 ffffffff 21 01 0000 | => 0 DETACH mouse, 4294967295 DETACH keyboard ; end
two 01000000 22 01 0900 01000000 02010000 00 | => 1 REPLY keyboard 1 258 0 - ; end
two 01000000 22 02 0b00 ffffffff 00000100 03 0708 | => 1 REPLY mouse 4294967295 65536 3 0708 ; end
two 01000000 22 01 0a00 00000000 00000000 02 00 | => 1 REPLY keyboard 0 0 2 00 ; end
two 02000000 23 01 0100 00 | => 2 REPORT keyboard 0 - ; end
two 02000000 23 02 0500 ff 01000000 | => 2 REPORT mouse 255 01000000 ; end
two 02000000 23 02 4100 01 8*0102030405060708 | => 2 REPORT mouse 1 01020304050607080102030405060708010203040506070801020304050607080102030405060708010203040506070801020304050607080102030405060708 ; end
# bytes of a record before stay out of a shorter one behind it, and acts and clocks stand between
two 00000000 22 01 0c00 01000000 01000000 00 aabbcc clock0 in 01000000 22 01 0900 01000000 02000000 00 01000000 23 01 0200 00 dd | => 0 REPLY keyboard 1 1 0 aabbcc, 0 clock, 1 KM1 IN 0 0 1, 1 REPLY keyboard 1 2 0 -, 1 REPORT keyboard 0 dd ; end
# of the token: no reports, but the ends of its jobs
two 00000000 20 03 0000 00000000 22 03 0900 01000000 01000000 00 00000000 21 03 0000 | => 0 ATTACH token, 0 REPLY token 1 1 0 -, 0 DETACH token ; end
two clock0 00000000 24 03 0900 01000000 01000000 00 | => 0 clock, 0 JOBDONE 1 1 0 - ; end
two 01000000 24 03 0b00 ffffffff 00000100 03 0708 | => 1 JOBDONE 4294967295 65536 3 0708 ; end
# lines among them
two 01000000 20 01 0000 02000000 22 01 0a00 01000000 01000000 00 aa 03000000 21 01 0000 | 1 guard down/2 1 down/9 tamper => 1 guard 1, 1 ATTACH keyboard, 2 button 1 1, 2 REPLY keyboard 1 1 0 aa, 3 DETACH keyboard, 9 tamper ; end
";

const FAULTS: &str = "
| => ; capture 0 truncated
4b564332 02000000 | => ; capture 0 bad-magic
4b564331 01000000 | => ; capture 4 bad-ports
4b564331 09000000 | => ; capture 4 bad-ports
4b564331 02000001 | => ; capture 4 bad-ports
# a head that is cut off
two clock0 0000000020 01 00 | => 0 clock ; capture 16 truncated
# a tick that goes back, before a kind that isn't there
two clock1 00000000 25 07 0000 | => 1 clock ; capture 16 tick-back
# kinds beside those that are there, before a party that isn't there
two 00000000 00 07 0000 | => ; capture 8 bad-kind
two 00000000 14 41 0300 000001 | => ; capture 8 bad-kind
two 00000000 1f 01 0000 | => ; capture 8 bad-kind
two clock0 00000000 25 03 0900 01000000 01000000 00 | => 0 clock ; capture 16 bad-kind
# parties that aren't there, or not for this kind, before a length
two 00000000 01 01 0000 | => ; capture 8 bad-who
two 00000000 13 43 0300 000001 | => ; capture 8 bad-who
two 00000000 13 80 0300 000001 | => ; capture 8 bad-who
two 00000000 20 00 0100 | => ; capture 8 bad-who
two 00000000 20 04 0000 | => ; capture 8 bad-who
two 00000000 20 41 0000 | => ; capture 8 bad-who
two 00000000 21 00 0000 | => ; capture 8 bad-who
two 00000000 21 04 0000 | => ; capture 8 bad-who
two 00000000 22 00 0900 01000000 01000000 00 | => ; capture 8 bad-who
two 00000000 22 04 0900 01000000 01000000 00 | => ; capture 8 bad-who
two 00000000 22 81 0900 01000000 01000000 00 | => ; capture 8 bad-who
two 00000000 23 00 0100 00 | => ; capture 8 bad-who
two clock0 00000000 23 03 0100 00 | => 0 clock ; capture 16 bad-who
two 00000000 24 00 0900 01000000 01000000 00 | => ; capture 8 bad-who
two 00000000 24 02 0000 | => ; capture 8 bad-who
two 00000000 24 83 0900 01000000 01000000 00 | => ; capture 8 bad-who
# lengths that a kind can't have, before what is cut off
two 00000000 20 01 0100 | => ; capture 8 bad-length
two 00000000 21 02 0001 | => ; capture 8 bad-length
two 00000000 22 01 0800 01000000 01000000 | => ; capture 8 bad-length
two 00000000 22 02 0a04 | => ; capture 8 bad-length
two 00000000 23 01 0000 | => ; capture 8 bad-length
two clock0 00000000 23 02 4200 | => 0 clock ; capture 16 bad-length
two 00000000 12 41 4400 | => ; capture 8 bad-length
two 00000000 24 03 0800 01000000 01000000 | => ; capture 8 bad-length
two 00000000 24 03 0a04 | => ; capture 8 bad-length
# payloads that are cut off, before a field
two 00000000 22 01 0900 01000000 01000000 | => ; capture 8 truncated
two 00000000 22 01 0a00 01000000 01000000 04 | => ; capture 8 truncated
two clock0 00000000 22 02 0904 01000000 01000000 00 127*0102030405060708 01020304050607 | => 0 clock ; capture 16 truncated
two 00000000 23 01 0100 | => ; capture 8 truncated
two 00000000 24 03 0900 01000000 01000000 | => ; capture 8 truncated
two 00000000 23 02 4100 01 7*0102030405060708 01020304050607 | => ; capture 8 truncated
# fields out of range
two 00000000 22 01 0900 01000000 01000000 04 | => ; capture 8 bad-field
two clock0 00000000 22 02 0a00 01000000 01000000 ff 00 | => 0 clock ; capture 16 bad-field
two 00000000 24 03 0900 01000000 01000000 04 | => ; capture 8 bad-field
two 00000000 11 41 0900 80 8006000100004000 | => ; capture 8 bad-field
two 00000000 12 41 0300 00 10 01 | => ; capture 8 bad-field
two 00000000 13 41 0300 00 00 02 | => ; capture 8 bad-field
";

/// The number of events, and the end, of the first so many bytes of the capture `two setup in out`, from the first number
/// to the second.
const CUT: &str = "
0 7 0 capture 0 truncated
8 8 0 end
9 24 0 capture 8 truncated
25 25 1 end
26 35 1 capture 25 truncated
36 36 2 end
37 46 2 capture 36 truncated
47 47 3 end
";

/// The reads of 8 bytes of `eight clock0 clock1 clock1 last` and of the script below: which of them fails, the number of
/// events that come before, and the end. The header is read first, then the first line by two reads, then the first record.
/// Behind each event that was given one looks on in its source alone.
const FAILED: &str = "
1 0 read fault capture
2 0 read fault script
3 0 read fault script
4 0 read fault capture
5 1 read fault script
6 2 read fault capture
7 3 read fault script
8 3 read fault script
9 4 read fault script
10 5 read fault capture
11 6 read fault capture
12 7 read fault script
13 7 read fault script
14 8 read fault script
15 8 read fault script
16 8 read fault script
17 9 read fault script
18 9 read fault script
19 9 read fault script
20 11 read fault capture
21 11 end
";

const SCRIPT: &[u8] =
    b"0 guard down\n1 guard up\n1 8 down\n20 1 up\n65536 check 1 pass\n4294967295 check 4 fail\n4294967295 tamper";

fn plug_text(plug: Plug) -> &'static str {
    match plug {
        Plug::Keyboard => "keyboard",
        Plug::Mouse => "mouse",
        Plug::Token => "token",
    }
}

fn side_text(side: Side) -> &'static str {
    match side {
        Side::Km => "KM",
        Side::Ua => "UA",
    }
}

fn bytes_text(alloc: Global, bytes: &[u8]) -> Result<String, AllocError> {
    let mut text = String::new(alloc);
    if bytes.is_empty() {
        text.push_str("-")?;
    }
    push_hex(alloc, &mut text, bytes)?;
    Ok(text)
}

fn act_text(alloc: Global, act: &Act) -> Result<String, AllocError> {
    match act {
        Act::Reset => String::from_str(alloc, "RESET"),
        Act::Setup { address, setup } => {
            let bytes = setup.bytes();
            let text = bytes_text(alloc, &bytes)?;
            format!(in alloc; "SETUP {address} {text}")
        }
        Act::Out {
            address,
            endpoint,
            toggle,
            bytes,
        } => {
            let text = bytes_text(alloc, bytes.as_slice())?;
            format!(in alloc; "OUT {address} {endpoint} {} {text}", *toggle as u8)
        }
        Act::In {
            address,
            endpoint,
            acked,
        } => format!(in alloc; "IN {address} {endpoint} {}", *acked as u8),
    }
}

fn panel_text(alloc: Global, panel: &Panel) -> Result<String, AllocError> {
    match panel {
        Panel::Guard(down) => format!(in alloc; "guard {}", *down as u8),
        Panel::Button(port, down) => {
            format!(in alloc; "button {} {}", port.number(), *down as u8)
        }
        Panel::Check(number, passed) => format!(in alloc; "check {number} {}", *passed as u8),
        Panel::Tamper => String::from_str(alloc, "tamper"),
    }
}

fn port_text(alloc: Global, port: PortId, side: Side, act: &Act) -> Result<String, AllocError> {
    let text = act_text(alloc, act)?;
    format!(in alloc; "{}{} {text}", side_text(side), port.number())
}

fn what_text(alloc: Global, what: &What<'_>) -> Result<String, AllocError> {
    match what {
        What::Clock => String::from_str(alloc, "clock"),
        What::Port(port, side, act) => port_text(alloc, *port, *side, act),
        What::Panel(panel) => panel_text(alloc, panel),
        What::Attach(plug) => format!(in alloc; "ATTACH {}", plug_text(*plug)),
        What::Detach(plug) => format!(in alloc; "DETACH {}", plug_text(*plug)),
        What::Reply {
            plug,
            life,
            number,
            status,
            bytes,
        } => {
            let text = bytes_text(alloc, bytes)?;
            format!(in alloc;
                "REPLY {} {life} {number} {status} {text}",
                plug_text(*plug)
            )
        }
        What::Report {
            plug,
            interface,
            bytes,
        } => {
            let text = bytes_text(alloc, bytes)?;
            format!(in alloc; "REPORT {} {interface} {text}", plug_text(*plug))
        }
        What::JobDone {
            life,
            number,
            status,
            bytes,
        } => {
            let text = bytes_text(alloc, bytes)?;
            format!(in alloc; "JOBDONE {life} {number} {status} {text}")
        }
    }
}

fn end_text(alloc: Global, end: Result<(), Stop>) -> Result<String, AllocError> {
    match end {
        Ok(()) => String::from_str(alloc, "end"),
        Err(stop) => {
            let line = stop_line(&stop);
            let mut text = String::new(alloc);
            for byte in line.as_slice() {
                if *byte != b'\n' && *byte < 128 {
                    text.push(*byte as char)?;
                }
            }
            Ok(text)
        }
    }
}

/// Appends the event that the reader gave last.
fn append_given(alloc: Global, text: &mut String, reader: &Reader) -> Result<(), AllocError>
    requires { IsSome reader.now.given }
{
    if !text.is_empty() {
        text.push_str(", ")?;
    }
    let event = reader.event();
    let what = match &event.what {
        What::Port(port, side, act) => port_text(alloc, *port, *side, act)?,
        what => what_text(alloc, what)?,
    };
    text.push_str(format!(in alloc; "{} {what}", event.tick)?.as_str())
}

/// What a reader gave.
#[derive(Drop)]
struct Outcome {
    events: String,
    served: u32,
    end: Result<(), Stop>,
}

/// Reads to the end, and writes each event down.
fn read_all(alloc: Global, desk: &mut MemoryDesk, limit: u32) -> Result<Outcome, AllocError>
    requires { limit ≤ EVENTS_MAX }
{
    let mut events = String::new(alloc);
    let mut reader = match Reader::new(alloc, desk, limit) {
        Ok(reader) => reader,
        Err(stop) => {
            return Ok(Outcome {
                events,
                served: 0,
                end: Err(stop),
            });
        }
    };
    let mut end = Ok(());
    for _ in 0..EVENTS_MAX {
        match reader.advance(desk) {
            Ok(true) => append_given(alloc, &mut events, &reader)?,
            Ok(false) => break,
            Err(stop) => {
                end = Err(stop);
                break;
            }
        }
    }
    Ok(Outcome {
        events,
        served: reader.served(),
        end,
    })
}

/// A desk with these inputs, of which one read gives at most `piece` bytes.
fn desk_of(alloc: Global, capture: &[u8], script: &[u8], piece: u32) -> Result<MemoryDesk, Fail>
    requires { 0 < piece }
{
    let mut desk = MemoryDesk::new(alloc, b"", capture, script, 0)?;
    desk.limit_reads(piece);
    Ok(desk)
}

/// The script of a row.
fn script_of(alloc: Global, lines: &str) -> Result<Vec<u8>, AllocError> {
    let mut script = Vec::new(alloc);
    for byte in lines.as_bytes() {
        script.push(if *byte == b'/' { b'\n' } else { *byte })?;
    }
    Ok(script)
}

fn check_rows(rt: &impl Abort, alloc: Global, rows: &str) -> Result<(), Fail> {
    for row in rows.lines() {
        if let Some((question, want)) = row.split_once("=> ") {
            let (capture, lines) = question.split_once("| ").ok_or("no script")?;
            let capture = hex(alloc, &NAMES, capture)?;
            let script = script_of(alloc, lines.trim())?;
            for piece in [1, 7, 4096] {
                let mut desk = desk_of(alloc, capture.as_slice(), script.as_slice(), piece)?;
                let outcome = read_all(alloc, &mut desk, EVENTS_MAX)?;
                let end = end_text(alloc, outcome.end)?;
                let text = format!(in alloc; "{} ; {end}", outcome.events)?;
                assert_eq!(rt;
                    text.as_str().trim(),
                    want,
                    "{question} in pieces of {piece}"
                );
            }
        }
    }
    Ok(())
}

#[test]
fn acts(rt: HostRuntime) -> Result<(), Fail> {
    check_rows(&rt, rt.alloc(), ACTS)
}

#[test]
fn lines(rt: HostRuntime) -> Result<(), Fail> {
    check_rows(&rt, rt.alloc(), LINES)
}

#[test]
fn plugs(rt: HostRuntime) -> Result<(), Fail> {
    check_rows(&rt, rt.alloc(), PLUGS)
}

#[test]
fn first_faults(rt: HostRuntime) -> Result<(), Fail> {
    check_rows(&rt, rt.alloc(), FAULTS)
}

/// The two numbers that begin a row, and what stands behind them.
fn fields(row: &str) -> Result<(u32, u32, &str), Fail> {
    let (first, rest) = row.split_once(" ").ok_or("no second number")?;
    let (second, rest) = rest.split_once(" ").ok_or("no end")?;
    Ok((first.parse()?, second.parse()?, rest))
}

#[test]
fn cut_to_every_length(rt: HostRuntime) -> Result<(), Fail> {
    let capture = hex(rt.alloc(), &NAMES, "two setup in out")?;
    for row in CUT.lines() {
        if row.is_empty() {
            continue;
        }
        let (first, last, rest) = fields(row)?;
        for size in first..last.saturating_add(1) {
            let part = capture.as_slice().get(..size as usize).ok_or("too short")?;
            let mut desk = desk_of(rt.alloc(), part, b"", 7)?;
            let outcome = read_all(rt.alloc(), &mut desk, EVENTS_MAX)?;
            let end = end_text(rt.alloc(), outcome.end)?;
            let text = format!(in rt.alloc(); "{} {end}", outcome.served)?;
            assert_eq!(rt; text.as_str(), rest, "{size} bytes");
        }
    }
    Ok(())
}

#[test]
fn each_read_fails_in_turn(rt: HostRuntime) -> Result<(), Fail> {
    let capture = hex(rt.alloc(), &NAMES, "eight clock0 clock1 clock1 last")?;
    for row in FAILED.lines() {
        if row.is_empty() {
            continue;
        }
        let (call, served, want) = fields(row)?;
        let mut desk = desk_of(rt.alloc(), capture.as_slice(), SCRIPT, 8)?;
        desk.fail_read(call)?;
        let outcome = read_all(rt.alloc(), &mut desk, EVENTS_MAX)?;
        assert_eq!(rt; outcome.served, served, "{row}");
        assert_eq!(rt; end_text(rt.alloc(), outcome.end)?.as_str(), want, "{row}");
    }
    Ok(())
}

/// The longest reply that fits, and the record behind it.
#[test]
fn longest_reply(rt: HostRuntime) -> Result<(), Fail> {
    let text = "two 01000000 22 02 0904 01000000 02000000 00 128*0102030405060708 clock1";
    let capture = hex(rt.alloc(), &NAMES, text)?;
    let want = hex(rt.alloc(), &NAMES, "128*0102030405060708")?;
    assert_eq!(rt; want.len(), 1024);
    for piece in [1, 7, 4096] {
        let mut desk = desk_of(rt.alloc(), capture.as_slice(), b"", piece)?;
        let Ok(mut reader) = Reader::new(rt.alloc(), &mut desk, 2) else {
            return Err(Fail::from("no reader"));
        };
        assert_eq!(rt; reader.advance(&mut desk), Ok(true));
        match reader.event().what {
            What::Reply { bytes, .. } => assert_eq!(rt; bytes, want.as_slice()),
            _ => return Err(Fail::from("no reply")),
        }
        assert_eq!(rt; reader.advance(&mut desk), Ok(true));
        assert_eq!(rt; reader.advance(&mut desk), Ok(false));
    }
    Ok(())
}

/// The limit, and a stop, which stays.
#[test]
fn one_event_too_many(rt: HostRuntime) -> Result<(), Fail> {
    let capture = hex(rt.alloc(), &NAMES, "eight clock0 clock1 clock1 last")?;
    let mut desk = desk_of(rt.alloc(), capture.as_slice(), b"", 4096)?;
    let Ok(mut reader) = Reader::new(rt.alloc(), &mut desk, 3) else {
        return Err(Fail::from("no reader"));
    };
    assert_eq!(rt; reader.ports(), 8);
    for _ in 0..3 {
        assert_eq!(rt; reader.advance(&mut desk), Ok(true));
    }
    assert_eq!(rt; reader.advance(&mut desk), Err(Stop::TooLong));
    assert_eq!(rt; reader.advance(&mut desk), Err(Stop::TooLong));
    assert_eq!(rt; reader.served(), 3);
    let mut desk = desk_of(rt.alloc(), capture.as_slice(), b"", 4096)?;
    let outcome = read_all(rt.alloc(), &mut desk, 4)?;
    assert_eq!(rt; (outcome.served, outcome.end), (4, Ok(())));
    Ok(())
}
