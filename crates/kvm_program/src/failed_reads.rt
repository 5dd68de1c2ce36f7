//! One run in which each read fails in turn: what is written is what the bytes that were taken until then allow.
//!
//! The run is lines of one text. `header` gives the capture's header in hexadecimal. Then the events stand in the order in
//! which they are served, `capture` with the bytes of a record and `script` with a line, and behind each what it writes:
//! lines of `port1` to `port8`, `console` and `log`.
ghost use Rattle.std.specs.Prelude.{◌<◌};

use crate::run::kvm;
use crate::sessions::{bytes_of, lines_of, outlet_of};
use psd_base::desk::Desk;
use psd_base::memory_desk::MemoryDesk;
use psd_base::outlet::{Input, Outlet};
use psd_base::stop::Stop;
use psd_base::words::Words;
use std::alloc::{AllocError, Global};
use std::test::Fail;

/// Room of each outlet, in bytes.
const ROOM: u32 = 4096;

/// The outlets that hold a text of the events. The report is empty where a run stops.
const TEXTS: &str = "console log report port1 port2 port3 port4 port5 port6 port7 port8";

const RUN: &str = "
header 4b56433102000000
script 0 check 1 pass
script 0 check 2 pass
script 0 check 3 pass
script 0 check 4 pass
log 0 ALIVE
capture 0100000011410900008006000100004000
port1 1 KM SETUP 0 8006000100004000 -> ACK
capture 0100000013410300000001
port1 1 KM IN 0 0 1 -> DATA 1 1201000200000040feff0100000100000001
script 10 guard down
script 10 1 down
capture 6400000011420900008006000100004000
port2 100 KM SETUP 0 8006000100004000 -> ACK
capture 6e00000001000000
log 110 SELECT 1
capture 6e00000012410300000001
port1 110 KM OUT 0 0 1 - -> ACK
script 120 guard up
script 120 1 up
capture 7800000020020000
console 120 MOUSE ON 1
console 120 MOUSE ASK 1 1 8006000100001200
script 150 guard down
script 150 2 down
capture c800000013420300000001
port2 200 KM IN 0 0 1 -> DATA 1 1201000200000040feff0100000100000001
capture fa00000001000000
log 250 LEAVE 1
log 250 SELECT 2
capture fb00000012420300000001
port2 251 KM OUT 0 0 1 - -> ACK
capture 4808000001000000
console 2120 MOUSE OFF 1
log 2120 MOUSE REFUSED F11
script 2130 guard up
script 2130 2 up
capture 5208000001000000
script 2140 tamper
log 2140 DARK TAMPER
capture 5d08000013410300000001
port1 2141 KM IN 0 0 1 -> SILENT
";

/// A Clock record behind all these events, which writes nothing.
#[rattlefmt::skip]
const LAST_CLOCK: [u8; 8] = [0x98, 0x08, 0, 0, 1, 0, 0, 0];

/// The bytes of the capture, with so many Clock records behind the run's.
fn capture_with(alloc: Global, clocks: u32) -> Result<Vec<u8>, AllocError> {
    let mut bytes = bytes_of(alloc, RUN, "header")?;
    bytes.extend_from_slice(bytes_of(alloc, RUN, "capture")?.as_slice())?;
    for _ in 0..clocks {
        bytes.extend_from_slice(LAST_CLOCK.as_slice())?;
    }
    Ok(bytes)
}

/// The bytes in front of the source's first event.
fn size_before(source: &str) -> usize {
    if source == "capture" { 8 } else { 0 }
}

/// How many bytes an event is in its source.
fn size_of(source: &str, event: &str) -> usize {
    if source == "capture" {
        event.len() / 2
    } else {
        event.len().saturating_add(1)
    }
}

/// How many of the run's events of this source are whole in the first bytes of it.
fn whole_in(source: &str, taken: usize) -> u32 {
    let mut size = size_before(source);
    let mut whole: u32 = 0;
    for line in RUN.lines() {
        match line.split_once(" ") {
            Some((word, event)) if word == source => {
                size = size.saturating_add(size_of(source, event));
                if size <= taken {
                    whole = whole.saturating_add(1);
                }
            }
            _ => {}
        }
    }
    whole
}

/// What the shortest part of the run writes to an outlet that has so many events of this source.
fn text_of_part(
    alloc: Global,
    outlet: &str,
    source: &str,
    whole: u32,
) -> Result<Vec<u8>, AllocError> {
    let mut text = Vec::new(alloc);
    let mut passed: u32 = 0;
    for line in RUN.lines() {
        match line.split_once(" ") {
            Some((word, rest)) => {
                if word == "capture" || word == "script" {
                    if passed == whole {
                        return Ok(text);
                    }
                    if word == source {
                        passed = passed.saturating_add(1);
                    }
                } else if word == outlet {
                    text.extend_from_slice(rest.as_bytes())?;
                    text.push(b'\n')?;
                }
            }
            None => {}
        }
    }
    Ok(text)
}

/// Sees that the desk's outlets hold what the shortest part of the run writes that has so many events of this source.
fn compare(alloc: Global, desk: &MemoryDesk, source: &str, whole: u32) -> Result<(), Fail> {
    for name in TEXTS.split(' ') {
        let outlet = outlet_of(name).ok_or("no outlet")?;
        let wanted = text_of_part(alloc, name, source, whole)?;
        if desk.sent(outlet) != wanted.as_slice() {
            return Err(Fail::from("an outlet holds another text"));
        }
    }
    Ok(())
}

/// How many bytes are left of an input.
fn count_left(desk: &mut MemoryDesk, input: Input) -> Result<usize, Fail> {
    let mut left: usize = 0;
    let mut piece = [0; 256];
    for _ in 0..u64::MAX {
        match desk.read(input, &mut piece) {
            Ok(0) => return Ok(left),
            Ok(count) => left = left.saturating_add(count),
            Err(_) => return Err(Fail::from("a second read failed")),
        }
    }
    Err(Fail::from("it never ends"))
}

/// Replays what lies at the desk. Answers the input whose read failed, or `None` where the replay came to its end.
fn failed_input(alloc: Global, desk: &mut MemoryDesk) -> Result<Option<Input>, Fail> {
    let mut words = Words::new();
    words.push("replay");
    match kvm(alloc, &words, desk) {
        Ok(_) => Ok(None),
        Err(Stop::ReadFault(input)) => Ok(Some(input)),
        Err(_) => Err(Fail::from("it stopped otherwise")),
    }
}

/// Sees what is written where a read of this source failed, of which there were so many bytes.
fn see(
    alloc: Global,
    desk: &mut MemoryDesk,
    input: Input,
    source: &str,
    size: usize,
    told: &[u8],
) -> Result<(), Fail> {
    let taken = size.saturating_sub(count_left(desk, input)?);
    if desk.sent(Outlet::Faults) != told {
        return Err(Fail::from("another fault line"));
    }
    compare(alloc, desk, source, whole_in(source, taken))
}

/// Lets each read behind that of the rules fail in turn, where a read gives at most so many bytes, and answers how many
/// were of the capture, and how many of the script.
fn fail_each(alloc: Global, piece: u32, clocks: u32) -> Result<(u32, u32), Fail>
    requires { 0 < piece }
{
    let capture = capture_with(alloc, clocks)?;
    let script = lines_of(alloc, RUN, "script")?;
    let mut records: u32 = 0;
    let mut lines: u32 = 0;
    for call in 2..u32::MAX {
        let mut desk = MemoryDesk::new(alloc, &[], capture.as_slice(), script.as_slice(), ROOM)?;
        desk.limit_reads(piece);
        desk.fail_read(call)?;
        match failed_input(alloc, &mut desk)? {
            Some(Input::Capture) => {
                records = records.saturating_add(1);
                see(
                    alloc,
                    &mut desk,
                    Input::Capture,
                    "capture",
                    capture.len(),
                    b"read fault capture\n",
                )?;
            }
            Some(Input::Script) => {
                lines = lines.saturating_add(1);
                see(
                    alloc,
                    &mut desk,
                    Input::Script,
                    "script",
                    script.len(),
                    b"read fault script\n",
                )?;
            }
            Some(Input::Rules) => return Err(Fail::from("a read of the rules")),
            None => return Ok((records, lines)),
        }
    }
    Err(Fail::from("it never ends"))
}

/// Reads of a few bytes, of a few records at once, and as large as the reader asks for, where the capture takes three.
/// The last read of each source meets its end.
#[test]
fn each_read_fails_in_turn(rt: HostRuntime) -> Result<(), Fail> {
    assert_eq!(rt; fail_each(rt.alloc(), 7, 0)?, (21, 25));
    assert_eq!(rt; fail_each(rt.alloc(), 30, 0)?, (6, 7));
    assert_eq!(rt; fail_each(rt.alloc(), u32::MAX, 20000)?, (4, 2));
    Ok(())
}
