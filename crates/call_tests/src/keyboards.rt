//! Sessions at the emulated keyboard, with answers found by hand from HID 1.11 and USB 2.0, 8.5.4.
//!
//! A row is `CALLS => ANSWERS`, and begins with a keyboard that isn't entered and an empty latch. A number behind `@` is a
//! tick. `enter@110` and `part` select and leave the port; the keys that are down, as `4,225`, or `up` for none, are shown to
//! the latch; `reset@120`, `configured` and `restart` are what they are called. `poll@130` is a poll that the host
//! acknowledges and `lost@130` one that it doesn't: the answer is a toggle and a report, or `nak`. A request is its eight
//! setup bytes: `get=SETUP` answers its data or `none`, `takes=SETUP` whether it is taken, `set@140=SETUP` and
//! `set@140=SETUP=BYTES` complete it, and `describe=SETUP` gives a descriptor or `none`. A row with `#` gives the reason for
//! the next ones.
use crate::hexadecimal::{hex, push_hex};
use crate::latches::keys_of;
use control_pipe::Function;
use emulated_keyboard::Keyboard;
use input_latch::KeyLatch;
use psd_base::act::Answer;
use psd_base::event::Tick;
use psd_base::setup::Setup;
use std::alloc::{AllocError, Global};
use std::process::Abort;
use std::test::Fail;

const POLLS: &str = "
# nothing was pressed
poll@0 => nak
enter@110 poll@120 => nak
# a press and a release, with DATA0 first
enter@110 4 poll@120 poll@130 up poll@140 poll@150 => 0:0000040000000000 nak 1:0000000000000000 nak
# a report for each change: modifiers are pressed first and released last
enter@0 4,225 poll@1 poll@2 up poll@3 poll@4 poll@5 => 0:0200000000000000 1:0200040000000000 0:0200000000000000 1:0000000000000000 nak
# each modifier has a bit
enter@0 224,225,226,227 poll@1 poll@2 poll@3 poll@4 => 0:0100000000000000 1:0300000000000000 0:0700000000000000 1:0f00000000000000
enter@0 228,229,230,231 poll@1 poll@2 poll@3 poll@4 => 0:1000000000000000 1:3000000000000000 0:7000000000000000 1:f000000000000000
# six keys, ascending, and no seventh
enter@0 9 poll@1 4,9 poll@2 4,5,6,7,8,9,10 poll@3 poll@4 => 0:0000090000000000 1:0000040900000000 0:0000040509000000 1:0000040506090000
enter@0 4,5,6,7,9 8,4,5,6,7,9,10 poll@1 poll@2 poll@3 poll@4 poll@5 poll@6 poll@7 => 0:0000040000000000 1:0000040500000000 0:0000040506000000 1:0000040506070000 0:0000040506070900 1:0000040506070809 nak
# what isn't acknowledged comes again, with the same toggle, before anything else
enter@0 4 lost@1 up lost@2 poll@3 poll@4 poll@5 => 0:0000040000000000 0:0000040000000000 0:0000040000000000 1:0000000000000000 nak
enter@0 4 poll@1 up lost@2 lost@3 poll@4 poll@5 => 0:0000040000000000 1:0000000000000000 1:0000000000000000 1:0000000000000000 nak
";

const SELECTIONS: &str = "
# nothing is pressed when the port is left
enter@0 4 poll@1 up poll@2 part poll@3 => 0:0000040000000000 1:0000000000000000 nak
# a key is down when the port is left: its release is due, once
enter@0 4 poll@1 part poll@2 poll@3 => 0:0000040000000000 1:0000000000000000 nak
enter@0 4 poll@1 part lost@2 lost@3 poll@4 poll@5 => 0:0000040000000000 1:0000000000000000 1:0000000000000000 1:0000000000000000 nak
# what wasn't acknowledged comes first, and then its release
enter@0 4 lost@1 part lost@2 poll@3 lost@4 poll@5 poll@6 => 0:0000040000000000 0:0000040000000000 0:0000040000000000 1:0000000000000000 1:0000000000000000 nak
# a release that wasn't acknowledged has no release of its own
enter@0 4 poll@1 up lost@2 part poll@3 poll@4 => 0:0000040000000000 1:0000000000000000 1:0000000000000000 nak
# a change of which no report was made is dropped
enter@0 4 part poll@1 => nak
enter@0 4 poll@1 4,5 part poll@2 poll@3 => 0:0000040000000000 1:0000000000000000 nak
# a selection over a due release, over a report that isn't acknowledged, and over both
enter@0 4 poll@1 part enter@10 5 poll@11 poll@12 poll@13 => 0:0000040000000000 1:0000000000000000 0:0000050000000000 nak
enter@0 4 lost@1 part enter@10 5 lost@11 poll@12 lost@13 poll@14 poll@15 poll@16 => 0:0000040000000000 0:0000040000000000 0:0000040000000000 1:0000000000000000 1:0000000000000000 0:0000050000000000 nak
enter@0 4 poll@1 part lost@2 enter@10 5 poll@11 poll@12 => 0:0000040000000000 1:0000000000000000 1:0000000000000000 0:0000050000000000
# left again before the release was read
enter@0 4 poll@1 part enter@2 part poll@3 poll@4 => 0:0000040000000000 1:0000000000000000 nak
# a key that stays down over a selection is pressed anew
enter@0 4 poll@1 part enter@2 4 poll@3 poll@4 => 0:0000040000000000 1:0000000000000000 0:0000040000000000
";

const RESETS: &str = "
# a bus reset drops what isn't acknowledged, the last report and what is undelivered, and restarts the toggle
enter@0 4 lost@1 reset@2 poll@3 => 0:0000040000000000 nak
enter@0 4 reset@2 poll@3 => nak
enter@0 4 poll@1 reset@2 poll@3 up 4 poll@4 => 0:0000040000000000 nak 0:0000040000000000
# a key that stays down isn't pressed again
enter@0 4 poll@1 reset@2 4,5 poll@3 poll@4 => 0:0000040000000000 0:0000050000000000 nak
# and it drops a due release
enter@0 4 poll@1 part reset@2 poll@3 => 0:0000040000000000 nak
enter@0 4 lost@1 part reset@2 poll@3 => 0:0000040000000000 nak
enter@0 4 poll@1 reset@2 part poll@3 => 0:0000040000000000 nak
# SET_CONFIGURATION does so too
enter@0 4 lost@1 configured poll@2 => 0:0000040000000000 nak
enter@0 4 poll@1 configured 4,5 poll@2 => 0:0000040000000000 0:0000050000000000
enter@0 4 poll@1 part configured poll@2 enter@3 poll@4 => 0:0000040000000000 nak nak
# a toggle that is restarted alone leaves the reports
enter@0 4 poll@1 restart up poll@2 => 0:0000040000000000 0:0000000000000000
enter@0 4 poll@1 up lost@2 restart poll@3 poll@4 => 0:0000040000000000 1:0000000000000000 0:0000000000000000 nak
";

const IDLE: &str = "
# 125 at first: half a second since the last acknowledged report
enter@100 4 poll@110 poll@609 poll@610 poll@1109 poll@1110 => 0:0000040000000000 nak 1:0000040000000000 nak 0:0000040000000000
# or since the selection, where no report was made too
enter@100 poll@599 poll@600 poll@601 => nak 0:0000000000000000 nak
enter@0 4 poll@1 up poll@2 part enter@1000 poll@1499 poll@1500 => 0:0000040000000000 1:0000000000000000 nak 0:0000000000000000
# a report that isn't acknowledged doesn't begin the time anew
enter@0 lost@500 poll@501 poll@1000 poll@1001 => 0:0000000000000000 0:0000000000000000 nak 1:0000000000000000
enter@0 4 lost@400 poll@410 poll@909 poll@910 => 0:0000040000000000 0:0000040000000000 nak 1:0000040000000000
# a due release that is acknowledged does
enter@0 4 poll@1 part enter@10 poll@300 poll@799 poll@800 => 0:0000040000000000 1:0000000000000000 nak 0:0000000000000000
# a change comes before a repeated report
enter@0 4 poll@600 poll@1100 => 0:0000040000000000 1:0000040000000000
# the rates 0, 1, 255 and 125 again
enter@0 set@0=210a000000000000 4 poll@1 poll@100000 => 0:0000040000000000 nak
enter@0 set@10=210a000100000000 poll@13 poll@14 poll@17 poll@18 => nak 0:0000000000000000 nak 1:0000000000000000
enter@0 set@10=210a00ff00000000 poll@1029 poll@1030 => nak 0:0000000000000000
enter@0 set@400=210a007d00000000 poll@899 poll@900 => nak 0:0000000000000000
# another request doesn't begin the time anew
enter@0 set@400=210b000000000000 poll@499 poll@500 => nak 0:0000000000000000
# a bus reset does, and the rate is 125 again
enter@0 set@0=210a000000000000 reset@100 poll@599 poll@600 get=a102000000000100 => nak 0:0000000000000000 7d
# SET_CONFIGURATION keeps the rate and the time
enter@0 set@0=210a000000000000 configured poll@100000 get=a102000000000100 => nak 00
enter@0 configured poll@499 poll@500 => nak 0:0000000000000000
# nothing is repeated while the port isn't selected
enter@0 4 poll@1 up poll@2 part poll@5000 => 0:0000040000000000 1:0000000000000000 nak
";

const REQUESTS: &str = "
# after a reset: the idle rate 125, the protocol of the report descriptor, no lamp, and nothing pressed
get=a102000000000100 get=a103000000000100 get=a101000200000100 get=a101000100000800 => 7d 01 00 0000000000000000
# the lamps are bits 0 to 4
set@0=2109000200000100=ff get=a101000200000100 => 1f
set@0=2109000200000100=05 get=a101000200000100 set@1=2109000200000100=e0 get=a101000200000100 => 05 00
set@0=2109000200000100=1f reset@1 get=a101000200000100 => 00
set@0=2109000200000100=03 configured get=a101000200000100 => 03
enter@0 set@0=2109000200000100=02 part get=a101000200000100 enter@1 get=a101000200000100 => 02 02
# the protocol, in which the reports are the same
set@0=210b000000000000 get=a103000000000100 configured get=a103000000000100 reset@1 get=a103000000000100 => 00 00 01
set@0=210b000000000000 set@1=210b010000000000 get=a103000000000100 => 01
set@0=210b000000000000 enter@0 4 poll@1 => 0:0000040000000000
# the last report, and nothing taken from the latch
enter@0 4 get=a101000100000800 poll@1 get=a101000100000800 => 0000000000000000 0:0000040000000000 0000040000000000
enter@0 4 lost@1 get=a101000100000800 poll@2 => 0:0000040000000000 0000040000000000 0:0000040000000000
enter@0 4 poll@1 part get=a101000100000800 poll@2 get=a101000100000800 => 0:0000040000000000 0000040000000000 1:0000000000000000 0000000000000000
enter@0 4 poll@1 reset@2 get=a101000100000800 => 0:0000040000000000 0000000000000000
# any length may be asked for
get=a102000000000000 get=a102000000000900 => 7d 7d
# what is taken, and what isn't: two bytes, an input report, the rate of one report, the other interface, a third protocol
takes=2109000200000100 takes=210a007d00000000 takes=210b010000000000 => yes yes yes
takes=2109000200000200 takes=2109000100000100 takes=210a017d00000000 takes=210a007d01000000 takes=210b020000000000 => no no no no no
takes=a102000000000100 takes=0009010000000000 takes=210a007d00000100 takes=220a007d00000000 => no no no no
# what is read, and what isn't: a feature report, one with an identifier, the other interface, a request that sets
get=a101000300000800 get=a101010100000800 get=a102010000000100 get=a102000001000100 => none none none none
get=a103000001000100 get=2109000200000100 get=8008000000000100 get=a103010000000100 => none none none none
# a request of the other interface changes nothing
set@0=210a000001000000 set@0=210b000001000000 get=a102000000000100 get=a103000000000100 => 7d 01
# the descriptors of interface 0, and no other
describe=8106002100000900 => 092111010001224000
describe=8106002200004000 => 05010906a101050719e029e71500250175019508810295017508810195057501050819012905910295017503910195067508150026a4000507190029a48100c0
describe=8106002101000900 describe=8106002201003400 describe=8006000100001200 describe=8106002300000900 => none none none none
";

/// The console's latch and the keyboard of one port.
#[derive(Drop)]
struct Station {
    keyboard: Keyboard,
    latch: KeyLatch,
}

/// The setup of these eight bytes.
pub(crate) fn setup_of(alloc: Global, text: &str) -> Result<Setup, Fail> {
    let bytes = hex(alloc, &[], text)?;
    match bytes.as_slice() {
        [kind, request, low, high, first, second, short, long] => Ok(Setup::read(&[
            *kind, *request, *low, *high, *first, *second, *short, *long,
        ])),
        _ => Err("no setup".into()),
    }
}

/// What a poll is answered: a toggle and a report, or `nak`.
pub(crate) fn push_answer(
    alloc: Global,
    answers: &mut String,
    answer: Answer,
) -> Result<(), AllocError> {
    match answer {
        Answer::Nak => answers.push_str(" nak")?,
        Answer::Data { toggle, bytes } => {
            answers.push_str(if toggle { " 1:" } else { " 0:" })?;
            push_hex(alloc, answers, bytes.as_slice())?;
        }
        Answer::Ack => answers.push_str(" ack")?,
        Answer::Stall => answers.push_str(" stall")?,
        Answer::Silent => answers.push_str(" silent")?,
    }
    Ok(())
}

/// One poll, by the side on which the port is.
fn poll(station: &mut Station, tick: Tick, acked: bool) -> Answer {
    if station.keyboard.is_entered() {
        station.keyboard.poll(tick, acked, &mut station.latch)
    } else {
        station.keyboard.poll_apart(acked)
    }
}

/// A completed request, where it has as many bytes as it says.
fn complete(alloc: Global, keyboard: &mut Keyboard, tick: Tick, text: &str) -> Result<(), Fail> {
    let (setup, bytes) = text.split_once('=').unwrap_or((text, ""));
    let setup = setup_of(alloc, setup)?;
    let bytes = hex(alloc, &[], bytes)?;
    if bytes.len() != setup.length as usize || bytes.len() > 64 {
        return Err("other bytes than the setup says".into());
    }
    keyboard.class_out(tick, &setup, bytes.as_slice());
    Ok(())
}

/// A call that has a tick.
fn call_at(
    alloc: Global,
    station: &mut Station,
    verb: &str,
    rest: &str,
    answers: &mut String,
) -> Result<(), Fail> {
    let (tick, text) = rest.split_once('=').unwrap_or((rest, ""));
    let tick: Tick = tick.parse()?;
    match verb {
        "enter" => enter(&mut station.keyboard, tick)?,
        "reset" => {
            station.keyboard.reset(tick);
            flush(station);
        }
        "poll" => push_answer(alloc, answers, poll(station, tick, true))?,
        "lost" => push_answer(alloc, answers, poll(station, tick, false))?,
        "set" => complete(alloc, &mut station.keyboard, tick, text)?,
        _ => return Err("no such call".into()),
    }
    Ok(())
}

fn enter(keyboard: &mut Keyboard, tick: Tick) -> Result<(), Fail> {
    if keyboard.is_entered() {
        return Err("entered twice".into());
    }
    keyboard.enter(tick);
    Ok(())
}

/// A bus reset and a configuration of the selected port flush the latch.
fn flush(station: &mut Station) {
    if station.keyboard.is_entered() {
        station.latch.flush();
    }
}

/// A call that names a setup.
fn ask(
    alloc: Global,
    keyboard: &Keyboard,
    verb: &str,
    setup: &str,
    answers: &mut String,
) -> Result<(), Fail> {
    let setup = setup_of(alloc, setup)?;
    answers.push_str(" ")?;
    match verb {
        "get" => match keyboard.class_in(&setup) {
            Some(bytes) => push_hex(alloc, answers, bytes.as_slice())?,
            None => answers.push_str("none")?,
        },
        "takes" => answers.push_str(if keyboard.class_takes(&setup) {
            "yes"
        } else {
            "no"
        })?,
        "describe" => match keyboard.descriptor(&setup) {
            Some(bytes) => push_hex(alloc, answers, bytes)?,
            None => answers.push_str("none")?,
        },
        _ => return Err("no such request".into()),
    }
    Ok(())
}

/// A call that has no more than its name.
fn call_plain(station: &mut Station, word: &str) -> Result<(), Fail> {
    match word {
        "part" => {
            if !station.keyboard.is_entered() {
                return Err("left twice".into());
            }
            station.keyboard.part();
            station.latch.clear();
        }
        "configured" => {
            station.keyboard.configured();
            flush(station);
        }
        "restart" => station.keyboard.restart(),
        _ => {
            let _ = station.latch.snapshot(&keys_of(word)?);
        }
    }
    Ok(())
}

/// Makes one call, and appends its answer.
fn call(
    alloc: Global,
    station: &mut Station,
    word: &str,
    answers: &mut String,
) -> Result<(), Fail> {
    match word.split_once('@') {
        Some((verb, rest)) => call_at(alloc, station, verb, rest, answers),
        None => match word.split_once('=') {
            Some((verb, setup)) => ask(alloc, &station.keyboard, verb, setup, answers),
            None => call_plain(station, word),
        },
    }
}

/// Checks each row of a text, and gives their number.
fn check(rt: &impl Abort, alloc: Global, text: &str) -> Result<u32, Fail> {
    let mut rows: u32 = 0;
    for row in text.lines() {
        if let Some((calls, want)) = row.split_once(" => ") {
            let mut station = Station {
                keyboard: Keyboard::new(),
                latch: KeyLatch::new(alloc)?,
            };
            let mut answers = String::new(alloc);
            for word in calls.split_whitespace() {
                call(alloc, &mut station, word, &mut answers)?;
            }
            assert_eq!(rt; answers.as_str().trim_start(), want, "{calls}");
            rows = rows.saturating_add(1);
        }
    }
    Ok(rows)
}

#[test]
fn keyboards_answer(rt: HostRuntime) -> Result<(), Fail> {
    assert_eq!(rt; check(&rt, rt.alloc(), POLLS)?, 10);
    assert_eq!(rt; check(&rt, rt.alloc(), SELECTIONS)?, 12);
    assert_eq!(rt; check(&rt, rt.alloc(), RESETS)?, 12);
    assert_eq!(rt; check(&rt, rt.alloc(), IDLE)?, 16);
    assert_eq!(rt; check(&rt, rt.alloc(), REQUESTS)?, 23);
    Ok(())
}
