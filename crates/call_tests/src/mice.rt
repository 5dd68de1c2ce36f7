//! Sessions at the emulated mouse, with answers found by hand from its rules.
//!
//! A row is `CALLS => ANSWERS`. `enter`, `part`, `reset`, `conf` and `restart` answer nothing. `BUTTONS:X,Y,WHEEL` shows a
//! sample to the latch, which a deselection clears, and which a reset or a configuration flushes while the port is
//! selected. `ack` and `lost` are polls whose answer the host acknowledges or not: `TOGGLE:BYTES`, or `nak`. Eight bytes
//! are a setup: one that reads is answered the bytes, or `-` where there are none; one that sets something is carried out,
//! which answers `yes`, or refused, `no`. A row with `#` gives the reason for the next ones.
use crate::hexadecimal::push_hex;
use crate::keyboards::{push_answer, setup_of};
use crate::latches::{sample_of, show};
use control_pipe::Function;
use emulated_mouse::Mouse;
use input_latch::PointerLatch;
use psd_base::{Answer, Packet, Setup};
use std::alloc::{AllocError, Global};
use std::process::Abort;
use std::test::Fail;

const POLLS: &str = "
# nothing to answer
ack lost => nak nak
enter ack ack => nak nak
# the worked row: one motion in three pieces
enter 0:300,-5,0 ack ack ack ack => 0:007ffb00 1:007f0000 0:002e0000 nak
# a bit for each button, and the changes of one sample in order, its motion last
enter 1:0,0,0 3:0,0,0 7:0,0,0 15:0,0,0 31:0,0,0 ack ack ack ack ack ack => 0:01000000 1:03000000 0:07000000 1:0f000000 0:1f000000 nak
enter 5:0,0,0 18:1,2,3 ack ack ack ack ack ack ack ack => 0:01000000 1:05000000 0:04000000 1:00000000 0:02000000 1:12000000 0:12010203 nak
# signed bytes
enter 0:-1,-127,127 ack ack => 0:00ff817f nak
# no piece says -128
enter 0:-128,0,128 ack ack ack => 0:0081007f 1:00ff0001 nak
# 127 counts are one piece, 254 are two, 255 three
enter 0:127,0,0 ack ack => 0:007f0000 nak
enter 0:0,254,0 ack ack ack => 0:00007f00 1:00007f00 nak
enter 0:0,0,-255 ack ack ack ack => 0:00000081 1:00000081 0:000000ff nak
# motions that come to nothing are one report
enter 0:5,0,0 0:-5,0,0 ack ack => 0:00000000 nak
# a motion is added to one that isn't begun; behind one that is, it waits for the pieces
enter 0:100,0,0 0:100,0,0 ack ack ack => 0:007f0000 1:00490000 nak
enter 0:200,0,0 ack 0:1,0,0 ack ack ack => 0:007f0000 1:00490000 0:00010000 nak
enter 0:0,300,0 1:0,0,0 ack ack ack ack ack => 0:00007f00 1:00007f00 0:00002e00 1:01000000 nak
# what isn't acknowledged comes again: at the first piece, at a later one, at a press, at a release
enter 0:300,-5,0 lost lost ack lost ack ack lost => 0:007ffb00 0:007ffb00 0:007ffb00 1:007f0000 1:007f0000 0:002e0000 nak
enter 1:0,0,0 lost ack 0:0,0,0 lost lost ack ack => 0:01000000 0:01000000 1:00000000 1:00000000 1:00000000 nak
# with the toggle of this moment
enter 1:0,0,0 ack 0:0,0,0 lost restart ack ack => 0:01000000 1:00000000 0:00000000 nak
# left with a button down: its release
enter 1:0,0,0 ack part ack ack => 0:01000000 1:00000000 nak
# after the report that wasn't acknowledged
enter 1:0,0,0 lost part lost ack lost ack ack => 0:01000000 0:01000000 0:01000000 1:00000000 1:00000000 nak
enter 0:1,0,0 lost part ack ack => 0:00010000 0:00010000 nak
# leaving drops the pieces that are left, and not the one that wasn't acknowledged
enter 0:300,0,0 ack part ack enter ack => 0:007f0000 nak nak
enter 0:300,0,0 lost part ack ack enter ack => 0:007f0000 0:007f0000 nak nak
enter 1:300,0,0 ack ack part ack ack enter ack => 0:01000000 1:017f0000 0:00000000 nak nak
# a due release stays due over a selection, and comes before what that brings
enter 1:0,0,0 ack part enter 2:0,0,0 ack ack ack => 0:01000000 1:00000000 0:02000000 nak
enter 1:0,0,0 lost part enter 0:5,0,0 ack ack ack ack => 0:01000000 0:01000000 1:00000000 0:00050000 nak
enter 1:0,0,0 ack part enter part enter part ack ack => 0:01000000 1:00000000 nak
# once
enter 1:0,0,0 ack part ack enter part ack => 0:01000000 1:00000000 nak
enter 1:0,0,0 ack part lost enter part ack ack => 0:01000000 1:00000000 1:00000000 nak
# a bus reset and a configuration in the middle of a motion
enter 0:300,0,0 ack reset ack 0:1,0,0 ack => 0:007f0000 nak 0:00010000
enter 0:300,0,0 lost reset ack 0:1,0,0 ack => 0:007f0000 nak 0:00010000
enter 0:300,0,0 ack ack conf ack 0:1,0,0 ack => 0:007f0000 1:007f0000 nak 0:00010000
# they drop what wasn't acknowledged and what is due
enter 1:0,0,0 lost reset ack 1:0,0,0 0:0,0,0 ack => 0:01000000 nak nak
enter 1:0,0,0 ack part reset ack => 0:01000000 nak
enter 1:0,0,0 ack part conf ack => 0:01000000 nak
enter 1:0,0,0 lost part conf ack => 0:01000000 nak
enter 1:0,0,0 ack part reset enter 0:7,0,0 ack ack => 0:01000000 0:00070000 nak
# a button that stays down over a bus reset isn't shown after it
enter 1:0,0,0 ack reset 1:4,0,0 ack ack => 0:01000000 0:00040000 nak
";

const REQUESTS: &str = "
# GET_REPORT: the buttons of the report that was made last, and no motion; it takes nothing
a101000101000400 => 00000000
enter 1:5,0,0 ack a101000101000400 ack a101000101000400 ack => 0:01000000 01000000 1:01050000 01000000 nak
enter 4:0,0,0 lost a101000101000400 part a101000101000400 ack ack a101000101000400 => 0:04000000 04000000 04000000 0:04000000 1:00000000 00000000
enter 4:0,0,0 ack reset a101000101000400 => 0:04000000 00000000
# GET_IDLE and SET_IDLE, GET_PROTOCOL and SET_PROTOCOL
a102000001000100 210a001901000000 a102000001000100 => 00 yes 19
a103000001000100 210b000001000000 a103000001000100 210b010001000000 a103000001000100 => 01 yes 00 yes 01
210b020001000000 210a011901000000 a102000001000100 => no no 00
# a bus reset sets them back, a configuration doesn't
210a001901000000 210b000001000000 conf a102000001000100 a103000001000100 => yes yes 19 00
210a001901000000 210b000001000000 reset a102000001000100 a103000001000100 => yes yes 00 01
# the mouse never repeats a report
210a000101000000 enter 1:0,0,0 ack ack ack => yes 0:01000000 nak nak
# the other interface's requests, and those of lamps, which there are none of
a101000100000800 a102000000000100 210a001900000000 210b000000000000 => - - no no
a101000201000100 2109000201000000 2109000201000100 => - no no
# the HID descriptor and the report descriptor, and no other
8106002101000900 => 092111010001223400
8106002201003400 => 05010902a1010901a1000509190129051500250195057501810295017503810105010930093109381581257f750895038106c0c0
8106002100000900 8106002200004000 8006000100001200 8106002301000900 => - - - -
";

/// A mouse, and the latch that it is lent while its port is selected.
#[derive(Drop)]
struct Desk {
    mouse: Mouse,
    latch: PointerLatch,
}

impl Desk {
    fn new(alloc: Global) -> Result<Desk, AllocError> {
        Ok(Desk {
            mouse: Mouse::new(),
            latch: PointerLatch::new(alloc)?,
        })
    }

    fn enter(&mut self) -> Result<(), Fail> {
        if self.mouse.is_entered() {
            return Err("entered twice".into());
        }
        self.mouse.enter(0);
        Ok(())
    }

    fn part(&mut self) -> Result<(), Fail> {
        if !self.mouse.is_entered() {
            return Err("not entered".into());
        }
        self.mouse.part();
        self.latch.clear();
        Ok(())
    }

    /// A bus reset, or a configuration, of a selected port flushes the latch.
    fn flush(&mut self) {
        if self.mouse.is_entered() {
            self.latch.flush();
        }
    }

    fn poll(&mut self, acked: bool) -> Answer {
        if self.mouse.is_entered() {
            self.mouse.poll(acked, &mut self.latch)
        } else {
            self.mouse.poll_apart(acked)
        }
    }
}

/// What a request that reads is answered.
fn bytes_text(alloc: Global, bytes: Option<&[u8]>) -> Result<String, AllocError> {
    let mut text = String::from_str(alloc, " ")?;
    match bytes {
        None => text.push_str("-")?,
        Some(bytes) => push_hex(alloc, &mut text, bytes)?,
    }
    Ok(text)
}

/// Asks the mouse by a setup, and appends its answer.
fn ask(alloc: Global, mouse: &mut Mouse, setup: Setup, answers: &mut String) -> Result<(), Fail> {
    if setup.kind >= 0x80 {
        let text = match mouse.descriptor(&setup) {
            Some(bytes) => bytes_text(alloc, Some(bytes))?,
            None => {
                let packet: Option<Packet> = mouse.class_in(&setup);
                bytes_text(alloc, packet.as_ref().map(|bytes| bytes.as_slice()))?
            }
        };
        answers.push_str(text.as_str())?;
    } else if mouse.class_takes(&setup) && setup.length == 0 {
        mouse.class_out(0, &setup, &[]);
        answers.push_str(" yes")?;
    } else {
        answers.push_str(" no")?;
    }
    Ok(())
}

/// Makes one call, and appends its answer.
fn call(alloc: Global, desk: &mut Desk, word: &str, answers: &mut String) -> Result<(), Fail> {
    match word {
        "enter" => desk.enter()?,
        "part" => desk.part()?,
        "reset" => {
            desk.flush();
            desk.mouse.reset(0);
        }
        "conf" => {
            desk.flush();
            desk.mouse.configured();
        }
        "restart" => desk.mouse.restart(),
        "ack" => push_answer(alloc, answers, desk.poll(true))?,
        "lost" => push_answer(alloc, answers, desk.poll(false))?,
        _ => {
            if word.contains(':') {
                let _ = show(&mut desk.latch, sample_of(word)?)?;
            } else {
                ask(alloc, &mut desk.mouse, setup_of(alloc, word)?, answers)?;
            }
        }
    }
    Ok(())
}

/// Runs the rows, each from a mouse and a latch of its own, and counts them.
fn check(rt: &impl Abort, alloc: Global, rows: &str) -> Result<u32, Fail> {
    let mut count: u32 = 0;
    for row in rows.lines() {
        if let Some((calls, want)) = row.split_once(" => ") {
            let mut desk = Desk::new(alloc)?;
            let mut answers = String::new(alloc);
            for word in calls.split_whitespace() {
                call(alloc, &mut desk, word, &mut answers)?;
            }
            assert_eq!(rt; answers.as_str().trim_start(), want, "{calls}");
            count = count.saturating_add(1);
        }
    }
    Ok(count)
}

#[test]
fn polls_are_answered(rt: HostRuntime) -> Result<(), Fail> {
    assert_eq!(rt; check(&rt, rt.alloc(), POLLS)?, 37);
    Ok(())
}

#[test]
fn requests_are_answered(rt: HostRuntime) -> Result<(), Fail> {
    assert_eq!(rt; check(&rt, rt.alloc(), REQUESTS)?, 15);
    Ok(())
}
