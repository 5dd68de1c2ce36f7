//! The console that a switch lends: a target that waits for a key, told event by event.
//!
//! A row is an event of a switch with two ports, `TICK clock`, a line of the script, or what a keyboard does: `TICK attach`,
//! `TICK reply NUMBER BYTES` in its life 1, `TICK report BYTES` of its interface 0. Behind ` = ` stands the console that the
//! switch lends then, `none` or its port and how often it was given. `#` gives the reason for the next rows.
ghost use Rattle.std.specs.Prelude.{◌≡◌};
ghost use Rattle.psd_base.specs.Event.{happening_of, HappensWithin};
ghost use Rattle.switch_core.specs.StandsFor.{port_total};

use crate::sessions::digit;
use arrayvec::ArrayVec;
use peripheral_filter::RuleSet;
use psd_base::act::Answer;
use psd_base::console::{CHECKS, Panel, Plug};
use psd_base::event::{EVENTS_MAX, Event, Tick, What};
use psd_base::port::PortId;
use std::alloc::{AllocError, Global};
use std::test::Fail;
use switch_core::{Switch, Turn};

const ROWS: &str = "
0 check 1 pass = none
0 check 2 pass = none
0 check 3 pass = none
0 check 4 pass = none
0 attach = none
0 reply 1 120100020000000834120100000100000001 = none
0 reply 2 - = none
0 reply 3 09022200010100a032 = none
0 reply 4 09022200010100a0320904000001030101000921110100012240000705810308000a = none
0 reply 5 - = none
0 reply 6 05010906a101050719e029e71500250175019508810295017508810195057501050819012905910295017503910195067508150026a4000507190029a48100c0 = none
# held for 100 ticks
10 guard down = none
10 1 down = none
109 clock = none
110 clock = 1 1
111 clock = 1 1
120 guard up = 1 1
120 1 up = 1 1
140 report 0200000000000000 = 1 1
150 guard down = 1 1
150 2 down = 1 1
# port 1 is left, and shift is down
250 clock = none
300 clock = none
310 report 0000000000000000 = none
# one console, which went to port 1 and then to port 2
320 clock = 2 2
330 guard up = 2 2
330 2 up = 2 2
340 guard down = 2 2
340 1 down = 2 2
440 clock = 1 3
# nobody has it in the dark
450 tamper = none
460 clock = none
";

/// A switch of two ports.
#[derive(Drop)]
struct Station {
    switch: Switch,
    turn: Turn,
    ghost ports: { port_total switch ≡ 2 },
}

impl Station {
    fn new(alloc: Global) -> Result<Station, AllocError> {
        let rules = RuleSet {
            allow: ArrayVec::new(),
            deny: ArrayVec::new(),
        };
        Ok(Station {
            switch: Switch::new(alloc, rules, 2)?,
            turn: Turn::new(),
        })
    }

    fn serve(&mut self, event: &Event) -> Result<(), Fail>
        requires { HappensWithin 2 (happening_of event.now.what) }
    {
        if self.switch.served() >= EVENTS_MAX {
            return Err("too many events".into());
        }
        self.switch.step(event, &mut self.turn);
        Ok(())
    }

    /// The console that the switch lends.
    fn console(&self, alloc: Global) -> Result<String, AllocError> {
        match self.switch.console() {
            None => String::from_str(alloc, "none"),
            Some(console) => {
                format!(in alloc; "{} {}", console.port().number(), console.gives())
            }
        }
    }
}

/// The bytes of these digits, or none where there is `-`.
fn bytes_of(alloc: Global, digits: &str) -> Result<Vec<u8>, AllocError> {
    let mut bytes = Vec::new(alloc);
    for pair in digits.as_bytes().chunks(2) {
        if let [high, low] = pair {
            bytes.push(digit(*high) * 16 + digit(*low))?;
        }
    }
    Ok(bytes)
}

/// A check of the self-test ends.
fn check(station: &mut Station, tick: Tick, number: &str, word: &str) -> Result<(), Fail> {
    let number: u8 = number.parse()?;
    if number == 0 || number > CHECKS {
        return Err("no such check".into());
    }
    station.serve(&Event {
        tick,
        what: What::Panel(Panel::Check(number, word == "pass")),
    })
}

/// The button of port 1 or 2 moves.
fn button(station: &mut Station, tick: Tick, number: &str, word: &str) -> Result<(), Fail> {
    let port = PortId::new(number.parse()?).ok_or("no such port")?;
    if port.number() > 2 {
        return Err("no such port".into());
    }
    station.serve(&Event {
        tick,
        what: What::Panel(Panel::Button(port, word == "down")),
    })
}

/// An event of one word.
fn plain(station: &mut Station, tick: Tick, word: &str) -> Result<(), Fail> {
    match word {
        "clock" => station.serve(&Event {
            tick,
            what: What::Clock,
        }),
        "tamper" => station.serve(&Event {
            tick,
            what: What::Panel(Panel::Tamper),
        }),
        "attach" => station.serve(&Event {
            tick,
            what: What::Attach(Plug::Keyboard),
        }),
        _ => Err("no such event".into()),
    }
}

/// The keyboard replies to the order of this number.
fn reply(station: &mut Station, tick: Tick, number: &str, bytes: &[u8]) -> Result<(), Fail> {
    station.serve(&Event {
        tick,
        what: What::Reply {
            plug: Plug::Keyboard,
            life: 1,
            number: number.parse()?,
            status: 0,
            bytes,
        },
    })
}

/// The keyboard says which keys are down.
fn report(station: &mut Station, tick: Tick, bytes: &[u8]) -> Result<(), Fail> {
    station.serve(&Event {
        tick,
        what: What::Report {
            plug: Plug::Keyboard,
            interface: 0,
            bytes,
        },
    })
}

fn serve_row(alloc: Global, station: &mut Station, row: &str) -> Result<(), Fail> {
    let (tick, words) = row.split_once(' ').ok_or("no tick")?;
    let tick: Tick = tick.parse()?;
    match words.split_once(' ') {
        None => plain(station, tick, words),
        Some(("guard", word)) => station.serve(&Event {
            tick,
            what: What::Panel(Panel::Guard(word == "down")),
        }),
        Some(("check", rest)) => {
            let (number, word) = rest.split_once(' ').ok_or("no end of a check")?;
            check(station, tick, number, word)
        }
        Some(("reply", rest)) => {
            let (number, digits) = rest.split_once(' ').ok_or("no bytes")?;
            reply(station, tick, number, bytes_of(alloc, digits)?.as_slice())
        }
        Some(("report", digits)) => report(station, tick, bytes_of(alloc, digits)?.as_slice()),
        Some((number, word)) => button(station, tick, number, word),
    }
}

#[test]
fn the_selected_port_has_the_console(rt: HostRuntime) -> Result<(), Fail> {
    let mut station = Station::new(rt.alloc())?;
    for line in ROWS.lines() {
        if let Some((row, want)) = line.split_once(" = ") {
            serve_row(rt.alloc(), &mut station, row)?;
            assert_eq!(rt; station.console(rt.alloc())?.as_str(), want, "{row}");
        }
    }
    Ok(())
}

#[test]
fn a_clock_of_a_new_switch_gives_nothing(rt: HostRuntime) -> Result<(), Fail> {
    let mut station = Station::new(rt.alloc())?;
    station.serve(&Event {
        tick: 0,
        what: What::Clock,
    })?;
    assert_eq!(rt; station.turn.answer, Answer::Silent);
    assert!(rt; station.turn.orders.is_empty());
    assert!(rt; station.turn.notes.is_empty());
    Ok(())
}
