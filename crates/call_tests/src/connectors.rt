//! Sessions at the keyboard and mouse connector of port 2 and at the console, with answers found by hand from HID 1.11, from
//! USB 2.0, 8.5.4 and chapter 9, and from what is said of the console.
//!
//! A row is a line of the port's transcript, its act and its answer; or a call. `wake` and `darken` are those of the port.
//! `give TICK` gives the console to the port, and `leave` takes it away. `keys 4,225 = 2/0` shows these keys at the console,
//! or none with `up`, and `pointer 1:5,0,0 = 2/0` buttons and a motion: so many of their changes are taken, and so many
//! refused. `is STATE GIVES` says in what state the port is, and how often the console was given. `#` gives the reason for
//! the next rows.
ghost use Rattle.std.specs.Prelude.{◌≡◌, true, false};
ghost use Rattle.km_port.specs.PortStands.{IsEntered};

use crate::latches::{keys_of, sample_of};
use input_latch::Offered;
use km_port::{Console, Dark, Live, Owned, Port, Vacant};
use port_transcript::read_port_line;
use psd_base::Sample;
use psd_base::act::Answer;
use psd_base::event::Tick;
use psd_base::line::Line;
use psd_base::port::PortId;
use std::alloc::{AllocError, Global};
use std::process::Abort;
use std::test::Fail;

/// A keyboard and a mouse are found, set up and polled; the port is selected, read and left.
const TYPING: &str = "
is dark 0
wake
is apart 0
# the device and its configuration
1 KM SETUP 0 8006000100001200 -> ACK
1 KM IN 0 0 1 -> DATA 1 1201000200000040feff0100000100000001
1 KM OUT 0 0 1 - -> ACK
2 KM SETUP 0 0005040000000000 -> ACK
2 KM IN 0 0 1 -> DATA 1 -
3 KM SETUP 4 800600020000ff00 -> ACK
3 KM IN 4 0 1 -> DATA 1 09023b0002010080320904000001030101000921110100012240000705810308000a0904010001030102000921110100012234000705820304000a
# the keyboard and the mouse aren't there before they are configured, and have nothing to say before the port is selected
4 KM IN 4 1 1 -> SILENT
5 KM SETUP 4 0009010000000000 -> ACK
5 KM IN 4 0 1 -> DATA 1 -
6 KM IN 4 1 1 -> NAK
6 KM IN 4 2 1 -> NAK
6 KM IN 4 3 1 -> SILENT
give 10
is selected 1
# a report for each change, modifiers first; what isn't acknowledged comes again
keys 4,225 = 2/0
11 KM IN 4 1 0 -> DATA 0 0200000000000000
12 KM IN 4 1 1 -> DATA 0 0200000000000000
13 KM IN 4 1 1 -> DATA 1 0200040000000000
14 KM IN 4 1 1 -> NAK
# a click, and a motion in three pieces
pointer 1:300,-5,0 = 2/0
15 KM IN 4 2 1 -> DATA 0 01000000
16 KM IN 4 2 1 -> DATA 1 017ffb00
17 KM IN 4 2 0 -> DATA 0 017f0000
18 KM IN 4 2 1 -> DATA 0 017f0000
# the class requests of both interfaces
19 KM SETUP 4 a101000100000800 -> ACK
19 KM IN 4 0 1 -> DATA 1 0200040000000000
20 KM SETUP 4 a101000101000400 -> ACK
20 KM IN 4 0 1 -> DATA 1 01000000
# left with a key and a button down, a key that wasn't read, and the last piece
keys 4,5,225 = 1/0
leave
is apart 1
21 KM IN 4 1 1 -> DATA 0 0000000000000000
22 KM IN 4 1 1 -> NAK
23 KM IN 4 2 0 -> DATA 1 00000000
24 KM IN 4 2 1 -> DATA 1 00000000
25 KM IN 4 2 1 -> NAK
# the console is as new for the next selection
give 30
is selected 2
keys 4,5 = 2/0
31 KM IN 4 1 1 -> DATA 1 0000040000000000
32 KM IN 4 1 1 -> DATA 0 0000040500000000
darken
is dark 2
";

/// What drops the changes that wait, and what is left of a port that was dark.
const RESETS: &str = "
wake
1 KM SETUP 0 0009010000000000 -> ACK
1 KM IN 0 0 1 -> DATA 1 -
give 10
# a bus reset drops what waits and what was held, and a key that stays down isn't pressed again
keys 4 = 1/0
pointer 1:0,0,0 = 1/0
11 KM RESET -> SILENT
12 KM SETUP 0 0009010000000000 -> ACK
12 KM IN 0 0 1 -> DATA 1 -
13 KM IN 0 1 1 -> NAK
13 KM IN 0 2 1 -> NAK
keys 4,5 = 1/0
14 KM IN 0 1 1 -> DATA 0 0000050000000000
# and so does a configuration that is completed
keys 4,5,6 = 1/0
15 KM SETUP 0 0009010000000000 -> ACK
15 KM IN 0 0 0 -> DATA 1 -
15 KM IN 0 0 1 -> DATA 1 -
16 KM IN 0 1 1 -> NAK
# a halted endpoint stalls, and takes nothing
17 KM SETUP 0 0203000081000000 -> ACK
17 KM IN 0 0 1 -> DATA 1 -
keys 4,5,6,7 = 1/0
18 KM IN 0 1 1 -> STALL
19 KM SETUP 0 0201000081000000 -> ACK
19 KM IN 0 0 1 -> DATA 1 -
20 KM IN 0 1 1 -> DATA 0 0000070000000000
# in half a second the selected computer reads the last report again
519 KM IN 0 1 1 -> NAK
520 KM IN 0 1 1 -> DATA 1 0000070000000000
# a port that was dark knows nothing of what it was
darken
wake
521 KM IN 0 1 1 -> SILENT
521 KM SETUP 0 8008000000000100 -> ACK
521 KM IN 0 0 1 -> DATA 1 00
is apart 1
";

/// A live port that isn't selected, and the console.
#[derive(Drop)]
struct Apart {
    port: Port<Live>,
    console: Console<Vacant>,
    ghost apart: { IsEntered false port.state.pipe.function },
}

/// A live port that has the console.
#[derive(Drop)]
struct Selected {
    port: Port<Live>,
    console: Console<Owned>,
    ghost selected: { IsEntered true port.state.pipe.function },
    ghost owner: { console.state.port ≡ port.id },
}

#[derive(Drop)]
enum Station {
    Dark(Port<Dark>, Console<Vacant>),
    Apart(Apart),
    Selected(Selected),
}

impl Apart {
    fn give(self, rt: &impl Abort, tick: Tick) -> Result<Selected, Fail> {
        let Apart { mut port, console } = self;
        if console.gives() == u32::MAX {
            return Err("given too often".into());
        }
        let (console, welcome) = console.give(tick, port.id());
        assert_eq!(rt; welcome.port(), port.id());
        assert_eq!(rt; welcome.tick(), tick);
        port.welcome(welcome);
        Ok(Selected { port, console })
    }

    fn answer(&mut self, line: &Line, answer: &mut Answer) {
        self.port.km_apart(line.tick, &line.act, answer);
    }
}

impl Selected {
    fn leave(self, rt: &impl Abort) -> Apart {
        let Selected { mut port, console } = self;
        let (console, farewell) = console.leave();
        assert_eq!(rt; farewell.port(), port.id());
        port.farewell(farewell);
        Apart { port, console }
    }

    fn answer(&mut self, line: &Line, answer: &mut Answer) {
        self.port
            .km_owned(line.tick, &line.act, &mut self.console, answer);
    }

    /// Shows a sample at the console, where it is one.
    fn show(&mut self, sample: &Sample) -> Result<Offered, Fail> {
        let least = -2_147_483_647;
        if sample.buttons < 32 && sample.x >= least && sample.y >= least && sample.wheel >= least {
            Ok(self.console.pointer(sample))
        } else {
            Err("no such sample".into())
        }
    }
}

impl Station {
    fn wake(self) -> Result<Station, Fail> {
        match self {
            Station::Dark(port, console) => Ok(Station::Apart(Apart {
                port: port.wake(),
                console,
            })),
            Station::Apart(_) => Err("awake already".into()),
            Station::Selected(_) => Err("awake already".into()),
        }
    }

    fn darken(self, rt: &impl Abort) -> Result<Station, Fail> {
        let Apart { port, console } = match self {
            Station::Dark(_, _) => return Err("dark already".into()),
            Station::Apart(apart) => apart,
            Station::Selected(selected) => selected.leave(rt),
        };
        Ok(Station::Dark(port.darken(), console))
    }

    fn give(self, rt: &impl Abort, tick: Tick) -> Result<Station, Fail> {
        match self {
            Station::Dark(_, _) => Err("it is dark".into()),
            Station::Apart(apart) => Ok(Station::Selected(apart.give(rt, tick)?)),
            Station::Selected(_) => Err("selected already".into()),
        }
    }

    fn leave(self, rt: &impl Abort) -> Result<Station, Fail> {
        match self {
            Station::Dark(_, _) => Err("it is dark".into()),
            Station::Apart(_) => Err("not selected".into()),
            Station::Selected(selected) => Ok(Station::Apart(selected.leave(rt))),
        }
    }

    /// The state of the port, and how often the console was given.
    fn text(&self, rt: &impl Abort, alloc: Global) -> Result<String, AllocError> {
        match self {
            Station::Dark(_, console) => format!(in alloc; "dark {}", console.gives()),
            Station::Apart(apart) => format!(in alloc; "apart {}", apart.console.gives()),
            Station::Selected(selected) => {
                assert_eq!(rt; selected.console.port(), selected.port.id());
                format!(in alloc; "selected {}", selected.console.gives())
            }
        }
    }

    fn answer(&mut self, line: &Line) -> Result<Answer, Fail> {
        let mut answer = Answer::Silent;
        match self {
            Station::Dark(_, _) => return Err("a dark port has no answer".into()),
            Station::Apart(apart) => apart.answer(line, &mut answer),
            Station::Selected(selected) => selected.answer(line, &mut answer),
        }
        Ok(answer)
    }

    /// Shows keys, or a sample, at the console of the selected port.
    fn show(&mut self, word: &str) -> Result<Offered, Fail> {
        match self {
            Station::Dark(_, _) => Err("it is dark".into()),
            Station::Apart(_) => Err("not selected".into()),
            Station::Selected(selected) => {
                if word.contains(':') {
                    selected.show(&sample_of(word)?)
                } else {
                    Ok(selected.console.keys(&keys_of(word)?))
                }
            }
        }
    }
}

/// An act of the port's computer, and its answer.
fn serve_act(rt: &impl Abort, alloc: Global, station: &mut Station, row: &str) -> Result<(), Fail> {
    let mut text = String::from_str(alloc, row)?;
    text.push_str("\n")?;
    let line = read_port_line(text.as_bytes()).ok_or("no line")?;
    assert_eq!(rt; station.answer(&line)?, line.answer, "{row}");
    Ok(())
}

/// What is shown at the console, and how many changes of it are taken and refused.
fn serve_show(
    rt: &impl Abort,
    alloc: Global,
    station: &mut Station,
    words: &str,
) -> Result<(), Fail> {
    let (word, want) = words.split_once(" = ").ok_or("no counts")?;
    let Offered { taken, refused } = station.show(word)?;
    let counts = format!(in alloc; "{taken}/{refused}")?;
    assert_eq!(rt; counts.as_str(), want, "{words}");
    Ok(())
}

fn serve_row(
    rt: &impl Abort,
    alloc: Global,
    mut station: Station,
    row: &str,
) -> Result<Station, Fail> {
    match row.split_once(' ').unwrap_or((row, "")) {
        ("", _) => Ok(station),
        ("#", _) => Ok(station),
        ("wake", _) => station.wake(),
        ("darken", _) => station.darken(rt),
        ("give", tick) => station.give(rt, tick.parse()?),
        ("leave", _) => station.leave(rt),
        ("is", want) => {
            assert_eq!(rt; station.text(rt, alloc)?.as_str(), want);
            Ok(station)
        }
        ("keys", words) => {
            serve_show(rt, alloc, &mut station, words)?;
            Ok(station)
        }
        ("pointer", words) => {
            serve_show(rt, alloc, &mut station, words)?;
            Ok(station)
        }
        (_, _) => {
            serve_act(rt, alloc, &mut station, row)?;
            Ok(station)
        }
    }
}

fn run(rt: &impl Abort, alloc: Global, rows: &str) -> Result<(), Fail> {
    let id = PortId::new(2).ok_or("no port")?;
    let mut station = Station::Dark(Port::new(id), Console::new(alloc)?);
    for row in rows.lines() {
        station = serve_row(rt, alloc, station, row)?;
    }
    Ok(())
}

#[test]
fn a_computer_reads_what_is_typed(rt: HostRuntime) -> Result<(), Fail> {
    run(&rt, rt.alloc(), TYPING)
}

#[test]
fn resets_drop_what_waits(rt: HostRuntime) -> Result<(), Fail> {
    run(&rt, rt.alloc(), RESETS)
}
