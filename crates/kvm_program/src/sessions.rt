//! Whole runs at a desk in memory, each as lines of one text: what lies at the desk, and all that is written.
//!
//! A run begins with `#` and what it shows. `rules` and `script` give a line of these files, `capture` bytes of the capture in
//! hexadecimal, and `script @passes` the four checks that pass. `port1` to `port8`, `console`, `log`, `report` and `faults`
//! give a line that is written there, and nothing else is. A run stops exactly where it writes to the faults.
ghost use Rattle.std.specs.Prelude.{◌<◌};

use crate::run::kvm;
use psd_base::memory_desk::MemoryDesk;
use psd_base::outlet::Outlet;
use psd_base::port::PortId;
use psd_base::words::Words;
use std::alloc::{AllocError, Global};
use std::test::Fail;

/// Room of each outlet, in bytes.
const ROOM: u32 = 4096;

/// The four checks of the self-test pass.
const PASSES: &str = "0 check 1 pass\n0 check 2 pass\n0 check 3 pass\n0 check 4 pass\n";

/// All outlets.
const OUTLETS: &str = "report faults console log port1 port2 port3 port4 port5 port6 port7 port8";

const RUNS: &str = "
# the configuration twice
script @passes
capture 4b56433102000000
capture 0100000011410900008006000200000900
capture 0100000013410300000001
capture 0100000012410300000001
capture 010000001141090000800600020000ff00
capture 0100000013410300000001
capture 0100000012410300000001
port1 1 KM SETUP 0 8006000200000900 -> ACK
port1 1 KM IN 0 0 1 -> DATA 1 09023b000201008032
port1 1 KM OUT 0 0 1 - -> ACK
port1 1 KM SETUP 0 800600020000ff00 -> ACK
port1 1 KM IN 0 0 1 -> DATA 1 09023b0002010080320904000001030101000921110100012240000705810308000a0904010001030102000921110100012234000705820304000a
port1 1 KM OUT 0 0 1 - -> ACK
log 0 ALIVE
report events 10
report ports 2
report refused 0
report left 0
report port 1 308
report port 2 0
# a report descriptor with a longer length
script @passes
capture 4b56433102000000
capture 010000001141090000810600220000ff00
capture 0100000013410300000001
capture 0100000013410300000001
capture 0100000012410300000001
port1 1 KM SETUP 0 810600220000ff00 -> ACK
port1 1 KM IN 0 0 1 -> DATA 1 05010906a101050719e029e71500250175019508810295017508810195057501050819012905910295017503910195067508150026a4000507190029a48100c0
port1 1 KM IN 0 0 1 -> DATA 0 -
port1 1 KM OUT 0 0 1 - -> ACK
log 0 ALIVE
report events 8
report ports 2
report refused 0
report left 0
report port 1 240
report port 2 0
# a report descriptor with its exact length
script @passes
capture 4b56433102000000
capture 0100000011410900008106002200004000
capture 0100000013410300000001
capture 0100000012410300000001
port1 1 KM SETUP 0 8106002200004000 -> ACK
port1 1 KM IN 0 0 1 -> DATA 1 05010906a101050719e029e71500250175019508810295017508810195057501050819012905910295017503910195067508150026a4000507190029a48100c0
port1 1 KM OUT 0 0 1 - -> ACK
log 0 ALIVE
report events 7
report ports 2
report refused 0
report left 0
report port 1 214
report port 2 0
# an address that is not acknowledged
script @passes
capture 4b56433102000000
capture 0100000011410900000005050000000000
capture 0100000013410300000000
capture 0100000013410300050001
capture 0100000013410300000001
capture 0100000011410900008008000000000100
capture 0100000011410900058008000000000100
capture 0100000013410300050001
port1 1 KM SETUP 0 0005050000000000 -> ACK
port1 1 KM IN 0 0 0 -> DATA 1 -
port1 1 KM IN 5 0 1 -> SILENT
port1 1 KM IN 0 0 1 -> DATA 1 -
port1 1 KM SETUP 0 8008000000000100 -> SILENT
port1 1 KM SETUP 5 8008000000000100 -> ACK
port1 1 KM IN 5 0 1 -> DATA 1 00
log 0 ALIVE
report events 11
report ports 2
report refused 0
report left 0
report port 1 217
report port 2 0
# a transfer that is left
script @passes
capture 4b56433102000000
capture 010000001141090000810600220000ff00
capture 0100000013410300000001
capture 0100000011410900008000000000000200
capture 0100000013410300000001
port1 1 KM SETUP 0 810600220000ff00 -> ACK
port1 1 KM IN 0 0 1 -> DATA 1 05010906a101050719e029e71500250175019508810295017508810195057501050819012905910295017503910195067508150026a4000507190029a48100c0
port1 1 KM SETUP 0 8000000000000200 -> ACK
port1 1 KM IN 0 0 1 -> DATA 1 0000
log 0 ALIVE
report events 8
report ports 2
report refused 0
report left 0
report port 1 256
report port 2 0
# the device qualifier
script @passes
capture 4b56433102000000
capture 0100000011410900008006000600000a00
capture 0100000013410300000001
capture 0100000013410300000001
capture 0100000012410300000001
capture 0100000011410900008006000600000a00
port1 1 KM SETUP 0 8006000600000a00 -> ACK
port1 1 KM IN 0 0 1 -> STALL
port1 1 KM IN 0 0 1 -> STALL
port1 1 KM OUT 0 0 1 - -> STALL
port1 1 KM SETUP 0 8006000600000a00 -> ACK
log 0 ALIVE
report events 9
report ports 2
report refused 0
report left 0
report port 1 146
report port 2 0
# buttons held for the whole time
script @passes
script 10 guard down
script 10 1 down
capture 4b56433102000000
capture 6d00000001000000
capture 6e00000001000000
log 0 ALIVE
log 110 SELECT 1
report events 8
report ports 2
report refused 0
report left 0
report port 1 0
report port 2 0
# the guard released between
script @passes
script 10 guard down
script 10 1 down
script 60 guard up
script 61 guard down
capture 4b56433102000000
capture 6e00000001000000
capture a000000001000000
capture a100000001000000
log 0 ALIVE
log 161 SELECT 1
report events 11
report ports 2
report refused 0
report left 0
report port 1 0
report port 2 0
# a truncated record
capture 4b56433102000000
capture 0000000001000000
capture 0100000001000000
capture 0200000001000000
capture 0300000001000000
capture 0400000001000000
capture 0500000001000000
capture 0600000001000000
capture 0700000001000000
capture 0800000001000000
capture 0900000001000000
capture 0a0000000100
faults capture 88 truncated
# a failed check
script @passes
script 5 check 2 fail
capture 4b56433102000000
capture 0100000011410900008006000100004000
capture 0600000013410300000001
port1 1 KM SETUP 0 8006000100004000 -> ACK
port1 6 KM IN 0 0 1 -> SILENT
log 0 ALIVE
log 5 DARK CHECK 2
report events 7
report ports 2
report refused 0
report left 0
report port 1 61
report port 2 0
# the guard held at the last check
script 0 guard down
script @passes
capture 4b56433102000000
capture 0100000011410900008006000100004000
capture 0100000013410300000001
capture 0100000012410300000001
port1 1 KM SETUP 0 8006000100004000 -> SILENT
port1 1 KM IN 0 0 1 -> SILENT
port1 1 KM OUT 0 0 1 - -> SILENT
log 0 DARK BUTTON
report events 8
report ports 2
report refused 0
report left 0
report port 1 91
report port 2 0
# a failure in the self-test
script 0 check 1 pass
script 0 check 3 fail
script 0 check 2 pass
script 0 check 3 pass
script 0 check 4 pass
capture 4b56433102000000
capture 0100000011410900008006000100004000
port1 1 KM SETUP 0 8006000100004000 -> SILENT
log 0 DARK CHECK 3
report events 6
report ports 2
report refused 0
report left 0
report port 1 40
report port 2 0
# an opened case
script @passes
script 5 tamper
capture 4b56433102000000
capture 0100000011410900008006000100004000
capture 0600000013410300000001
port1 1 KM SETUP 0 8006000100004000 -> ACK
port1 6 KM IN 0 0 1 -> SILENT
log 0 ALIVE
log 5 DARK TAMPER
report events 7
report ports 2
report refused 0
report left 0
report port 1 61
report port 2 0
# a selection that is changed
script @passes
script 10 guard down
script 10 1 down
script 120 guard up
script 120 1 up
script 150 guard down
script 150 2 down
capture 4b56433102000000
capture 6e00000001000000
capture fa00000001000000
log 0 ALIVE
log 110 SELECT 1
log 250 LEAVE 1
log 250 SELECT 2
report events 12
report ports 2
report refused 0
report left 1
report port 1 0
report port 2 0
# a selection in the dark
script @passes
script 5 tamper
script 10 guard down
script 10 1 down
capture 4b56433102000000
capture 6e00000001000000
log 0 ALIVE
log 5 DARK TAMPER
report events 8
report ports 2
report refused 0
report left 0
report port 1 0
report port 2 0
# a button let go in time
script 0 guard down
script 0 1 down
script 0 check 1 pass
script 0 check 2 pass
script 0 check 3 pass
script 1 1 up
script 1 guard up
script 2 check 4 pass
capture 4b56433102000000
capture c800000001000000
log 2 ALIVE
report events 9
report ports 2
report refused 0
report left 0
report port 1 0
report port 2 0
# a button pressed twice
script @passes
script 10 guard down
script 10 1 down
script 60 1 down
script 70 guard down
script 80 2 up
script 90 check 2 pass
capture 4b56433102000000
capture 6d00000001000000
capture 6e00000001000000
log 0 ALIVE
log 110 SELECT 1
report events 12
report ports 2
report refused 0
report left 0
report port 1 0
report port 2 0
# two buttons down
script @passes
script 10 guard down
script 10 1 down
script 10 3 down
script 120 1 up
capture 4b56433103000000
capture 6e00000001000000
capture 9600000001000000
capture db00000001000000
capture dc00000001000000
log 0 ALIVE
log 220 SELECT 3
report events 12
report ports 3
report refused 0
report left 0
report port 1 0
report port 2 0
report port 3 0
# a hub in the keyboard plug
rules [[deny]]
rules vendor = 4660
script @passes
capture 4b56433102000000
capture 0000000020010000
capture 0000000022011b00010000000100000000120100020900004034120900000100000001
console 0 KEYBOARD ON 1
console 0 KEYBOARD ASK 1 1 8006000100001200
console 0 KEYBOARD OFF 1
log 0 ALIVE
log 0 KEYBOARD REFUSED F02
report events 6
report ports 2
report refused 1
report left 0
report port 1 0
report port 2 0
# a keyboard that a rule denies
rules [[deny]]
rules vendor = 4660
script @passes
capture 4b56433102000000
capture 0000000020010000
capture 0000000022011b00010000000100000000120100020000000834120100000100000001
capture 0000000022010900010000000200000000
capture 000000002201120001000000030000000009022200010100a032
capture 0000000022012b0001000000040000000009022200010100a0320904000001030101000921110100012240
capture 000705810308000a
console 0 KEYBOARD ON 1
console 0 KEYBOARD ASK 1 1 8006000100001200
console 0 KEYBOARD ASK 1 2 0005010000000000
console 0 KEYBOARD ASK 1 3 8006000200000900
console 0 KEYBOARD ASK 1 4 8006000200002200
console 0 KEYBOARD OFF 1
log 0 ALIVE
log 0 KEYBOARD REFUSED D01
report events 9
report ports 2
report refused 1
report left 0
report port 1 0
report port 2 0
# a keyboard of which one interface is refused
script @passes
script 10 guard down
script 10 1 down
script 120 guard up
script 120 1 up
capture 4b56433102000000
capture 0000000020010000
capture 0000000022011b00010000000100000000120100020000000834120100000100000001
capture 0000000022010900010000000200000000
capture 000000002201120001000000030000000009023b00020100a032
capture 000000002201440001000000040000000009023b00020100a0320904000001030101000921110100012240
capture 000705810308000a0904010001030000000921110100012219000705820304000a
capture 0000000022010900010000000500000000
capture 000000002201490001000000060000000005010906a101050719e029e71500250175019508810295017508
capture 810195057501050819012905910295017503910195067508150026a4000507190029a48100c0
capture 0000000022012200010000000700000000050c0901a101850119002a3c021500263c02950175108100c0
capture 6e00000001000000
console 0 KEYBOARD ON 1
console 0 KEYBOARD ASK 1 1 8006000100001200
console 0 KEYBOARD ASK 1 2 0005010000000000
console 0 KEYBOARD ASK 1 3 8006000200000900
console 0 KEYBOARD ASK 1 4 8006000200003b00
console 0 KEYBOARD ASK 1 5 0009010000000000
console 0 KEYBOARD ASK 1 6 8106002200004000
console 0 KEYBOARD ASK 1 7 8106002201001900
log 0 ALIVE
log 0 KEYBOARD INTERFACE 0 ACCEPTED
log 0 KEYBOARD INTERFACE 1 REFUSED F07
log 0 KEYBOARD ACCEPTED
log 110 SELECT 1
report events 17
report ports 2
report refused 1
report left 0
report port 1 0
report port 2 0
# a mouse that never answers
script @passes
capture 4b56433102000000
capture 0000000020020000
capture cf07000001000000
capture d007000001000000
console 0 MOUSE ON 1
console 0 MOUSE ASK 1 1 8006000100001200
console 2000 MOUSE OFF 1
log 0 ALIVE
log 2000 MOUSE REFUSED F11
report events 7
report ports 2
report refused 1
report left 0
report port 1 0
report port 2 0
# a keyboard in the mouse plug
script @passes
capture 4b56433102000000
capture 0000000020020000
capture 0000000022021b00010000000100000000120100020000000834120100000100000001
capture 0000000022020900010000000200000000
capture 000000002202120001000000030000000009022200010100a032
capture 0000000022022b0001000000040000000009022200010100a0320904000001030101000921110100012240
capture 000705810308000a
capture 0000000022020900010000000500000000
capture 000000002202490001000000060000000005010906a101050719e029e71500250175019508810295017508
capture 810195057501050819012905910295017503910195067508150026a4000507190029a48100c0
console 0 MOUSE ON 1
console 0 MOUSE ASK 1 1 8006000100001200
console 0 MOUSE ASK 1 2 0005010000000000
console 0 MOUSE ASK 1 3 8006000200000900
console 0 MOUSE ASK 1 4 8006000200002200
console 0 MOUSE ASK 1 5 0009010000000000
console 0 MOUSE ASK 1 6 8106002200004000
console 0 MOUSE OFF 1
log 0 ALIVE
log 0 MOUSE INTERFACE 0 REFUSED F07
log 0 MOUSE REFUSED F07
report events 11
report ports 2
report refused 2
report left 0
report port 1 0
report port 2 0
# a reply after the last one
script @passes
capture 4b56433102000000
capture 0000000020010000
capture 0000000022011b00010000000100000000120100020000000834120100000100000001
capture 0000000022010900010000000200000000
capture 000000002201120001000000030000000009022200010100a032
capture 0000000022012b0001000000040000000009022200010100a0320904000001030101000921110100012240
capture 000705810308000a
capture 0000000022010900010000000500000000
capture 000000002201490001000000060000000005010906a101050719e029e71500250175019508810295017508
capture 810195057501050819012905910295017503910195067508150026a4000507190029a48100c0
capture 000000002201490001000000060000000005010906a101050719e029e71500250175019508810295017508
capture 810195057501050819012905910295017503910195067508150026a4000507190029a48100c0
console 0 KEYBOARD ON 1
console 0 KEYBOARD ASK 1 1 8006000100001200
console 0 KEYBOARD ASK 1 2 0005010000000000
console 0 KEYBOARD ASK 1 3 8006000200000900
console 0 KEYBOARD ASK 1 4 8006000200002200
console 0 KEYBOARD ASK 1 5 0009010000000000
console 0 KEYBOARD ASK 1 6 8106002200004000
log 0 ALIVE
log 0 KEYBOARD INTERFACE 0 ACCEPTED
log 0 KEYBOARD ACCEPTED
report events 12
report ports 2
report refused 0
report left 0
report port 1 0
report port 2 0
";

/// The value of a hexadecimal digit.
pub(crate) fn digit(byte: u8) -> u8
    ensures { result < 16 }
{
    match byte {
        b'0'..=b'9' => byte - b'0',
        b'a'..=b'f' => byte - b'a' + 10,
        _ => 0,
    }
}

/// What the lines of a run say that begin with this word, each with a line feed behind it.
pub fn lines_of(alloc: Global, run: &str, word: &str) -> Result<Vec<u8>, AllocError> {
    let mut bytes = Vec::new(alloc);
    for line in run.lines() {
        match line.split_once(" ") {
            Some((first, rest)) if first == word => {
                if rest == "@passes" {
                    bytes.extend_from_slice(PASSES.as_bytes())?;
                } else {
                    bytes.extend_from_slice(rest.as_bytes())?;
                    bytes.push(b'\n')?;
                }
            }
            _ => {}
        }
    }
    Ok(bytes)
}

/// The bytes that a run's lines give in hexadecimal that begin with this word.
pub fn bytes_of(alloc: Global, run: &str, word: &str) -> Result<Vec<u8>, AllocError> {
    let mut bytes = Vec::new(alloc);
    for line in run.lines() {
        match line.split_once(" ") {
            Some((first, digits)) if first == word => {
                for pair in digits.as_bytes().chunks(2) {
                    if let [high, low] = pair {
                        bytes.push(digit(*high) * 16 + digit(*low))?;
                    }
                }
            }
            _ => {}
        }
    }
    Ok(bytes)
}

/// Replays a run.
fn replayed(alloc: Global, run: &str) -> Result<MemoryDesk, Fail> {
    let rules = lines_of(alloc, run, "rules")?;
    let script = lines_of(alloc, run, "script")?;
    let capture = bytes_of(alloc, run, "capture")?;
    let mut desk = MemoryDesk::new(
        alloc,
        rules.as_slice(),
        capture.as_slice(),
        script.as_slice(),
        ROOM,
    )?;
    let mut words = Words::new();
    words.push("replay");
    let stopped = kvm(alloc, &words, &mut desk).is_err();
    if stopped == desk.sent(Outlet::Faults).is_empty() {
        return Err(Fail::from("a stop and no fault line, or the other way round"));
    }
    Ok(desk)
}

/// The outlet of this name.
pub fn outlet_of(name: &str) -> Option<Outlet> {
    match name {
        "console" => Some(Outlet::Console),
        "log" => Some(Outlet::Log),
        "report" => Some(Outlet::Report),
        "faults" => Some(Outlet::Faults),
        _ => {
            let number: u8 = name.strip_prefix("port")?.parse().ok()?;
            Some(Outlet::Port(PortId::new(number)?))
        }
    }
}

#[test]
fn each_run_writes_its_lines(rt: HostRuntime) -> Result<(), Fail> {
    let alloc = rt.alloc();
    for run in RUNS.split('#').skip(1) {
        let title = run.lines().next().ok_or("no title")?;
        let desk = replayed(alloc, run)?;
        for name in OUTLETS.split(' ') {
            let wanted = lines_of(alloc, run, name)?;
            let outlet = outlet_of(name).ok_or("no outlet")?;
            assert_eq!(rt; desk.sent(outlet), wanted.as_slice(), "{name}:{title}");
        }
    }
    Ok(())
}
