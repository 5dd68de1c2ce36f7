//! Sessions at the control endpoint, with answers from USB 2.0, 8.5.3 and chapter 9.
//!
//! A row is a line of a port's transcript, its act and its answer. ` ; ` and a word behind it say what the act completed.
//! Other rows: `new` and a descriptor's name begin with a device in its default state, `is` gives its address, whether it is
//! configured, and the halts of endpoints 1, 2 and 3; `told` gives the bytes of its last completed class request and when
//! it came; `#` gives the reason for the next rows. A name with `@` stands for rows, or for bytes.
ghost use Rattle.std.specs.Prelude.{◌≤◌, ◌≡◌, length};
ghost use Rattle.psd_base.specs.declared.packet.TheConstants.{BLOCK_SIZE};
ghost use Rattle.control_pipe.specs.Control.{is_control_act};

use crate::hexadecimal::push_hex;
use control_pipe::{Effect, Function, Pipe};
use port_transcript::read_port_line;
use psd_base::act::Act;
use psd_base::event::Tick;
use psd_base::packet::Packet;
use psd_base::setup::Setup;
use std::alloc::{AllocError, Global};
use std::process::Abort;
use std::test::Fail;

/// The 18 bytes of a device descriptor.
const DEVICE: [u8; 18] = [
    0x12, 0x01, 0x00, 0x02, 0x00, 0x00, 0x00, 0x40, 0xfe, 0xff, 0x01, 0x00, 0x00, 0x01, 0x00, 0x00,
    0x00, 0x01,
];

/// The 64 bytes of a report descriptor.
const REPORT: [u8; 64] = [
    0x05, 0x01, 0x09, 0x06, 0xa1, 0x01, 0x05, 0x07, 0x19, 0xe0, 0x29, 0xe7, 0x15, 0x00, 0x25, 0x01,
    0x75, 0x01, 0x95, 0x08, 0x81, 0x02, 0x95, 0x01, 0x75, 0x08, 0x81, 0x01, 0x95, 0x05, 0x75, 0x01,
    0x05, 0x08, 0x19, 0x01, 0x29, 0x05, 0x91, 0x02, 0x95, 0x01, 0x75, 0x03, 0x91, 0x01, 0x95, 0x06,
    0x75, 0x08, 0x15, 0x00, 0x26, 0xa4, 0x00, 0x05, 0x07, 0x19, 0x00, 0x29, 0xa4, 0x81, 0x00, 0xc0,
];

/// All is refused until the next setup.
const REFUSES: &str = "
1 KM IN 0 0 1 -> STALL
1 KM IN 0 0 0 -> STALL
1 KM OUT 0 0 1 - -> STALL
1 KM OUT 0 0 0 - -> STALL
1 KM OUT 0 0 1 07 -> STALL
1 KM SETUP 0 8000000000000200 -> ACK
1 KM IN 0 0 1 -> DATA 1 0000
";

/// A device in its default state, and then configured at address 0.
const CONFIGURED: &str = "
new device
1 KM SETUP 0 0009010000000000 -> ACK
1 KM IN 0 0 1 -> DATA 1 - ; Configured
is 0 1 0 0 0
";

/// A configured device of which a write of three bytes was asked for.
const WRITTEN: &str = "
new device
1 KM SETUP 0 0009010000000000 -> ACK
1 KM IN 0 0 1 -> DATA 1 - ; Configured
1 KM SETUP 0 2109000200000300 -> ACK
";

/// A configured device to which the three bytes 1, 2 and 3 were written in two packets.
const FULL: &str = "
new device
1 KM SETUP 0 0009010000000000 -> ACK
1 KM IN 0 0 1 -> DATA 1 - ; Configured
1 KM SETUP 0 2109000200000300 -> ACK
1 KM OUT 0 0 1 0102 -> ACK
1 KM OUT 0 0 0 03 -> ACK
";

const READS: &str = "
# before any setup, and after a bus reset
new device
@refuses
4 KM RESET -> SILENT ; Reset
@refuses
# the device descriptor, and data cut to what was asked
new device
1 KM SETUP 0 8006000100004000 -> ACK
1 KM IN 0 0 1 -> DATA 1 1201000200000040feff0100000100000001
1 KM OUT 0 0 1 - -> ACK
1 KM SETUP 0 8006000100000900 -> ACK
1 KM IN 0 0 1 -> DATA 1 1201000200000040fe
1 KM OUT 0 0 1 - -> ACK
1 KM SETUP 0 800600010000ff00 -> ACK
1 KM IN 0 0 1 -> DATA 1 @device
1 KM OUT 0 0 1 - -> ACK
# data of one whole packet that are shorter than what was asked end with an empty packet
new report
1 KM SETUP 0 810600220000ff00 -> ACK
1 KM IN 0 0 0 -> DATA 1 @report
1 KM IN 0 0 1 -> DATA 1 @report
1 KM IN 0 0 1 -> DATA 0 -
1 KM OUT 0 0 1 - -> ACK
1 KM SETUP 0 8106002200004000 -> ACK
1 KM IN 0 0 1 -> DATA 1 @report
1 KM OUT 0 0 1 - -> ACK
# a setup leaves the transfer before it
1 KM SETUP 0 810600220000ff00 -> ACK
1 KM IN 0 0 1 -> DATA 1 @report
1 KM SETUP 0 8000000000000200 -> ACK
1 KM IN 0 0 1 -> DATA 1 0000
";

const MISUSES: &str = "
# data from the host in a transfer whose data go to it
new device
1 KM SETUP 0 8006000100004000 -> ACK
1 KM OUT 0 0 0 07 -> STALL
@refuses
1 KM SETUP 0 8006000100004000 -> ACK
1 KM OUT 0 0 1 07 -> STALL
@refuses
# the host may end the transfer early, and may repeat its last packet
1 KM SETUP 0 8006000100004000 -> ACK
1 KM OUT 0 0 1 - -> ACK
1 KM OUT 0 0 1 - -> ACK
1 KM IN 0 0 1 -> STALL
@refuses
1 KM OUT 0 0 0 - -> STALL
@refuses
1 KM IN 0 0 1 -> STALL
@refuses
# an unsupported request
1 KM SETUP 0 8006000600000a00 -> ACK
1 KM IN 0 0 1 -> STALL
1 KM IN 0 0 1 -> STALL
1 KM OUT 0 0 1 - -> STALL
1 KM SETUP 0 8006000100004000 -> ACK
# data where none were announced
1 KM SETUP 0 0009010000000000 -> ACK
1 KM OUT 0 0 0 - -> STALL
@refuses
1 KM SETUP 0 0009010000000000 -> ACK
1 KM OUT 0 0 1 - -> STALL
@refuses
is 0 0 0 0 0
@configured
1 KM IN 0 0 1 -> STALL
@refuses
";

const REGISTERS: &str = "
# the address is set at the acknowledged status
new device
1 KM SETUP 0 0005050000000000 -> ACK
1 KM IN 0 0 0 -> DATA 1 -
is 0 0 0 0 0
1 KM IN 5 0 1 -> SILENT
1 KM IN 0 0 1 -> DATA 1 -
is 5 0 0 0 0
1 KM SETUP 0 8008000000000100 -> SILENT
1 KM SETUP 5 8008000000000100 -> ACK
1 KM IN 5 0 1 -> DATA 1 00
# halts
@configured
1 KM SETUP 0 0203000082000000 -> ACK
1 KM IN 0 0 1 -> DATA 1 -
is 0 1 0 1 0
1 KM SETUP 0 8200000082000200 -> ACK
1 KM IN 0 0 1 -> DATA 1 0100
1 KM SETUP 0 0201000082000000 -> ACK
1 KM IN 0 0 1 -> DATA 1 - ; Restart(2)
is 0 1 0 0 0
1 KM SETUP 0 010b000001000000 -> ACK
1 KM IN 0 0 1 -> DATA 1 - ; Restart(2)
1 KM SETUP 0 0203000081000000 -> ACK
1 KM IN 0 0 1 -> DATA 1 -
is 0 1 1 0 0
1 KM SETUP 0 0009010000000000 -> ACK
1 KM IN 0 0 1 -> DATA 1 - ; Configured
is 0 1 0 0 0
";

const WRITES: &str = "
# three bytes in two packets, and then read
@full
1 KM IN 0 0 0 -> DATA 1 -
told - 0
2 KM IN 0 0 1 -> DATA 1 -
told 010203 2
@refuses
told 010203 2
1 KM SETUP 0 a101000200000800 -> ACK
1 KM IN 0 0 1 -> DATA 1 010203
# the first packet has DATA1, so DATA0 repeats what came before
@written
1 KM OUT 0 0 0 08080808 -> ACK
1 KM OUT 0 0 1 0102 -> ACK
1 KM OUT 0 0 1 09 -> ACK
1 KM OUT 0 0 0 - -> ACK
1 KM OUT 0 0 1 03 -> ACK
1 KM OUT 0 0 1 09 -> ACK
7 KM IN 0 0 1 -> DATA 1 -
told 010203 7
# the status stage before all bytes are in
@written
1 KM OUT 0 0 1 0102 -> ACK
1 KM IN 0 0 0 -> STALL
@refuses
@written
1 KM OUT 0 0 1 0102 -> ACK
1 KM IN 0 0 1 -> STALL
@refuses
told - 0
# more bytes than announced, at once and at the end
@written
1 KM OUT 0 0 1 01020304 -> STALL
@refuses
@written
1 KM OUT 0 0 1 0102 -> ACK
1 KM OUT 0 0 0 0304 -> STALL
@refuses
# a packet after all bytes are in, also an empty one
@full
1 KM OUT 0 0 1 - -> STALL
@refuses
@full
1 KM OUT 0 0 1 04 -> STALL
@refuses
told - 0
# acts at another address leave a write as it is, a setup and a bus reset end it
@full
1 KM IN 9 0 1 -> SILENT
1 KM OUT 9 0 1 04 -> SILENT
1 KM SETUP 9 8000000000000200 -> SILENT
1 KM SETUP 0 2109000200000300 -> ACK
1 KM IN 0 0 1 -> STALL
@full
4 KM RESET -> SILENT ; Reset
1 KM IN 0 0 1 -> STALL
told - 0
is 0 0 0 0 0
";

/// A device that has one descriptor, at one value. Its class request that writes has three bytes, which its class
/// request that reads gives back.
#[derive(Drop)]
struct Recorder {
    descriptor: &'static [u8],
    value: u16,
    told: Packet,
    told_at: Tick,
    ghost short: { length descriptor.now ≤ BLOCK_SIZE },
}

impl Function for Recorder {
    ghost use Rattle.std.specs.Prelude.{◌≡◌, ◌≤◌, ◌==◌, ℕ, List, length, Bool, Some, None, IfSome, refl, if◌then◌else◌};
    ghost use Rattle.std.proofs.Common.{arith};
    ghost use Rattle.std.proofs.lemmas.Bool.{cond_both, eqb-true};

    ghost descriptor_of = { λ device setup. if setup.value == device.value then Some device.descriptor.now else None };

    ghost class_input_of = { λ device _. Some device.told };

    ghost takes_class = { λ setup. setup.length == 3 };

    ghost after_class = { λ device tick setup bytes. if setup.length == 3 then record device { told = bytes; told_at = tick } else device };

    fn descriptor(&self, setup: &Setup) -> Option<&[u8]> {
        if setup.value == self.value {
            Some(self.descriptor)
        } else {
            None
        }
    }

    fn class_in(&self, _setup: &Setup) -> Option<Packet> {
        Some(self.told.duplicate())
    }

    fn class_takes(&self, setup: &Setup) -> bool {
        setup.length == 3
    }

    fn class_out(&mut self, tick: Tick, setup: &Setup, bytes: &[u8]) {
        if setup.length == 3 {
            self.told = Packet::from_slice(bytes);
            self.told_at = tick;
        }
    }

    ghost short_descriptor = { λ device setup. cond_both (setup.value == device.value) (Some device.descriptor.now) None (λ found. IfSome found (λ bytes. length bytes ≤ BLOCK_SIZE)) (λ _. device.short) (λ _. tt) };

    ghost short_class = { λ setup taken. omega (arith, eqb-true setup.length 3 taken) };

    ghost refuses_class = { λ _ _ _ _ refused. rw refused refl };

    ghost keeps_descriptors = { λ device tick setup bytes other. cond_both (setup.length == 3) (record device { told = bytes; told_at = tick }) device
        (λ after. (if other.value == after.value then Some after.descriptor.now else None) ≡ (if other.value == device.value then Some device.descriptor.now else None)) (λ _. refl) (λ _. refl) };
}

/// A device in its default state, with this descriptor at this value.
fn new_device(descriptor: &'static [u8], value: u16) -> Pipe<Recorder>
    requires { length descriptor.now ≤ BLOCK_SIZE }
{
    Pipe::new(Recorder {
        descriptor,
        value,
        told: Packet::new(),
        told_at: 0,
    })
}

/// Whether an act is a bus reset or a transaction at endpoint 0.
fn is_at_control_endpoint(act: &Act) -> bool
    ensures { result ≡ is_control_act act.now }
{
    match act {
        Act::Reset => true,
        Act::Setup { .. } => true,
        Act::Out { endpoint, .. } => *endpoint == 0,
        Act::In { endpoint, .. } => *endpoint == 0,
    }
}

#[test]
fn reads(rt: HostRuntime) -> Result<(), Fail> {
    run(&rt, rt.alloc(), READS)
}

#[test]
fn misuses(rt: HostRuntime) -> Result<(), Fail> {
    run(&rt, rt.alloc(), MISUSES)
}

#[test]
fn registers(rt: HostRuntime) -> Result<(), Fail> {
    run(&rt, rt.alloc(), REGISTERS)
}

#[test]
fn writes(rt: HostRuntime) -> Result<(), Fail> {
    run(&rt, rt.alloc(), WRITES)
}

#[test]
fn lends_its_function(rt: HostRuntime) {
    let mut pipe = new_device(&DEVICE, 0x0100);
    pipe.function_mut().told_at = 9;
    assert_eq!(rt; pipe.function().told_at, 9);
    assert!(rt; !pipe.configured());
}

/// The rows that a row stands for.
fn rows_of(row: &'static str) -> &'static str {
    match row {
        "@refuses" => REFUSES,
        "@configured" => CONFIGURED,
        "@written" => WRITTEN,
        "@full" => FULL,
        _ => row,
    }
}

fn run(rt: &impl Abort, alloc: Global, rows: &'static str) -> Result<(), Fail> {
    let mut pipe = new_device(&DEVICE, 0x0100);
    for named in rows.lines() {
        for row in rows_of(named).lines() {
            serve_row(rt, alloc, &mut pipe, row)?;
        }
    }
    Ok(())
}

fn serve_row(
    rt: &impl Abort,
    alloc: Global,
    pipe: &mut Pipe<Recorder>,
    row: &str,
) -> Result<(), Fail> {
    match row.split_once(' ') {
        None => {}
        Some(("#", _)) => {}
        Some(("new", "device")) => *pipe = new_device(&DEVICE, 0x0100),
        Some(("new", _)) => *pipe = new_device(&REPORT, 0x2200),
        Some(("is", want)) => assert_eq!(rt; state_text(alloc, pipe)?.as_str(), want),
        Some(("told", want)) => assert_eq!(rt; told_text(alloc, pipe)?.as_str(), want),
        Some(_) => serve_act(rt, alloc, pipe, row)?,
    }
    Ok(())
}

fn serve_act(
    rt: &impl Abort,
    alloc: Global,
    pipe: &mut Pipe<Recorder>,
    row: &str,
) -> Result<(), Fail> {
    let (words, effect) = row.split_once(" ; ").unwrap_or((row, "Nothing"));
    let text = line_text(alloc, words)?;
    let line = read_port_line(text.as_bytes()).ok_or("no line")?;
    if !is_at_control_endpoint(&line.act) {
        return Err("another endpoint".into());
    }
    let reaction = pipe.act(line.tick, &line.act);
    assert_eq!(rt; reaction.answer, line.answer, "{row}");
    assert_eq!(rt;
        effect_text(alloc, reaction.effect)?.as_str(),
        effect,
        "{row}"
    );
    Ok(())
}

fn effect_text(alloc: Global, effect: Effect) -> Result<String, AllocError> {
    format!(in alloc; "{effect:?}")
}

/// The line of a row, with the bytes that names stand for.
fn line_text(alloc: Global, words: &str) -> Result<String, AllocError> {
    let mut text = String::new(alloc);
    for word in words.split(' ') {
        if !text.is_empty() {
            text.push_str(" ")?;
        }
        match word {
            "@device" => push_hex(alloc, &mut text, &DEVICE)?,
            "@report" => push_hex(alloc, &mut text, &REPORT)?,
            _ => text.push_str(word)?,
        }
    }
    text.push_str("\n")?;
    Ok(text)
}

/// The address, whether the device is configured, and the halts of endpoints 1, 2 and 3.
fn state_text(alloc: Global, pipe: &Pipe<Recorder>) -> Result<String, AllocError> {
    format!(in alloc;
        "{} {} {} {} {}",
        pipe.address(),
        u8::from(pipe.configured()),
        u8::from(pipe.halted(1)),
        u8::from(pipe.halted(2)),
        u8::from(pipe.halted(3)),
    )
}

/// What the last completed class request wrote, and when.
fn told_text(alloc: Global, pipe: &Pipe<Recorder>) -> Result<String, AllocError> {
    let mut text = String::new(alloc);
    let told = pipe.function().told.as_slice();
    if told.is_empty() {
        text.push_str("-")?;
    }
    push_hex(alloc, &mut text, told)?;
    text.push_str(format!(in alloc; " {}", pipe.function().told_at)?.as_str())?;
    Ok(text)
}
