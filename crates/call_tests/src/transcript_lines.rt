//! Lines of all kinds: one of each call, lines of a port read back, and bytes that are no line. The texts are worked in the
//! examples beside their definitions.
use port_transcript::{console_line, log_line, port_line, read_port_line, stop_line};
use psd_base::{
    Act, Answer, Block, CaptureFault, Job, JobKind, Line, Note, Order, Packet, Plug, RuleName,
    Setup, Side, Stop,
};
use std::process::Abort;
use std::test::Fail;

/// Lines that are read back as they are.
const LINES: &str = "
1 KM SETUP 0 8006000100004000 -> ACK
1 KM IN 0 0 1 -> DATA 1 05010906a101050719e029e71500250175019508810295017508810195057501050819012905910295017503910195067508150026a4000507190029a48100c0
1 KM OUT 0 0 1 - -> ACK
131 KM OUT 0 0 1 07 -> ACK
120 UA SETUP 0 8006000100001200 -> ACK
1 KM IN 0 0 0 -> DATA 1 -
1 KM IN 5 0 1 -> SILENT
1 KM IN 0 1 1 -> STALL
120 UA IN 0 0 1 -> NAK
141 KM IN 0 1 0 -> DATA 0 0000040000000000
140 UA RESET -> SILENT
4294967295 KM RESET -> SILENT
";

/// Lines that no line is written as.
const NO_LINES: &str = "
01 KM SETUP 0 0009010000000000 -> ACK
1 KM SETUP 0 0009010000000000 -> ack
1 KM SETUP 0 000901000000000A -> ACK
1 KM SETUP 0 00090100000000 -> ACK
1 KM SETUP 256 0009010000000000 -> ACK
4294967296 KM RESET -> SILENT
1 KM  RESET -> SILENT
1 KM IN 0 0 2 -> NAK
1 KM OUT 0 0 1  -> ACK
1 KM RESET => SILENT
1 KM IN 0 0 1 -> DATA 1 0000000000000000000000000000000000000000000000000000000000000000000000000000000000000000000000000000000000000000000000000000000000
";

#[test]
fn reads_lines_back(rt: HostRuntime) -> Result<(), Fail> {
    for row in LINES.lines() {
        if !row.is_empty() {
            let text = format!(in rt.alloc(); "{row}\n")?;
            let line = read_port_line(text.as_bytes()).ok_or("no line")?;
            assert_eq!(rt; port_line(&line).as_slice(), text.as_bytes(), "{row}");
            assert!(rt; read_port_line(row.as_bytes()).is_none(), "{row}");
        }
    }
    Ok(())
}

#[test]
fn refuses_what_is_no_line(rt: HostRuntime) -> Result<(), Fail> {
    for row in NO_LINES.lines() {
        let text = format!(in rt.alloc(); "{row}\n")?;
        assert!(rt; read_port_line(text.as_bytes()).is_none(), "{row}");
    }
    assert!(rt; read_port_line(b"").is_none());
    assert!(rt; read_port_line(b"1 KM RESET -> SILENT\n\n").is_none());
    Ok(())
}

#[test]
fn reads_a_write(rt: HostRuntime) {
    let want = Line {
        tick: 131,
        side: Side::Km,
        act: Act::Out {
            address: 0,
            endpoint: 0,
            toggle: true,
            bytes: Packet::from_slice(&[5, 0]),
        },
        answer: Answer::Stall,
    };
    let read = read_port_line(b"131 KM OUT 0 0 1 0500 -> STALL\n");
    assert_eq!(rt; read, Some(want));
}

#[test]
fn writes_a_line_of_each_kind(rt: HostRuntime) {
    let job = Order::Job(Job {
        life: 2,
        number: 1,
        kind: JobKind::Control {
            setup: Setup {
                kind: 0x21,
                request: 9,
                value: 0x0200,
                index: 0,
                length: 2,
            },
            bytes: Block::from_slice(&[0x0a, 0xff]),
        },
    });
    assert_eq!(rt;
        console_line(1252, &job).as_slice(),
        b"1252 TOKEN JOB 2 1 CTL 2109000200000200 0aff\n".as_slice()
    );
    let note = Note::InterfaceRefused {
        plug: Plug::Keyboard,
        interface: 1,
        rule: RuleName::Fixed(7),
    };
    assert_eq!(rt;
        log_line(0, &note).as_slice(),
        b"0 KEYBOARD INTERFACE 1 REFUSED F07\n".as_slice()
    );
    let stop = Stop::Capture {
        offset: 88,
        why: CaptureFault::Truncated,
    };
    assert_eq!(rt;
        stop_line(&stop).as_slice(),
        b"capture 88 truncated\n".as_slice()
    );
}
