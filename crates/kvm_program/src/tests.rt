//! Runs of the top call at a desk in memory, with expected bytes written by hand.
use crate::run::kvm;
use psd_base::memory_desk::MemoryDesk;
use psd_base::outlet::{Input, Outlet};
use psd_base::port::PortId;
use psd_base::stop::{CaptureFault, RuleList, RulesFault, ScriptFault, Stop};
use psd_base::summary::Summary;
use psd_base::words::Words;
use std::alloc::Global;
use std::test::Fail;

/// Room of each outlet, in bytes.
const ROOM: u32 = 4096;

/// Two ports; at tick 1 port 1 asks for its device descriptor and takes it.
#[rattlefmt::skip]
const DEVICE_DESCRIPTOR: [u8; 47] = [
    0x4b, 0x56, 0x43, 0x31, 0x02, 0, 0, 0,
    1, 0, 0, 0, 0x11, 0x41, 9, 0, 0, 0x80, 6, 0, 1, 0, 0, 0x40, 0,
    1, 0, 0, 0, 0x13, 0x41, 3, 0, 0, 0, 1,
    1, 0, 0, 0, 0x12, 0x41, 3, 0, 0, 0, 1,
];

/// The four checks of the self-test pass.
const PASSES: &[u8] = b"0 check 1 pass\n0 check 2 pass\n0 check 3 pass\n0 check 4 pass\n";

const TRANSCRIPT: &[u8] =
    b"1 KM SETUP 0 8006000100004000 -> ACK\n1 KM IN 0 0 1 -> DATA 1 1201000200000040feff0100000100000001\n1 KM OUT 0 0 1 - -> ACK\n";

const REPORT: &[u8] = b"events 7\nports 2\nrefused 0\nleft 0\nport 1 122\nport 2 0\n";

fn desk(alloc: Global, capture: &[u8]) -> Result<MemoryDesk, Fail> {
    Ok(MemoryDesk::new(alloc, &[], capture, PASSES, ROOM)?)
}

fn replay(alloc: Global, desk: &mut MemoryDesk) -> Result<Summary, Stop> {
    obey(alloc, "replay", desk)
}

fn obey(alloc: Global, word: &str, desk: &mut MemoryDesk) -> Result<Summary, Stop> {
    let mut words = Words::new();
    words.push(word);
    kvm(alloc, &words, desk)
}

fn port(number: u8) -> Result<Outlet, Fail> {
    Ok(Outlet::Port(PortId::new(number).ok_or("no port")?))
}

#[test]
fn one_descriptor_is_read(rt: HostRuntime) -> Result<(), Fail> {
    for piece in [1, 7, 4096] {
        let mut desk = desk(rt.alloc(), &DEVICE_DESCRIPTOR)?;
        desk.limit_reads(piece);
        assert_eq!(rt;
            replay(rt.alloc(), &mut desk).is_ok(),
            true,
            "in pieces of {piece}"
        );
        assert_eq!(rt; desk.sent(port(1)?), TRANSCRIPT);
        assert_eq!(rt; desk.sent(port(2)?), b"".as_slice());
        assert_eq!(rt; desk.sent(Outlet::Log), b"0 ALIVE\n".as_slice());
        assert_eq!(rt; desk.sent(Outlet::Report), REPORT);
        assert_eq!(rt; desk.sent(Outlet::Faults), b"".as_slice());
    }
    Ok(())
}

/// What a command that came to its end answers. With ample memory there is no want of it: a body that always answers it
/// meets each clause, so these runs alone refuse it.
fn done(ended: Result<Summary, Stop>) -> Result<Summary, Fail> {
    match ended {
        Ok(summary) => Ok(summary),
        Err(_) => Err(Fail::from("it stopped")),
    }
}

/// Two ports and no events.
#[test]
fn no_events_are_replayed(rt: HostRuntime) -> Result<(), Fail> {
    let mut desk = MemoryDesk::new(rt.alloc(), &[], &DEVICE_DESCRIPTOR[..8], &[], ROOM)?;
    let summary = done(replay(rt.alloc(), &mut desk))?;
    let bytes = summary.bytes;
    assert_eq!(rt; (summary.events, summary.ports), (0, 2));
    assert_eq!(rt; bytes, [0; 8]);
    Ok(())
}

/// The first read is that of the rules, the second that of the capture's header, and the third that of the script.
#[test]
fn a_failed_read_stops(rt: HostRuntime) -> Result<(), Fail> {
    for (call, input, line) in [
        (1, Input::Rules, b"read fault rules\n".as_slice()),
        (2, Input::Capture, b"read fault capture\n".as_slice()),
        (3, Input::Script, b"read fault script\n".as_slice()),
    ] {
        let mut desk = desk(rt.alloc(), &DEVICE_DESCRIPTOR)?;
        desk.fail_read(call)?;
        assert_eq!(rt; replay(rt.alloc(), &mut desk), Err(Stop::ReadFault(input)));
        assert_eq!(rt; desk.sent(Outlet::Faults), line);
        assert_eq!(rt; desk.sent(Outlet::Log), b"".as_slice());
    }
    Ok(())
}

/// The first two writes make the console and the log, the third makes port 1.
#[test]
fn a_failed_write_stops(rt: HostRuntime) -> Result<(), Fail> {
    let mut desk = desk(rt.alloc(), &DEVICE_DESCRIPTOR)?;
    desk.fail_write(3, 0)?;
    assert_eq!(rt;
        replay(rt.alloc(), &mut desk),
        Err(Stop::WriteFault(port(1)?))
    );
    assert_eq!(rt;
        desk.sent(Outlet::Faults),
        b"write fault port 1\n".as_slice()
    );
    Ok(())
}

/// The fifth write is that of the log's first line, and the sixth that of port 1's, of which four bytes are kept.
#[test]
fn a_line_is_written_in_part(rt: HostRuntime) -> Result<(), Fail> {
    let mut desk = desk(rt.alloc(), &DEVICE_DESCRIPTOR)?;
    desk.fail_write(6, 4)?;
    assert_eq!(rt;
        replay(rt.alloc(), &mut desk),
        Err(Stop::WriteFault(port(1)?))
    );
    assert_eq!(rt; desk.sent(port(1)?), b"1 KM".as_slice());
    assert_eq!(rt; desk.sent(Outlet::Log), b"0 ALIVE\n".as_slice());
    assert_eq!(rt; desk.sent(Outlet::Report), b"".as_slice());
    Ok(())
}

#[test]
fn a_cut_record_stops_behind_the_whole_ones(rt: HostRuntime) -> Result<(), Fail> {
    let mut desk = desk(rt.alloc(), &DEVICE_DESCRIPTOR[..46])?;
    let stop = Stop::Capture {
        offset: 36,
        why: CaptureFault::Truncated,
    };
    assert_eq!(rt; replay(rt.alloc(), &mut desk), Err(stop));
    assert_eq!(rt; desk.sent(port(1)?), &TRANSCRIPT[..98]);
    assert_eq!(rt;
        desk.sent(Outlet::Faults),
        b"capture 36 truncated\n".as_slice()
    );
    Ok(())
}

#[test]
fn a_faulty_line_stops(rt: HostRuntime) -> Result<(), Fail> {
    for (script, why, line) in [
        (
            b"0 gaurd down\n".as_slice(),
            ScriptFault::NotALine,
            b"script 1 not-a-line\n".as_slice(),
        ),
        (
            b"0 3 down\n".as_slice(),
            ScriptFault::NoSuchPort,
            b"script 1 no-such-port\n".as_slice(),
        ),
    ] {
        let mut desk = MemoryDesk::new(rt.alloc(), &[], &DEVICE_DESCRIPTOR, script, ROOM)?;
        assert_eq!(rt;
            replay(rt.alloc(), &mut desk),
            Err(Stop::Script { line: 1, why })
        );
        assert_eq!(rt; desk.sent(Outlet::Faults), line);
        assert_eq!(rt; desk.sent(port(1)?), b"".as_slice());
    }
    Ok(())
}

/// Rules are judged before the capture is read.
#[test]
fn refused_rules_stop(rt: HostRuntime) -> Result<(), Fail> {
    let mut desk = MemoryDesk::new(rt.alloc(), b"deny = [{}]", &[], &[], ROOM)?;
    let fault = RulesFault::Shape {
        list: RuleList::Deny,
        entry: 1,
    };
    assert_eq!(rt; replay(rt.alloc(), &mut desk), Err(Stop::Rules(fault)));
    assert_eq!(rt;
        desk.sent(Outlet::Faults),
        b"rules shape deny 1\n".as_slice()
    );
    Ok(())
}

#[test]
fn rules_are_checked(rt: HostRuntime) -> Result<(), Fail> {
    let mut desk = MemoryDesk::new(rt.alloc(), b"[[deny]]\nvendor = 4660\n", &[], &[], ROOM)?;
    let summary = done(obey(rt.alloc(), "check", &mut desk))?;
    assert_eq!(rt; (summary.events, summary.ports, summary.refused), (0, 0, 0));
    assert_eq!(rt; desk.sent(Outlet::Report), b"allow 0\ndeny 1\n".as_slice());
    Ok(())
}

#[test]
fn other_words_are_no_command(rt: HostRuntime) -> Result<(), Fail> {
    let mut desk = desk(rt.alloc(), &DEVICE_DESCRIPTOR)?;
    let mut words = Words::new();
    words.push("replay");
    words.push("now");
    assert_eq!(rt; kvm(rt.alloc(), &words, &mut desk), Err(Stop::Usage));
    assert_eq!(rt; desk.sent(Outlet::Faults), b"not a command\n".as_slice());
    Ok(())
}

/// Words that are no command write first of all their fault line.
#[test]
fn a_failed_fault_line_leaves_the_stop(rt: HostRuntime) -> Result<(), Fail> {
    let mut desk = desk(rt.alloc(), &DEVICE_DESCRIPTOR)?;
    desk.fail_write(1, 3)?;
    assert_eq!(rt; kvm(rt.alloc(), &Words::new(), &mut desk), Err(Stop::Usage));
    assert_eq!(rt; desk.sent(Outlet::Faults), b"not".as_slice());
    Ok(())
}
