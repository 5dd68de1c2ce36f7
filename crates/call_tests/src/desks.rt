//! The desks: where reads and writes in memory fail, and what must be in the current folder.
use psd_base::{Desk, DeskFailed, FileDesk, Input, MemoryDesk, Outlet, PortId};
use std::test::Fail;

#[test]
fn reads_fail_where_they_are_listed(rt: HostRuntime) -> Result<(), Fail> {
    let mut desk = MemoryDesk::new(rt.alloc(), b"abcd", b"", b"xyz", 0)?;
    desk.fail_read(2)?;
    let mut into = [0; 2];
    assert_eq!(rt; desk.read(Input::Script, &mut into), Ok(2));
    assert_eq!(rt; into, *b"xy");
    assert_eq!(rt; desk.read(Input::Script, &mut into), Err(DeskFailed));
    assert_eq!(rt; desk.read(Input::Script, &mut into), Ok(1));
    assert_eq!(rt; into, *b"zy");
    assert_eq!(rt; desk.read(Input::Script, &mut into), Ok(0));
    desk.limit_reads(1);
    assert_eq!(rt; desk.read(Input::Rules, &mut into), Ok(1));
    assert_eq!(rt; into, *b"ay");
    Ok(())
}

#[test]
fn writes_keep_what_fits(rt: HostRuntime) -> Result<(), Fail> {
    let port = PortId::new(8).ok_or("no port")?;
    let mut desk = MemoryDesk::new(rt.alloc(), b"", b"", b"", 4)?;
    desk.fail_write(2, 1)?;
    assert_eq!(rt; desk.write(Outlet::Log, b"abc"), Ok(()));
    assert_eq!(rt; desk.write(Outlet::Port(port), b"xy"), Err(DeskFailed));
    assert_eq!(rt; desk.write(Outlet::Log, b"de"), Err(DeskFailed));
    assert_eq!(rt; desk.sent(Outlet::Log), b"abcd".as_slice());
    assert_eq!(rt; desk.sent(Outlet::Port(port)), b"x".as_slice());
    assert_eq!(rt; desk.sent(Outlet::Report), b"".as_slice());
    Ok(())
}

#[test]
fn only_the_capture_must_be_there(rt: HostRuntime) {
    let mut desk = FileDesk::new(&rt);
    let mut into = [0; 4];
    assert_eq!(rt; desk.read(Input::Rules, &mut into), Ok(0));
    assert_eq!(rt; desk.read(Input::Capture, &mut into), Err(DeskFailed));
    assert_eq!(rt; desk.read(Input::Script, &mut into), Ok(0));
    assert_eq!(rt; desk.close(), Ok(()));
}
