//! The desk of the current folder, with standard output and standard error.
//!
//! No contract can say what a file gives or takes, so this desk tells nothing of bytes: here the proofs end.
ghost use Rattle.std.specs.Prelude.{◌≡◌, ◌≤◌, length, IfErr, IfOk, OnErr, OnOk};
ghost use Rattle.psd_base.specs.Desk.{OnlyWrites, WriteFailed, silent};
ghost use Rattle.psd_base.specs.FaultCounts.{no_faults};

use crate::desk::{Desk, DeskFailed};
use crate::fault_counts::FaultCounts;
use crate::outlet::{Input, Outlet};
use crate::places::{INPUTS, OUTLETS, input_place, outlet_place};
use crate::port::{MAX_PORTS, PortId};
use crate::render::{RENDERED_MAX, Render};
use crate::sink::Sink;
use crate::source::Source;
use crate::waiting::Waiting;
use std::alloc::AllocError;
use std::array;
use std::rt::Files;

/// The desk of the current folder. It reads `rules.toml`, `capture.kvc` and `buttons.txt`, and writes `port1.txt` and
/// so on for each port, `console.txt` and `rules.log`. Report is standard output, and Faults is standard error, which
/// takes text alone.
///
/// Each file is opened at its first use. A missing `rules.toml` or `buttons.txt` reads as empty. The first write to a
/// file makes it anew, also a write of no bytes. Reads and writes take no memory: after `reserve` written bytes wait in
/// a buffer of their outlet until there are too many, or until `close`, without which they are lost; before it, and to
/// standard error, each write goes out at once. An outlet that failed once fails from then on.
#[derive(Drop)]
pub struct FileDesk<R: Files> {
    rt: R,
    sources: [Source<R::File>; INPUTS],
    sinks: [Sink<R::File>; OUTLETS],
    faults: FaultCounts,
}

impl<R: Files + Print + Eprint + AllocGlobal + Drop> FileDesk<R> {
    /// The desk of the current folder, with the runtime that `main` was given. Nothing is opened yet.
    pub fn new(rt: R) -> FileDesk<R>
        ensures { ⟦<FileDesk<R> as Desk>⟧.told result ≡ silent no_faults }
    {
        let alloc = rt.alloc();
        FileDesk {
            rt,
            sources: [Source::Unused, Source::Unused, Source::Unused],
            sinks: array::from_fn(|_| Sink::Unused(Waiting::without_room(alloc))),
            faults: FaultCounts::new(),
        }
    }

    /// Takes the buffers of all outlets but standard error, before anything is written. It moves nothing.
    pub fn reserve(&mut self) -> Result<(), AllocError>
        ensures { ⟦<FileDesk<R> as Desk>⟧.told self.new ≡ ⟦<FileDesk<R> as Desk>⟧.told self.old }
    {
        self.reserve_for(&Outlet::Report)?;
        self.reserve_for(&Outlet::Console)?;
        self.reserve_for(&Outlet::Log)?;
        for number in 1..=MAX_PORTS {
            if let Some(port) = PortId::new(number) {
                self.reserve_for(&Outlet::Port(port))?;
            }
        }
        Ok(())
    }

    fn reserve_for(&mut self, outlet: &Outlet) -> Result<(), AllocError>
        ensures { ⟦<FileDesk<R> as Desk>⟧.told self.new ≡ ⟦<FileDesk<R> as Desk>⟧.told self.old }
    {
        self.sinks[outlet_place(outlet)].reserve(self.rt.alloc())
    }

    /// Writes out what waits for the console, the log, the ports, the report and the faults, in this order, and stops
    /// at the first outlet where that fails. An outlet that failed earlier is passed over, so a second `close` goes on
    /// behind it.
    pub fn close(&mut self) -> Result<(), Outlet> {
        self.write_out(Outlet::Console)?;
        self.write_out(Outlet::Log)?;
        for number in 1..=MAX_PORTS {
            if let Some(port) = PortId::new(number) {
                self.write_out(Outlet::Port(port))?;
            }
        }
        self.write_out(Outlet::Report)?;
        self.write_out(Outlet::Faults)
    }

    /// Writes bytes to an outlet that isn't open, or for which too many bytes wait. It is a call of its own, since few writes
    /// come to it and it has room for an error.
    #[cold]
    #[inline(never)]
    fn write_further(&mut self, to: Outlet, bytes: &[u8]) -> Result<(), DeskFailed>
        ensures ok { OnOk result (self.new.faults ≡ self.old.faults) }
        ensures failed { OnErr result (WriteFailed to (⟦<FileDesk<R> as Desk>⟧.told self.old)
            (⟦<FileDesk<R> as Desk>⟧.told self.new)) }
        ensures only { OnlyWrites to (⟦<FileDesk<R> as Desk>⟧.told self.old)
            (⟦<FileDesk<R> as Desk>⟧.told self.new) }
    {
        match self.sinks[outlet_place(&to)].write(&self.rt, &to, bytes) {
            Ok(()) => Ok(()),
            Err(_) => {
                self.faults.count_write(&to);
                Err(DeskFailed)
            }
        }
    }

    /// Writes what `item` renders to an outlet that isn't open, or for which too many bytes wait.
    #[cold]
    #[inline(never)]
    fn write_rendered_further<T: Render>(
        &mut self,
        to: Outlet,
        item: &T,
    ) -> Result<usize, DeskFailed>
        ensures count { IfOk result (λ count. count ≡ length (T.rendered item.now)) }
        ensures most { length (T.rendered item.now) ≤ RENDERED_MAX }
        ensures ok { OnOk result (self.new.faults ≡ self.old.faults) }
        ensures failed { OnErr result (WriteFailed to (⟦<FileDesk<R> as Desk>⟧.told self.old)
            (⟦<FileDesk<R> as Desk>⟧.told self.new)) }
        ensures only { OnlyWrites to (⟦<FileDesk<R> as Desk>⟧.told self.old)
            (⟦<FileDesk<R> as Desk>⟧.told self.new) }
    {
        let mut room = [0; RENDERED_MAX];
        let count = item.render(&mut room, 0);
        self.write_further(to, &room[..count])?;
        Ok(count)
    }

    fn write_out(&mut self, outlet: Outlet) -> Result<(), Outlet>
        ensures { IfErr result (λ failed. failed ≡ outlet) }
    {
        match self.sinks[outlet_place(&outlet)].write_out(&self.rt) {
            Ok(()) => Ok(()),
            Err(_) => Err(outlet),
        }
    }
}

impl<R: Files + Print + Eprint + AllocGlobal + Drop> Desk for FileDesk<R> {
    ghost use Rattle.psd_base.specs.Desk.{silent};

    ghost told = { λ desk. silent desk.faults };

    fn read(&mut self, from: Input, into: &mut [u8]) -> Result<usize, DeskFailed> {
        match self.sources[input_place(&from)].read(&self.rt, &from, into) {
            Ok(count) => Ok(count),
            Err(_) => {
                self.faults.count_read(&from);
                Err(DeskFailed)
            }
        }
    }

    fn write(&mut self, to: Outlet, bytes: &[u8]) -> Result<(), DeskFailed> {
        if self.sinks[outlet_place(&to)].hold(bytes) {
            return Ok(());
        }
        self.write_further(to, bytes)
    }

    #[inline(always)]
    fn write_rendered<T: Render>(&mut self, to: Outlet, item: &T) -> Result<usize, DeskFailed> {
        let place = outlet_place(&to);
        if self.sinks[place].can_render() {
            return Ok(self.sinks[place].render(item));
        }
        // The call takes a copy: an item whose place is told to a call can't stay in registers.
        let apart = *item;
        let count = self.write_rendered_further(to, &apart)?;
        Ok(count)
    }
}
