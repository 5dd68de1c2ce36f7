//! Where the bytes of an outlet go in the current folder, and the buffer in which they wait.
ghost use Rattle.std.specs.Prelude.{◌≡◌, ◌+◌, ◌≤◌, [], ◌++◌, length, ◌↔◌, IsTrue, false, Ok, IsErr, OnOk, OnErr};

use crate::outlet::Outlet;
use crate::port::{MAX_PORTS, PortId};
use crate::render::{RENDERED_MAX, Render};
use crate::waiting::Waiting;
use std::alloc::{AllocError, Global};
use std::io::{self, ErrorKind, Write};
use std::rt::Files;
use std::{fs, mem};

/// How many bytes of an outlet wait at most before they are written out.
pub const BUFFER_SIZE: usize = 32_768;

/// The file of each port's transcript, port 1 first.
const PORT_FILES: [&str; MAX_PORTS as usize] = [
    "port1.txt",
    "port2.txt",
    "port3.txt",
    "port4.txt",
    "port5.txt",
    "port6.txt",
    "port7.txt",
    "port8.txt",
];

/// Where bytes are written out.
#[derive(Drop)]
pub enum Target<F> {
    StandardOutput,
    StandardError,
    File(F),
}

impl<F: Write> Target<F> {
    /// Writes all of these bytes. Standard error takes text alone.
    fn write<R: Print + Eprint>(&mut self, rt: &R, bytes: &[u8]) -> io::Result<()> {
        match self {
            Target::StandardOutput => rt.write_all(bytes),
            Target::StandardError => match str::from_utf8(bytes) {
                Ok(text) => rt.eprint(text),
                Err(_) => Err(io::Error::from(ErrorKind::InvalidData)),
            },
            Target::File(file) => file.write_all(bytes),
        }
    }
}

/// A target with the bytes that wait for it.
#[derive(Drop)]
pub struct Buffered<F> {
    target: Target<F>,
    waiting: Waiting,
}

impl<F: Write> Buffered<F> {
    /// Writes out what waits.
    fn write_out<R: Print + Eprint>(&mut self, rt: &R) -> io::Result<()>
        ensures empty { OnOk result (self.new.waiting.bytes ≡ []) }
        ensures room { self.new.waiting.room ≡ self.old.waiting.room }
    {
        if !self.waiting.as_slice().is_empty() {
            self.target.write(rt, self.waiting.as_slice())?;
            self.waiting.clear();
        }
        Ok(())
    }
}

/// Where the bytes of an outlet go.
#[derive(Drop)]
pub enum Sink<F> {
    /// Nothing was written yet. The buffer is that in which bytes will wait; without room in it each write goes out at once.
    Unused(Waiting),
    Open(Buffered<F>),
    /// A write failed, so that some bytes may be lost. Each further one fails too.
    Failed,
}

impl<F: Write + Drop> Sink<F> {
    ghost use Rattle.psd_base.specs.declared.sink.TheConstants.{BUFFER_SIZE};
    ghost use Rattle.psd_base.specs.Sink.{room_in, waiting_in, CanRender, IsFresh, IsOpen, Takes};

    /// Takes the buffer, where nothing was written yet.
    pub fn reserve(&mut self, alloc: Global) -> Result<(), AllocError>
        ensures fresh { OnOk result (IsFresh self.old → IsFresh self.new × (BUFFER_SIZE ≤ room_in self.new)) }
        ensures err { OnErr result (self.new ≡ self.old) }
    {
        if let Sink::Unused(waiting) = self {
            *waiting = Waiting::with_room(alloc, BUFFER_SIZE)?;
        }
        Ok(())
    }

    /// Takes these bytes. The first write makes the outlet's file anew.
    pub fn write<R: Files<File = F> + Print + Eprint>(
        &mut self,
        rt: &R,
        to: &Outlet,
        bytes: &[u8],
    ) -> io::Result<()>
        ensures opened { OnOk result (IsOpen self.new) }
        ensures waiting { OnOk result (Takes (room_in self.old) (waiting_in self.old) (waiting_in self.new)
            bytes.now) }
        ensures room { OnOk result (room_in self.old ≤ room_in self.new) }
        ensures failed { OnErr result (self.new ≡ Sink.Failed) }
        ensures stays_failed { self.old ≡ Sink.Failed → IsErr result }
    {
        if self.hold(bytes) {
            return Ok(());
        }
        self.write_further(rt, to, bytes)
    }

    /// Lets these bytes wait, and answers whether it could: the outlet is open, and there is room for them.
    #[inline(always)]
    pub fn hold(&mut self, bytes: &[u8]) -> bool
        ensures fits { IsOpen self.old → length (waiting_in self.old) + length bytes.now ≤ room_in self.old
            → IsTrue result }
        ensures held { IsTrue result → IsOpen self.new
            × (waiting_in self.new ≡ waiting_in self.old ++ bytes.now) }
        ensures room { room_in self.new ≡ room_in self.old }
        ensures refused { result ≡ false → self.new ≡ self.old }
        ensures failed { self.old ≡ Sink.Failed → result ≡ false }
    {
        match self {
            Sink::Unused(_) => false,
            Sink::Open(buffered) => buffered.waiting.hold(bytes),
            Sink::Failed => false,
        }
    }

    /// Whether it is open, with room for what is rendered at once.
    #[inline(always)]
    pub fn can_render(&self) -> bool
        ensures { IsTrue result ↔ CanRender self.now }
    {
        match self {
            Sink::Unused(_) => false,
            Sink::Open(buffered) => buffered.waiting.can_render(),
            Sink::Failed => false,
        }
    }

    /// Lets what `item` renders wait, and answers how many bytes that are. It is open, and there is room for the most.
    #[inline(always)]
    pub fn render<T: Render>(&mut self, item: &T) -> usize
        requires { CanRender self.old }
        ensures open { IsOpen self.new }
        ensures waiting { waiting_in self.new ≡ waiting_in self.old ++ T.rendered item.now }
        ensures count { result ≡ length (T.rendered item.now) }
        ensures most { result ≤ RENDERED_MAX }
        ensures room { room_in self.new ≡ room_in self.old }
    {
        match self {
            Sink::Unused(_) => unreachable!(),
            Sink::Open(buffered) => buffered.waiting.render(item),
            Sink::Failed => unreachable!(),
        }
    }

    /// Opens the outlet where it isn't yet, writes out what waits, and takes these bytes.
    #[cold]
    #[inline(never)]
    fn write_further<R: Files<File = F> + Print + Eprint>(
        &mut self,
        rt: &R,
        to: &Outlet,
        bytes: &[u8],
    ) -> io::Result<()>
        ensures opened { OnOk result (IsOpen self.new) }
        ensures waiting { OnOk result (Takes (room_in self.old) [] (waiting_in self.new) bytes.now) }
        ensures room { OnOk result (room_in self.old ≤ room_in self.new) }
        ensures failed { OnErr result (self.new ≡ Sink.Failed) }
        ensures stays_failed { self.old ≡ Sink.Failed → IsErr result }
    {
        let mut buffered = match mem::replace(self, Sink::Failed) {
            Sink::Unused(waiting) => Buffered {
                target: open(rt, to)?,
                waiting,
            },
            Sink::Open(buffered) => buffered,
            Sink::Failed => return Err(io::Error::from(ErrorKind::Other)),
        };
        buffered.write_out(rt)?;
        if !buffered.waiting.hold(bytes) {
            buffered.target.write(rt, bytes)?;
        }
        *self = Sink::Open(buffered);
        Ok(())
    }

    /// Writes out what waits. An outlet that failed earlier is passed over.
    pub fn write_out<R: Print + Eprint>(&mut self, rt: &R) -> io::Result<()>
        ensures waiting { waiting_in self.new ≡ [] }
        ensures failed { OnErr result (self.new ≡ Sink.Failed) }
        ensures unused { IsFresh self.old → (result ≡ Ok tt) × (self.new ≡ self.old) }
        ensures passed_over { self.old ≡ Sink.Failed → result ≡ Ok tt }
        ensures stays_open { OnOk result (IsOpen self.old → IsOpen self.new) }
    {
        if let Sink::Open(buffered) = self {
            if let Err(error) = buffered.write_out(rt) {
                *self = Sink::Failed;
                return Err(error);
            }
        }
        Ok(())
    }
}

/// Opens the target of an outlet. A file is made anew.
fn open<R: Files>(rt: &R, to: &Outlet) -> io::Result<Target<R::File>> {
    match to {
        Outlet::Report => Ok(Target::StandardOutput),
        Outlet::Faults => Ok(Target::StandardError),
        Outlet::Console => Ok(Target::File(fs::create(rt, "console.txt")?)),
        Outlet::Log => Ok(Target::File(fs::create(rt, "rules.log")?)),
        Outlet::Port(port) => Ok(Target::File(fs::create(rt, port_file(*port))?)),
    }
}

/// The file of a port's transcript.
fn port_file(port: PortId) -> &'static str {
    PORT_FILES[port.number() as usize - 1]
}
