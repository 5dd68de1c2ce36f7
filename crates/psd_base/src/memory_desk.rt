//! A desk in memory, for tests.
ghost use Rattle.std.specs.Prelude.{◌≡◌, ◌≤◌, ◌<◌, ◌↔◌, ◌++◌, ◌∷◌, [], length, take, drop, replicate, Ok, IsErr, IsSome, IfOk, OnOk, OnErr};
ghost use Rattle.psd_base.specs.Desk.{OnlyReads, OnlyWrites, ReadFailed, WriteFailed};
ghost use Rattle.psd_base.specs.Calls.{with_failing};
ghost use Rattle.psd_base.specs.MemoryDesk.{empty_store, new_desk, bytes_sent};

use crate::calls::Calls;
use crate::desk::{Desk, DeskFailed};
use crate::fault_counts::FaultCounts;
use crate::outlet::{Input, Outlet};
use crate::places::{OUTLETS, input_place, outlet_place};
use crate::render::{RENDERED_MAX, Render};
use crate::store::Store;
use crate::tape::Tape;
use std::alloc::{AllocError, Global};
use std::marker::Model;

/// A desk in memory, which tells everything. Its reads and writes take no memory, and fail where a test asks for it.
#[derive(Debug, Drop)]
pub struct MemoryDesk {
    inputs: Vec<Tape>,
    outlets: Vec<Store>,
    reads: Calls,
    writes: Calls,
    faults: FaultCounts,
    piece: usize,
}

impl Model for MemoryDesk {
    ghost use Rattle.std.specs.Prelude.{◌≡◌, ◌<◌, vec_len};
    ghost use Rattle.psd_base.specs.declared.places.TheConstants.{INPUTS, OUTLETS};
    ghost use Rattle.psd_base.specs.MemoryDesk.{Held};

    ghost Value = { Held };

    ghost view = { λ desk. record {
      inputs = desk.inputs.items;
      outlets = desk.outlets.items;
      reads = desk.reads;
      writes = desk.writes;
      faults = desk.faults;
      piece = desk.piece;
    } };

    ghost invariant = { λ desk. (vec_len desk.inputs ≡ INPUTS) × (vec_len desk.outlets ≡ OUTLETS)
        × (0 < desk.piece) };
}

impl MemoryDesk {
    /// A desk with copies of these inputs, and room for `room` bytes per outlet.
    pub fn new(
        alloc: Global,
        rules: &[u8],
        capture: &[u8],
        script: &[u8],
        room: u32,
    ) -> Result<MemoryDesk, AllocError>
        ensures { IfOk result (λ desk. desk ≡ new_desk rules.now capture.now script.now room) }
    {
        let mut inputs = Vec::new(alloc);
        inputs.push(Tape::new(alloc, rules)?)?;
        inputs.push(Tape::new(alloc, capture)?)?;
        inputs.push(Tape::new(alloc, script)?)?;
        Ok(MemoryDesk {
            inputs,
            outlets: stores(alloc, room)?,
            reads: Calls::new(alloc),
            writes: Calls::new(alloc),
            faults: FaultCounts::new(),
            piece: usize::MAX,
        })
    }

    /// Lets one read give at most `size` bytes.
    pub fn limit_reads(&mut self, size: u32)
        requires { 0 < size }
        ensures { self.new ≡ record self.old { piece = size } }
    {
        self.piece = size as usize;
    }

    /// Makes the read call of this number fail. Read calls are numbered from 1, over all inputs.
    pub fn fail_read(&mut self, call: u32) -> Result<(), AllocError>
        ensures ok { OnOk result (self.new ≡ record self.old { reads = with_failing self.old.reads call 0 }) }
        ensures err { OnErr result (self.new ≡ self.old) }
    {
        self.reads.fail(call, 0)
    }

    /// Makes the write call of this number fail, and keep at most `kept` bytes. Write calls are numbered from 1,
    /// over all outlets. Of several entries for one call the first counts.
    pub fn fail_write(&mut self, call: u32, kept: u32) -> Result<(), AllocError>
        ensures ok { OnOk result (self.new
            ≡ record self.old { writes = with_failing self.old.writes call kept }) }
        ensures err { OnErr result (self.new ≡ self.old) }
    {
        self.writes.fail(call, kept)
    }

    /// The bytes that were sent to an outlet.
    pub fn sent(&self, outlet: Outlet) -> &[u8]
        ensures { result.now ≡ bytes_sent self.now outlet }
    {
        self.outlets[outlet_place(&outlet)].as_slice()
    }
}

/// A store with this room for each place of an outlet.
fn stores(alloc: Global, room: u32) -> Result<Vec<Store>, AllocError>
    ensures { IfOk result (λ stores. stores.items ≡ replicate OUTLETS (empty_store room)) }
{
    let mut stores = Vec::with_capacity(alloc, OUTLETS)?;
    for _i in 0..OUTLETS {
        stores.push(Store::new(alloc, room as usize)?)?;
    }
    Ok(stores)
}

impl Desk for MemoryDesk {
    ghost use Rattle.psd_base.specs.declared.outlet.Input.{Input};
    ghost use Rattle.psd_base.specs.declared.outlet.Outlet.{Outlet};
    ghost use Rattle.psd_base.specs.Calls.{next_failure};
    ghost use Rattle.psd_base.specs.MemoryDesk.{left_of, told_by, bytes_given, bytes_kept, after_read, after_failed_read, after_write, after_failed_write, WriteFails};

    ghost told = { told_by };

    /// Fails exactly at a listed call. It gives as many bytes as are left, fit into the slice and may come at once.
    fn read(&mut self, from: Input, into: &mut [u8]) -> Result<usize, DeskFailed>
        ensures listed { IsErr result ↔ IsSome (next_failure self.old.reads) }
        ensures given { IfOk result (λ count. count ≡ bytes_given self.old from (length into.old)) }
        ensures put { IfOk result (λ count. into.new
            ≡ take count (left_of self.old from) ++ drop count into.old) }
        ensures after { IfOk result (λ count. self.new ≡ after_read self.old from count) }
        ensures untouched { OnErr result (into.new ≡ into.old) }
        ensures after_failure { OnErr result (self.new ≡ after_failed_read self.old from) }

        // The clauses of every desk.
        ensures within { IfOk result (λ count. count ≤ length into.old) }
        ensures moved { IfOk result (λ count. left_of self.old from
            ≡ take count into.new ++ left_of self.new from) }
        ensures ended { result ≡ Ok 0 → 0 < length into.old → left_of self.old from ≡ [] }
        ensures stays { OnErr result (left_of self.new from ≡ left_of self.old from) }
        ensures failed { OnErr result (ReadFailed from (told_by self.old) (told_by self.new)) }
        ensures uncounted { OnOk result ((input : Input) → (told_by self.new).read_faults input
            ≡ (told_by self.old).read_faults input) }
        ensures only { OnlyReads from (told_by self.old) (told_by self.new) }
    {
        match self.reads.next() {
            None => Ok(self.inputs[input_place(&from)].read(into, self.piece)),
            Some(_) => {
                self.faults.count_read(&from);
                Err(DeskFailed)
            }
        }
    }

    /// Fails exactly at a listed call, and where the bytes are more than the room that is left. It then keeps the
    /// front that fits, at a listed call at most as many bytes as are listed.
    fn write(&mut self, to: Outlet, bytes: &[u8]) -> Result<(), DeskFailed>
        ensures fails { IsErr result ↔ WriteFails self.old to bytes.now }
        ensures after { OnOk result (self.new ≡ after_write self.old to bytes.now) }
        ensures after_failure { OnErr result (self.new
            ≡ after_failed_write self.old to (take (bytes_kept self.old to bytes.now) bytes.now)) }

        // The clauses of every desk.
        ensures appended { OnOk result (bytes_sent self.new to ≡ bytes_sent self.old to ++ bytes.now) }
        ensures part { OnErr result (bytes_sent self.new to
            ≡ bytes_sent self.old to ++ take (bytes_kept self.old to bytes.now) bytes.now) }
        ensures failed { OnErr result (WriteFailed to (told_by self.old) (told_by self.new)) }
        ensures uncounted { OnOk result ((outlet : Outlet) → (told_by self.new).write_faults outlet
            ≡ (told_by self.old).write_faults outlet) }
        ensures only { OnlyWrites to (told_by self.old) (told_by self.new) }
    {
        let place = outlet_place(&to);
        match self.writes.next() {
            None => {
                if self.outlets[place].keep(bytes, bytes.len()) == bytes.len() {
                    Ok(())
                } else {
                    self.faults.count_write(&to);
                    Err(DeskFailed)
                }
            }
            Some(most) => {
                self.outlets[place].keep(bytes, most as usize);
                self.faults.count_write(&to);
                Err(DeskFailed)
            }
        }
    }

    /// Is one write call, of the bytes that `item` renders.
    fn write_rendered<T: Render>(&mut self, to: Outlet, item: &T) -> Result<usize, DeskFailed>
        ensures fails { IsErr result ↔ WriteFails self.old to (T.rendered item.now) }
        ensures after { OnOk result (self.new ≡ after_write self.old to (T.rendered item.now)) }
        ensures after_failure { OnErr result (self.new ≡ after_failed_write self.old to
            (take (bytes_kept self.old to (T.rendered item.now)) (T.rendered item.now))) }

        // The clauses of every desk.
        ensures count { IfOk result (λ count. count ≡ length (T.rendered item.now)) }
        ensures most { length (T.rendered item.now) ≤ RENDERED_MAX }
        ensures appended { OnOk result (bytes_sent self.new to
            ≡ bytes_sent self.old to ++ T.rendered item.now) }
        ensures part { OnErr result (bytes_sent self.new to ≡ bytes_sent self.old to
            ++ take (bytes_kept self.old to (T.rendered item.now)) (T.rendered item.now)) }
        ensures failed { OnErr result (WriteFailed to (told_by self.old) (told_by self.new)) }
        ensures uncounted { OnOk result ((outlet : Outlet) → (told_by self.new).write_faults outlet
            ≡ (told_by self.old).write_faults outlet) }
        ensures only { OnlyWrites to (told_by self.old) (told_by self.new) }
    {
        let mut room = [0; RENDERED_MAX];
        let count = item.render(&mut room, 0);
        self.write(to, &room[..count])?;
        Ok(count)
    }
}
