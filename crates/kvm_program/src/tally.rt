//! What a run counts.
ghost use Rattle.std.specs.Prelude.{◌≡◌, ◌≢◌, ℕ, ◌+◌, ◌^◌, ◌<◌, ◌≤◌, length};
ghost use Rattle.psd_base.specs.History.{number_of};
ghost use Rattle.psd_base.specs.Port.{IsPort};
ghost use Rattle.kvm_program.specs.Log.{is_leave, is_refusal};

use psd_base::console::Note;
use psd_base::port::{MAX_PORTS, PortId};

/// How many bytes were written to each port's transcript, how often a port was left, and how much was refused.
#[derive(Clone, Copy, Debug)]
pub struct Tally {
    bytes: [u64; MAX_PORTS as usize],
    left: u32,
    refused: u32,
}

impl Tally {
    ghost use Rattle.kvm_program.specs.Tally.{bytes_at};

    /// Nothing was counted.
    pub fn new() -> Tally
        ensures bytes { (port : ℕ) → IsPort port → bytes_at result port ≡ 0 }
        ensures left { result.left ≡ 0 }
        ensures refused { result.refused ≡ 0 }
    {
        Tally {
            bytes: [0; MAX_PORTS as usize],
            left: 0,
            refused: 0,
        }
    }

    /// Counts more bytes at a port.
    pub fn add(&mut self, port: PortId, count: usize)
        requires { bytes_at self.old port + count < 2 ^ 64 }
        ensures counted { bytes_at self.new port ≡ bytes_at self.old port + count }
        ensures others { (other : ℕ) → IsPort other → other ≢ port
            → bytes_at self.new other ≡ bytes_at self.old other }
        ensures left { self.new.left ≡ self.old.left }
        ensures refused { self.new.refused ≡ self.old.refused }
    {
        self.bytes[port.number() as usize - 1] += count as u64;
    }

    /// Counts the notes of one event.
    pub fn note(&mut self, notes: &[Note])
        requires left { self.old.left + length notes.now < 2 ^ 32 }
        requires refused { self.old.refused + length notes.now < 2 ^ 32 }
        ensures left { self.new.left ≡ self.old.left + number_of is_leave notes.now }
        ensures refused { self.new.refused ≡ self.old.refused + number_of is_refusal notes.now }
        ensures few_left { self.new.left ≤ self.old.left + length notes.now }
        ensures few_refused { self.new.refused ≤ self.old.refused + length notes.now }
        ensures bytes { self.new.bytes ≡ self.old.bytes }
    {
        self.left += count_leaves(notes);
        self.refused += count_refusals(notes);
    }

    /// The bytes of each port, port 1 first.
    pub fn bytes(&self) -> [u64; MAX_PORTS as usize]
        ensures { result ≡ self.now.bytes }
    {
        self.bytes
    }

    /// How often a port was left.
    pub fn left(&self) -> u32
        ensures { result ≡ self.now.left }
    {
        self.left
    }

    /// How many devices and interfaces were refused.
    pub fn refused(&self) -> u32
        ensures { result ≡ self.now.refused }
    {
        self.refused
    }
}

/// How many notes say that a port was left.
fn count_leaves(notes: &[Note]) -> u32
    requires { length notes.now < 2 ^ 32 }
    ensures count { result ≡ number_of is_leave notes.now }
    ensures few { result ≤ length notes.now }
{
    let mut count = 0;
    for note in notes {
        if is_leave(note) {
            count += 1;
        }
    }
    count
}

/// How many notes say that a device or an interface was refused.
fn count_refusals(notes: &[Note]) -> u32
    requires { length notes.now < 2 ^ 32 }
    ensures count { result ≡ number_of is_refusal notes.now }
    ensures few { result ≤ length notes.now }
{
    let mut count = 0;
    for note in notes {
        if is_refusal(note) {
            count += 1;
        }
    }
    count
}

fn is_leave(note: &Note) -> bool
    ensures { result ≡ is_leave note.now }
{
    match note {
        Note::Alive => false,
        Note::Dark(_) => false,
        Note::Leave(_) => true,
        Note::Select(_) => false,
        Note::Routed(_) => false,
        Note::InterfaceAccepted { .. } => false,
        Note::InterfaceRefused { .. } => false,
        Note::Accepted(_) => false,
        Note::Refused { .. } => false,
    }
}

fn is_refusal(note: &Note) -> bool
    ensures { result ≡ is_refusal note.now }
{
    match note {
        Note::Alive => false,
        Note::Dark(_) => false,
        Note::Leave(_) => false,
        Note::Select(_) => false,
        Note::Routed(_) => false,
        Note::InterfaceAccepted { .. } => false,
        Note::InterfaceRefused { .. } => true,
        Note::Accepted(_) => false,
        Note::Refused { .. } => true,
    }
}
