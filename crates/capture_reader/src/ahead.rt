//! A record that was read ahead, as its source keeps it, and the event that it lends.
ghost use Rattle.std.specs.Prelude.{◌≡◌, [], Some, None, IsSome};
ghost use Rattle.psd_base.specs.Event.{happening_of, seen};
ghost use Rattle.capture_reader.specs.Ahead.{ahead_of, kept_happening};

use psd_base::{Act, Buffer, Event, Plug, PortId, Side, Tick, What};

/// What a record says. An act, what a reply or a job's end answers, and the bytes of these and of a report stand beside
/// it, so that it is small.
#[derive(Drop)]
pub enum Kept {
    Clock,
    Port(PortId, Side),
    Attach(Plug),
    Detach(Plug),
    Reply(Plug),
    Report { plug: Plug, interface: u8 },
    Job,
}

/// To what a reply or a job's end answers, and how it ended.
#[derive(Clone, Copy, Debug, PartialEq, Eq)]
pub struct Answered {
    pub life: u32,
    pub number: u32,
    pub status: u8,
}

/// The record that was read ahead, if there is one. `act` is the last act that was read, `answered` and `bytes` are
/// those of the last record that has such, so that no other record touches them.
#[derive(Drop)]
pub struct Ahead {
    pub tick: Tick,
    pub kept: Option<Kept>,
    pub act: Act,
    pub answered: Answered,
    pub bytes: Buffer,
}

impl Ahead {
    /// No record.
    pub fn new() -> Ahead
        ensures { result.kept ≡ None }
    {
        Ahead {
            tick: 0,
            kept: None,
            act: Act::Reset,
            answered: Answered {
                life: 0,
                number: 0,
                status: 0,
            },
            bytes: Buffer::new(),
        }
    }

    /// The event of the record, which borrows what is long.
    #[inline(always)]
    pub fn event(&self) -> Event<'_>
        requires { IsSome (ahead_of self.now) }
        ensures { Some (seen result) ≡ ahead_of self.now }
    {
        match &self.kept {
            Some(kept) => Event {
                tick: self.tick,
                what: lend(kept, &self.act, &self.answered, self.bytes.as_slice()),
            },
            None => unreachable!(),
        }
    }
}

/// What a record says, with what stands beside it.
#[inline(always)]
fn lend<'a>(kept: &'a Kept, act: &'a Act, answered: &'a Answered, bytes: &'a [u8]) -> What<'a>
    ensures { happening_of result ≡ kept_happening act.now answered.now bytes.now kept.now }
{
    match kept {
        Kept::Clock => What::Clock,
        Kept::Port(port, side) => What::Port(*port, *side, act),
        Kept::Attach(plug) => What::Attach(*plug),
        Kept::Detach(plug) => What::Detach(*plug),
        Kept::Reply(plug) => What::Reply {
            plug: *plug,
            life: answered.life,
            number: answered.number,
            status: answered.status,
            bytes,
        },
        Kept::Report { plug, interface } => What::Report {
            plug: *plug,
            interface: *interface,
            bytes,
        },
        Kept::Job => What::JobDone {
            life: answered.life,
            number: answered.number,
            status: answered.status,
            bytes,
        },
    }
}
