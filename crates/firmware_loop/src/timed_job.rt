//! A job of the token with the time at which it was ordered.
ghost use Rattle.std.specs.Prelude.{◌≡◌, []};
ghost use Rattle.psd_base.specs.declared.console.JobKind.TheVariants.{Control, In, Out};

use psd_base::console::{Job, JobKind};
use psd_base::event::Tick;
use psd_base::packet::{Block, Bytes, Packet};
use psd_base::setup::Setup;

/// A job of the token, and the tick of the act that made it.
#[derive(Debug, Drop)]
pub struct TimedJob {
    pub tick: Tick,
    pub job: Job,
}

impl TimedJob {
    /// A job to be written over.
    pub(crate) fn blank() -> TimedJob {
        TimedJob {
            tick: 0,
            job: Job {
                life: 0,
                number: 0,
                kind: JobKind::In { endpoint: 0 },
            },
        }
    }

    /// Writes this job, ordered at this tick, over the one that is here.
    #[inline(always)]
    pub(crate) fn write(&mut self, tick: Tick, job: &Job)
        ensures { self.new ≡ record { tick = tick; job = job.now } }
    {
        self.tick = tick;
        self.job.life = job.life;
        self.job.number = job.number;
        write_kind(&mut self.job.kind, &job.kind);
    }
}

/// Writes the same kind over another. Over one of the same sort without bytes, only the bytes that there are are written.
#[inline(always)]
fn write_kind(place: &mut JobKind, kind: &JobKind)
    ensures { place.new ≡ kind.now }
{
    match kind {
        JobKind::Control { setup, bytes } => write_control(place, setup, bytes),
        JobKind::In { endpoint } => write_in(place, *endpoint),
        JobKind::Out { endpoint, bytes } => write_out(place, *endpoint, bytes),
    }
}

/// Writes a control transfer over a job.
fn write_control(place: &mut JobKind, setup: &Setup, bytes: &Block)
    ensures { place.new ≡ Control setup.now bytes.now }
{
    match place {
        JobKind::Control {
            setup: old,
            bytes: copy,
        } => {
            *old = *setup;
            write_bytes(copy, bytes);
        }
        JobKind::In { endpoint: _ } => put_control(place, setup, bytes),
        JobKind::Out {
            endpoint: _,
            bytes: _,
        } => put_control(place, setup, bytes),
    }
}

/// Writes the wish for bytes over a job.
fn write_in(place: &mut JobKind, endpoint: u8)
    ensures { place.new ≡ In endpoint }
{
    match place {
        JobKind::In { endpoint: old } => *old = endpoint,
        JobKind::Control { setup: _, bytes: _ } => *place = JobKind::In { endpoint },
        JobKind::Out {
            endpoint: _,
            bytes: _,
        } => *place = JobKind::In { endpoint },
    }
}

/// Writes bytes that were sent over a job.
fn write_out(place: &mut JobKind, endpoint: u8, bytes: &Packet)
    ensures { place.new ≡ Out endpoint bytes.now }
{
    match place {
        JobKind::Out {
            endpoint: old,
            bytes: copy,
        } => {
            *old = endpoint;
            write_bytes(copy, bytes);
        }
        JobKind::In { endpoint: _ } => put_out(place, endpoint, bytes),
        JobKind::Control { setup: _, bytes: _ } => put_out(place, endpoint, bytes),
    }
}

/// Writes a control transfer over a job of another sort. It is a call of its own: its room for a transfer is cleared where it
/// begins.
#[inline(never)]
fn put_control(place: &mut JobKind, setup: &Setup, bytes: &Block)
    ensures { place.new ≡ Control setup.now bytes.now }
{
    *place = JobKind::Control {
        setup: *setup,
        bytes: Block::new(),
    };
    if let JobKind::Control { bytes: copy, .. } = place {
        copy.append(bytes.as_slice());
    }
}

/// Writes bytes that were sent over a job of another sort. It is a call of its own, for the same reason.
#[inline(never)]
fn put_out(place: &mut JobKind, endpoint: u8, bytes: &Packet)
    ensures { place.new ≡ Out endpoint bytes.now }
{
    *place = JobKind::Out {
        endpoint,
        bytes: Packet::new(),
    };
    if let JobKind::Out { bytes: copy, .. } = place {
        copy.append(bytes.as_slice());
    }
}

/// Writes the same bytes over others.
fn write_bytes<const SIZE: usize>(place: &mut Bytes<SIZE>, bytes: &Bytes<SIZE>)
    ensures { place.new ≡ bytes.now }
{
    empty(place);
    place.append(bytes.as_slice());
}

/// Leaves no bytes. Where there are some, zeros are written over their whole room.
#[inline(always)]
fn empty<const SIZE: usize>(place: &mut Bytes<SIZE>)
    ensures { place.new ≡ [] }
{
    if !place.as_slice().is_empty() {
        *place = Bytes::new();
    }
}
