//! The lanes of the ports: the acts of each port are collected in its own, and are answered there, beside the token's jobs.
ghost use Rattle.std.specs.Prelude.{◌≡◌, ◌==◌, ◌+◌, ◌-◌, ◌<◌, ◌≤◌, ℕ, List, [], ◌∷◌, ◌++◌, false, IfOk, length, slice_index_or};
ghost use Rattle.psd_base.specs.declared.port.TheConstants.{MAX_PORTS};
ghost use Rattle.firmware_loop.specs.declared.batch.TheConstants.{BATCH_MAX};
ghost use Rattle.firmware_loop.specs.Batches.{PortEvent, acts_among};

use crate::batch::BATCH_MAX;
use crate::row::Row;
use crate::timed_job::TimedJob;
use psd_base::act::{Act, Answer, Side};
use psd_base::console::Orders;
use psd_base::event::Tick;
use psd_base::line::Line;
use psd_base::port::{MAX_PORTS, PortId};
use std::alloc::{AllocError, Global};

/// The acts that were collected, and what came of them once they were served. All memory is taken when it is made.
#[derive(Drop)]
pub struct Lanes {
    pub(crate) lanes: Vec<Row<Line>>,
    pub(crate) jobs: Row<TimedJob>,
    /// Room for what one act orders.
    pub(crate) orders: Orders,
    pub(crate) count: usize,
    /// Lanes at this place and above have no lines.
    pub(crate) used: u8,
    ghost full: { length lanes.items ≡ MAX_PORTS },
    ghost few_used: { used ≤ MAX_PORTS },
    ghost unused: { (place : ℕ) → used ≤ place → slice_index_or lanes.items place [] ≡ [] },
    ghost total: { length (acts_among lanes.items MAX_PORTS) ≡ count },
    ghost few: { count ≤ BATCH_MAX },
}

impl Lanes {
    ghost use Rattle.firmware_loop.specs.Lanes.{IsCollected, jobs_of, lane_of};

    /// Lanes without acts, and no jobs. Answers an error where there is no memory.
    pub fn new(alloc: Global) -> Result<Lanes, AllocError>
        ensures empty { IfOk result (λ lanes. IsCollected [] lanes) }
        ensures lines { IfOk result (λ lanes. (port : ℕ) → lane_of lanes port ≡ []) }
        ensures jobs { IfOk result (λ lanes. jobs_of lanes ≡ []) }
    {
        Ok(Lanes {
            lanes: empty_lanes(alloc)?,
            jobs: Row::new(job_places(alloc)?),
            orders: Orders::new(),
            count: 0,
            used: 0,
        })
    }

    /// Appends an act to the lane of its port. There is room for it. The tick is in milliseconds.
    #[inline(always)]
    pub fn collect(&mut self, tick: Tick, port: PortId, side: Side, act: &Act)
        requires room { self.old.count < BATCH_MAX }
        ensures collected { (events : List PortEvent) → IsCollected events self.old → IsCollected
            (events ++ (record { tick = tick; port = port; side = side; act = act.now }) ∷ []) self.new }
        ensures count { self.new.count ≡ self.old.count + 1 }
    {
        self.lanes[port.number() as usize - 1].collect(tick, side, act);
        self.count += 1;
        self.used = self.used.max(port.number());
    }

    /// How many acts were collected.
    #[inline(always)]
    pub fn count(&self) -> usize
        ensures { result ≡ self.now.count }
    {
        self.count
    }

    /// Whether nothing was collected.
    #[inline(always)]
    pub fn is_empty(&self) -> bool
        ensures { result ≡ (self.now.count == 0) }
    {
        self.count == 0
    }

    /// Whether there is no room for another act.
    #[inline(always)]
    pub fn is_full(&self) -> bool
        ensures full { result ≡ (self.now.count == BATCH_MAX) }
        ensures room { result ≡ false → self.now.count < BATCH_MAX }
    {
        self.count == BATCH_MAX
    }

    /// Ports above this number have no lines.
    #[inline(always)]
    pub fn used(&self) -> u8
        ensures value { result ≡ self.now.used }
        ensures few { result ≤ MAX_PORTS }
        ensures empty { (port : ℕ) → result < port → lane_of self.now port ≡ [] }
    {
        self.used
    }

    /// Leaves the lanes without acts. The jobs stay until the next `serve`.
    pub fn clear(&mut self)
        ensures { IsCollected [] self.new }
    {
        clear_lanes(&mut self.lanes, self.used);
        self.count = 0;
        self.used = 0;
    }

    /// The lines of a port: its acts, answered once they were served.
    pub fn lane(&self, port: PortId) -> &[Line]
        ensures lines { result.now ≡ lane_of self.now port }
        ensures few { length (lane_of self.now port) ≤ self.now.count }
    {
        self.lanes[port.number() as usize - 1].as_slice()
    }

    /// The jobs that the last `serve` ordered, each with its tick.
    pub fn jobs(&self) -> &[TimedJob]
        ensures { result.now ≡ jobs_of self.now }
    {
        self.jobs.as_slice()
    }
}

/// Leaves each lane without lines. Lanes at the place `used` and above have none.
fn clear_lanes(lanes: &mut [Row<Line>], used: u8)
    requires within { used ≤ length lanes.old }
    requires unused { (place : ℕ) → used ≤ place → slice_index_or lanes.old place [] ≡ [] }
    ensures { (place : ℕ) → slice_index_or lanes.new place [] ≡ [] }
{
    for place in 0..used {
        lanes[place as usize].clear();
    }
}

/// A lane without lines for each port.
fn empty_lanes(alloc: Global) -> Result<Vec<Row<Line>>, AllocError>
    ensures size { IfOk result (λ lanes. length lanes.items ≡ MAX_PORTS) }
    ensures empty { IfOk result (λ lanes. (place : ℕ) → slice_index_or lanes.items place [] ≡ []) }
{
    let mut lanes = Vec::with_capacity(alloc, MAX_PORTS as usize)?;
    for _port in 0..MAX_PORTS {
        lanes.push(Row::new(line_places(alloc)?))?;
    }
    Ok(lanes)
}

/// Lines to be written over.
fn line_places(alloc: Global) -> Result<Vec<Line>, AllocError>
    ensures { IfOk result (λ lines. length lines.items ≡ BATCH_MAX) }
{
    let mut places = Vec::with_capacity(alloc, BATCH_MAX)?;
    for _place in 0..BATCH_MAX {
        places.push(Line {
            tick: 0,
            side: Side::Km,
            act: Act::Reset,
            answer: Answer::Silent,
        })?;
    }
    Ok(places)
}

/// Jobs to be written over.
fn job_places(alloc: Global) -> Result<Vec<TimedJob>, AllocError>
    ensures { IfOk result (λ jobs. length jobs.items ≡ BATCH_MAX) }
{
    let mut places = Vec::with_capacity(alloc, BATCH_MAX)?;
    for _place in 0..BATCH_MAX {
        places.push(TimedJob::blank())?;
    }
    Ok(places)
}
