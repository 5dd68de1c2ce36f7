//! The lane of a port: its acts wait in it, and there they are served and answered.
ghost use Rattle.std.specs.Prelude.{◌≡◌, ℕ, ◌+◌, ◌<◌, ◌≤◌, List, [], ◌∷◌, ◌++◌, length, map, take};
ghost use Rattle.psd_base.specs.declared.event.TheConstants.{EVENTS_MAX};
ghost use Rattle.psd_base.specs.Event.{Seen};
ghost use Rattle.psd_base.specs.History.{onto};
ghost use Rattle.peripheral_filter.specs.declared.rule.RuleSet.{RuleSet};
ghost use Rattle.port_model.specs.OnePort.{line_of};
ghost use Rattle.port_model.specs.View.{view};
ghost use Rattle.switch_core.specs.Orders.{orders_at};
ghost use Rattle.switch_core.specs.StandsFor.{StandsFor, port_total};
ghost use Rattle.switch_core.specs.Visits.{visited};
ghost use Rattle.firmware_loop.specs.declared.batch.TheConstants.{BATCH_MAX};
ghost use Rattle.firmware_loop.specs.Batches.{AreKnown, act_of, first_job, jobs_among, lane_lines, one_if_some, schedule, schedule_jobs, seen_of};

use crate::row::Row;
use crate::timed_job::TimedJob;
use psd_base::act::{Act, Side};
use psd_base::console::{Job, Order, Orders};
use psd_base::event::Tick;
use psd_base::line::Line;
use psd_base::port::PortId;
use switch_core::Switch;

impl Row<Line> {
    /// Appends an act, which is written over what its place had. There is room for it.
    #[inline(always)]
    pub fn collect(&mut self, tick: Tick, side: Side, act: &Act)
        requires { length self.old < BATCH_MAX }
        ensures acts { (port : ℕ) → map (act_of port) self.new ≡ map (act_of port) self.old
            ++ (record { tick = tick; port = port; side = side; act = act.now }) ∷ [] }
        ensures count { length self.new ≡ length self.old + 1 }
    {
        let line = &mut self.places[self.len];
        line.tick = tick;
        line.side = side;
        act.copy_to(&mut line.act);
        self.len += 1;
    }

    /// Serves the acts of this port, and answers each where it waits.
    pub fn serve(
        &mut self,
        switch: &mut Switch,
        port: PortId,
        jobs: &mut Row<TimedJob>,
        orders: &mut Orders,
    )
        requires known { AreKnown (port_total switch.old) (map (act_of port) self.old) }
        requires room { switch.old.served + length self.old ≤ EVENTS_MAX }
        requires few_jobs { length jobs.old + length self.old ≤ BATCH_MAX }
        ensures stands { (rules : RuleSet) (past : List Seen) → StandsFor rules switch.old past
            → StandsFor rules switch.new (onto (schedule (map (act_of port) self.old)) past) }
        ensures lines { (rules : RuleSet) (past : List Seen) → StandsFor rules switch.old past
            → self.new ≡ lane_lines rules port (schedule (map (act_of port) self.old)) past }
        ensures jobs { (rules : RuleSet) (past : List Seen) → StandsFor rules switch.old past
            → jobs.new ≡ jobs.old ++ schedule_jobs rules (schedule (map (act_of port) self.old)) past }
        ensures count { length self.new ≡ length self.old }
        ensures few_jobs { length jobs.new ≤ length jobs.old + length self.old }
        ensures served { switch.new.served ≡ switch.old.served + length self.old }
        ensures visits { switch.new.visits.count
            ≤ switch.old.visits.count + one_if_some (map (act_of port) self.old) }
        ensures ports { port_total switch.new ≡ port_total switch.old }
    {
        serve_lines(switch, port, &mut self.places, self.len, jobs, orders);
    }
}

impl Row<TimedJob> {
    /// Appends a job, which is written over what its place had. There is room for it.
    #[inline(always)]
    #[tactic(auto, using(std::proofs::lemmas::List::take_more_set))]
    fn append(&mut self, tick: Tick, job: &Job)
        requires { length self.old < BATCH_MAX }
        ensures { self.new ≡ self.old ++ (record { tick = tick; job = job.now }) ∷ [] }
    {
        self.places[self.len].write(tick, job);
        self.len += 1;
    }
}

/// Serves the acts of this port in the first places, so many, and answers each where it waits.
fn serve_lines(
    switch: &mut Switch,
    port: PortId,
    places: &mut [Line],
    len: usize,
    jobs: &mut Row<TimedJob>,
    orders: &mut Orders,
)
    requires within { len ≤ length places.old }
    requires known { AreKnown (port_total switch.old) (map (act_of port) (take len places.old)) }
    requires room { switch.old.served + len ≤ EVENTS_MAX }
    requires few_jobs { length jobs.old + len ≤ BATCH_MAX }
    ensures stands { (rules : RuleSet) (past : List Seen) → StandsFor rules switch.old past
        → StandsFor rules switch.new (onto (schedule (map (act_of port) (take len places.old))) past) }
    ensures lines { (rules : RuleSet) (past : List Seen) → StandsFor rules switch.old past
        → take len places.new
        ≡ lane_lines rules port (schedule (map (act_of port) (take len places.old))) past }
    ensures jobs { (rules : RuleSet) (past : List Seen) → StandsFor rules switch.old past → jobs.new
        ≡ jobs.old ++ schedule_jobs rules (schedule (map (act_of port) (take len places.old))) past }
    ensures few_jobs { length jobs.new ≤ length jobs.old + len }
    ensures served { switch.new.served ≡ switch.old.served + len }
    ensures visits { switch.new.visits.count
        ≤ switch.old.visits.count + one_if_some (map (act_of port) (take len places.old)) }
    ensures ports { port_total switch.new ≡ port_total switch.old }
{
    for place in 0..len {
        serve_line(switch, port, &mut places[place], jobs, orders);
    }
}

/// Serves one act, answers it where it waits, and appends its job, if it makes one, to the jobs.
fn serve_line(
    switch: &mut Switch,
    port: PortId,
    line: &mut Line,
    jobs: &mut Row<TimedJob>,
    orders: &mut Orders,
)
    requires known { port ≤ port_total switch.old }
    requires room { switch.old.served < EVENTS_MAX }
    requires few_jobs { length jobs.old < BATCH_MAX }
    ensures stands { (rules : RuleSet) (past : List Seen) → StandsFor rules switch.old past
        → StandsFor rules switch.new (seen_of (act_of port line.old) ∷ past) }
    ensures line { (rules : RuleSet) (past : List Seen) → StandsFor rules switch.old past
        → line.new ≡ line_of (view rules port past) line.old.tick line.old.side line.old.act }
    ensures jobs { (rules : RuleSet) (past : List Seen) → StandsFor rules switch.old past
        → jobs.new ≡ jobs.old
        ++ jobs_among line.old.tick (orders_at rules (seen_of (act_of port line.old)) past) }
    ensures few_jobs { length jobs.new ≤ length jobs.old + 1 }
    ensures served { switch.new.served ≡ switch.old.served + 1 }
    ensures visits { switch.new.visits ≡ visited port switch.old.visits }
    ensures ports { port_total switch.new ≡ port_total switch.old }
{
    switch.act(
        line.tick,
        port,
        line.side,
        &line.act,
        &mut line.answer,
        orders,
    );
    keep_job(line.tick, orders.as_slice(), jobs);
}

/// Appends the job that an act made, if it made one: an act orders nothing else, and no more than one.
fn keep_job(tick: Tick, orders: &[Order], jobs: &mut Row<TimedJob>)
    requires { length jobs.old < BATCH_MAX }
    ensures jobs { jobs.new ≡ jobs.old ++ first_job tick orders.now }
    ensures few { length jobs.new ≤ length jobs.old + 1 }
{
    if orders.is_empty() {
        return;
    }
    keep_order(tick, &orders[0], jobs);
}

/// Appends the job, if the order is one. It is a call of its own, since few acts make a job.
#[inline(never)]
fn keep_order(tick: Tick, order: &Order, jobs: &mut Row<TimedJob>)
    requires { length jobs.old < BATCH_MAX }
    ensures jobs { jobs.new ≡ jobs.old ++ jobs_among tick (order.now ∷ []) }
    ensures few { length jobs.new ≤ length jobs.old + 1 }
{
    match order {
        Order::On { plug: _, life: _ } => {}
        Order::Off { plug: _, life: _ } => {}
        Order::Ask {
            plug: _,
            life: _,
            number: _,
            setup: _,
        } => {}
        Order::Job(job) => jobs.append(tick, job),
    }
}
