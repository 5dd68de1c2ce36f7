//! Serving what was collected: the acts of one port after those of another, ports ascending.
ghost use Rattle.std.specs.Prelude.{◌≡◌, ℕ, ◌+◌, ◌<◌, ◌≤◌, List, [], length, map, slice_index_or};
ghost use Rattle.psd_base.specs.declared.event.TheConstants.{EVENTS_MAX};
ghost use Rattle.psd_base.specs.declared.port.TheConstants.{MAX_PORTS};
ghost use Rattle.psd_base.specs.Event.{Seen};
ghost use Rattle.psd_base.specs.History.{onto};
ghost use Rattle.psd_base.specs.Port.{IsPort};
ghost use Rattle.peripheral_filter.specs.declared.rule.RuleSet.{RuleSet};
ghost use Rattle.switch_core.specs.StandsFor.{StandsFor, port_total};
ghost use Rattle.firmware_loop.specs.declared.batch.TheConstants.{BATCH_MAX};
ghost use Rattle.firmware_loop.specs.Batches.{AreKnown, PortEvent, act_of, acts_among, lane_lines, lanes_with_acts, ports_with_acts, schedule, schedule_jobs};
ghost use Rattle.firmware_loop.specs.Lanes.{IsCollected, acts_in, jobs_of, lane_of};

use crate::lanes::Lanes;
use crate::row::Row;
use crate::timed_job::TimedJob;
use psd_base::console::Orders;
use psd_base::line::Line;
use psd_base::port::PortId;
use switch_core::Switch;

/// Serves the acts that were collected, one port after another, and answers each where it waits. The lanes then have what
/// came of them, and nothing else: each line and each job is the one that the act gives where the acts are served in the
/// order in which they came. The lines stay until `clear`, the jobs until the next call. It takes no memory.
pub fn serve(switch: &mut Switch, lanes: &mut Lanes)
    requires known { AreKnown (port_total switch.old) (acts_in lanes.old) }
    requires room { switch.old.served + lanes.old.count ≤ EVENTS_MAX }
    ensures stands { (rules : RuleSet) (past : List Seen) (events : List PortEvent)
        → IsCollected events lanes.old → StandsFor rules switch.old past
        → StandsFor rules switch.new (onto (schedule events) past) }
    ensures lines { (rules : RuleSet) (past : List Seen) (events : List PortEvent)
        → IsCollected events lanes.old → StandsFor rules switch.old past
        → (port : ℕ) → IsPort port
        → lane_of lanes.new port ≡ lane_lines rules port (schedule events) past }
    ensures jobs { (rules : RuleSet) (past : List Seen) (events : List PortEvent)
        → IsCollected events lanes.old → StandsFor rules switch.old past
        → jobs_of lanes.new ≡ schedule_jobs rules (schedule events) past }
    ensures served { switch.new.served ≡ switch.old.served + lanes.old.count }

    // The switch goes to each port with acts once at most.
    ensures visits { (events : List PortEvent) → IsCollected events lanes.old
        → switch.new.visits.count ≤ switch.old.visits.count + ports_with_acts MAX_PORTS events }

    ensures ports { port_total switch.new ≡ port_total switch.old }
    ensures count { lanes.new.count ≡ lanes.old.count }
{
    serve_lanes(
        switch,
        &mut lanes.lanes,
        lanes.used,
        &mut lanes.jobs,
        &mut lanes.orders,
    );
}

/// Serves the acts of each lane. Lanes at the place `used` and above have none.
fn serve_lanes(
    switch: &mut Switch,
    lanes: &mut [Row<Line>],
    used: u8,
    jobs: &mut Row<TimedJob>,
    orders: &mut Orders,
)
    requires known { AreKnown (port_total switch.old) (acts_among lanes.old MAX_PORTS) }
    requires room { switch.old.served + length (acts_among lanes.old MAX_PORTS) ≤ EVENTS_MAX }
    requires few { length (acts_among lanes.old MAX_PORTS) ≤ BATCH_MAX }
    requires lanes { length lanes.old ≡ MAX_PORTS }
    requires few_used { used ≤ MAX_PORTS }
    requires unused { (place : ℕ) → used ≤ place → slice_index_or lanes.old place [] ≡ [] }
    ensures stands { (rules : RuleSet) (past : List Seen) → StandsFor rules switch.old past
        → StandsFor rules switch.new (onto (schedule (acts_among lanes.old MAX_PORTS)) past) }
    ensures lines { (rules : RuleSet) (past : List Seen) → StandsFor rules switch.old past
        → (place : ℕ) → place < MAX_PORTS
        → slice_index_or lanes.new place []
        ≡ lane_lines rules (place + 1)
        (schedule (map (act_of (place + 1)) (slice_index_or lanes.old place [])))
        (onto (schedule (acts_among lanes.old place)) past) }
    ensures jobs { (rules : RuleSet) (past : List Seen) → StandsFor rules switch.old past
        → jobs.new ≡ schedule_jobs rules (schedule (acts_among lanes.old MAX_PORTS)) past }
    ensures lengths { (place : ℕ)
        → length (slice_index_or lanes.new place []) ≡ length (slice_index_or lanes.old place []) }
    ensures served { switch.new.served ≡ switch.old.served + length (acts_among lanes.old MAX_PORTS) }
    ensures visits { switch.new.visits.count
        ≤ switch.old.visits.count + lanes_with_acts lanes.old MAX_PORTS }
    ensures ports { port_total switch.new ≡ port_total switch.old }
{
    jobs.clear();
    for place in 0..used {
        lanes[place as usize].serve(switch, port_of(place + 1), jobs, orders);
    }
}

/// The port of this number.
fn port_of(number: u8) -> PortId
    requires { IsPort number }
    ensures { result ≡ number }
{
    match PortId::new(number) {
        Some(port) => port,
        None => unreachable!(),
    }
}
