//! The bridge from one computer's token connector to the token.
ghost use Rattle.std.specs.Prelude.{◌≡◌, ◌+◌, ◌<◌, ◌≤◌, [], None, false, length, slice_get};
ghost use Rattle.psd_base.specs.declared.orders.TheConstants.{ORDERS_MAX};
ghost use Rattle.psd_base.specs.declared.packet.TheConstants.{PACKET_SIZE};
ghost use Rattle.auth_router.specs.Bridge.{BridgePast, IsDown, IsUp, bridge_answer, bridge_made, bridge_jobs, bridge_takes, after_act, after_done};
ghost use Rattle.auth_router.specs.BridgeStands.{BridgeStands, jobs_of};
ghost use Rattle.auth_router.specs.JobOrders.{with_order, job_in};
ghost use Rattle.auth_router.specs.LiveStep.{bridge_after, answer_by, job_by, bridge_heard, hears_by};

use crate::live::Live;
use crate::up::Up;
use psd_base::act::{Act, Answer};
use psd_base::console::{Job, Order, Orders};
use std::marker::Model;

/// Turns the requests of one computer into jobs for the token, one at a time, and the token's answers back. It is down
/// until a life of the token is routed to the computer. Contracts see what it keeps while it is up; what it stands for is
/// a list of acts and of the token's words.
#[derive(Debug, Drop)]
pub struct Bridge {
    live: Option<Live>,
}

impl Model for Bridge {
    ghost use Rattle.std.specs.Prelude.{Option};
    ghost use Rattle.auth_router.specs.declared.live.Live.{Live};

    ghost Value = { Option Live };

    ghost view = { λ bridge. bridge.live };
}

impl Bridge {
    /// A bridge that is down.
    pub fn new() -> Bridge
        ensures stands { BridgeStands result IsDown }
        ensures down { result ≡ None }
    {
        Bridge { live: None }
    }

    /// Brings the bridge up for a life of the token, in the default state (USB 2.0, 9.1.1.3). It is down before.
    pub fn up(&mut self, up: Up)
        requires down { self.old ≡ None }
        requires some { 0 < up.max0 }
        requires fits { up.max0 ≤ PACKET_SIZE }
        ensures stands { BridgeStands self.new (IsUp up []) }
        ensures none { jobs_of self.new ≡ 0 }
    {
        self.live = Some(Live::new(up));
    }

    /// Brings the bridge down. Where it is down it changes nothing.
    pub fn down(&mut self)
        ensures stands { BridgeStands self.new IsDown }
        ensures down { self.new ≡ None }
    {
        self.live = None;
    }

    /// How many jobs were made since the bridge was brought up, and 0 where it is down.
    pub fn jobs(&self) -> u32
        ensures value { result ≡ jobs_of self.now }
        ensures count { (past : BridgePast) → BridgeStands self.now past → result ≡ bridge_jobs past }
    {
        match &self.live {
            None => 0,
            Some(live) => live.jobs(),
        }
    }

    /// Takes an act of the computer (USB 2.0, 8.5 and 9.4). Writes what it is answered over what was there, and appends the
    /// job for the token that it makes. A bridge that is down is silent.
    ///
    /// The promises hold for each list of what happened for which the bridge stood before the act.
    pub fn answer(&mut self, act: &Act, answer: &mut Answer, orders: &mut Orders)
        requires jobs { jobs_of self.old < 4294967295 }
        requires room { length orders.old.items + 1 ≤ ORDERS_MAX }
        ensures stands { (past : BridgePast) → BridgeStands self.old past
            → BridgeStands self.new (after_act act.now past) }
        ensures answer { (past : BridgePast) → BridgeStands self.old past → answer.new
            ≡ bridge_answer past act.now }
        ensures orders { (past : BridgePast) → BridgeStands self.old past → orders.new.items
            ≡ with_order (bridge_made past act.now) orders.old.items }
        ensures few { jobs_of self.new ≤ jobs_of self.old + 1 }
        ensures few_orders { length orders.new.items ≤ length orders.old.items + 1 }
    {
        take(&mut self.live, act, answer, orders);
    }

    /// Takes an act as `answer` does, and gives the answer and the job too.
    pub fn act(&mut self, act: &Act) -> (Answer, Option<Job>)
        requires { jobs_of self.old < 4294967295 }
        ensures stands { (past : BridgePast) → BridgeStands self.old past
            → BridgeStands self.new (after_act act.now past) }
        ensures answer { (past : BridgePast) → BridgeStands self.old past → result.0
            ≡ bridge_answer past act.now }
        ensures job { (past : BridgePast) → BridgeStands self.old past → result.1 ≡ bridge_made past act.now }
        ensures few { jobs_of self.new ≤ jobs_of self.old + 1 }
    {
        let mut answer = Answer::Silent;
        let mut orders = Orders::new();
        self.answer(act, &mut answer, &mut orders);
        (answer, first_job(orders))
    }

    /// Takes the token's word that a job of a life is done, with a status and bytes. False exactly for another life or
    /// number, where no job is outstanding, or where the bridge is down; and then nothing changes.
    pub fn done(&mut self, life: u32, number: u32, status: u8, bytes: &[u8]) -> bool
        ensures stands { (past : BridgePast) → BridgeStands self.old past
            → BridgeStands self.new (after_done life number status bytes.now past) }
        ensures taken { (past : BridgePast) → BridgeStands self.old past → result
            ≡ bridge_takes life number past }
        ensures refused { result ≡ false → self.new ≡ self.old }
        ensures few { jobs_of self.new ≡ jobs_of self.old }
    {
        hear(&mut self.live, life, number, status, bytes)
    }
}

/// Takes an act. Its contract is the exact step, from which `answer` promises what holds of all that happened.
#[tactic(auto, using(crate::proofs::JobCounts::jobs_after))]
fn take(live: &mut Option<Live>, act: &Act, answer: &mut Answer, orders: &mut Orders)
    requires jobs { jobs_of live.old < 4294967295 }
    requires room { length orders.old.items + 1 ≤ ORDERS_MAX }
    ensures after { live.new ≡ bridge_after act.now live.old }
    ensures answer { answer.new ≡ answer_by act.now live.old }
    ensures orders { orders.new.items ≡ with_order (job_by act.now live.old) orders.old.items }
    ensures few { jobs_of live.new ≤ jobs_of live.old + 1 }
{
    match live {
        None => *answer = Answer::Silent,
        Some(live) => live.act(act, answer, orders),
    }
}

/// The job of the first order.
fn first_job(orders: Orders) -> Option<Job>
    ensures { result ≡ job_in (slice_get orders.items 0) }
{
    match orders.into_first() {
        Some(Order::Job(job)) => Some(job),
        Some(Order::On { .. }) => None,
        Some(Order::Off { .. }) => None,
        Some(Order::Ask { .. }) => None,
        None => None,
    }
}

/// Takes the token's word, in the exact step.
#[tactic(auto, using(crate::proofs::JobCounts::jobs_heard))]
fn hear(live: &mut Option<Live>, life: u32, number: u32, status: u8, bytes: &[u8]) -> bool
    ensures after { live.new ≡ bridge_heard life number status bytes.now live.old }
    ensures taken { result ≡ hears_by life number live.old }
    ensures refused { result ≡ false → live.new ≡ live.old }
    ensures few { jobs_of live.new ≡ jobs_of live.old }
{
    match live {
        None => false,
        Some(live) => live.hear(life, number, status, bytes),
    }
}
