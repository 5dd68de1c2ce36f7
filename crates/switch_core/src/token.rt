//! What happens at the front, as the token's plug is told of it.
ghost use Rattle.std.specs.Prelude.{◌≡◌, ◌+◌, ◌<◌, ◌≤◌, ◌++◌, List, [], length};
ghost use Rattle.psd_base.specs.declared.console.TheConstants.{NOTES_MAX};
ghost use Rattle.psd_base.specs.declared.orders.TheConstants.{ORDERS_MAX};
ghost use Rattle.console_host.specs.Replies.{reply_of};
ghost use Rattle.peripheral_filter.specs.declared.rule.RuleSet.{RuleSet};
ghost use Rattle.auth_router.specs.Bridge.{BridgePast};
ghost use Rattle.auth_router.specs.BridgeStands.{jobs_of};
ghost use Rattle.token_plug.specs.Moments.{Moment, Attached, Detached, Replied};
ghost use Rattle.token_plug.specs.TokenGives.{notes_at, orders_at};
ghost use Rattle.token_plug.specs.TokenStands.{TokenStands};
ghost use Rattle.switch_core.specs.Bridges.{bridge_over};
ghost use Rattle.port_model.specs.Token.{change_moments, given_over, if_token, move_moments};

use fail_secure::HealthChange;
use peripheral_filter::RuleSet;
use psd_base::console::{Notes, Orders, Plug};
use psd_base::event::Tick;
use selector::Move;
use token_plug::TokenPlug;

/// The health changes so.
pub(crate) fn change_token(
    token: &mut TokenPlug,
    change: HealthChange,
    tick: Tick,
    orders: &mut Orders,
)
    requires lives { token.old.slot.life < u32.MAX }
    requires room { length orders.old.items + 2 ≤ ORDERS_MAX }
    ensures stands { (rules : RuleSet) (past : List Moment) (bridge : BridgePast)
        → TokenStands rules token.old past bridge
        → TokenStands rules token.new (change_moments tick change ++ past)
        (bridge_over rules (change_moments tick change) past bridge) }
    ensures orders { (rules : RuleSet) (past : List Moment) (bridge : BridgePast)
        → TokenStands rules token.old past bridge
        → orders.new.items
        ≡ orders.old.items ++ given_over (orders_at rules) (change_moments tick change) past }
    ensures few { token.new.slot.life ≤ token.old.slot.life + 1 }
    ensures few_jobs { jobs_of token.new.bridge ≤ jobs_of token.old.bridge }
{
    match change {
        HealthChange::Stays => {}
        HealthChange::Wakes => token.wake(tick, orders),
        HealthChange::Darkens => token.darken(tick, orders),
    }
}

/// Something is attached to this plug.
pub(crate) fn attach_token(token: &mut TokenPlug, plug: Plug, tick: Tick, orders: &mut Orders)
    requires lives { token.old.slot.life < u32.MAX }
    requires room { length orders.old.items + 2 ≤ ORDERS_MAX }
    ensures stands { (rules : RuleSet) (past : List Moment) (bridge : BridgePast)
        → TokenStands rules token.old past bridge
        → TokenStands rules token.new (if_token plug (Attached tick) ++ past)
        (bridge_over rules (if_token plug (Attached tick)) past bridge) }
    ensures orders { (rules : RuleSet) (past : List Moment) (bridge : BridgePast)
        → TokenStands rules token.old past bridge
        → orders.new.items
        ≡ orders.old.items ++ given_over (orders_at rules) (if_token plug (Attached tick)) past }
    ensures few { token.new.slot.life ≤ token.old.slot.life + 1 }
    ensures few_jobs { jobs_of token.new.bridge ≤ jobs_of token.old.bridge }
{
    match plug {
        Plug::Token => token.attach(tick, orders),
        Plug::Keyboard => {}
        Plug::Mouse => {}
    }
}

/// What is at this plug is taken off.
pub(crate) fn detach_token(token: &mut TokenPlug, plug: Plug, tick: Tick, orders: &mut Orders)
    requires { length orders.old.items + 1 ≤ ORDERS_MAX }
    ensures stands { (rules : RuleSet) (past : List Moment) (bridge : BridgePast)
        → TokenStands rules token.old past bridge
        → TokenStands rules token.new (if_token plug (Detached tick) ++ past)
        (bridge_over rules (if_token plug (Detached tick)) past bridge) }
    ensures orders { (rules : RuleSet) (past : List Moment) (bridge : BridgePast)
        → TokenStands rules token.old past bridge
        → orders.new.items
        ≡ orders.old.items ++ given_over (orders_at rules) (if_token plug (Detached tick)) past }
    ensures few { token.new.slot.life ≡ token.old.slot.life }
    ensures few_jobs { jobs_of token.new.bridge ≤ jobs_of token.old.bridge }
{
    match plug {
        Plug::Token => token.detach(tick, orders),
        Plug::Keyboard => {}
        Plug::Mouse => {}
    }
}

/// What is at this plug replies to an order.
pub(crate) fn reply_token(
    token: &mut TokenPlug,
    rules: &RuleSet,
    plug: Plug,
    life: u32,
    number: u32,
    tick: Tick,
    status: u8,
    bytes: &[u8],
    orders: &mut Orders,
    notes: &mut Notes,
)
    requires room { length orders.old.items + 1 ≤ ORDERS_MAX }
    requires empty { plug ≡ Plug.Token → notes.old.items ≡ [] }
    ensures stands { let moments = if_token plug (Replied life number tick (reply_of status bytes.now)) in
        (past : List Moment) (bridge : BridgePast) → TokenStands rules.now token.old past bridge
        → TokenStands rules.now token.new (moments ++ past) (bridge_over rules.now moments past bridge) }
    ensures orders { let moments = if_token plug (Replied life number tick (reply_of status bytes.now)) in
        (past : List Moment) (bridge : BridgePast) → TokenStands rules.now token.old past bridge
        → orders.new.items ≡ orders.old.items ++ given_over (orders_at rules.now) moments past }
    ensures notes { let moments = if_token plug (Replied life number tick (reply_of status bytes.now)) in
        (past : List Moment) (bridge : BridgePast) → TokenStands rules.now token.old past bridge
        → notes.new.items ≡ notes.old.items ++ given_over (notes_at rules.now) moments past }
    ensures few { token.new.slot.life ≡ token.old.slot.life }
    ensures few_jobs { jobs_of token.new.bridge ≤ jobs_of token.old.bridge }
{
    match plug {
        Plug::Token => token.reply(rules, life, number, tick, status, bytes, orders, notes),
        Plug::Keyboard => {}
        Plug::Mouse => {}
    }
}

/// The selection moves so: the token of a port that is left loses its power, and that of one that is selected is routed to it.
pub(crate) fn select_token(
    token: &mut TokenPlug,
    moved: &Move,
    tick: Tick,
    orders: &mut Orders,
    notes: &mut Notes,
)
    requires room { length orders.old.items + 1 ≤ ORDERS_MAX }
    requires lines { length notes.old.items + 1 ≤ NOTES_MAX }
    ensures stands { (rules : RuleSet) (past : List Moment) (bridge : BridgePast)
        → TokenStands rules token.old past bridge
        → TokenStands rules token.new (move_moments tick moved.now ++ past)
        (bridge_over rules (move_moments tick moved.now) past bridge) }
    ensures orders { (rules : RuleSet) (past : List Moment) (bridge : BridgePast)
        → TokenStands rules token.old past bridge
        → orders.new.items
        ≡ orders.old.items ++ given_over (orders_at rules) (move_moments tick moved.now) past }
    ensures notes { (rules : RuleSet) (past : List Moment) (bridge : BridgePast)
        → TokenStands rules token.old past bridge
        → notes.new.items
        ≡ notes.old.items ++ given_over (notes_at rules) (move_moments tick moved.now) past }
    ensures few { token.new.slot.life ≡ token.old.slot.life }
    ensures few_jobs { jobs_of token.new.bridge ≤ jobs_of token.old.bridge }
{
    match moved {
        Move::Stay => {}
        Move::Leave(_, _) => token.leave(tick, orders),
        Move::Enter(port) => token.select(*port, notes),
        Move::LeaveEnter(_, port) => {
            token.leave(tick, orders);
            token.select(*port, notes);
        }
    }
}
