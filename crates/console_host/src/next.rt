//! What comes after a reply.
use psd_base::console::{Order, RuleName};
use psd_base::event::Tick;

/// For how many ticks (milliseconds) an order may stay outstanding.
pub const SILENCE: Tick = 2_000;

/// What comes after a reply.
#[derive(Debug, PartialEq, Eq, Drop)]
pub enum Next {
    /// This is asked next.
    Ask(Order),
    /// The peripheral is accepted.
    Ready,
    /// The peripheral is refused by this rule.
    Refused(RuleName),
    /// The reply isn't one to an outstanding order. It changes nothing.
    Ignored,
}
