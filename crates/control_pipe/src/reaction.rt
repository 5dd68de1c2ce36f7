//! What the control pipe answers to an act, and what the act completed.
use psd_base::act::Answer;

/// What an act at the control endpoint completed.
#[derive(Clone, Copy, Debug, PartialEq, Eq)]
pub enum Effect {
    Nothing,
    /// The bus was reset.
    Reset,
    /// SET_CONFIGURATION was completed (USB 2.0, 9.4.7).
    Configured,
    /// The data toggle of this endpoint is DATA0 again.
    Restart(u8),
}

/// What the control pipe answers to an act, and what the act completed.
#[derive(Debug, PartialEq, Eq, Drop)]
pub struct Reaction {
    pub answer: Answer,
    pub effect: Effect,
}
