//! What becomes of the ports from one health to the next.
ghost use Rattle.std.specs.Prelude.{◌≡◌};
ghost use Rattle.fail_secure.specs.HealthChange.{change_of};

use crate::health::Health;

/// What a change of health means for the ports.
#[derive(Clone, Copy, Debug, PartialEq, Eq)]
pub enum HealthChange {
    /// They stay as they are.
    Stays,
    /// They wake, in the default state (USB 2.0, 9.1.1.3).
    Wakes,
    /// They go dark.
    Darkens,
}

/// What becomes of the ports from one health to the next.
pub fn change_between(before: Health, after: Health) -> HealthChange
    ensures { result ≡ change_of before after }
{
    match after {
        Health::Alive => match before {
            Health::Testing { .. } => HealthChange::Wakes,
            Health::Alive => HealthChange::Stays,
            Health::Dark => HealthChange::Wakes,
        },
        Health::Dark => match before {
            Health::Testing { .. } => HealthChange::Darkens,
            Health::Alive => HealthChange::Darkens,
            Health::Dark => HealthChange::Stays,
        },
        Health::Testing { .. } => match before {
            Health::Testing { .. } => HealthChange::Stays,
            Health::Alive => HealthChange::Darkens,
            Health::Dark => HealthChange::Stays,
        },
    }
}
