//! Whether the switch is still being tested, alive or dark.
ghost use Rattle.std.specs.Prelude.{◌≡◌, ◌<◌, ◌≤◌, Bool, true, List, [], ◌∷◌};
ghost use Rattle.fail_secure.specs.Health.{Report, Checked, health_after, passed_bits, IsUnfinished};

use psd_base::console::CHECKS;

/// The bits of all checks: what a self-test that goes on stays below.
pub const ALL_CHECKS: u8 = (1 << CHECKS) - 1;

/// What the self-test came to so far. A switch that is dark stays dark until the run ends.
#[derive(Clone, Copy, Debug, PartialEq, Eq)]
pub enum Health {
    /// Checks are missing. Bit n - 1 of `passed` stands for check n.
    Testing { passed: u8 },
    /// Each check passed, and no button was down when the last one did.
    Alive,
    /// A check failed, the case was opened, or a button was down when the last check passed.
    Dark,
}

impl Health {
    ghost use Rattle.fail_secure.specs.Health.{Report, Checked, Tampered, health_after, IsUnfinished};

    /// The health before any report.
    #[tactic(auto, unfolding(crate::specs::Health::health_after))]
    pub fn new() -> Health
        ensures health { result ≡ health_after [] }
        ensures unfinished { IsUnfinished result }
    {
        Health::Testing { passed: 0 }
    }

    /// The health after check `check`, 1 to `CHECKS`, passed or failed. `buttons_up` says whether no button is down.
    pub fn report(self, check: u8, pass: bool, buttons_up: bool) -> Health
        requires some { 1 ≤ check }
        requires known { check ≤ CHECKS }
        requires unfinished { IsUnfinished self }
        ensures health { (past : List Report) → self ≡ health_after past
            → result ≡ health_after (Checked check pass buttons_up ∷ past) }
        ensures unfinished { IsUnfinished result }
    {
        match self {
            Health::Testing { passed } if pass => after_pass(passed, check, buttons_up),
            Health::Testing { .. } => Health::Dark,
            Health::Alive if pass => Health::Alive,
            Health::Alive => Health::Dark,
            Health::Dark => Health::Dark,
        }
    }

    /// The health after the case was opened.
    #[tactic(auto, unfolding(crate::specs::Health::health_after))]
    pub fn tamper(self) -> Health
        requires unfinished { IsUnfinished self }
        ensures health { (past : List Report) → self ≡ health_after past
            → result ≡ health_after (Tampered ∷ past) }
        ensures unfinished { IsUnfinished result }
    {
        Health::Dark // from whatever it was
    }
}

/// The health after check `check` passed in a self-test that goes on.
fn after_pass(passed: u8, check: u8, buttons_up: bool) -> Health
    requires some { 1 ≤ check }
    requires known { check ≤ CHECKS }
    requires unfinished { passed < ALL_CHECKS }
    ensures health { (past : List Report) → Health.Testing passed ≡ health_after past
        → result ≡ health_after (Checked check true buttons_up ∷ past) }
    ensures unfinished { IsUnfinished result }
{
    let passed = with_check(passed, check);
    if passed < ALL_CHECKS {
        Health::Testing { passed }
    } else if buttons_up {
        Health::Alive
    } else {
        Health::Dark
    }
}

/// The checks that passed, and check `check` besides.
fn with_check(passed: u8, check: u8) -> u8
    requires some { 1 ≤ check }
    requires known { check ≤ CHECKS }
    ensures { (past : List Report) (buttons_up : Bool) → passed ≡ passed_bits past
        → result ≡ passed_bits (Checked check true buttons_up ∷ past) }
{
    passed | (1 << (check - 1))
}
