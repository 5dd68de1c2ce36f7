//! What a move at the panel means for the self-test.
ghost use Rattle.std.specs.Prelude.{◌≡◌, List};
ghost use Rattle.fail_secure.specs.Health.{IsUnfinished, Report, health_after};
ghost use Rattle.port_model.specs.FrontHealth.{IsKnownCheck, with_report};
ghost use Rattle.switch_core.specs.Notes.{reason_of};

use fail_secure::Health;
use psd_base::console::{Panel, Reason};

/// The health after a move at the panel. `buttons_up` says whether no button is down.
pub(crate) fn health_moved(health: Health, panel: &Panel, buttons_up: bool) -> Health
    requires unfinished { IsUnfinished health }
    requires known { IsKnownCheck panel.now }
    ensures health { (reports : List Report) → health ≡ health_after reports
        → result ≡ health_after (with_report panel.now buttons_up reports) }
    ensures unfinished { IsUnfinished result }
{
    match panel {
        Panel::Guard(_) => health,
        Panel::Button(_, _) => health,
        Panel::Check(check, pass) => health.report(*check, *pass, buttons_up),
        Panel::Tamper => health.tamper(),
    }
}

/// Why a move makes the switch dark.
pub(crate) fn reason_for(panel: &Panel) -> Reason
    ensures { result ≡ reason_of panel.now }
{
    match panel {
        Panel::Guard(_) => Reason::Button,
        Panel::Button(_, _) => Reason::Button,
        Panel::Check(check, pass) => {
            if *pass {
                Reason::Button
            } else {
                Reason::Check(*check)
            }
        }
        Panel::Tamper => Reason::Tamper,
    }
}
