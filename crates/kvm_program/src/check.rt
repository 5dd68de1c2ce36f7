//! The command `check`: the rule file alone.
ghost use Rattle.std.specs.Prelude.{◌≡◌, IfErr, OnErr};
ghost use Rattle.psd_base.specs.Desk.{OnlyWrites, WriteFailed};
ghost use Rattle.admin_rules.specs.RuleFile.{lists_of};
ghost use Rattle.kvm_program.specs.Check.{Checks, check_text, no_summary};
ghost use Rattle.kvm_program.specs.Outlets.{WroteTo};

use crate::outlets::send;
use crate::report::append_count;
use crate::rules::take_rules;
use peripheral_filter::RuleSet;
use port_transcript::Text;
use psd_base::desk::Desk;
use psd_base::outlet::{Input, Outlet};
use psd_base::port::MAX_PORTS;
use psd_base::stop::Stop;
use psd_base::summary::Summary;
use std::alloc::Global;

/// Reads and judges the rule file, and reports how many entries each of its lists has.
pub fn check<D: Desk>(alloc: Global, desk: &mut D) -> Result<Summary, Stop>
    ensures promise { Checks result (D.told desk.old) (D.told desk.new) }
    ensures faults { (D.told desk.new).sent Outlet.Faults ≡ (D.told desk.old).sent Outlet.Faults }
{
    let rules = take_rules(alloc, desk)?;
    report_lists(desk, &rules)?;
    Ok(served_nothing())
}

/// Reports how many entries each list has.
fn report_lists<D: Desk>(desk: &mut D, rules: &RuleSet) -> Result<(), Stop>
    ensures wrote { WroteTo Outlet.Report result (D.told desk.old) (D.told desk.new)
        (check_text (lists_of rules.now)) }
    ensures stop { IfErr result (λ stop. stop ≡ Stop.WriteFault Outlet.Report) }
    ensures failed { OnErr result (WriteFailed Outlet.Report (D.told desk.old) (D.told desk.new)) }
    ensures only { OnlyWrites Outlet.Report (D.told desk.old) (D.told desk.new) }
{
    let text = list_lines(rules);
    send(desk, &Outlet::Report, text.as_slice())
}

/// How many entries each list has, a line for each.
#[tactic(auto, unfolding(crate::specs::Check::check_text))]
fn list_lines(rules: &RuleSet) -> Text
    ensures { result.items ≡ check_text (lists_of rules.now) }
{
    let mut text = Text::new();
    append_count(&mut text, b"allow ", rules.allow.len() as u32);
    append_count(&mut text, b"deny ", rules.deny.len() as u32);
    text
}

/// The summary of a command that serves no event.
fn served_nothing() -> Summary
    ensures { result ≡ no_summary }
{
    Summary {
        events: 0,
        ports: 0,
        refused: 0,
        left: 0,
        bytes: [0; MAX_PORTS as usize],
    }
}
