//! A whole run: from the command's words to the report.
ghost use Rattle.std.specs.Prelude.{◌≡◌, ◌≢◌, ℕ, ◌≤◌, [], Some, None, Ok, Err, IfSome, IfOk, IfErr, OnOk, OnErr};
ghost use Rattle.psd_base.specs.Desk.{NoInput, OnlyWrites, Told, Touches, WriteFailed};
ghost use Rattle.psd_base.specs.Port.{IsPort};
ghost use Rattle.peripheral_filter.specs.declared.rule.RuleSet.{RuleSet};
ghost use Rattle.capture_reader.specs.Reader.{rest_told};
ghost use Rattle.capture_reader.specs.Merge.{schedule_told};
ghost use Rattle.capture_reader.specs.Schedule.{Schedule};
ghost use Rattle.kvm_program.specs.Check.{Checks};
ghost use Rattle.kvm_program.specs.Command.{words_of};
ghost use Rattle.kvm_program.specs.Outlets.{OnlyServes, WroteTo};
ghost use Rattle.kvm_program.specs.Progress.{Finished, IsBegun, IsFresh, IsReady, PortsAboveStay, WroteAtStop};
ghost use Rattle.kvm_program.specs.Replay.{FaultWritten, FaultsWritten, IsUnread, OnlyRuns, Replays, RunStops, Serves};
ghost use Rattle.kvm_program.specs.Report.{report_text};
ghost use Rattle.kvm_program.specs.Run.{Run, run_under};
ghost use Rattle.kvm_program.specs.Texts.{text_of};

use crate::check::check;
use crate::command::Command;
use crate::open::open_outlets;
use crate::outlets::send;
use crate::replay::Server;
use crate::report::report;
use crate::rules::take_rules;
use capture_reader::Reader;
use peripheral_filter::RuleSet;
use port_transcript::stop_line;
use psd_base::desk::Desk;
use psd_base::event::EVENTS_MAX;
use psd_base::outlet::Outlet;
use psd_base::port::MAX_PORTS;
use psd_base::stop::Stop;
use psd_base::summary::Summary;
use psd_base::words::Words;
use std::alloc::Global;
use switch_core::Switch;

/// Serves all events. The reader was made of what the desk had left at the start of the run.
fn serve_events<D: Desk>(desk: &mut D, reader: &mut Reader, server: &mut Server) -> Result<(), Stop>
    requires { IsReady reader.old server.old.switch server.old.tally }
    ensures finished { OnOk result ((rules : RuleSet) (schedule : Schedule) (start : Told)
        → IsFresh rules server.old.switch server.old.tally → IsBegun start reader.old (D.told desk.old)
        → rest_told reader.old (D.told desk.old) ≡ Some schedule
        → Finished rules schedule start (D.told desk.new) server.new.switch server.new.tally) }
    ensures written { IfErr result
        (λ stop. (rules : RuleSet) (schedule : Schedule) (start : Told) (to : Outlet)
        → IsFresh rules server.old.switch server.old.tally → IsBegun start reader.old (D.told desk.old)
        → rest_told reader.old (D.told desk.old) ≡ Some schedule
        → WroteAtStop stop (text_of rules to) schedule.events to start (D.told desk.new)) }
    ensures above { (rules : RuleSet) (start : Told) → IsFresh rules server.old.switch server.old.tally
        → IsBegun start reader.old (D.told desk.old)
        → PortsAboveStay reader.old.ports start (D.told desk.new) }
    ensures stop { IfErr result (λ stop. (rules : RuleSet) (start : Told)
        → IsFresh rules server.old.switch server.old.tally → IsBegun start reader.old (D.told desk.old)
        → RunStops stop (λ _. ⊥) ⊥ (rest_told reader.old (D.told desk.old)) (D.told desk.old)
        (D.told desk.new)) }
    ensures only { OnlyServes (D.told desk.old) (D.told desk.new) }
{
    open_outlets(desk, reader.ports())?;
    server.serve_all(reader, desk)?;
    Ok(())
}

/// Writes the report of a run that came to its end.
fn write_report<D: Desk>(desk: &mut D, summary: &Summary) -> Result<(), Stop>
    requires { summary.now.ports ≤ MAX_PORTS }
    ensures wrote { WroteTo Outlet.Report result (D.told desk.old) (D.told desk.new)
        (report_text summary.now) }
    ensures stop { IfErr result (λ stop. stop ≡ Stop.WriteFault Outlet.Report) }
    ensures failed { OnErr result (WriteFailed Outlet.Report (D.told desk.old) (D.told desk.new)) }
    ensures only { OnlyWrites Outlet.Report (D.told desk.old) (D.told desk.new) }
{
    let text = report(summary);
    send(desk, &Outlet::Report, text.as_slice())
}

/// Serves all events, and writes the report. The reader was made of what the desk had left at the start of the run.
fn run<D: Desk>(desk: &mut D, reader: &mut Reader, server: &mut Server) -> Result<Summary, Stop>
    requires { IsReady reader.old server.old.switch server.old.tally }
    ensures serves { (rules : RuleSet) (schedule : Schedule) (start : Told)
        → IsFresh rules server.old.switch server.old.tally → IsBegun start reader.old (D.told desk.old)
        → rest_told reader.old (D.told desk.old) ≡ Some schedule
        → Serves result (record { rules = rules; ports = reader.old.ports; schedule = schedule })
        start (D.told desk.new) }
    ensures stop { IfErr result (λ stop. (rules : RuleSet) (start : Told)
        → IsFresh rules server.old.switch server.old.tally → IsBegun start reader.old (D.told desk.old)
        → RunStops stop (λ _. ⊥) ⊥ (rest_told reader.old (D.told desk.old)) (D.told desk.old)
        (D.told desk.new)) }
    ensures only { OnlyRuns (D.told desk.old) (D.told desk.new) }
{
    let ports = reader.ports();
    serve_events(desk, reader, server)?;
    let summary = server.summary(ports);
    write_report(desk, &summary)?;
    Ok(summary)
}

/// Replays the capture and the script under these rules, from their first bytes. All memory is taken before they are read.
fn replay_events<D: Desk>(alloc: Global, rules: RuleSet, desk: &mut D) -> Result<Summary, Stop>
    ensures serves { (run : Run) → run_under rules (D.told desk.old) ≡ Some run
        → Serves result run (D.told desk.old) (D.told desk.new) }
    ensures stop { IfErr result (λ stop. RunStops stop (λ _. ⊥) (IsUnread (D.told desk.old) (D.told desk.new))
        (schedule_told EVENTS_MAX (D.told desk.old)) (D.told desk.old) (D.told desk.new)) }
    ensures only { OnlyRuns (D.told desk.old) (D.told desk.new) }
{
    let switch = match Switch::new(alloc, rules, MAX_PORTS) {
        Ok(switch) => switch,
        Err(_) => return Err(Stop::OutOfMemory),
    };
    let mut reader = Reader::new(alloc, desk, EVENTS_MAX)?;
    let mut server = Server::new(switch);
    let summary = run(desk, &mut reader, &mut server)?;
    Ok(summary)
}

/// Judges the rules, and then replays the capture and the script.
fn replay<D: Desk>(alloc: Global, desk: &mut D) -> Result<Summary, Stop>
    ensures promise { Replays result (D.told desk.old) (D.told desk.new) }
    ensures faults { (D.told desk.new).sent Outlet.Faults ≡ (D.told desk.old).sent Outlet.Faults }
{
    let rules = take_rules(alloc, desk)?;
    replay_events(alloc, rules, desk)
}

/// Does what the words say, and writes no fault line.
fn obey<D: Desk>(alloc: Global, words: &Words, desk: &mut D) -> Result<Summary, Stop>
    ensures replay { words.now ≡ words_of Command.Replay
        → Replays result (D.told desk.old) (D.told desk.new) }
    ensures check { words.now ≡ words_of Command.Check → Checks result (D.told desk.old) (D.told desk.new) }
    ensures unknown { ((command : Command) → words.now ≢ words_of command) → (result ≡ Err Stop.Usage)
        × (desk.new ≡ desk.old) }
    ensures faults { (D.told desk.new).sent Outlet.Faults ≡ (D.told desk.old).sent Outlet.Faults }
    ensures counts { (to : Outlet) → (D.told desk.old).write_faults to ≤ (D.told desk.new).write_faults to }
{
    match Command::read(words) {
        Some(Command::Replay) => replay(alloc, desk),
        Some(Command::Check) => check(alloc, desk),
        None => Err(Stop::Usage),
    }
}

/// Does what the words of the command line say.
///
/// `replay` judges the rules, serves the events of the capture and of the button script in the order of their ticks, and
/// writes each computer's transcript, what the peripherals at the console are told, and the log. Whatever is replayed, a
/// computer's transcript is what a switch with one port answers to that computer's own acts, the results of the self-test,
/// the moments at which it is selected, what is typed and moved while it is, and what it hears of the token while that is
/// routed to it; a replay that stops early writes a part of it, from its front. Jobs of one life of the token are one port's,
/// and no life is routed to two. After a read of the capture or the script that failed, that part, and those of console and log, are
/// exactly their texts over the shortest part of the events that holds every whole record, or line with its line feed, among
/// the bytes that were taken of that input. `check` judges the rules alone.
#[inline(always)] // where the desk is the caller's own, the loop over the events knows where its buffers lie
pub fn kvm<D: Desk>(alloc: Global, words: &Words, desk: &mut D) -> Result<Summary, Stop>
    // What each command promises.
    ensures replay { words.now ≡ words_of Command.Replay
        → Replays result (D.told desk.old) (D.told desk.new) }
    ensures check { words.now ≡ words_of Command.Check → Checks result (D.told desk.old) (D.told desk.new) }

    // Words that are no command move nothing.
    ensures unknown { ((command : Command) → words.now ≢ words_of command) →
        (result ≡ Err Stop.Usage) × OnlyWrites Outlet.Faults (D.told desk.old) (D.told desk.new) }

    // A stop writes its line to the faults, whole unless that write fails too; without a stop nothing is written there.
    ensures faults { FaultsWritten result (D.told desk.old) (D.told desk.new) }
{
    match obey(alloc, words, desk) {
        Ok(summary) => Ok(summary),
        Err(stop) => {
            write_fault(desk, &stop);
            Err(stop)
        }
    }
}

/// Writes the line of a stop to the faults. Where that fails, the stop stays the answer.
fn write_fault<D: Desk>(desk: &mut D, stop: &Stop)
    ensures wrote { FaultWritten stop.now (D.told desk.old) (D.told desk.new) }
    ensures only { OnlyWrites Outlet.Faults (D.told desk.old) (D.told desk.new) }
{
    let line = stop_line(stop);
    let _ = send(desk, &Outlet::Faults, line.as_slice());
}
