//! The replay: every event of the capture and the script is served, and what it gives is written.
ghost use Rattle.std.specs.Prelude.{◌≡◌, ◌≢◌, ℕ, ◌+◌, ◌*◌, ◌^◌, ◌<◌, ◌≤◌, List, [], ◌∷◌, length, Option, option_map, IfSome, IfOk, IfErr, OnOk, OnErr};
ghost use Rattle.psd_base.specs.Port.{IsPort};
ghost use Rattle.psd_base.specs.Desk.{Told};
ghost use Rattle.peripheral_filter.specs.declared.rule.RuleSet.{RuleSet};
ghost use Rattle.capture_reader.specs.Reader.{EndsAreTrue, rest_told};
ghost use Rattle.switch_core.specs.StandsFor.{StandsFor, port_total};
ghost use Rattle.switch_core.specs.Gives.{gives_at, gives_of};
ghost use Rattle.psd_base.specs.History.{onto};
ghost use Rattle.kvm_program.specs.Outlets.{OnlyServes, OnlyWritesTexts, WroteTo, IsTextFault};
ghost use Rattle.kvm_program.specs.Tally.{bytes_at};
ghost use Rattle.kvm_program.specs.Texts.{step_text, text_of};
ghost use Rattle.kvm_program.specs.Transcript.{text_at};

use crate::outlets::write_turn;
use crate::tally::Tally;
use capture_reader::Reader;
use port_transcript::Text;
use psd_base::desk::Desk;
use psd_base::event::{EVENTS_MAX, Event};
use psd_base::outlet::{Input, Outlet};
use psd_base::stop::Stop;
use psd_base::summary::Summary;
use switch_core::{Switch, Turn};

/// What serves the events: the switch, and room for what one event gives.
#[derive(Drop)]
pub struct Server {
    pub switch: Switch,
    pub tally: Tally,
    turn: Turn,
    text: Text,
}

impl Server {
    ghost use Rattle.psd_base.specs.Event.{Seen, seen, happening_of, HappensWithin};
    ghost use Rattle.std.specs.Prelude.{Some, None, Ok, true, false};
    ghost use Rattle.capture_reader.specs.Schedule.{Schedule, over};
    ghost use Rattle.kvm_program.specs.Progress.{Counts, Progress, Finished, HasRoom, IsReady, NothingLeft, PortsAboveStay, WroteAtStop, ServingStops};
    ghost use Rattle.kvm_program.specs.Report.{summary_of};

    /// What serves with this switch, before any event.
    pub fn new(switch: Switch) -> Server
        ensures switch { result.switch ≡ switch }
        ensures empty { (rules : RuleSet) → Counts rules result.tally [] }
        ensures room { HasRoom result.tally result.switch.served }
    {
        Server {
            switch,
            tally: Tally::new(),
            turn: Turn::new(),
            text: Text::new(),
        }
    }

    /// The summary of a run over all events of a capture with so many ports.
    pub fn summary(&self, ports: u8) -> Summary
        ensures ports { result.ports ≡ ports }
        ensures counts { (rules : RuleSet) (events : List Seen) → self.now.switch.served ≡ length events
            → Counts rules self.now.tally (onto events []) → result ≡ summary_of rules ports events }
    {
        Summary {
            events: self.switch.served(),
            ports,
            refused: self.tally.refused(),
            left: self.tally.left(),
            bytes: self.tally.bytes(),
        }
    }

    /// Serves one event, and writes what it gives.
    #[inline(always)]
    pub fn serve<D: Desk>(&mut self, desk: &mut D, event: &Event) -> Result<(), Stop>
        requires known { HappensWithin (port_total self.old.switch) (happening_of event.now.what) }
        requires few { self.old.switch.served < EVENTS_MAX }
        requires room { HasRoom self.old.tally self.old.switch.served }
        ensures stands { (rules : RuleSet) (past : List Seen) → StandsFor rules self.old.switch past
            → StandsFor rules self.new.switch (seen event.now ∷ past) }
        ensures wrote { (rules : RuleSet) (past : List Seen) → StandsFor rules self.old.switch past
            → (to : Outlet) → WroteTo to result (D.told desk.old) (D.told desk.new)
            (step_text rules to (seen event.now) past) }
        ensures counted { (rules : RuleSet) (past : List Seen) → StandsFor rules self.old.switch past
            → Counts rules self.old.tally past
            → OnOk result (Counts rules self.new.tally (seen event.now ∷ past)) }
        ensures room { OnOk result (HasRoom self.new.tally self.new.switch.served) }
        ensures served { self.new.switch.served ≡ self.old.switch.served + 1 }
        ensures ports { port_total self.new.switch ≡ port_total self.old.switch }
        ensures stop { IfErr result (IsTextFault (D.told desk.old) (D.told desk.new)) }
        ensures only { OnlyWritesTexts (D.told desk.old) (D.told desk.new) }
    {
        self.switch.step(event, &mut self.turn);
        write_turn(desk, event, &self.turn, &mut self.text, &mut self.tally)
    }

    /// Serves the next event of the reader, if there is one.
    fn serve_next<D: Desk>(&mut self, reader: &mut Reader, desk: &mut D) -> Result<bool, Stop>
        requires { IsReady reader.old self.old.switch self.old.tally }
        ensures ready { result ≡ Ok true → IsReady reader.new self.new.switch self.new.tally }
        ensures counted { result ≡ Ok true → (reader.new.served ≡ reader.old.served + 1)
            × (reader.new.served ≤ reader.old.limit) }
        ensures same { OnOk result ((reader.new.limit ≡ reader.old.limit)
            × (reader.new.ports ≡ reader.old.ports)) }
        ensures going { result ≡ Ok true → (rules : RuleSet) (coming : Option Schedule) (start : Told) →
            Progress rules coming start reader.old (D.told desk.old) self.old.switch self.old.tally →
            Progress rules coming start reader.new (D.told desk.new) self.new.switch self.new.tally }
        ensures ended { result ≡ Ok false → IfSome (rest_told reader.old (D.told desk.old)) (λ left. left
            ≡ over None) }
        ensures drained { result ≡ Ok false → EndsAreTrue reader.old (D.told desk.old)
            → NothingLeft (D.told desk.new) }
        ensures idle { result ≡ Ok false → ((outlet : Outlet)
            → (D.told desk.new).sent outlet ≡ (D.told desk.old).sent outlet)
            × (self.new.switch ≡ self.old.switch) × (self.new.tally ≡ self.old.tally) }
        ensures written { IfErr result (λ stop. (rules : RuleSet) (schedule : Schedule) (start : Told)
            (to : Outlet) → Progress rules (Some schedule) start reader.old (D.told desk.old)
            self.old.switch self.old.tally → WroteAtStop stop (text_of rules to) schedule.events to
            start (D.told desk.new)) }
        ensures above { (rules : RuleSet) (coming : Option Schedule) (start : Told) →
            Progress rules coming start reader.old (D.told desk.old) self.old.switch self.old.tally →
            PortsAboveStay reader.old.ports (D.told desk.old) (D.told desk.new) }
        ensures stop { IfErr result (λ stop. (rules : RuleSet) (coming : Option Schedule) (start : Told) →
            Progress rules coming start reader.old (D.told desk.old) self.old.switch self.old.tally →
            ServingStops stop coming (D.told desk.old) (D.told desk.new)) }
        ensures only { OnlyServes (D.told desk.old) (D.told desk.new) }
    {
        if !reader.advance(desk)? {
            return Ok(false);
        }
        let event = reader.event();
        self.serve(desk, &event)?;
        Ok(true)
    }

    /// Serves every event of the reader.
    pub fn serve_all<D: Desk>(&mut self, reader: &mut Reader, desk: &mut D) -> Result<(), Stop>
        requires { IsReady reader.old self.old.switch self.old.tally }
        ensures finished { OnOk result ((rules : RuleSet) (schedule : Schedule) (start : Told) →
            Progress rules (Some schedule) start reader.old (D.told desk.old)
            self.old.switch self.old.tally →
            Finished rules schedule start (D.told desk.new) self.new.switch self.new.tally) }
        ensures written { IfErr result (λ stop. (rules : RuleSet) (schedule : Schedule) (start : Told)
            (to : Outlet) → Progress rules (Some schedule) start reader.old (D.told desk.old)
            self.old.switch self.old.tally → WroteAtStop stop (text_of rules to) schedule.events to
            start (D.told desk.new)) }
        ensures above { (rules : RuleSet) (coming : Option Schedule) (start : Told) →
            Progress rules coming start reader.old (D.told desk.old) self.old.switch self.old.tally →
            PortsAboveStay reader.old.ports (D.told desk.old) (D.told desk.new) }
        ensures stop { IfErr result (λ stop. (rules : RuleSet) (coming : Option Schedule) (start : Told) →
            Progress rules coming start reader.old (D.told desk.old) self.old.switch self.old.tally →
            ServingStops stop coming (D.told desk.old) (D.told desk.new)) }
        ensures only { OnlyServes (D.told desk.old) (D.told desk.new) }
    {
        'events: while self.serve_next(reader, desk)? {}
        Ok(())
    }
}
