//! How far a run has come: the events that were given, and those that were read ahead of the two sources.
use crate::fault::{Fault, LineFault, RecordFault};
use crate::next::{Next, next_source};
use crate::script::ScriptSource;
use crate::source::CaptureSource;
use crate::window::Window;
use psd_base::{Desk, EVENTS_MAX, Event, Input, MAX_PORTS, Tick};

/// What became of the last look at the sources.
#[derive(Clone, Copy, Debug, PartialEq, Eq)]
pub enum State {
    /// No event that was read ahead was given.
    Waiting,
    /// The record that was read ahead was given.
    GivenRecord,
    /// The line that was read ahead was given.
    GivenLine,
    /// The run stopped.
    Stopped(Fault),
}

/// How far a run has come.
#[derive(Drop)]
pub struct Progress {
    pub capture: CaptureSource,
    pub script: ScriptSource,
    pub limit: u32,
    pub served: u32,
    /// The tick of the last event that was given.
    pub tick: Tick,
    pub state: State,
}

impl Progress {
    ghost use Rattle.std.specs.Prelude.{◌≡◌, ◌≢◌, ◌⊎◌, ℕ, ◌+◌, ◌<◌, ◌≤◌, List, [], true, false, Option, Some, None, Ok, Err};
    ghost use Rattle.std.specs.Prelude.{option_map, IsSome, IfSome, IfNone, IfOk, IfErr, OnOk, IsErrAnd};
    ghost use Rattle.psd_base.specs.Event.{seen};
    ghost use Rattle.capture_reader.specs.Ahead.{ahead_of, line_of};
    ghost use Rattle.capture_reader.specs.Fault.{stop_of};
    ghost use Rattle.capture_reader.specs.Lines.{lines_in, lines_later, lines_with_ahead, FailedLineLook};
    ghost use Rattle.capture_reader.specs.Progress.{reading, script_reading, as_waiting, after_look, IsOpened, IsUnread, IsLookedAt, IsSound};
    ghost use Rattle.capture_reader.specs.Reader.{rest, rest_told, records_held, lines_held, TookBoth, EndsAreTrue, GivesNext, IsAtEnd, IsInOrder, IsLooked, IsOver, NewFailed, ShowsOver, StopsBecause};
    ghost use Rattle.capture_reader.specs.Merge.{schedule_told, merged, port_count};
    ghost use Rattle.capture_reader.specs.Source.{records_in, records_later, FailedLook};
    ghost use Rattle.capture_reader.specs.Taken.{whole_records, whole_lines, FailsFirst, FailsBehind, LooksAt};
    ghost use Rattle.capture_reader.specs.Window.{EndIsTrue};
    ghost use Rattle.psd_base.specs.Desk.{NoOutlet, OnlyReads, ReadsSources, Told, Touches};

    /// Reads the capture's header, looks at the first line of the script, and then at the first record.
    pub fn begin<D: Desk>(
        capture: Window,
        script: Window,
        desk: &mut D,
        limit: u32,
    ) -> Result<Progress, Fault>
        requires limit { limit ≤ EVENTS_MAX }
        requires capture { capture ≡ record { bytes = []; ended = false } }
        requires script { script ≡ record { bytes = []; ended = false } }
        ensures sound { IfOk result IsSound }
        ensures counts { IfOk result (λ progress. (progress.limit ≡ limit) × (progress.served ≡ 0)
            × (progress.tick ≡ 0) × (progress.state ≡ State.Waiting)) }
        ensures ports { IfOk result (λ progress. IfSome ((D.told desk.old).left Input.Capture)
            (λ bytes. port_count bytes ≡ progress.capture.ports)) }
        ensures rest { IfOk result (λ progress. rest_told (reading progress) (D.told desk.new)
            ≡ schedule_told limit (D.told desk.old)) }
        ensures looked { OnOk result (IsLooked (schedule_told limit (D.told desk.old))) }
        ensures took { IfOk result (λ progress. TookBoth whole_records whole_lines (reading progress)
            (D.told desk.old) (D.told desk.new)) }
        ensures first { IfErr result (λ fault. FailsFirst whole_records whole_lines
            (D.told desk.old) (D.told desk.new) (stop_of fault)) }
        ensures ends { IfOk result (λ progress. EndsAreTrue (reading progress) (D.told desk.new)) }
        ensures err { IfErr result (λ fault. NewFailed (schedule_told limit (D.told desk.old))
            (D.told desk.old) (D.told desk.new) ⊥ (stop_of fault)) }
        ensures only { ReadsSources (D.told desk.old) (D.told desk.new) }
    {
        match CaptureSource::open(capture, desk) {
            Ok(capture) => {
                let script = ScriptSource::new(script, capture.ports);
                Progress::first_line(capture, script, desk, limit)
            }
            Err(fault) => Err(Fault::Record(fault)),
        }
    }

    /// Looks at the first line of the script, and then at the first record.
    fn first_line<D: Desk>(
        capture: CaptureSource,
        script: ScriptSource,
        desk: &mut D,
        limit: u32,
    ) -> Result<Progress, Fault>
        requires limit { limit ≤ EVENTS_MAX }
        requires capture { IsOpened capture }
        requires script { IsUnread capture.ports script }
        ensures sound { IfOk result IsSound }
        ensures counts { IfOk result (λ progress. (progress.limit ≡ limit) × (progress.served ≡ 0)
            × (progress.tick ≡ 0)
            × (progress.state ≡ State.Waiting) × (progress.capture.ports ≡ capture.ports)) }
        ensures rest { let before = merged limit (records_later capture (D.told desk.old))
            (lines_later script (D.told desk.old)) in
            IfOk result (λ progress. rest_told (reading progress) (D.told desk.new) ≡ before) }
        ensures looked { let before = merged limit (records_later capture (D.told desk.old))
            (lines_later script (D.told desk.old)) in
            OnOk result (IsLooked before) }
        ensures took { IfOk result (λ progress. TookBoth (records_in capture) (lines_in script)
            (reading progress) (D.told desk.old) (D.told desk.new)) }
        ensures first { IfErr result (λ fault. FailsFirst (records_in capture) (lines_in script)
            (D.told desk.old) (D.told desk.new) (stop_of fault)) }
        ensures ends { EndIsTrue capture.window ((D.told desk.old).left Input.Capture)
            → EndIsTrue script.window ((D.told desk.old).left Input.Script)
            → IfOk result (λ progress. EndsAreTrue (reading progress) (D.told desk.new)) }
        ensures err { let before = merged limit (records_later capture (D.told desk.old))
            (lines_later script (D.told desk.old)) in
            IfErr result (λ fault. NewFailed before (D.told desk.old) (D.told desk.new) ⊥ (stop_of fault)) }
        ensures only { ReadsSources (D.told desk.old) (D.told desk.new) }
    {
        let mut script = script;
        match script.look(desk) {
            Ok(()) => Progress::first_record(capture, script, desk, limit),
            Err(fault) => Err(Fault::Line(fault)),
        }
    }

    /// Looks at the first record.
    fn first_record<D: Desk>(
        capture: CaptureSource,
        script: ScriptSource,
        desk: &mut D,
        limit: u32,
    ) -> Result<Progress, Fault>
        requires limit { limit ≤ EVENTS_MAX }
        requires capture { IsOpened capture }
        requires script { IsLookedAt capture.ports script }
        ensures sound { IfOk result IsSound }
        ensures counts { IfOk result (λ progress. (progress.limit ≡ limit) × (progress.served ≡ 0)
            × (progress.tick ≡ 0)
            × (progress.state ≡ State.Waiting) × (progress.capture.ports ≡ capture.ports)) }
        ensures rest { (left : Option (List ℕ))
            → let before = merged limit (records_later capture (D.told desk.old))
            (lines_with_ahead script left) in
            IfOk result (λ progress. rest (reading progress) ((D.told desk.new).left Input.Capture) left
            ≡ before) }
        ensures looked { (left : Option (List ℕ))
            → let before = merged limit (records_later capture (D.told desk.old))
            (lines_with_ahead script left) in
            OnOk result (IsLooked before) }
        ensures script { IfOk result (λ progress. progress.script ≡ script) }
        ensures ends { EndIsTrue capture.window ((D.told desk.old).left Input.Capture)
            → IfOk result
            (λ progress. EndIsTrue progress.capture.window ((D.told desk.new).left Input.Capture)) }
        ensures took { IfOk result (λ progress. TookBoth (records_in capture)
            (lines_held (script_reading State.Waiting script)) (reading progress) (D.told desk.old)
            (D.told desk.new)) }
        ensures first { (lines : List ℕ → ℕ)
            → IfErr result (λ fault. FailsFirst (records_in capture) lines (D.told desk.old) (D.told desk.new)
            (stop_of fault)) }
        ensures err { (left : Option (List ℕ))
            → let before = merged limit (records_later capture (D.told desk.old))
            (lines_with_ahead script left) in
            IfErr result (λ fault. NewFailed before (D.told desk.old) (D.told desk.new) ⊥ (stop_of fault)) }
        ensures only { OnlyReads Input.Capture (D.told desk.old) (D.told desk.new) }
    {
        let mut capture = capture;
        match capture.look(desk) {
            Ok(()) => Ok(Progress {
                capture,
                script,
                limit,
                served: 0,
                tick: 0,
                state: State::Waiting,
            }),
            Err(fault) => Err(Fault::Record(fault)),
        }
    }

    /// Goes on to the next event, and answers whether there is one.
    #[inline(always)]
    pub fn advance<D: Desk>(&mut self, desk: &mut D) -> Result<bool, Fault>
        requires sound { IsSound self.old }
        ensures sound { IsSound self.new }
        ensures counts { (self.new.limit ≡ self.old.limit) × (self.new.capture.ports
            ≡ self.old.capture.ports) × (self.old.tick ≤ self.new.tick) }

        ensures next { result ≡ Ok true → GivesNext (reading self.new)
            (rest_told (reading self.old) (D.told desk.old))
            (rest_told (reading self.new) (D.told desk.new)) }
        ensures served { result ≡ Ok true → self.new.served ≡ self.old.served + 1 }
        ensures going { result ≡ Ok true → (reading self.new).stopped ≡ None }
        ensures order { result ≡ Ok true → IfSome (reading self.new).given
            (IsInOrder self.old.tick self.new.tick self.new.capture.ports) }

        ensures end { result ≡ Ok false → IsAtEnd (reading self.new) × ShowsOver None (reading self.new)
            × IsOver None (rest_told (reading self.old) (D.told desk.old)) }
        ensures met { result ≡ Ok false → (self.new.capture.window.ended ≡ true)
            × (self.new.script.window.ended ≡ true) }
        ensures at_end { IsAtEnd (reading self.old) → (result ≡ Ok false) × (self.new ≡ self.old)
            × (desk.new ≡ desk.old) }

        ensures stop { IfErr result (λ fault. (reading self.new).stopped ≡ Some (stop_of fault)) }
        ensures cause { IfErr result (λ fault. ((reading self.old).stopped ≡ Some (stop_of fault))
            ⊎ StopsBecause (reading self.new) (rest_told (reading self.old) (D.told desk.old))
            (D.told desk.old) (D.told desk.new) (stop_of fault)) }
        ensures stopped { IfSome (reading self.old).stopped
            (λ stop. IsErrAnd result (λ fault. stop_of fault ≡ stop) × (self.new ≡ self.old)
            × (desk.new ≡ desk.old)) }

        ensures rest { result ≢ Ok true → rest_told (reading self.new) (D.told desk.new)
            ≡ rest_told (reading self.old) (D.told desk.old) }
        ensures stays { result ≢ Ok true → ((reading self.new).given ≡ None)
            × (self.new.served ≡ self.old.served) }

        ensures took { TookBoth (records_held self.old.capture.ports (reading self.old).capture)
            (lines_held (reading self.old).script) (reading self.new) (D.told desk.old) (D.told desk.new) }
        ensures behind { IfErr result (λ fault. ((reading self.old).stopped ≡ Some (stop_of fault))
            ⊎ FailsBehind (reading self.old).given (stop_of fault)) }
        ensures looks { Touches (LooksAt (reading self.old).given) NoOutlet
            (D.told desk.old) (D.told desk.new) }

        ensures unread_capture { self.old.capture.window.ended ≡ true → (self.new.capture.window.ended ≡ true)
            × ((D.told desk.new).left Input.Capture ≡ (D.told desk.old).left Input.Capture) }
        ensures unread_script { self.old.script.window.ended ≡ true → (self.new.script.window.ended ≡ true)
            × ((D.told desk.new).left Input.Script ≡ (D.told desk.old).left Input.Script) }
        ensures unread { self.old.capture.window.ended ≡ true → self.old.script.window.ended ≡ true
            → desk.new ≡ desk.old }
        ensures capture_end { EndIsTrue self.old.capture.window ((D.told desk.old).left Input.Capture)
            → EndIsTrue self.new.capture.window ((D.told desk.new).left Input.Capture) }
        ensures script_end { EndIsTrue self.old.script.window ((D.told desk.old).left Input.Script)
            → EndIsTrue self.new.script.window ((D.told desk.new).left Input.Script) }
        ensures only { ReadsSources (D.told desk.old) (D.told desk.new) }
    {
        match &self.state {
            State::Stopped(fault) => Err(*fault),
            State::Waiting => self.give(),
            State::GivenRecord => match self.look_at_record(desk) {
                Ok(()) => self.give(),
                Err(fault) => Err(Fault::Record(fault)),
            },
            State::GivenLine => match self.look_at_line(desk) {
                Ok(()) => self.give(),
                Err(fault) => Err(Fault::Line(fault)),
            },
        }
    }

    /// Looks behind the record that was given. Where that succeeds, the state is left for `give` to set.
    #[inline(always)]
    fn look_at_record<D: Desk>(&mut self, desk: &mut D) -> Result<(), RecordFault>
        requires given { self.old.state ≡ State.GivenRecord }
        requires sound { IsSound self.old }
        ensures sound { IsSound (after_look result self.new) }
        ensures counts { (self.new.limit ≡ self.old.limit) × (self.new.served ≡ self.old.served)
            × (self.new.tick ≡ self.old.tick)
            × (self.new.capture.ports ≡ self.old.capture.ports) × (self.new.script ≡ self.old.script) }
        ensures rest { (left : Option (List ℕ))
            → rest (reading (after_look result self.new)) ((D.told desk.new).left Input.Capture) left
            ≡ rest (reading self.old) ((D.told desk.old).left Input.Capture) left }
        ensures unread { self.old.capture.window.ended ≡ true → (self.new.capture.window.ended ≡ true)
            × (desk.new ≡ desk.old) }
        ensures capture_end { EndIsTrue self.old.capture.window ((D.told desk.old).left Input.Capture)
            → EndIsTrue self.new.capture.window ((D.told desk.new).left Input.Capture) }
        ensures took { TookBoth (records_held self.old.capture.ports (reading self.old).capture)
            (lines_held (reading self.old).script) (reading (after_look result self.new))
            (D.told desk.old) (D.told desk.new) }
        ensures err { IfErr result (λ fault. (self.new.state ≡ State.Stopped (Fault.Record fault))
            × (ahead_of self.new.capture.ahead ≡ None)
            × FailedLook self.new.capture (D.told desk.old) (D.told desk.new) fault) }
        ensures only { OnlyReads Input.Capture (D.told desk.old) (D.told desk.new) }
    {
        match self.capture.look(desk) {
            Ok(()) => Ok(()),
            Err(fault) => {
                self.state = State::Stopped(Fault::Record(fault));
                Err(fault)
            }
        }
    }

    /// Looks behind the line that was given. Where that succeeds, the state is left for `give` to set.
    fn look_at_line<D: Desk>(&mut self, desk: &mut D) -> Result<(), LineFault>
        requires given { self.old.state ≡ State.GivenLine }
        requires sound { IsSound self.old }
        ensures sound { IsSound (after_look result self.new) }
        ensures counts { (self.new.limit ≡ self.old.limit) × (self.new.served ≡ self.old.served)
            × (self.new.tick ≡ self.old.tick)
            × (self.new.capture ≡ self.old.capture) }
        ensures rest { (left : Option (List ℕ))
            → rest (reading (after_look result self.new)) left ((D.told desk.new).left Input.Script)
            ≡ rest (reading self.old) left ((D.told desk.old).left Input.Script) }
        ensures unread { self.old.script.window.ended ≡ true → (self.new.script.window.ended ≡ true)
            × (desk.new ≡ desk.old) }
        ensures script_end { EndIsTrue self.old.script.window ((D.told desk.old).left Input.Script)
            → EndIsTrue self.new.script.window ((D.told desk.new).left Input.Script) }
        ensures took { TookBoth (records_held self.old.capture.ports (reading self.old).capture)
            (lines_held (reading self.old).script) (reading (after_look result self.new))
            (D.told desk.old) (D.told desk.new) }
        ensures err { IfErr result (λ fault. (self.new.state ≡ State.Stopped (Fault.Line fault))
            × (line_of self.new.script.ahead ≡ None)
            × FailedLineLook self.new.script (D.told desk.old) (D.told desk.new) fault) }
        ensures only { OnlyReads Input.Script (D.told desk.old) (D.told desk.new) }
    {
        match self.script.look(desk) {
            Ok(()) => Ok(()),
            Err(fault) => {
                self.state = State::Stopped(Fault::Line(fault));
                Err(fault)
            }
        }
    }

    /// Gives the next of the events that were read ahead, and answers whether there is one. None of these was given,
    /// whatever the state says.
    #[inline(always)]
    fn give(&mut self) -> Result<bool, Fault>
        requires sound { IsSound (as_waiting self.old) }
        ensures sound { IsSound self.new }
        ensures counts { (self.new.limit ≡ self.old.limit) × (self.new.capture ≡ self.old.capture)
            × (self.new.script ≡ self.old.script)
            × (self.old.tick ≤ self.new.tick) }

        ensures next { result ≡ Ok true → (capture script : Option (List ℕ))
            → GivesNext (reading self.new) (rest (reading (as_waiting self.old)) capture script)
            (rest (reading self.new) capture script) }
        ensures served { result ≡ Ok true → self.new.served ≡ self.old.served + 1 }
        ensures going { result ≡ Ok true → (reading self.new).stopped ≡ None }
        ensures order { result ≡ Ok true → IfSome (reading self.new).given
            (IsInOrder self.old.tick self.new.tick self.new.capture.ports) }
        ensures end { result ≡ Ok false
            → (self.new ≡ as_waiting self.old) × (ahead_of self.old.capture.ahead ≡ None)
            × (line_of self.old.script.ahead ≡ None)
            × ShowsOver None (reading self.new) }
        ensures met { result ≡ Ok false → (self.new.capture.window.ended ≡ true)
            × (self.new.script.window.ended ≡ true) }
        ensures none { ahead_of self.old.capture.ahead ≡ None → line_of self.old.script.ahead ≡ None
            → (result ≡ Ok false)
            × (self.new ≡ as_waiting self.old) }
        ensures rest { result ≢ Ok true → (capture script : Option (List ℕ))
            → rest (reading self.new) capture script ≡ rest (reading (as_waiting self.old)) capture script }
        ensures took { (told : Told)
            → TookBoth (records_held self.old.capture.ports (reading (as_waiting self.old)).capture)
            (lines_held (reading (as_waiting self.old)).script) (reading self.new) told told }
        ensures stop { IfErr result (λ fault. (fault ≡ Fault.TooMany)
            × (self.new ≡ record self.old { state = State.Stopped Fault.TooMany })
            × ShowsOver (Some (stop_of Fault.TooMany)) (reading self.new)
            × (self.old.served ≡ self.old.limit)) }
    {
        match next_source(&self.capture.ahead, &self.script.ahead) {
            Next::Record => self.go_on(State::GivenRecord, self.capture.tick),
            Next::Line => self.go_on(State::GivenLine, self.script.tick),
            Next::End => {
                self.state = State::Waiting;
                Ok(false)
            }
        }
    }

    /// Counts an event of this tick as given, unless it is one too many.
    #[inline(always)]
    fn go_on(&mut self, given: State, tick: Tick) -> Result<bool, Fault>
        requires { self.old.served ≤ self.old.limit }
        ensures more { result ≡ Ok true → (self.old.served < self.old.limit)
            × (self.new ≡ record self.old { served = self.old.served + 1; tick = tick; state = given }) }
        ensures some { result ≢ Ok false }
        ensures full { IfErr result (λ fault. (fault ≡ Fault.TooMany) × (self.old.served ≡ self.old.limit)
            × (self.new ≡ record self.old { state = State.Stopped Fault.TooMany })) }
    {
        if self.served == self.limit {
            self.state = State::Stopped(Fault::TooMany);
            return Err(Fault::TooMany);
        }
        self.served += 1;
        self.tick = tick;
        if self.state != given {
            self.state = given;
        }
        Ok(true)
    }

    /// The event that was given, which borrows what is long.
    #[inline(always)]
    pub fn event(&self) -> Event<'_>
        requires given { IsSome (reading self.now).given }
        ensures { Some (seen result) ≡ (reading self.now).given }
    {
        match &self.state {
            State::GivenRecord => self.capture.ahead.event(),
            State::GivenLine => self.script.event(),
            State::Waiting => unreachable!(),
            State::Stopped(_) => unreachable!(),
        }
    }
}
