//! Gives the events of a capture and of a button script, one at a time.
ghost use Rattle.std.specs.Prelude.{◌≡◌, ◌≢◌, ◌⊎◌, ◌+◌, ◌≤◌, [], true, false, Some, None, Ok, Err};
ghost use Rattle.std.specs.Prelude.{IsSome, IfOk, IfSome, IfErr, OnOk};
ghost use Rattle.psd_base.specs.Event.{seen};
ghost use Rattle.capture_reader.specs.Reader.{rest_told, records_held, lines_held, TookBoth, EndsAreTrue, GivesNext, IsAtEnd, IsOver, ShowsOver, StopsBecause, NewFailed, IsInOrder, IsLooked};
ghost use Rattle.capture_reader.specs.Merge.{schedule_told, port_count};
ghost use Rattle.capture_reader.specs.Taken.{whole_records, whole_lines, FailsFirst, FailsBehind, LooksAt};
ghost use Rattle.psd_base.specs.Desk.{NoOutlet, ReadsSources, Touches};

use crate::progress::Progress;
use crate::window::Window;
use psd_base::{Desk, EVENTS_MAX, Event, Input, MAX_PORTS, Stop};
use std::alloc::{AllocError, Global};
use std::marker::Model;

/// Reads a capture and a button script from a desk, and gives their events one at a time in the order of the ticks, at
/// equal ticks those of the script first. It looks one event ahead in each. After a stop each call answers the same stop.
#[derive(Drop)]
pub struct Reader {
    progress: Progress,
}

impl Model for Reader {
    ghost use Rattle.capture_reader.specs.Reader.{Reading};

    ghost Value = { Reading };

    ghost use Rattle.capture_reader.specs.Progress.{reading, IsSound};

    ghost view = { λ reader. reading reader.progress };

    ghost invariant = { λ reader. IsSound reader.progress };
}

impl Reader {
    /// Takes its buffers, reads the header of the capture, and looks at the first line of the script and then at the
    /// first record. The reader gives at most `limit` events. An `Err` is a fault of the capture or of the script at
    /// which no event comes, a read that failed, or want of memory, before any read.
    pub fn new<D: Desk>(alloc: Global, desk: &mut D, limit: u32) -> Result<Reader, Stop>
        requires { limit ≤ EVENTS_MAX }
        ensures rest { IfOk result (λ reader. rest_told reader (D.told desk.new)
            ≡ schedule_told limit (D.told desk.old)) }
        ensures ports { IfOk result (λ reader. IfSome ((D.told desk.old).left Input.Capture)
            (λ bytes. port_count bytes ≡ reader.ports)
            × (2 ≤ reader.ports) × (reader.ports ≤ MAX_PORTS)) }
        ensures fresh { IfOk result (λ reader. (reader.limit ≡ limit) × (reader.served ≡ 0)
            × (reader.given ≡ None) × (reader.stopped ≡ None)) }

        // No reader where a source is faulty and no event comes.
        ensures looked { OnOk result (IsLooked (schedule_told limit (D.told desk.old))) }
        ensures err { IfErr result (NewFailed (schedule_told limit (D.told desk.old))
            (D.told desk.old) (D.told desk.new) (desk.new ≡ desk.old)) }

        // What was taken is held, and where a read failed nothing whole of its input was taken.
        ensures took { IfOk result (λ reader. TookBoth whole_records whole_lines reader
            (D.told desk.old) (D.told desk.new)) }
        ensures ends { IfOk result (λ reader. EndsAreTrue reader (D.told desk.new)) }
        ensures first { IfErr result (FailsFirst whole_records whole_lines
            (D.told desk.old) (D.told desk.new)) }
        ensures desk { ReadsSources (D.told desk.old) (D.told desk.new) }
    {
        match buffers(alloc) {
            Ok((capture, script)) => match Progress::begin(capture, script, desk, limit) {
                Ok(progress) => Ok(Reader { progress }),
                Err(fault) => Err(fault.stop()),
            },
            Err(_) => Err(Stop::OutOfMemory),
        }
    }

    /// The number of ports that the capture's header names, 2 to `MAX_PORTS`.
    pub fn ports(&self) -> u8
        ensures value { result ≡ self.now.ports }
        ensures some { 2 ≤ result }
        ensures within { result ≤ MAX_PORTS }
    {
        self.progress.capture.ports
    }

    /// How many events were given.
    pub fn served(&self) -> u32
        ensures value { result ≡ self.now.served }
        ensures within { result ≤ self.now.limit }
    {
        self.progress.served
    }

    /// Goes on to the next event, and answers whether there is one, which `event` then gives. It first looks behind the
    /// event that was given before, in that event's source. An `Err` is a fault of that source, a read of it that failed,
    /// or a further event after as many as the limit allows. The events' ticks never fall.
    #[inline(always)]
    pub fn advance<D: Desk>(&mut self, desk: &mut D) -> Result<bool, Stop>
        // There is an event: the next of those that were to come.
        ensures next { result ≡ Ok true → GivesNext self.new
            (rest_told self.old (D.told desk.old))
            (rest_told self.new (D.told desk.new)) }
        ensures served { result ≡ Ok true → self.new.served ≡ self.old.served + 1 }
        ensures going { result ≡ Ok true → self.new.stopped ≡ None }
        ensures within { self.new.served ≤ self.new.limit }
        ensures order { result ≡ Ok true
            → IfSome self.new.given (IsInOrder self.old.tick self.new.tick self.new.ports) }

        // There is none, at this call and at each later one.
        ensures end { result ≡ Ok false → IsAtEnd self.new × ShowsOver None self.new
            × IsOver None (rest_told self.old (D.told desk.old)) }
        ensures met { result ≡ Ok false → (self.new.capture.held.ended ≡ true)
            × (self.new.script.held.ended ≡ true) }
        ensures at_end { IsAtEnd self.old → (result ≡ Ok false) × (self.new ≡ self.old)
            × (desk.new ≡ desk.old) }

        // It stops, at this call or an earlier one.
        ensures stop { IfErr result (λ stop. self.new.stopped ≡ Some stop) }
        ensures cause { IfErr result (λ stop. (self.old.stopped ≡ Some stop)
            ⊎ StopsBecause self.new (rest_told self.old (D.told desk.old))
            (D.told desk.old) (D.told desk.new) stop) }
        ensures stopped { IfSome self.old.stopped (λ stop. (result ≡ Err stop) × (self.new ≡ self.old)
            × (desk.new ≡ desk.old)) }

        // Without an event nothing is lost.
        ensures rest { result ≢ Ok true → rest_told self.new (D.told desk.new)
            ≡ rest_told self.old (D.told desk.old) }
        ensures stays { result ≢ Ok true → (self.new.given ≡ None) × (self.new.served ≡ self.old.served) }

        // What was taken is given or held. A read is tried in the source of the event before alone.
        ensures took { TookBoth (records_held self.old.ports self.old.capture) (lines_held self.old.script)
            self.new (D.told desk.old) (D.told desk.new) }
        ensures behind { IfErr result (λ stop. (self.old.stopped ≡ Some stop)
            ⊎ FailsBehind self.old.given stop) }
        ensures looks { Touches (LooksAt self.old.given) NoOutlet (D.told desk.old) (D.told desk.new) }

        // Where the end of a source is met nothing is left of it, and behind the end it isn't read.
        ensures ends { EndsAreTrue self.old (D.told desk.old) → EndsAreTrue self.new (D.told desk.new) }
        ensures unread_capture { self.old.capture.held.ended ≡ true → (self.new.capture.held.ended ≡ true)
            × ((D.told desk.new).left Input.Capture ≡ (D.told desk.old).left Input.Capture) }
        ensures unread_script { self.old.script.held.ended ≡ true → (self.new.script.held.ended ≡ true)
            × ((D.told desk.new).left Input.Script ≡ (D.told desk.old).left Input.Script) }
        ensures unread { self.old.capture.held.ended ≡ true → self.old.script.held.ended ≡ true
            → desk.new ≡ desk.old }

        ensures counts { (self.new.limit ≡ self.old.limit) × (self.new.ports ≡ self.old.ports)
            × (self.old.tick ≤ self.new.tick) }
        ensures desk { ReadsSources (D.told desk.old) (D.told desk.new) }
    {
        match self.progress.advance(desk) {
            Ok(more) => Ok(more),
            Err(fault) => Err(fault.stop()),
        }
    }

    /// The event that the last `advance` went on to. It borrows its act or its bytes from the reader.
    #[inline(always)]
    pub fn event(&self) -> Event<'_>
        requires { IsSome self.now.given }
        ensures { Some (seen result) ≡ self.now.given }
    {
        self.progress.event()
    }
}

/// The buffers of the capture and of the script.
fn buffers(alloc: Global) -> Result<(Window, Window), AllocError>
    ensures { IfOk result (λ windows. (windows.0 ≡ record { bytes = []; ended = false })
        × (windows.1 ≡ record { bytes = []; ended = false })) }
{
    let capture = Window::new(alloc)?;
    let script = Window::new(alloc)?;
    Ok((capture, script))
}
