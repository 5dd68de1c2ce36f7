//! A script as a source of events, read one line ahead.
use crate::fault::LineFault;
use crate::form::Said;
use crate::line::{LINE_MAX, read_line};
use crate::window::Window;
use psd_base::{Desk, Event, Input, ScriptFault, Tick, What};

/// A script, and the line that was read ahead.
#[derive(Drop)]
pub struct ScriptSource {
    pub window: Window,
    /// The capture's number of ports, above which a line may name none.
    pub ports: u8,
    /// The tick of the last line that was read.
    pub tick: Tick,
    /// The number of the next line, from 1.
    pub line: u32,
    pub ahead: Option<Said>,
}

impl ScriptSource {
    ghost use Rattle.std.specs.Prelude.{◌≡◌, ℕ, ◌+◌, ◌<◌, ◌≤◌, ◌^◌, List, [], length, take, true, false, Some, None, Ok, Err, option_map};
    ghost use Rattle.std.specs.Prelude.{IfOk, IfErr, IfSome, IfNone, IsSome, IsSomeAnd, OnOk, OnErr};
    ghost use Rattle.psd_base.specs.Event.{seen};
    ghost use Rattle.capture_reader.specs.Ahead.{line_of};
    ghost use Rattle.capture_reader.specs.Schedule.{in_front};
    ghost use Rattle.capture_reader.specs.Lines.{lines_in, lines_later, LinesEndNow, FailedLineLook, IsNextLine, LineLookFailed};
    ghost use Rattle.capture_reader.specs.Script.{lines};
    ghost use Rattle.capture_reader.specs.Source.{after_ahead};
    ghost use Rattle.psd_base.specs.Desk.{OnlyReads, Told};
    ghost use Rattle.capture_reader.specs.Taken.{waiting, Took};
    ghost use Rattle.capture_reader.specs.Window.{coming, EndIsTrue, FrontLine};

    /// A script of which nothing was read.
    pub fn new(window: Window, ports: u8) -> ScriptSource
        ensures { result ≡ record { window = window; ports = ports; tick = 0; line = 1; ahead = None } }
    {
        ScriptSource {
            window,
            ports,
            tick: 0,
            line: 1,
            ahead: None,
        }
    }

    /// Looks at the next line. Afterwards it is the one that was read ahead, or there is none at the end of the script.
    pub fn look<D: Desk>(&mut self, desk: &mut D) -> Result<(), LineFault>
        requires { self.old.line < 2 ^ 31 }
        ensures ports { self.new.ports ≡ self.old.ports }
        ensures tick { self.old.tick ≤ self.new.tick }
        ensures line { self.new.line ≤ self.old.line + 1 }

        ensures read { OnOk result (lines_later self.old (D.told desk.old)
            ≡ option_map (after_ahead (line_of self.new.ahead)) (lines_later self.new (D.told desk.new))) }
        ensures ahead { OnOk result (IfSome (line_of self.new.ahead) (IsNextLine self.new)) }
        ensures end { OnOk result (IfNone (line_of self.new.ahead) (LinesEndNow self.new None)) }

        ensures err { IfErr result (FailedLineLook self.new (D.told desk.old) (D.told desk.new)) }
        ensures stays { OnErr result (lines_later self.new (D.told desk.new)
            ≡ lines_later self.old (D.told desk.old)) }
        ensures unread { self.old.window.ended ≡ true → (self.new.window.ended ≡ true)
            × (desk.new ≡ desk.old) }
        ensures ends { EndIsTrue self.old.window ((D.told desk.old).left Input.Script)
            → EndIsTrue self.new.window ((D.told desk.new).left Input.Script) }
        ensures none { OnErr result (line_of self.new.ahead ≡ None) }
        ensures took { Took (lines_in self.old) (lines_in self.new) self.new.window.ended
            ((D.told desk.old).left Input.Script) ((D.told desk.new).left Input.Script)
            (waiting (line_of self.new.ahead)) }

        ensures only { OnlyReads Input.Script (D.told desk.old) (D.told desk.new) }
    {
        self.ahead = None;
        match self.window.hold_line(desk, Input::Script) {
            Ok(size) => self.take_line(size),
            Err(_) => Err(LineFault::Unread),
        }
    }

    /// The next line, of so many bytes, becomes the one that was read ahead, or there is none at the end of the script.
    fn take_line(&mut self, size: usize) -> Result<(), LineFault>
        requires front { FrontLine self.old.window size }
        requires none { self.old.ahead ≡ None }
        requires line { self.old.line < 2 ^ 31 }
        ensures ports { self.new.ports ≡ self.old.ports }
        ensures window { self.new.window.ended ≡ self.old.window.ended }
        ensures tick { self.old.tick ≤ self.new.tick }
        ensures line { self.new.line ≤ self.old.line + 1 }
        ensures read { OnOk result ((left : List ℕ)
            → lines self.old.ports self.old.tick self.old.line 0 (coming self.old.window left)
            ≡ after_ahead (line_of self.new.ahead)
            (lines self.new.ports self.new.tick self.new.line 0 (coming self.new.window left))) }
        ensures ahead { OnOk result (IfSome (line_of self.new.ahead) (IsNextLine self.new)) }
        ensures end { OnOk result (IfNone (line_of self.new.ahead) (LinesEndNow self.new None)) }
        ensures counted { OnOk result (self.old.window.ended ≡ false → (more : List ℕ)
            → lines_in self.old more ≡ lines_in self.new more + waiting (line_of self.new.ahead)) }
        ensures err { (before after : Told) → IfErr result (FailedLineLook self.new before after) }
        ensures same { OnErr result (self.new ≡ self.old) }
    {
        if self.window.len() == 0 {
            return Ok(());
        }
        match read_line(self.ports, self.tick, &self.window.bytes()[..size]) {
            Ok(said) => {
                self.window.drop_line(size);
                self.line += 1;
                self.tick = said.tick;
                self.ahead = Some(said);
                Ok(())
            }
            Err(why) => Err(self.fault(why)),
        }
    }

    /// The event of the line that was read ahead.
    pub fn event(&self) -> Event<'_>
        requires { IsSome (line_of self.now.ahead) }
        ensures { Some (seen result) ≡ line_of self.now.ahead }
    {
        match &self.ahead {
            Some(said) => Event {
                tick: said.tick,
                what: What::Panel(said.panel),
            },
            None => unreachable!(),
        }
    }

    /// The fault of the next line.
    fn fault(&self, why: ScriptFault) -> LineFault
        ensures { result ≡ LineFault.Faulty self.now.line why }
    {
        LineFault::Faulty {
            line: self.line,
            why,
        }
    }
}
