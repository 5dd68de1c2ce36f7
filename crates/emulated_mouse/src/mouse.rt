//! The emulated mouse: what each poll of its endpoint is answered, and its class requests (HID 1.11, 7.2; USB 2.0, 8.5.4).
ghost use Rattle.std.specs.Prelude.{◌≡◌, ℕ, Bool, true, false, List, [], ◌∷◌, ◌&&◌, not};
ghost use Rattle.psd_base.specs.KeySet.{has_no_key};
ghost use Rattle.input_latch.specs.PointerHistory.{PointerEntry, next_change, held_with};
ghost use Rattle.input_latch.specs.PointerLatchStands.{PointerLatchStands};
ghost use Rattle.emulated_mouse.specs.MouseHistory.{MouseEntry, Entered, Parted, Reset, Configured, Restarted, Requested, Polled, PolledApart, given_at, given_apart, last_made, toggle_of, is_entered, answer_of, motion_of, read_answer};
ghost use Rattle.emulated_mouse.specs.LatchCalls.{latch_after};
ghost use Rattle.emulated_mouse.specs.Report.{report_bytes};

use crate::buttons::Buttons;
use crate::given::Given;
use crate::motion::{Motion, Piece};
use crate::report::{Report, bytes_of};
use control_pipe::{HidRequest, HidSettings};
use input_latch::{PointerChange, PointerLatch};
use psd_base::event::Tick;
use psd_base::{Answer, Packet};
use std::marker::Model;

/// The idle rate after a bus reset: never (HID 1.11, 7.2.4). The mouse keeps what is set, and never repeats a report.
pub const IDLE_RATE: u8 = 0;

/// The number of the mouse's interface.
pub const INTERFACE: u16 = 1;

/// An emulated mouse. It is entered while its port is selected.
#[derive(Drop)]
pub struct Mouse {
    /// The report that was made last.
    last: Report,
    /// What is left of the motion that was begun last.
    rest: Motion,
    /// Whether the host hasn't acknowledged the report that was made last.
    unread: bool,
    /// Whether the port was left since that report was made.
    left: bool,
    /// The toggle of the next report: true is DATA1.
    toggle: bool,
    settings: HidSettings,
    entered: bool,
}

impl Model for Mouse {
    ghost use Rattle.emulated_mouse.specs.MouseStands.{MouseValue};

    ghost Value = { MouseValue };

    ghost view = { λ mouse. record {
      last = mouse.last;
      rest = mouse.rest;
      unread = mouse.unread;
      left = mouse.left;
      toggle = mouse.toggle;
      settings = mouse.settings;
      entered = mouse.entered;
    } };
}

impl Mouse {
    ghost use Rattle.emulated_mouse.specs.MouseStands.{MouseStands};
    ghost use Rattle.emulated_mouse.specs.MouseSteps.{case_of, case_apart, given_step, said_step, sent_step, made_report, requested_step, value_answer};

    /// A mouse that isn't entered, with no button down.
    pub fn new() -> Mouse
        ensures stands { MouseStands result [] }
        ensures entered { result.entered ≡ false }
    {
        Mouse {
            last: Report::released(),
            rest: Motion::STILL,
            unread: false,
            left: false,
            toggle: false,
            settings: HidSettings::new(IDLE_RATE),
            entered: false,
        }
    }

    /// The port is selected. The tick means nothing to a mouse, which never repeats a report.
    pub fn enter(&mut self, _tick: Tick)
        requires { self.old.entered ≡ false }
        ensures entered { self.new.entered ≡ true }
        ensures stands { (past : List MouseEntry) → MouseStands self.old past
            → MouseStands self.new (Entered ∷ past) }
    {
        self.entered = true;
    }

    /// The port is left: what is left of a motion is dropped. A release is due where the report that was made last has a
    /// button down.
    pub fn part(&mut self)
        requires { self.old.entered ≡ true }
        ensures entered { self.new.entered ≡ false }
        ensures stands { (past : List MouseEntry) → MouseStands self.old past
            → MouseStands self.new (Parted ∷ past) }
    {
        self.entered = false;
        self.left = true;
        self.rest = Motion::STILL;
    }

    /// The bus was reset: the report that wasn't acknowledged, a release that is due and what is left of a motion are
    /// dropped, the idle rate is `IDLE_RATE` again, and the protocol that of the report descriptor.
    pub fn reset(&mut self, _tick: Tick)
        ensures entered { self.new.entered ≡ self.old.entered }
        ensures stands { (past : List MouseEntry) → MouseStands self.old past
            → MouseStands self.new (Reset ∷ past) }
    {
        self.configured();
        self.settings = HidSettings::new(IDLE_RATE);
    }

    /// SET_CONFIGURATION was completed (USB 2.0, 9.4.7), which drops the same and restarts the toggle. What class requests
    /// set stays.
    pub fn configured(&mut self)
        ensures entered { self.new.entered ≡ self.old.entered }
        ensures stands { (past : List MouseEntry) → MouseStands self.old past
            → MouseStands self.new (Configured ∷ past) }
    {
        self.last = Report::released();
        self.rest = Motion::STILL;
        self.unread = false;
        self.toggle = false;
    }

    /// The toggle is DATA0 again.
    pub fn restart(&mut self)
        ensures entered { self.new.entered ≡ self.old.entered }
        ensures stands { (past : List MouseEntry) → MouseStands self.old past
            → MouseStands self.new (Restarted ∷ past) }
    {
        self.toggle = false;
    }

    /// Carries out a class request that was completed.
    pub fn carry_out(&mut self, request: HidRequest)
        ensures step { self.new ≡ requested_step request self.old }
        ensures stands { (past : List MouseEntry) → MouseStands self.old past
            → MouseStands self.new (Requested request ∷ past) }
    {
        self.settings.carry_out(request);
    }

    /// What a class request that reads is answered, and None for another one. The input report shows the buttons of the
    /// report that was made last, or none where none was made since the last bus reset or configuration, and no motion;
    /// reading it takes nothing from a latch. There is no output report.
    pub fn read(&self, request: HidRequest) -> Option<Packet>
        ensures value { result ≡ value_answer request self.now }
        ensures answer { (past : List MouseEntry) → MouseStands self.now past
            → result ≡ read_answer request past }
    {
        match request {
            HidRequest::GetInput => Some(Packet::from_slice(&bytes_of(
                &self.last.buttons,
                Piece::STILL,
            ))),
            HidRequest::GetOutput => None,
            HidRequest::GetIdle => self.settings.answer(request),
            HidRequest::GetProtocol => self.settings.answer(request),
            HidRequest::SetOutput => None,
            HidRequest::SetIdle(_) => None,
            HidRequest::SetProtocol(_) => None,
        }
    }

    /// Whether the port is selected.
    pub fn is_entered(&self) -> bool
        ensures value { result ≡ self.now.entered }
        ensures answer { (past : List MouseEntry) → MouseStands self.now past → result ≡ is_entered past }
    {
        self.entered
    }

    /// Takes a poll while the port is selected, whose answer the host acknowledges or not. The first of these that
    /// applies is answered: the report that wasn't acknowledged, with the toggle of this moment; the report with no
    /// button down, where a release is due; the next piece of the motion that was begun; the latch's next change, or its
    /// first piece; NAK. The answer is written over what was there.
    pub fn poll_into(&mut self, acked: bool, latch: &mut PointerLatch, answer: &mut Answer)
        requires { self.old.entered ≡ true }
        ensures entered { self.new.entered ≡ self.old.entered }
        ensures stands { (past : List MouseEntry) (entries : List PointerEntry) → MouseStands self.old past
            → PointerLatchStands latch.old entries
            → MouseStands self.new (Polled (given_at (next_change entries) past) acked ∷ past) }
        ensures answer { (past : List MouseEntry) (entries : List PointerEntry) → MouseStands self.old past
            → PointerLatchStands latch.old entries
            → answer.new ≡ answer_of (given_at (next_change entries) past) (toggle_of past)
            (last_made (Polled (given_at (next_change entries) past) acked ∷ past)) }
        ensures latch { (past : List MouseEntry) (entries : List PointerEntry) → MouseStands self.old past
            → PointerLatchStands latch.old entries
            → PointerLatchStands latch.new (latch_after (given_at (next_change entries) past) entries) }
    {
        let given = self.case_at(latch);
        self.give(given, acked, answer);
    }

    /// Takes a poll as `poll_into` does, and gives the answer.
    pub fn poll(&mut self, acked: bool, latch: &mut PointerLatch) -> Answer
        requires { self.old.entered ≡ true }
        ensures entered { self.new.entered ≡ self.old.entered }
        ensures stands { (past : List MouseEntry) (entries : List PointerEntry) → MouseStands self.old past
            → PointerLatchStands latch.old entries
            → MouseStands self.new (Polled (given_at (next_change entries) past) acked ∷ past) }
        ensures answer { (past : List MouseEntry) (entries : List PointerEntry) → MouseStands self.old past
            → PointerLatchStands latch.old entries
            → result ≡ answer_of (given_at (next_change entries) past) (toggle_of past)
            (last_made (Polled (given_at (next_change entries) past) acked ∷ past)) }
        ensures latch { (past : List MouseEntry) (entries : List PointerEntry) → MouseStands self.old past
            → PointerLatchStands latch.old entries
            → PointerLatchStands latch.new (latch_after (given_at (next_change entries) past) entries) }
    {
        let mut answer = Answer::Silent;
        self.poll_into(acked, latch, &mut answer);
        answer
    }

    /// Takes a poll while the port isn't selected: the report that wasn't acknowledged, the release that is due, or NAK,
    /// written over what was in the answer's place. A poll with nothing due makes no call that has room for a report.
    #[inline(always)]
    pub fn poll_apart_into(&mut self, acked: bool, answer: &mut Answer)
        requires { self.old.entered ≡ false }
        ensures entered { self.new.entered ≡ self.old.entered }
        ensures stands { (past : List MouseEntry) → MouseStands self.old past
            → MouseStands self.new (PolledApart (given_apart past) acked ∷ past) }
        ensures answer { (past : List MouseEntry) → MouseStands self.old past
            → answer.new ≡ answer_of (given_apart past) (toggle_of past)
            (last_made (PolledApart (given_apart past) acked ∷ past)) }
    {
        match self.case_apart() {
            Given::Nothing => *answer = Answer::Nak,
            given => self.give(given, acked, answer),
        }
    }

    /// Takes a poll as `poll_apart_into` does, and gives the answer.
    pub fn poll_apart(&mut self, acked: bool) -> Answer
        requires { self.old.entered ≡ false }
        ensures entered { self.new.entered ≡ self.old.entered }
        ensures stands { (past : List MouseEntry) → MouseStands self.old past
            → MouseStands self.new (PolledApart (given_apart past) acked ∷ past) }
        ensures answer { (past : List MouseEntry) → MouseStands self.old past
            → result ≡ answer_of (given_apart past) (toggle_of past)
            (last_made (PolledApart (given_apart past) acked ∷ past)) }
    {
        let mut answer = Answer::Silent;
        self.poll_apart_into(acked, &mut answer);
        answer
    }

    /// The case of a poll while the port is selected. A change that it names is taken from the latch.
    fn case_at(&self, latch: &mut PointerLatch) -> Given
        ensures case { (entries : List PointerEntry) → PointerLatchStands latch.old entries
            → result ≡ case_of self.now (next_change entries) }
        ensures latch { (entries : List PointerEntry) → PointerLatchStands latch.old entries
            → PointerLatchStands latch.new (latch_after result entries) }
    {
        if self.unread {
            return Given::Again;
        }
        if self.is_due() {
            return Given::Due;
        }
        if !self.rest.is_still() {
            return Given::Rest;
        }
        match latch.take() {
            Some(change) => Given::Next(change),
            None => Given::Nothing,
        }
    }

    /// The case of a poll while the port isn't selected.
    fn case_apart(&self) -> Given
        ensures { result ≡ case_apart self.now }
    {
        if self.unread {
            Given::Again
        } else if self.is_due() {
            Given::Due
        } else {
            Given::Nothing
        }
    }

    /// Whether a release is due: the port was left since a report with a button down was made.
    fn is_due(&self) -> bool
        ensures { result ≡ (self.now.left && not (has_no_key self.now.last.buttons)) }
    {
        self.left && !self.last.buttons.is_none()
    }

    /// Answers a poll by its case.
    #[inline(never)]
    fn give(&mut self, given: Given, acked: bool, answer: &mut Answer)
        ensures step { self.new ≡ given_step given acked self.old }
        ensures answer { answer.new
            ≡ answer_of given self.old.toggle (made_report given self.old.rest self.old.last) }
    {
        match given {
            Given::Again => {}
            Given::Due => self.last = Report::released(),
            Given::Rest => self.report_motion(self.rest),
            Given::Next(change) => {
                show(&mut self.last.buttons, change);
                self.report_motion(motion_of(change));
            }
            Given::Nothing => {
                *answer = Answer::Nak;
                return;
            }
        }
        self.left = self.left && given.is_again();
        self.send(acked, answer);
    }

    /// Makes a report of the first piece of a motion.
    fn report_motion(&mut self, motion: Motion)
        ensures { self.new ≡ said_step motion self.old }
    {
        self.last.moved = motion.piece();
        self.rest = motion.left();
    }

    /// Sends the report that was made last.
    fn send(&mut self, acked: bool, answer: &mut Answer)
        ensures step { self.new ≡ sent_step acked self.old }
        ensures answer { answer.new ≡ Answer.Data self.old.toggle (report_bytes self.old.last) }
    {
        *answer = Answer::Data {
            toggle: self.toggle,
            bytes: Packet::new(),
        };
        if let Answer::Data { bytes, .. } = answer {
            bytes.append(&self.last.bytes());
        }
        self.unread = !acked;
        if acked {
            self.toggle = !self.toggle;
        }
    }
}

/// Shows a change in a set of buttons.
fn show(buttons: &mut Buttons, change: PointerChange)
    ensures { buttons.new ≡ held_with buttons.old change }
{
    match change {
        PointerChange::Press(button) => buttons.press(button),
        PointerChange::Release(button) => buttons.release(button),
        PointerChange::Motion { .. } => {}
    }
}

/// The motion of a change. That of a button is none.
fn motion_of(change: PointerChange) -> Motion
    ensures { result ≡ motion_of change }
{
    match change {
        PointerChange::Press(_) => Motion::STILL,
        PointerChange::Release(_) => Motion::STILL,
        PointerChange::Motion { x, y, wheel } => Motion { x, y, wheel },
    }
}
