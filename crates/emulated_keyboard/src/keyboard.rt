//! The emulated keyboard: what each poll of its endpoint is answered, and its class requests (HID 1.11, 7.2; USB 2.0,
//! 8.5.4).
ghost use Rattle.std.specs.Prelude.{◌≡◌, ℕ, Bool, true, false, List, [], ◌∷◌, IsTrue, ◌&&◌, not};
ghost use Rattle.psd_base.specs.KeySet.{is_passed_on, has_no_key};
ghost use Rattle.input_latch.specs.KeyHistory.{KeyEntry, next_change, held_with};
ghost use Rattle.input_latch.specs.KeyLatchStands.{KeyLatchStands};
ghost use Rattle.emulated_keyboard.specs.KeyboardHistory.{KeyboardEntry, Entered, Parted, Reset, Configured, Restarted, Requested, Polled, PolledApart, given_at, given_apart, last_made, toggle_of, is_entered, answer_of, lamps_in, read_answer};
ghost use Rattle.input_latch.specs.PassedKeys.{usage_of};
ghost use Rattle.emulated_keyboard.specs.LatchCalls.{latch_after};
ghost use Rattle.emulated_keyboard.specs.Report.{key_report};

use crate::given::Given;
use crate::report::report_of;
use control_pipe::{HidRequest, HidSettings};
use input_latch::{KeyChange, KeyLatch};
use psd_base::event::Tick;
use psd_base::{Answer, KeySet, Packet};
use std::marker::Model;

/// The idle rate after a bus reset, in units of 4 milliseconds (HID 1.11, 7.2.4).
pub const IDLE_RATE: u8 = 125;

/// The number of the keyboard's interface.
pub const INTERFACE: u16 = 0;

/// The output report's lamps are its bits below this one: NUM LOCK, CAPS LOCK, SCROLL LOCK, COMPOSE and KANA (HID 1.11,
/// appendix B.1).
pub const LAMPS: u8 = 32;

/// An emulated keyboard. It is entered while its port is selected.
#[derive(Drop)]
pub struct Keyboard {
    /// The keys of the report that was made last.
    last: KeySet,
    /// Whether the host hasn't acknowledged that report.
    unread: bool,
    /// Whether the port was left since that report was made.
    left: bool,
    /// The toggle of the next report: true is DATA1.
    toggle: bool,
    settings: HidSettings,
    lamps: u8,
    /// The tick from which the idle rate counts.
    idle_since: Tick,
    entered: bool,
}

impl Model for Keyboard {
    ghost use Rattle.emulated_keyboard.specs.KeyboardStands.{KeyboardValue};

    ghost Value = { KeyboardValue };

    ghost view = { λ keyboard. record {
      last = keyboard.last;
      unread = keyboard.unread;
      left = keyboard.left;
      toggle = keyboard.toggle;
      settings = keyboard.settings;
      lamps = keyboard.lamps;
      idle_since = keyboard.idle_since;
      entered = keyboard.entered;
    } };
}

impl Keyboard {
    ghost use Rattle.emulated_keyboard.specs.KeyboardStands.{KeyboardStands};
    ghost use Rattle.emulated_keyboard.specs.KeyboardSteps.{IsPassedOn, case_of, case_apart, is_time, given_step, sent_step, made_keys, requested_step, value_answer};

    /// A keyboard that isn't entered, with nothing pressed.
    pub fn new() -> Keyboard
        ensures stands { KeyboardStands result [] }
        ensures entered { result.entered ≡ false }
    {
        Keyboard {
            last: KeySet::new(),
            unread: false,
            left: false,
            toggle: false,
            settings: HidSettings::new(IDLE_RATE),
            lamps: 0,
            idle_since: 0,
            entered: false,
        }
    }

    /// Whether the port is selected.
    pub fn is_entered(&self) -> bool
        ensures value { result ≡ self.now.entered }
        ensures answer { (past : List KeyboardEntry) → KeyboardStands self.now past
            → result ≡ is_entered past }
    {
        self.entered
    }

    /// The port is selected at this tick.
    pub fn enter(&mut self, tick: Tick)
        requires { self.old.entered ≡ false }
        ensures entered { self.new.entered ≡ true }
        ensures stands { (past : List KeyboardEntry) → KeyboardStands self.old past
            → KeyboardStands self.new (Entered tick ∷ past) }
    {
        self.entered = true;
        self.idle_since = tick;
    }

    /// The port is left. A release is due where the report that was made last has something pressed.
    pub fn part(&mut self)
        requires { self.old.entered ≡ true }
        ensures entered { self.new.entered ≡ false }
        ensures stands { (past : List KeyboardEntry) → KeyboardStands self.old past
            → KeyboardStands self.new (Parted ∷ past) }
    {
        self.entered = false;
        self.left = true;
    }

    /// The bus was reset at this tick: the report that wasn't acknowledged and a release that is due are dropped, the idle
    /// rate is `IDLE_RATE` again, the protocol that of the report descriptor, and no lamp is on.
    pub fn reset(&mut self, tick: Tick)
        ensures entered { self.new.entered ≡ self.old.entered }
        ensures stands { (past : List KeyboardEntry) → KeyboardStands self.old past
            → KeyboardStands self.new (Reset tick ∷ past) }
    {
        self.configured();
        self.settings = HidSettings::new(IDLE_RATE);
        self.lamps = 0;
        self.idle_since = tick;
    }

    /// SET_CONFIGURATION was completed (USB 2.0, 9.4.7), which drops both reports and restarts the toggle. What class
    /// requests set stays.
    pub fn configured(&mut self)
        ensures entered { self.new.entered ≡ self.old.entered }
        ensures stands { (past : List KeyboardEntry) → KeyboardStands self.old past
            → KeyboardStands self.new (Configured ∷ past) }
    {
        self.last = KeySet::new();
        self.unread = false;
        self.toggle = false;
    }

    /// The toggle is DATA0 again.
    pub fn restart(&mut self)
        ensures entered { self.new.entered ≡ self.old.entered }
        ensures stands { (past : List KeyboardEntry) → KeyboardStands self.old past
            → KeyboardStands self.new (Restarted ∷ past) }
    {
        self.toggle = false;
    }

    /// Carries out a class request that was completed at this tick, with the bytes that the host sent. The idle rate
    /// counts from here where the request sets it.
    pub fn carry_out(&mut self, tick: Tick, request: HidRequest, bytes: &[u8])
        ensures step { self.new ≡ requested_step tick request bytes.now self.old }
        ensures stands { (past : List KeyboardEntry) → KeyboardStands self.old past
            → KeyboardStands self.new (Requested tick request bytes.now ∷ past) }
    {
        match request {
            HidRequest::GetInput => {}
            HidRequest::GetOutput => {}
            HidRequest::GetIdle => {}
            HidRequest::GetProtocol => {}
            HidRequest::SetOutput => self.lamps = lamps_in(bytes, self.lamps),
            HidRequest::SetIdle(_) => {
                self.settings.carry_out(request);
                self.idle_since = tick;
            }
            HidRequest::SetProtocol(_) => self.settings.carry_out(request),
        }
    }

    /// What a class request that reads is answered, and None for one that sets something. The input report is the one
    /// that was made last, or the one with nothing pressed where none was made since the last bus reset or configuration;
    /// reading it takes nothing from a latch.
    pub fn read(&self, request: HidRequest) -> Option<Packet>
        ensures value { result ≡ value_answer request self.now }
        ensures answer { (past : List KeyboardEntry) → KeyboardStands self.now past
            → result ≡ read_answer request past }
    {
        match request {
            HidRequest::GetInput => Some(Packet::from_slice(&report_of(&self.last))),
            HidRequest::GetOutput => Some(Packet::from_slice(&[self.lamps])),
            HidRequest::GetIdle => self.settings.answer(request),
            HidRequest::GetProtocol => self.settings.answer(request),
            HidRequest::SetOutput => None,
            HidRequest::SetIdle(_) => None,
            HidRequest::SetProtocol(_) => None,
        }
    }

    /// Takes a poll at this tick while the port is selected, whose answer the host acknowledges or not. The first of
    /// these that applies is answered: the report that wasn't acknowledged, with the toggle of this moment; the report
    /// with nothing pressed, where a release is due; the report after the latch's next change; the last report again,
    /// where the idle rate says so; NAK. The answer is written over what was there.
    pub fn poll_into(&mut self, tick: Tick, acked: bool, latch: &mut KeyLatch, answer: &mut Answer)
        requires { self.old.entered ≡ true }
        ensures entered { self.new.entered ≡ self.old.entered }
        ensures stands { (past : List KeyboardEntry) (keys : List KeyEntry) → KeyboardStands self.old past
            → KeyLatchStands latch.old keys
            → KeyboardStands self.new (Polled tick (given_at (next_change keys) tick past) acked ∷ past) }
        ensures answer { (past : List KeyboardEntry) (keys : List KeyEntry) → KeyboardStands self.old past
            → KeyLatchStands latch.old keys
            → answer.new ≡ answer_of (given_at (next_change keys) tick past) (toggle_of past)
            (last_made (Polled tick (given_at (next_change keys) tick past) acked ∷ past)) }
        ensures latch { (past : List KeyboardEntry) (keys : List KeyEntry) → KeyboardStands self.old past
            → KeyLatchStands latch.old keys
            → KeyLatchStands latch.new (latch_after (given_at (next_change keys) tick past) keys) }
    {
        let given = self.case_at(tick, latch);
        self.give(given, acked, tick, answer);
    }

    /// Takes a poll as `poll_into` does, and gives the answer.
    pub fn poll(&mut self, tick: Tick, acked: bool, latch: &mut KeyLatch) -> Answer
        requires { self.old.entered ≡ true }
        ensures entered { self.new.entered ≡ self.old.entered }
        ensures stands { (past : List KeyboardEntry) (keys : List KeyEntry) → KeyboardStands self.old past
            → KeyLatchStands latch.old keys
            → KeyboardStands self.new (Polled tick (given_at (next_change keys) tick past) acked ∷ past) }
        ensures answer { (past : List KeyboardEntry) (keys : List KeyEntry) → KeyboardStands self.old past
            → KeyLatchStands latch.old keys
            → result ≡ answer_of (given_at (next_change keys) tick past) (toggle_of past)
            (last_made (Polled tick (given_at (next_change keys) tick past) acked ∷ past)) }
        ensures latch { (past : List KeyboardEntry) (keys : List KeyEntry) → KeyboardStands self.old past
            → KeyLatchStands latch.old keys
            → KeyLatchStands latch.new (latch_after (given_at (next_change keys) tick past) keys) }
    {
        let mut answer = Answer::Silent;
        self.poll_into(tick, acked, latch, &mut answer);
        answer
    }

    /// Takes a poll while the port isn't selected: the report that wasn't acknowledged, the release that is due, or NAK,
    /// written over what was in the answer's place. A poll with nothing due makes no call that has room for a report.
    #[inline(always)]
    pub fn poll_apart_into(&mut self, acked: bool, answer: &mut Answer)
        requires { self.old.entered ≡ false }
        ensures entered { self.new.entered ≡ self.old.entered }
        ensures stands { (past : List KeyboardEntry) → KeyboardStands self.old past
            → KeyboardStands self.new (PolledApart (given_apart past) acked ∷ past) }
        ensures answer { (past : List KeyboardEntry) → KeyboardStands self.old past
            → answer.new ≡ answer_of (given_apart past) (toggle_of past)
            (last_made (PolledApart (given_apart past) acked ∷ past)) }
    {
        match self.case_apart() {
            Given::Nothing => *answer = Answer::Nak,
            given => self.give(given, acked, self.idle_since, answer),
        }
    }

    /// Takes a poll as `poll_apart_into` does, and gives the answer.
    pub fn poll_apart(&mut self, acked: bool) -> Answer
        requires { self.old.entered ≡ false }
        ensures entered { self.new.entered ≡ self.old.entered }
        ensures stands { (past : List KeyboardEntry) → KeyboardStands self.old past
            → KeyboardStands self.new (PolledApart (given_apart past) acked ∷ past) }
        ensures answer { (past : List KeyboardEntry) → KeyboardStands self.old past
            → result ≡ answer_of (given_apart past) (toggle_of past)
            (last_made (PolledApart (given_apart past) acked ∷ past)) }
    {
        let mut answer = Answer::Silent;
        self.poll_apart_into(acked, &mut answer);
        answer
    }

    /// The case of a poll while the port is selected. A change that it names is taken from the latch.
    fn case_at(&self, tick: Tick, latch: &mut KeyLatch) -> Given
        ensures case { (keys : List KeyEntry) → KeyLatchStands latch.old keys
            → result ≡ case_of self.now tick (next_change keys) }
        ensures latch { (keys : List KeyEntry) → KeyLatchStands latch.old keys
            → KeyLatchStands latch.new (latch_after result keys) }
        ensures key { IsPassedOn result }
    {
        if self.unread {
            return Given::Again;
        }
        if self.is_due() {
            return Given::Due;
        }
        match latch.take() {
            Some(change) => Given::Next(change),
            None => {
                if self.is_idle(tick) {
                    Given::Repeated
                } else {
                    Given::Nothing
                }
            }
        }
    }

    /// The case of a poll while the port isn't selected.
    fn case_apart(&self) -> Given
        ensures { result ≡ case_apart self.now }
    {
        if self.unread {
            Given::Again
        } else if self.is_due() {
            Given::Due
        } else {
            Given::Nothing
        }
    }

    /// Whether a release is due: the port was left since a report with something pressed was made.
    fn is_due(&self) -> bool
        ensures { result ≡ (self.now.left && not (has_no_key self.now.last)) }
    {
        self.left && !self.last.is_empty()
    }

    /// Whether it is time to send the last report again.
    fn is_idle(&self, tick: Tick) -> bool
        ensures { result ≡ is_time self.now.settings.idle_rate self.now.idle_since tick }
    {
        let rate = self.settings.idle_rate;
        rate > 0 && self.idle_since as u64 + 4 * rate as u64 <= tick as u64
    }

    /// Answers a poll by its case. Once the report is acknowledged, the idle time counts from this tick.
    #[inline(never)]
    fn give(&mut self, given: Given, acked: bool, tick: Tick, answer: &mut Answer)
        requires { IsPassedOn given }
        ensures step { self.new ≡ given_step given acked tick self.old }
        ensures answer { answer.new ≡ answer_of given self.old.toggle (made_keys given self.old.last) }
    {
        match given {
            Given::Again => {}
            Given::Due => self.last = KeySet::new(),
            Given::Next(change) => show(&mut self.last, change),
            Given::Repeated => {}
            Given::Nothing => {
                *answer = Answer::Nak;
                return;
            }
        }
        self.left = self.left && given.is_again();
        self.send(acked, tick, answer);
    }

    /// Sends the report that was made last.
    fn send(&mut self, acked: bool, tick: Tick, answer: &mut Answer)
        ensures step { self.new ≡ sent_step acked tick self.old }
        ensures answer { answer.new ≡ Answer.Data self.old.toggle (key_report self.old.last) }
    {
        *answer = Answer::Data {
            toggle: self.toggle,
            bytes: Packet::new(),
        };
        if let Answer::Data { bytes, .. } = answer {
            bytes.append(&report_of(&self.last));
        }
        self.unread = !acked;
        if acked {
            self.toggle = !self.toggle;
            self.idle_since = tick;
        }
    }
}

/// Shows a change in a set of keys.
fn show(keys: &mut KeySet, change: KeyChange)
    requires { IsTrue (is_passed_on (usage_of change)) }
    ensures { keys.new ≡ held_with keys.old change }
{
    match change {
        KeyChange::Press(usage) => keys.add(usage),
        KeyChange::Release(usage) => keys.remove(usage),
    }
}

/// The lamps after an output report: its bits below `LAMPS`.
fn lamps_in(report: &[u8], before: u8) -> u8
    ensures { result ≡ lamps_in report.now before }
{
    match report.first() {
        Some(byte) => *byte % LAMPS,
        None => before,
    }
}
