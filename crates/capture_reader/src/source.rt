//! A capture as a source of events, read one record ahead.
use crate::ahead::Ahead;
use crate::decode::{HEAD_SIZE, announce, read_head, read_header};
use crate::fault::RecordFault;
use crate::form::{Form, Head};
use crate::payload::read_record;
use crate::window::{WINDOW_SIZE, Window};
use psd_base::{CaptureFault, Desk, Input, MAX_PORTS, Tick};

/// A capture whose header was read, and the record that was read ahead.
#[derive(Drop)]
pub struct CaptureSource {
    pub window: Window,
    pub ports: u8,
    /// The tick of the last record that was read.
    pub tick: Tick,
    /// Where the next record begins, in bytes from the capture's beginning.
    pub offset: u64,
    pub ahead: Ahead,
}

impl CaptureSource {
    ghost use Rattle.std.specs.Prelude.{◌≡◌, ℕ, ◌+◌, ◌<◌, ◌≤◌, ◌^◌, List, [], length, drop, true, false, Some, None, Ok, Err, option_map};
    ghost use Rattle.std.specs.Prelude.{IfOk, IfErr, IfSome, IfNone, IsSomeAnd, OnOk, OnErr};
    ghost use Rattle.capture_reader.specs.Ahead.{ahead_of};
    ghost use Rattle.capture_reader.specs.Capture.{header, head_of, size_of, records};
    ghost use Rattle.capture_reader.specs.Fault.{record_stop};
    ghost use Rattle.capture_reader.specs.Schedule.{in_front};
    ghost use Rattle.capture_reader.specs.Source.{later, records_later, records_in, after_ahead, AnnouncesNext, EndsNow, FailedLook, IsFaulty, IsNext, LookFailed, OpenFailed};
    ghost use Rattle.psd_base.specs.Desk.{OnlyReads, Told};
    ghost use Rattle.capture_reader.specs.Taken.{waiting, whole_records, whole_lines, Took, FailsFirst};
    ghost use Rattle.capture_reader.specs.Window.{coming, still, EndIsTrue, HeldMore};

    /// Reads the header of a capture.
    pub fn open<D: Desk>(window: Window, desk: &mut D) -> Result<CaptureSource, RecordFault>
        requires { window ≡ record { bytes = []; ended = false } }
        ensures ports { IfOk result (λ source. (2 ≤ source.ports) × (source.ports ≤ MAX_PORTS)) }
        ensures begin { IfOk result (λ source. (source.tick ≡ 0) × (source.offset ≡ 8)
            × (ahead_of source.ahead ≡ None)) }
        ensures header { IfOk result (λ source. IfSome ((D.told desk.old).left Input.Capture)
            (λ bytes. header bytes ≡ Ok source.ports)) }
        ensures records { IfOk result (λ source. option_map
            (λ bytes. records source.ports 0 8 0 (drop 8 bytes)) ((D.told desk.old).left Input.Capture)
            ≡ later (records source.ports 0 8 0) source.window ((D.told desk.new).left Input.Capture)) }
        ensures took { IfOk result (λ source. Took whole_records (records_in source) false
            ((D.told desk.old).left Input.Capture) ((D.told desk.new).left Input.Capture) 0) }
        ensures first { IfErr result (λ fault. FailsFirst whole_records whole_lines
            (D.told desk.old) (D.told desk.new) (record_stop fault)) }
        ensures ends { IfOk result
            (λ source. EndIsTrue source.window ((D.told desk.new).left Input.Capture)) }
        ensures err { IfErr result (OpenFailed (D.told desk.old) (D.told desk.new)) }
        ensures only { OnlyReads Input.Capture (D.told desk.old) (D.told desk.new) }
    {
        let mut window = window;
        match window.hold(desk, Input::Capture, HEAD_SIZE) {
            Ok(true) => CaptureSource::behind_header(window),
            Ok(false) => Err(RecordFault::Faulty {
                offset: 0,
                why: CaptureFault::Truncated,
            }),
            Err(_) => Err(RecordFault::Unread),
        }
    }

    /// The records behind the header, which is held.
    fn behind_header(window: Window) -> Result<CaptureSource, RecordFault>
        requires { 8 ≤ length window.bytes }
        ensures ports { IfOk result (λ source. (2 ≤ source.ports) × (source.ports ≤ MAX_PORTS)) }
        ensures begin { IfOk result (λ source. (source.tick ≡ 0) × (source.offset ≡ 8)
            × (ahead_of source.ahead ≡ None)) }
        ensures behind { IfOk result (λ source. (header window.bytes ≡ Ok source.ports)
            × (source.window ≡ record window { bytes = drop 8 window.bytes })) }
        ensures err { IfErr result (λ fault. (header window.bytes ≡ Err (record_stop fault))
            × IsFaulty fault) }
    {
        match read_header(window.bytes()) {
            Ok(ports) => {
                let mut window = window;
                window.drop_front(HEAD_SIZE);
                Ok(CaptureSource {
                    window,
                    ports,
                    tick: 0,
                    offset: HEAD_SIZE as u64,
                    ahead: Ahead::new(),
                })
            }
            Err(fault) => Err(fault),
        }
    }

    /// Looks at the next record. Afterwards it is the one that was read ahead, or there is none at the end of the capture.
    #[inline(always)]
    pub fn look<D: Desk>(&mut self, desk: &mut D) -> Result<(), RecordFault>
        requires ports { self.old.ports ≤ MAX_PORTS }
        requires offset { self.old.offset < 2 ^ 63 }
        ensures ports { self.new.ports ≡ self.old.ports }
        ensures tick { self.old.tick ≤ self.new.tick }
        ensures offset { self.new.offset ≤ self.old.offset + WINDOW_SIZE }

        ensures read { OnOk result (records_later self.old (D.told desk.old)
            ≡ option_map (after_ahead (ahead_of self.new.ahead)) (records_later self.new (D.told desk.new))) }
        ensures ahead { OnOk result (IfSome (ahead_of self.new.ahead) (IsNext self.new)) }
        ensures end { OnOk result (IfNone (ahead_of self.new.ahead) (EndsNow self.new None)) }

        ensures err { IfErr result (FailedLook self.new (D.told desk.old) (D.told desk.new)) }
        ensures stays { OnErr result (records_later self.new (D.told desk.new)
            ≡ records_later self.old (D.told desk.old)) }
        ensures unread { self.old.window.ended ≡ true → (self.new.window.ended ≡ true)
            × (desk.new ≡ desk.old) }
        ensures ends { EndIsTrue self.old.window ((D.told desk.old).left Input.Capture)
            → EndIsTrue self.new.window ((D.told desk.new).left Input.Capture) }
        ensures none { OnErr result (ahead_of self.new.ahead ≡ None) }
        ensures took { Took (records_in self.old) (records_in self.new) self.new.window.ended
            ((D.told desk.old).left Input.Capture) ((D.told desk.new).left Input.Capture)
            (waiting (ahead_of self.new.ahead)) }

        ensures only { OnlyReads Input.Capture (D.told desk.old) (D.told desk.new) }
    {
        match self.window.hold(desk, Input::Capture, HEAD_SIZE) {
            Ok(true) => match self.look_at_head(desk) {
                Ok(()) => Ok(()),
                Err(fault) => {
                    self.ahead.kept = None;
                    Err(fault)
                }
            },
            Ok(false) => {
                self.ahead.kept = None;
                self.end()
            }
            Err(_) => {
                self.ahead.kept = None;
                Err(RecordFault::Unread)
            }
        }
    }

    /// Looks at the next record, whose head is held.
    #[inline(always)]
    fn look_at_head<D: Desk>(&mut self, desk: &mut D) -> Result<(), RecordFault>
        requires whole { 8 ≤ length self.old.window.bytes }
        requires ports { self.old.ports ≤ MAX_PORTS }
        requires offset { self.old.offset < 2 ^ 63 }
        ensures ports { self.new.ports ≡ self.old.ports }
        ensures tick { self.old.tick ≤ self.new.tick }
        ensures offset { self.new.offset ≤ self.old.offset + WINDOW_SIZE }
        ensures ok { OnOk result (IsSomeAnd (ahead_of self.new.ahead) (λ event. IsNext self.new event
            × (records_later self.old (D.told desk.old)
            ≡ option_map (in_front event) (records_later self.new (D.told desk.new))))) }
        ensures took { OnOk result (Took (records_in self.old) (records_in self.new) self.new.window.ended
            ((D.told desk.old).left Input.Capture) ((D.told desk.new).left Input.Capture) 1) }
        ensures held { OnErr result (HeldMore self.old.window self.new.window
            ((D.told desk.old).left Input.Capture) ((D.told desk.new).left Input.Capture)) }
        ensures err { IfErr result (LookFailed self.old.ports self.old.tick self.old.offset self.new.window
            (D.told desk.old) (D.told desk.new)) }
        ensures same { OnErr result (self.new ≡ record self.old { window = self.new.window }) }
        ensures stays { OnErr result (records_later self.new (D.told desk.new)
            ≡ records_later self.old (D.told desk.old)) }
        ensures unread { self.old.window.ended ≡ true → (self.new.window.ended ≡ true)
            × (desk.new ≡ desk.old) }
        ensures ends { EndIsTrue self.old.window ((D.told desk.old).left Input.Capture)
            → EndIsTrue self.new.window ((D.told desk.new).left Input.Capture) }
        ensures only { OnlyReads Input.Capture (D.told desk.old) (D.told desk.new) }
    {
        let mut head = Head {
            tick: 0,
            kind: 0,
            who: 0,
            length: 0,
        };
        read_head(self.window.bytes(), &mut head);
        if self.window.len() < HEAD_SIZE + head.length as usize {
            self.look_behind_head(desk)
        } else {
            self.take_held(&head)
        }
    }

    /// Looks at the next record, whose head is held, where its payload isn't.
    #[cold]
    #[inline(never)]
    fn look_behind_head<D: Desk>(&mut self, desk: &mut D) -> Result<(), RecordFault>
        requires whole { 8 ≤ length self.old.window.bytes }
        requires ports { self.old.ports ≤ MAX_PORTS }
        requires offset { self.old.offset < 2 ^ 63 }
        ensures ports { self.new.ports ≡ self.old.ports }
        ensures tick { self.old.tick ≤ self.new.tick }
        ensures offset { self.new.offset ≤ self.old.offset + WINDOW_SIZE }
        ensures ok { OnOk result (IsSomeAnd (ahead_of self.new.ahead) (λ event. IsNext self.new event
            × (records_later self.old (D.told desk.old)
            ≡ option_map (in_front event) (records_later self.new (D.told desk.new))))) }
        ensures took { OnOk result (Took (records_in self.old) (records_in self.new) self.new.window.ended
            ((D.told desk.old).left Input.Capture) ((D.told desk.new).left Input.Capture) 1) }
        ensures held { OnErr result (HeldMore self.old.window self.new.window
            ((D.told desk.old).left Input.Capture) ((D.told desk.new).left Input.Capture)) }
        ensures err { IfErr result (LookFailed self.old.ports self.old.tick self.old.offset self.new.window
            (D.told desk.old) (D.told desk.new)) }
        ensures same { OnErr result (self.new ≡ record self.old { window = self.new.window }) }
        ensures stays { OnErr result (records_later self.new (D.told desk.new)
            ≡ records_later self.old (D.told desk.old)) }
        ensures unread { self.old.window.ended ≡ true → (self.new.window.ended ≡ true)
            × (desk.new ≡ desk.old) }
        ensures ends { EndIsTrue self.old.window ((D.told desk.old).left Input.Capture)
            → EndIsTrue self.new.window ((D.told desk.new).left Input.Capture) }
        ensures only { OnlyReads Input.Capture (D.told desk.old) (D.told desk.new) }
    {
        let mut head = Head {
            tick: 0,
            kind: 0,
            who: 0,
            length: 0,
        };
        read_head(self.window.bytes(), &mut head);
        match announce(self.ports, self.tick, &head) {
            Ok(form) => self.look_at_payload(desk, &head, form),
            Err(why) => Err(self.fault(why)),
        }
    }

    /// The next record, which is held, becomes the one that was read ahead, if it is sound. Nothing comes between its
    /// head and its payload, so that the compiler asks for its kind once.
    #[inline(always)]
    fn take_held(&mut self, head: &Head) -> Result<(), RecordFault>
        requires whole { 8 ≤ length self.old.window.bytes }
        requires head { head_of self.old.window.bytes ≡ head.now }
        requires enough { size_of head.now ≤ length self.old.window.bytes }
        requires ports { self.old.ports ≤ MAX_PORTS }
        requires offset { self.old.offset < 2 ^ 63 }
        ensures ports { self.new.ports ≡ self.old.ports }
        ensures window { self.new.window.ended ≡ self.old.window.ended }
        ensures tick { self.old.tick ≤ self.new.tick }
        ensures offset { self.new.offset ≤ self.old.offset + WINDOW_SIZE }
        ensures ahead { OnOk result (IsSomeAnd (ahead_of self.new.ahead) (λ event. IsNext self.new event
            × ((left : List ℕ)
            → records self.old.ports self.old.tick self.old.offset 0 (coming self.old.window left)
            ≡ in_front event
            (records self.new.ports self.new.tick self.new.offset 0 (coming self.new.window left))))) }
        ensures err { (before after : Told) → IfErr result
            (LookFailed self.old.ports self.old.tick self.old.offset self.new.window before after) }
        ensures same { OnErr result (self.new ≡ self.old) }
    {
        match announce(self.ports, self.tick, head) {
            Ok(form) => self.take_record(head, form),
            Err(why) => Err(self.fault(why)),
        }
    }

    /// Looks at the payload of the next record, whose head is held.
    #[inline(always)]
    fn look_at_payload<D: Desk>(
        &mut self,
        desk: &mut D,
        head: &Head,
        form: Form,
    ) -> Result<(), RecordFault>
        requires sound { AnnouncesNext self.old head.now form }
        requires offset { self.old.offset < 2 ^ 63 }
        ensures ports { self.new.ports ≡ self.old.ports }
        ensures tick { self.old.tick ≤ self.new.tick }
        ensures offset { self.new.offset ≤ self.old.offset + WINDOW_SIZE }
        ensures ok { OnOk result (IsSomeAnd (ahead_of self.new.ahead) (λ event. IsNext self.new event
            × (records_later self.old (D.told desk.old)
            ≡ option_map (in_front event) (records_later self.new (D.told desk.new))))) }
        ensures took { OnOk result (Took (records_in self.old) (records_in self.new) self.new.window.ended
            ((D.told desk.old).left Input.Capture) ((D.told desk.new).left Input.Capture) 1) }
        ensures held { OnErr result (HeldMore self.old.window self.new.window
            ((D.told desk.old).left Input.Capture) ((D.told desk.new).left Input.Capture)) }
        ensures err { IfErr result (LookFailed self.old.ports self.old.tick self.old.offset self.new.window
            (D.told desk.old) (D.told desk.new)) }
        ensures same { OnErr result (self.new ≡ record self.old { window = self.new.window }) }
        ensures stays { OnErr result (records_later self.new (D.told desk.new)
            ≡ records_later self.old (D.told desk.old)) }
        ensures unread { self.old.window.ended ≡ true → (self.new.window.ended ≡ true)
            × (desk.new ≡ desk.old) }
        ensures ends { EndIsTrue self.old.window ((D.told desk.old).left Input.Capture)
            → EndIsTrue self.new.window ((D.told desk.new).left Input.Capture) }
        ensures only { OnlyReads Input.Capture (D.told desk.old) (D.told desk.new) }
    {
        let size = HEAD_SIZE + head.length as usize;
        match self.window.hold(desk, Input::Capture, size) {
            Ok(true) => self.take_record(head, form),
            Ok(false) => Err(self.fault(CaptureFault::Truncated)),
            Err(_) => Err(RecordFault::Unread),
        }
    }

    /// No record, where the input ended before a head is whole: the end of the capture, or a head that is cut off.
    fn end(&self) -> Result<(), RecordFault>
        requires ended { self.now.window.ended ≡ true }
        requires short { length self.now.window.bytes < 8 }
        ensures ok { OnOk result (EndsNow self.now None) }
        ensures err { (before after : Told) → IfErr result (FailedLook self.now before after) }
    {
        if self.window.len() == 0 {
            return Ok(());
        }
        Err(self.fault(CaptureFault::Truncated))
    }

    /// The fault of the next record.
    fn fault(&self, why: CaptureFault) -> RecordFault
        ensures { result ≡ RecordFault.Faulty self.now.offset why }
    {
        RecordFault::Faulty {
            offset: self.offset,
            why,
        }
    }

    /// The next record, which is held, becomes the one that was read ahead.
    #[inline(always)]
    fn take_record(&mut self, head: &Head, form: Form) -> Result<(), RecordFault>
        requires sound { AnnouncesNext self.old head.now form }
        requires enough { size_of head.now ≤ length self.old.window.bytes }
        requires offset { self.old.offset < 2 ^ 63 }
        ensures ports { self.new.ports ≡ self.old.ports }
        ensures window { self.new.window.ended ≡ self.old.window.ended }
        ensures tick { OnOk result (self.new.tick ≡ head.now.tick) }
        ensures offset { OnOk result (self.new.offset ≡ self.old.offset + size_of head.now) }
        ensures ahead { OnOk result (IsSomeAnd (ahead_of self.new.ahead) (λ event. IsNext self.new event
            × ((left : List ℕ)
            → records self.old.ports self.old.tick self.old.offset 0 (coming self.old.window left)
            ≡ in_front event
            (records self.new.ports self.new.tick self.new.offset 0 (coming self.new.window left))))) }
        ensures err { (before after : Told) → IfErr result
            (LookFailed self.old.ports self.old.tick self.old.offset self.new.window before after) }
        ensures same { OnErr result (self.new ≡ self.old) }
    {
        let size = HEAD_SIZE + head.length as usize;
        let payload = &self.window.bytes()[HEAD_SIZE..size];
        match read_record(head.tick, form, payload, &mut self.ahead) {
            Ok(()) => {
                self.window.drop_front(size);
                self.offset += size as u64;
                self.tick = head.tick;
                Ok(())
            }
            Err(why) => Err(self.fault(why)),
        }
    }
}
