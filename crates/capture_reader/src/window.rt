//! The bytes that were taken of an input and are not used up.
ghost use Rattle.std.specs.Prelude.{◌≡◌, ◌⊎◌, ◌+◌, ◌-◌, ◌<◌, ◌≤◌, List, [], ◌++◌, length, take, drop, true, false, option_map, Ok, IfOk, IfSome, IfNone, OnOk, OnErr, position, slice_range};
ghost use Rattle.psd_base.specs.Desk.{OnlyReads, ReadFailed};
ghost use Rattle.capture_reader.specs.Script.{is_line_feed};
ghost use Rattle.capture_reader.specs.Window.{Held, still, Begins, EndIsTrue, FrontLine, HasNoLine, HeldMore};

use crate::line::LINE_MAX;
use psd_base::{Desk, DeskFailed, Input};
use std::alloc::{AllocError, Global};
use std::marker::Model;

/// How many bytes a window holds at most.
pub const WINDOW_SIZE: usize = 65536;

/// The bytes that were taken of an input and are not used up, and whether its end was met. The memory is taken once.
#[derive(Drop)]
pub struct Window {
    buffer: Vec<u8>,
    start: usize,
    end: usize,
    ended: bool,
}

impl Model for Window {
    ghost use Rattle.std.specs.Prelude.{◌≡◌, ◌≤◌, length, slice_range};
    ghost use Rattle.capture_reader.specs.Window.{Held};
    ghost use Rattle.capture_reader.specs.declared.window.TheConstants.{WINDOW_SIZE};

    ghost Value = { Held };

    ghost view = { λ window. record {
      bytes = slice_range window.buffer.items window.start window.end;
      ended = window.ended;
    } };

    ghost invariant = { λ window. record {
      ordered : window.start ≤ window.end;
      within : window.end ≤ WINDOW_SIZE;
      size : length window.buffer.items ≡ WINDOW_SIZE;
    } };
}

impl Window {
    /// A window that holds nothing.
    pub fn new(alloc: Global) -> Result<Window, AllocError>
        ensures { IfOk result (λ window. window ≡ record { bytes = []; ended = false }) }
    {
        Ok(Window {
            buffer: vec![in alloc; 0; WINDOW_SIZE]?,
            start: 0,
            end: 0,
            ended: false,
        })
    }

    /// The bytes that are held.
    #[inline(always)]
    pub fn bytes(&self) -> &[u8]
        ensures { result.now ≡ self.now.bytes }
    {
        let (start, end) = (self.start, self.end);
        let all = self.buffer.as_slice();
        &all[start..end]
    }

    /// How many bytes are held.
    #[inline(always)]
    pub fn len(&self) -> usize
        ensures { result ≡ length self.now.bytes }
    {
        self.end - self.start
    }

    /// Whether the end of the input was met.
    #[inline(always)]
    pub fn has_ended(&self) -> bool
        ensures { result ≡ self.now.ended }
    {
        self.ended
    }

    /// The first bytes are used up.
    #[inline(always)]
    pub fn drop_front(&mut self, count: usize)
        requires { count ≤ length self.old.bytes }
        ensures { self.new ≡ record self.old { bytes = drop count self.old.bytes } }
    {
        self.start += count;
    }

    /// Reads on until this many bytes are held or the end of the input is met, and answers whether they are. A read that
    /// failed leaves what is held.
    #[inline(always)]
    pub fn hold<D: Desk>(
        &mut self,
        desk: &mut D,
        from: Input,
        count: usize,
    ) -> Result<bool, DeskFailed>
        requires { count ≤ WINDOW_SIZE }
        ensures still { still self.new ((D.told desk.new).left from)
            ≡ still self.old ((D.told desk.old).left from) }
        ensures took { HeldMore self.old self.new
            ((D.told desk.old).left from) ((D.told desk.new).left from) }
        ensures front { Begins self.old.bytes self.new.bytes }
        ensures held { result ≡ Ok true → count ≤ length self.new.bytes }
        ensures ended { result ≡ Ok false → (self.new.ended ≡ true) × (length self.new.bytes < count) }
        ensures short { OnErr result (length self.new.bytes < count) }
        ensures open { OnErr result (self.new.ended ≡ false) }
        ensures unread { self.old.ended ≡ true → (self.new ≡ self.old) × (desk.new ≡ desk.old) }
        ensures ends { EndIsTrue self.old ((D.told desk.old).left from)
            → EndIsTrue self.new ((D.told desk.new).left from) }
        ensures failed { OnErr result (ReadFailed from (D.told desk.old) (D.told desk.new)) }
        ensures only { OnlyReads from (D.told desk.old) (D.told desk.new) }
    {
        'reads: while self.len() < count {
            if self.has_ended() {
                return Ok(false);
            }
            self.refill(desk, from)?;
        }
        Ok(true)
    }

    /// Reads on until the first line is held, or one byte more than the most of a line, or the end of the input is met.
    /// Answers how many bytes the line has. It reads no further than it must, and a read that failed leaves what is held.
    pub fn hold_line<D: Desk>(&mut self, desk: &mut D, from: Input) -> Result<usize, DeskFailed>
        ensures still { still self.new ((D.told desk.new).left from)
            ≡ still self.old ((D.told desk.old).left from) }
        ensures took { HeldMore self.old self.new
            ((D.told desk.old).left from) ((D.told desk.new).left from) }
        ensures line { IfOk result (FrontLine self.new) }
        ensures part { OnErr result (HasNoLine self.new.bytes) }
        ensures open { OnErr result (self.new.ended ≡ false) }
        ensures unread { self.old.ended ≡ true → (self.new ≡ self.old) × (desk.new ≡ desk.old) }
        ensures ends { EndIsTrue self.old ((D.told desk.old).left from)
            → EndIsTrue self.new ((D.told desk.new).left from) }
        ensures failed { OnErr result (ReadFailed from (D.told desk.old) (D.told desk.new)) }
        ensures only { OnlyReads from (D.told desk.old) (D.told desk.new) }
    {
        'reads: loop {
            match line_size(self.bytes(), self.ended) {
                Some(size) => return Ok(size),
                None => self.refill(desk, from)?,
            }
        }
    }

    /// The first line is used up, and the line feed behind it, if there is one.
    pub fn drop_line(&mut self, size: usize)
        requires { size ≤ length self.old.bytes }
        ensures { self.new ≡ record self.old { bytes = drop (size + 1) self.old.bytes } }
    {
        let held = self.len();
        self.drop_front(if size < held { size + 1 } else { size });
    }

    /// Reads once behind what is held.
    #[cold]
    #[inline(never)]
    fn refill<D: Desk>(&mut self, desk: &mut D, from: Input) -> Result<(), DeskFailed>
        requires room { length self.old.bytes < WINDOW_SIZE }
        requires open { self.old.ended ≡ false }
        ensures still { still self.new ((D.told desk.new).left from)
            ≡ still self.old ((D.told desk.old).left from) }
        ensures took { HeldMore self.old self.new
            ((D.told desk.old).left from) ((D.told desk.new).left from) }
        ensures front { Begins self.old.bytes self.new.bytes }
        ensures more { OnOk result (self.new.ended ≡ false → length self.old.bytes < length self.new.bytes) }
        ensures ends { EndIsTrue self.new ((D.told desk.new).left from) }
        ensures same { OnErr result (self.new ≡ self.old) }
        ensures failed { OnErr result (ReadFailed from (D.told desk.old) (D.told desk.new)) }
        ensures only { OnlyReads from (D.told desk.old) (D.told desk.new) }
    {
        let held = self.end - self.start;
        move_to_front(&mut self.buffer, self.start, self.end);
        self.start = 0;
        self.end = held;
        let count = read_behind(desk, from, self.buffer.as_mut_slice(), held)?;
        self.end = held + count;
        self.ended = count == 0;
        Ok(())
    }
}

/// How many bytes the first line has, where these bytes tell, behind which there are none at the end of the input.
fn line_size(bytes: &[u8], ended: bool) -> Option<usize>
    ensures found { IfSome result (FrontLine (record { bytes = bytes.now; ended = ended })) }
    ensures none { IfNone result (HasNoLine bytes.now × (length bytes.now ≤ LINE_MAX) × (ended ≡ false)) }
{
    let front = &bytes[..(LINE_MAX + 1).min(bytes.len())];
    match line_feed_at(front) {
        Some(size) => Some(size),
        None => {
            if front.len() > LINE_MAX {
                return Some(LINE_MAX + 1);
            }
            if ended { Some(front.len()) } else { None }
        }
    }
}

/// The place of the first line feed.
fn line_feed_at(bytes: &[u8]) -> Option<usize>
    ensures { result ≡ position is_line_feed bytes.now }
{
    bytes.iter().position(|byte| *byte == b'\n')
}

/// Moves a part of the buffer to its front.
fn move_to_front(buffer: &mut Vec<u8>, start: usize, end: usize)
    requires ordered { start ≤ end }
    requires within { end ≤ length buffer.old.items }
    ensures moved { take (end - start) buffer.new.items ≡ slice_range buffer.old.items start end }
    ensures size { length buffer.new.items ≡ length buffer.old.items }
{
    buffer.copy_within(start..end, 0);
}

/// Reads once into the buffer from `end` on.
pub fn read_behind<D: Desk>(
    desk: &mut D,
    from: Input,
    buffer: &mut [u8],
    end: usize,
) -> Result<usize, DeskFailed>
    requires { end < length buffer.old }
    ensures kept { take end buffer.new ≡ take end buffer.old }
    ensures within { IfOk result (λ count. end + count ≤ length buffer.old) }
    ensures moved { IfOk result (λ count. (D.told desk.old).left from ≡ option_map
        (λ rest. slice_range buffer.new end (end + count) ++ rest) ((D.told desk.new).left from)) }
    ensures ended { result ≡ Ok 0 → IfSome ((D.told desk.old).left from) (λ rest. rest ≡ []) }
    ensures stays { OnErr result ((D.told desk.new).left from ≡ (D.told desk.old).left from) }
    ensures failed { OnErr result (ReadFailed from (D.told desk.old) (D.told desk.new)) }
    ensures only { OnlyReads from (D.told desk.old) (D.told desk.new) }
{
    desk.read(from, &mut buffer[end..])
}
