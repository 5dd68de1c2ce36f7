//! Lines of a port's transcript: `TICK SIDE ACT -> ANSWER`.
//!
//! | part | its texts |
//! |---|---|
//! | SIDE | `KM`, `UA` |
//! | ACT | `RESET`; `SETUP ADDRESS BYTES`; `OUT ADDRESS ENDPOINT TOGGLE BYTES`; `IN ADDRESS ENDPOINT ACKED` |
//! | ANSWER | `ACK`; `NAK`; `STALL`; `SILENT`; `DATA TOGGLE BYTES` |
ghost use Rattle.std.specs.Prelude.{◌≡◌, ◌+◌, ◌≤◌, length, take, ◌++◌, codes};
ghost use Rattle.std.specs.Fmt.{decimal};
ghost use Rattle.arrayvec.specs.ArrayVec.{array_vec_len};
ghost use Rattle.port_transcript.specs.PortLine.{act_text, answer_text, line_of, line_text, side_text};

use crate::text::{Text, put_byte, put_bytes, put_digits, put_word};
use crate::tick::TickDigits;
use psd_base::{Act, Answer, Line, Render, Side};

/// The most bytes that a line of a port has, its line feed included.
pub const PORT_LINE_SIZE: usize = 296;

/// The bytes of a side's name and of a blank on each side.
const SIDE_SIZE: usize = 4;

/// The most bytes of an act, those of an OUT of `PACKET_SIZE` bytes.
const ACT_SIZE: usize = 142;

/// The most bytes of an address and an endpoint.
const ENDPOINT_SIZE: usize = 7;

/// The most bytes from the arrow to the line feed, where the answer is `PACKET_SIZE` bytes of data.
const REPLY_SIZE: usize = 140;

/// The line of an act that was answered, where its parts lie elsewhere. It is rendered where it is wanted.
#[derive(Clone, Copy)]
pub struct ActLine<'a> {
    /// The tick, in milliseconds.
    pub tick: &'a TickDigits,
    pub side: Side,
    pub act: &'a Act,
    pub answer: &'a Answer,
}

impl ActLine<'_> {
    ghost use Rattle.port_transcript.specs.PortLine.{line_of};

    /// Writes the line over the bytes from a place on, and answers the place behind it. There is room for the longest.
    #[inline(always)]
    #[tactic(auto, unfolding(crate::specs::PortLine::line_text))]
    pub(crate) fn put(&self, into: &mut [u8], at: usize) -> usize
        requires { at + PORT_LINE_SIZE ≤ length into.old }
        ensures items { take result into.new ≡ take at into.old ++ line_text (line_of self.now) }
        ensures end { result ≤ at + PORT_LINE_SIZE }
        ensures len { length into.new ≡ length into.old }
    {
        let at = self.tick.put(into, at);
        let at = put_side(into, at, self.side);
        let at = put_act(into, at, self.act);
        put_reply(into, at, self.answer)
    }
}

impl Render for ActLine<'_> {
    ghost use Rattle.port_transcript.specs.PortLine.{line_of, line_text};

    ghost rendered = { λ line. line_text (line_of line) };

    #[inline(always)]
    fn render(&self, into: &mut [u8], at: usize) -> usize {
        self.put(into, at)
    }
}

/// Writes the line in the place of what the text held.
pub fn write_port_line(line: &Line, text: &mut Text)
    ensures items { text.new.items ≡ line_text line.now }
    ensures len { array_vec_len text.new ≤ PORT_LINE_SIZE }
{
    let tick = TickDigits::of(line.tick);
    text.set_to_line(&ActLine {
        tick: &tick,
        side: line.side,
        act: &line.act,
        answer: &line.answer,
    });
}

/// The line in a fresh text.
pub fn port_line(line: &Line) -> Text
    ensures items { result.items ≡ line_text line.now }
    ensures len { array_vec_len result ≤ PORT_LINE_SIZE }
{
    let mut text = Text::new();
    write_port_line(line, &mut text);
    text
}

/// Writes the side's name, with a blank on each side, and answers the place behind it.
#[inline(always)]
#[tactic(auto, unfolding(crate::specs::PortLine::side_text))]
fn put_side(into: &mut [u8], at: usize, side: Side) -> usize
    requires { at + SIDE_SIZE ≤ length into.old }
    ensures items { take result into.new ≡ take at into.old ++ codes " " ++ side_text side ++ codes " " }
    ensures end { result ≡ at + SIDE_SIZE }
    ensures len { length into.new ≡ length into.old }
{
    match side {
        Side::Km => put_word(into, at, b" KM "),
        Side::Ua => put_word(into, at, b" UA "),
    }
}

/// Writes the act, and answers the place behind it.
#[inline(always)]
#[tactic(auto, unfolding(crate::specs::PortLine::act_text))]
fn put_act(into: &mut [u8], at: usize, act: &Act) -> usize
    requires { at + ACT_SIZE ≤ length into.old }
    ensures items { take result into.new ≡ take at into.old ++ act_text act.now }
    ensures end { result ≤ at + ACT_SIZE }
    ensures len { length into.new ≡ length into.old }
{
    match act {
        Act::Reset => put_word(into, at, b"RESET"),
        Act::Setup { address, setup } => {
            let at = put_word(into, at, b"SETUP ");
            let at = put_byte(into, at, *address);
            let at = put_word(into, at, b" ");
            put_digits(into, at, &setup.bytes())
        }
        Act::Out {
            address,
            endpoint,
            toggle,
            bytes,
        } => {
            let at = put_word(into, at, b"OUT ");
            let at = put_endpoint(into, at, *address, *endpoint);
            let at = put_word(into, at, if *toggle { b" 1 " } else { b" 0 " });
            put_bytes(into, at, bytes)
        }
        Act::In {
            address,
            endpoint,
            acked,
        } => {
            let at = put_word(into, at, b"IN ");
            let at = put_endpoint(into, at, *address, *endpoint);
            put_word(into, at, if *acked { b" 1" } else { b" 0" })
        }
    }
}

/// Writes an address and an endpoint with a blank between them, and answers the place behind them.
#[inline(always)]
fn put_endpoint(into: &mut [u8], at: usize, address: u8, endpoint: u8) -> usize
    requires { at + ENDPOINT_SIZE ≤ length into.old }
    ensures items { take result into.new
        ≡ take at into.old ++ decimal address ++ codes " " ++ decimal endpoint }
    ensures end { result ≤ at + ENDPOINT_SIZE }
    ensures len { length into.new ≡ length into.old }
{
    let at = put_byte(into, at, address);
    let at = put_word(into, at, b" ");
    put_byte(into, at, endpoint)
}

/// Writes the arrow, the answer and the line feed, and answers the place behind them.
#[inline(always)]
#[tactic(auto, unfolding(crate::specs::PortLine::answer_text))]
fn put_reply(into: &mut [u8], at: usize, answer: &Answer) -> usize
    requires { at + REPLY_SIZE ≤ length into.old }
    ensures items { take result into.new
        ≡ take at into.old ++ codes " -> " ++ answer_text answer.now ++ codes "\n" }
    ensures end { result ≤ at + REPLY_SIZE }
    ensures len { length into.new ≡ length into.old }
{
    match answer {
        Answer::Ack => put_word(into, at, b" -> ACK\n"),
        Answer::Nak => put_word(into, at, b" -> NAK\n"),
        Answer::Stall => put_word(into, at, b" -> STALL\n"),
        Answer::Silent => put_word(into, at, b" -> SILENT\n"),
        Answer::Data { toggle, bytes } => {
            let data = if *toggle {
                b" -> DATA 1 "
            } else {
                b" -> DATA 0 "
            };
            let at = put_word(into, at, data);
            let at = put_bytes(into, at, bytes);
            put_word(into, at, b"\n")
        }
    }
}
