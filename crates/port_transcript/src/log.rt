//! Lines of the log: a tick, what became of selection, self-test or a peripheral, and a line feed.
//!
//! | note | its text |
//! |---|---|
//! | the self-test | `ALIVE`; `DARK CHECK N`; `DARK TAMPER`; `DARK BUTTON` |
//! | the selection of port P | `LEAVE P`; `SELECT P`; `TOKEN ROUTED P` |
//! | interface N of a peripheral | `PLUG INTERFACE N ACCEPTED`; `PLUG INTERFACE N REFUSED RULE` |
//! | a peripheral | `PLUG ACCEPTED`; `PLUG REFUSED RULE` |
//!
//! PLUG is `KEYBOARD`, `MOUSE` or `TOKEN`. RULE is `F` or `D` and a number of two digits, or of three from 100 on, or
//! `A00`.
ghost use Rattle.std.specs.Prelude.{◌≡◌, ◌+◌, ◌≤◌, ◌++◌};
ghost use Rattle.arrayvec.specs.ArrayVec.{array_vec_len};
ghost use Rattle.port_transcript.specs.LogLine.{note_text, note_words, reason_text, rule_text, two_digits};

use crate::plug::plug_name;
use crate::text::{TEXT_SIZE, Text, append, append_number, append_tick};
use psd_base::{Note, Reason, RuleName, Tick};

/// The most bytes that a line of the log has, its line feed included.
pub const LOG_LINE_SIZE: usize = 47;

/// The most bytes of a note without its tick.
const NOTE_SIZE: usize = 35;

/// The most bytes of a reason.
const REASON_SIZE: usize = 9;

/// The most bytes of a rule.
const RULE_SIZE: usize = 4;

/// Appends the line. There is room for the longest, of `LOG_LINE_SIZE` bytes. The tick is in milliseconds.
#[tactic(auto, unfolding(crate::specs::LogLine::note_text))]
pub fn write_log_line(tick: Tick, note: &Note, text: &mut Text)
    requires { array_vec_len text.old + LOG_LINE_SIZE ≤ TEXT_SIZE }
    ensures items { text.new.items ≡ text.old.items ++ note_text tick note.now }
    ensures len { array_vec_len text.new ≤ array_vec_len text.old + LOG_LINE_SIZE }
{
    append_tick(text, tick);
    append(text, b" ");
    append_note(text, note);
    append(text, b"\n");
}

/// The line in a fresh text. The tick is in milliseconds.
pub fn log_line(tick: Tick, note: &Note) -> Text
    ensures items { result.items ≡ note_text tick note.now }
    ensures len { array_vec_len result ≤ LOG_LINE_SIZE }
{
    let mut text = Text::new();
    write_log_line(tick, note, &mut text);
    text
}

#[tactic(auto, unfolding(crate::specs::LogLine::note_words))]
fn append_note(text: &mut Text, note: &Note)
    requires { array_vec_len text.old + NOTE_SIZE ≤ TEXT_SIZE }
    ensures items { text.new.items ≡ text.old.items ++ note_words note.now }
    ensures len { array_vec_len text.new ≤ array_vec_len text.old + NOTE_SIZE }
{
    match note {
        Note::Alive => append(text, b"ALIVE"),
        Note::Dark(reason) => {
            append(text, b"DARK ");
            append_reason(text, reason);
        }
        Note::Leave(port) => {
            append(text, b"LEAVE ");
            append_number(text, port.number());
        }
        Note::Select(port) => {
            append(text, b"SELECT ");
            append_number(text, port.number());
        }
        Note::Routed(port) => {
            append(text, b"TOKEN ROUTED ");
            append_number(text, port.number());
        }
        Note::InterfaceAccepted { plug, interface } => {
            append(text, plug_name(*plug));
            append(text, b" INTERFACE ");
            append_number(text, *interface);
            append(text, b" ACCEPTED");
        }
        Note::InterfaceRefused {
            plug,
            interface,
            rule,
        } => {
            append(text, plug_name(*plug));
            append(text, b" INTERFACE ");
            append_number(text, *interface);
            append(text, b" REFUSED ");
            append_rule(text, rule);
        }
        Note::Accepted(plug) => {
            append(text, plug_name(*plug));
            append(text, b" ACCEPTED");
        }
        Note::Refused { plug, rule } => {
            append(text, plug_name(*plug));
            append(text, b" REFUSED ");
            append_rule(text, rule);
        }
    }
}

#[tactic(auto, unfolding(crate::specs::LogLine::reason_text))]
fn append_reason(text: &mut Text, reason: &Reason)
    requires { array_vec_len text.old + REASON_SIZE ≤ TEXT_SIZE }
    ensures items { text.new.items ≡ text.old.items ++ reason_text reason.now }
    ensures len { array_vec_len text.new ≤ array_vec_len text.old + REASON_SIZE }
{
    match reason {
        Reason::Check(number) => {
            append(text, b"CHECK ");
            append_number(text, *number);
        }
        Reason::Tamper => append(text, b"TAMPER"),
        Reason::Button => append(text, b"BUTTON"),
    }
}

#[tactic(auto, unfolding(crate::specs::LogLine::rule_text))]
fn append_rule(text: &mut Text, rule: &RuleName)
    requires { array_vec_len text.old + RULE_SIZE ≤ TEXT_SIZE }
    ensures items { text.new.items ≡ text.old.items ++ rule_text rule.now }
    ensures len { array_vec_len text.new ≤ array_vec_len text.old + RULE_SIZE }
{
    match rule {
        RuleName::Fixed(number) => {
            append(text, b"F");
            append_two_digits(text, *number);
        }
        RuleName::Deny(number) => {
            append(text, b"D");
            append_two_digits(text, *number);
        }
        RuleName::NotAllowed => append(text, b"A00"),
    }
}

/// Appends a number with a zero before a single digit. There is room for three digits.
#[tactic(auto, using(std::proofs::lemmas::Fmt::decimal_digit), unfolding(crate::specs::LogLine::two_digits))]
fn append_two_digits(text: &mut Text, number: u8)
    requires { array_vec_len text.old + 3 ≤ TEXT_SIZE }
    ensures items { text.new.items ≡ text.old.items ++ two_digits number }
    ensures len { array_vec_len text.new ≤ array_vec_len text.old + 3 }
{
    if number < 10 {
        append(text, &[b'0', b'0' + number]);
    } else {
        append_number(text, number);
    }
}
