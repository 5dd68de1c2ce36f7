//! The line of a run that stopped.
//!
//! | stop | its text |
//! |---|---|
//! | the words aren't a command | `not a command` |
//! | the rule file | `rules too-big`; `rules syntax`; `rules shape LIST N`; `rules too-many LIST` |
//! | the capture | `capture OFFSET WHY` |
//! | the script | `script LINE WHY` |
//! | too many events | `too long` |
//! | a failed read, a failed write | `read fault INPUT`; `write fault OUTLET` |
//! | no memory | `out of memory` |
//!
//! | part | its texts |
//! |---|---|
//! | LIST | `root`, `allow`, `deny` |
//! | WHY of a capture | `bad-magic`, `bad-ports`, `truncated`, `tick-back`, `bad-kind`, `bad-who`, `bad-length`, `bad-field` |
//! | WHY of a script | `line-too-long`, `not-a-line`, `tick-back`, `no-such-port` |
//! | INPUT | `rules`, `capture`, `script` |
//! | OUTLET | `report`, `faults`, `console`, `log`, `port P` |
ghost use Rattle.std.specs.Prelude.{◌≡◌, ◌+◌, ◌≤◌, length, ◌++◌};
ghost use Rattle.arrayvec.specs.ArrayVec.{array_vec_len};
ghost use Rattle.port_transcript.specs.StopLine.{capture_text, input_text, list_text, outlet_text, rules_text, script_text, stop_text, stop_words};

use crate::text::{TEXT_SIZE, Text, append, append_number};
use psd_base::{CaptureFault, Input, Outlet, RuleList, RulesFault, ScriptFault, Stop};

/// The most bytes that the line of a stop has, its line feed included.
pub const STOP_LINE_SIZE: usize = 40;

/// The most bytes of a stop without its line feed.
const STOP_SIZE: usize = 39;

/// The most bytes of a fault of the rule file.
const RULES_SIZE: usize = 17;

/// Appends the line. There is room for the longest, of `STOP_LINE_SIZE` bytes.
#[tactic(auto, unfolding(crate::specs::StopLine::stop_text))]
pub fn write_stop_line(stop: &Stop, text: &mut Text)
    requires { array_vec_len text.old + STOP_LINE_SIZE ≤ TEXT_SIZE }
    ensures items { text.new.items ≡ text.old.items ++ stop_text stop.now }
    ensures len { array_vec_len text.new ≤ array_vec_len text.old + STOP_LINE_SIZE }
{
    append_stop(text, stop);
    append(text, b"\n");
}

/// The line in a fresh text.
pub fn stop_line(stop: &Stop) -> Text
    ensures items { result.items ≡ stop_text stop.now }
    ensures len { array_vec_len result ≤ STOP_LINE_SIZE }
{
    let mut text = Text::new();
    write_stop_line(stop, &mut text);
    text
}

#[tactic(auto, unfolding(crate::specs::StopLine::stop_words))]
fn append_stop(text: &mut Text, stop: &Stop)
    requires { array_vec_len text.old + STOP_SIZE ≤ TEXT_SIZE }
    ensures items { text.new.items ≡ text.old.items ++ stop_words stop.now }
    ensures len { array_vec_len text.new ≤ array_vec_len text.old + STOP_SIZE }
{
    match stop {
        Stop::Usage => append(text, b"not a command"),
        Stop::Rules(why) => {
            append(text, b"rules ");
            append_rules_fault(text, why);
        }
        Stop::Capture { offset, why } => {
            append(text, b"capture ");
            append_number(text, *offset);
            append(text, b" ");
            append(text, capture_fault_name(*why));
        }
        Stop::Script { line, why } => {
            append(text, b"script ");
            append_number(text, *line);
            append(text, b" ");
            append(text, script_fault_name(*why));
        }
        Stop::TooLong => append(text, b"too long"),
        Stop::ReadFault(input) => {
            append(text, b"read fault ");
            append(text, input_name(*input));
        }
        Stop::WriteFault(outlet) => {
            append(text, b"write fault ");
            append_outlet(text, outlet);
        }
        Stop::OutOfMemory => append(text, b"out of memory"),
    }
}

#[tactic(auto, unfolding(crate::specs::StopLine::rules_text))]
fn append_rules_fault(text: &mut Text, why: &RulesFault)
    requires { array_vec_len text.old + RULES_SIZE ≤ TEXT_SIZE }
    ensures items { text.new.items ≡ text.old.items ++ rules_text why.now }
    ensures len { array_vec_len text.new ≤ array_vec_len text.old + RULES_SIZE }
{
    match why {
        RulesFault::TooBig => append(text, b"too-big"),
        RulesFault::Syntax => append(text, b"syntax"),
        RulesFault::Shape { list, entry } => {
            append(text, b"shape ");
            append(text, list_name(*list));
            append(text, b" ");
            append_number(text, *entry);
        }
        RulesFault::TooMany(list) => {
            append(text, b"too-many ");
            append(text, list_name(*list));
        }
    }
}

#[tactic(auto, unfolding(crate::specs::StopLine::outlet_text))]
fn append_outlet(text: &mut Text, outlet: &Outlet)
    requires { array_vec_len text.old + 8 ≤ TEXT_SIZE }
    ensures items { text.new.items ≡ text.old.items ++ outlet_text outlet.now }
    ensures len { array_vec_len text.new ≤ array_vec_len text.old + 8 }
{
    match outlet {
        Outlet::Report => append(text, b"report"),
        Outlet::Faults => append(text, b"faults"),
        Outlet::Console => append(text, b"console"),
        Outlet::Log => append(text, b"log"),
        Outlet::Port(port) => {
            append(text, b"port ");
            append_number(text, port.number());
        }
    }
}

#[tactic(auto, unfolding(crate::specs::StopLine::list_text))]
fn list_name(list: RuleList) -> &'static [u8]
    ensures name { result.now ≡ list_text list }
    ensures len { length result.now ≤ 5 }
{
    match list {
        RuleList::Root => b"root",
        RuleList::Allow => b"allow",
        RuleList::Deny => b"deny",
    }
}

#[tactic(auto, unfolding(crate::specs::StopLine::capture_text))]
fn capture_fault_name(why: CaptureFault) -> &'static [u8]
    ensures name { result.now ≡ capture_text why }
    ensures len { length result.now ≤ 10 }
{
    match why {
        CaptureFault::BadMagic => b"bad-magic",
        CaptureFault::BadPorts => b"bad-ports",
        CaptureFault::Truncated => b"truncated",
        CaptureFault::TickBack => b"tick-back",
        CaptureFault::BadKind => b"bad-kind",
        CaptureFault::BadWho => b"bad-who",
        CaptureFault::BadLength => b"bad-length",
        CaptureFault::BadField => b"bad-field",
    }
}

#[tactic(auto, unfolding(crate::specs::StopLine::script_text))]
fn script_fault_name(why: ScriptFault) -> &'static [u8]
    ensures name { result.now ≡ script_text why }
    ensures len { length result.now ≤ 13 }
{
    match why {
        ScriptFault::LineTooLong => b"line-too-long",
        ScriptFault::NotALine => b"not-a-line",
        ScriptFault::TickBack => b"tick-back",
        ScriptFault::NoSuchPort => b"no-such-port",
    }
}

#[tactic(auto, unfolding(crate::specs::StopLine::input_text))]
fn input_name(input: Input) -> &'static [u8]
    ensures name { result.now ≡ input_text input }
    ensures len { length result.now ≤ 7 }
{
    match input {
        Input::Rules => b"rules",
        Input::Capture => b"capture",
        Input::Script => b"script",
    }
}
