//! What is written where.
ghost use Rattle.std.specs.Prelude.{◌≡◌, ◌≢◌, ℕ, ◌+◌, ◌^◌, ◌<◌, ◌≤◌, ◌==◌, if◌then◌else◌, [], length, IfErr, OnOk, OnErr};
ghost use Rattle.psd_base.specs.Event.{seen};
ghost use Rattle.psd_base.specs.Port.{IsPort};
ghost use Rattle.psd_base.specs.Desk.{OnlyWrites, WriteFailed};
ghost use Rattle.psd_base.specs.History.{number_of};
ghost use Rattle.port_transcript.specs.ConsoleLine.{order_text};
ghost use Rattle.port_transcript.specs.PortLine.{line_of, line_text};
ghost use Rattle.switch_core.specs.Gives.{gives_of};
ghost use Rattle.port_model.specs.Lines.{line_with};
ghost use Rattle.kvm_program.specs.Console.{orders_text};
ghost use Rattle.kvm_program.specs.Log.{is_leave, is_refusal, notes_text};
ghost use Rattle.kvm_program.specs.Outlets.{OnlyWritesConsole, OnlyWritesPorts, OnlyWritesTexts, WroteTo, IsTextFault};
ghost use Rattle.kvm_program.specs.Tally.{bytes_at};
ghost use Rattle.kvm_program.specs.Texts.{turn_text};
ghost use Rattle.kvm_program.specs.Transcript.{text_at};

use crate::tally::Tally;
use port_transcript::{ActLine, Text, write_console_line, write_log_line};
use psd_base::act::Answer;
use psd_base::console::{NOTES_MAX, Note, Notes, Order};
use psd_base::desk::Desk;
use psd_base::event::{Event, Tick, What};
use psd_base::outlet::Outlet;
use psd_base::port::PortId;
use psd_base::render::RENDERED_MAX;
use psd_base::stop::Stop;
use switch_core::Turn;

/// Writes to one outlet.
#[inline(always)]
pub fn send<D: Desk>(desk: &mut D, to: &Outlet, bytes: &[u8]) -> Result<(), Stop>
    ensures wrote { WroteTo to.now result (D.told desk.old) (D.told desk.new) bytes.now }
    ensures stop { IfErr result (λ stop. stop ≡ Stop.WriteFault to.now) }
    ensures failed { OnErr result (WriteFailed to.now (D.told desk.old) (D.told desk.new)) }
    ensures only { OnlyWrites to.now (D.told desk.old) (D.told desk.new) }
{
    match desk.write(*to, bytes) {
        Ok(()) => Ok(()),
        Err(_) => Err(Stop::WriteFault(*to)),
    }
}

/// Writes what one event gave: its line to its port's transcript, if it has one, then the orders to the console, and then
/// the notes to the log. The text keeps the digits of the tick, and is room for orders and notes.
#[inline(always)]
pub fn write_turn<D: Desk>(
    desk: &mut D,
    event: &Event,
    turn: &Turn,
    text: &mut Text,
    tally: &mut Tally,
) -> Result<(), Stop>
    requires bytes { (port : ℕ) → IsPort port → bytes_at tally.old port + RENDERED_MAX < 2 ^ 64 }
    requires left { tally.old.left + NOTES_MAX < 2 ^ 32 }
    requires refused { tally.old.refused + NOTES_MAX < 2 ^ 32 }
    ensures wrote { (to : Outlet) → WroteTo to result (D.told desk.old) (D.told desk.new)
        (turn_text to event.now.tick (gives_of (seen event.now) turn.now)) }
    ensures short { (port : ℕ)
        → length (text_at port (line_with (seen event.now) turn.now.answer)) ≤ RENDERED_MAX }
    ensures stop { IfErr result (IsTextFault (D.told desk.old) (D.told desk.new)) }
    ensures counted { OnOk result ((port : ℕ) → IsPort port → bytes_at tally.new port
        ≡ bytes_at tally.old port + length (text_at port (line_with (seen event.now) turn.now.answer))) }
    ensures left { OnOk result (tally.new.left ≡ tally.old.left + number_of is_leave turn.now.notes.items) }
    ensures refused { OnOk result (tally.new.refused
        ≡ tally.old.refused + number_of is_refusal turn.now.notes.items) }
    ensures few_left { OnOk result (tally.new.left ≤ tally.old.left + NOTES_MAX) }
    ensures few_refused { OnOk result (tally.new.refused ≤ tally.old.refused + NOTES_MAX) }
    ensures only { OnlyWritesTexts (D.told desk.old) (D.told desk.new) }
{
    write_line(desk, event, &turn.answer, text, tally)?;
    if turn.orders.is_empty() && turn.notes.is_empty() {
        return Ok(());
    }
    write_console(desk, event.tick, turn, text, tally)
}

/// Writes the line of an event that was answered so to its port's transcript, if it has one.
#[inline(always)]
fn write_line<D: Desk>(
    desk: &mut D,
    event: &Event,
    answer: &Answer,
    text: &mut Text,
    tally: &mut Tally,
) -> Result<(), Stop>
    requires { (port : ℕ) → IsPort port → bytes_at tally.old port + RENDERED_MAX < 2 ^ 64 }
    ensures wrote { (port : ℕ) → WroteTo (Outlet.Port port) result (D.told desk.old) (D.told desk.new)
        (text_at port (line_with (seen event.now) answer.now)) }
    ensures short { (port : ℕ)
        → length (text_at port (line_with (seen event.now) answer.now)) ≤ RENDERED_MAX }
    ensures stop { IfErr result (IsTextFault (D.told desk.old) (D.told desk.new)) }
    ensures counted { OnOk result ((port : ℕ) → IsPort port → bytes_at tally.new port
        ≡ bytes_at tally.old port + length (text_at port (line_with (seen event.now) answer.now))) }
    ensures left { tally.new.left ≡ tally.old.left }
    ensures refused { tally.new.refused ≡ tally.old.refused }
    ensures only { OnlyWritesPorts (D.told desk.old) (D.told desk.new) }
{
    match &event.what {
        What::Port(port, side, act) => {
            let line = ActLine {
                tick: text.digits_of(event.tick),
                side: *side,
                act,
                answer,
            };
            send_line(desk, *port, &line, tally)
        }
        What::Clock => Ok(()),
        What::Panel(_) => Ok(()),
        What::Attach(_) => Ok(()),
        What::Detach(_) => Ok(()),
        What::Reply { .. } => Ok(()),
        What::Report { .. } => Ok(()),
        What::JobDone { .. } => Ok(()),
    }
}

/// Writes the line of an act to one port's transcript, and counts its bytes. It is rendered where the desk wants it.
#[inline(always)]
fn send_line<D: Desk>(
    desk: &mut D,
    port: PortId,
    line: &ActLine,
    tally: &mut Tally,
) -> Result<(), Stop>
    requires { (port : ℕ) → IsPort port → bytes_at tally.old port + RENDERED_MAX < 2 ^ 64 }
    ensures wrote { (other : ℕ)
        → WroteTo (Outlet.Port other) result (D.told desk.old) (D.told desk.new)
        (if port == other then line_text (line_of line.now) else []) }
    ensures short { length (line_text (line_of line.now)) ≤ RENDERED_MAX }
    ensures stop { IfErr result (IsTextFault (D.told desk.old) (D.told desk.new)) }
    ensures counted { OnOk result ((other : ℕ) → IsPort other
        → bytes_at tally.new other
        ≡ bytes_at tally.old other + length (if port == other then line_text (line_of line.now) else [])) }
    ensures left { tally.new.left ≡ tally.old.left }
    ensures refused { tally.new.refused ≡ tally.old.refused }
    ensures only { OnlyWritesPorts (D.told desk.old) (D.told desk.new) }
{
    match desk.write_rendered(Outlet::Port(port), line) {
        Ok(count) => {
            tally.add(port, count);
            Ok(())
        }
        Err(_) => Err(Stop::WriteFault(Outlet::Port(port))),
    }
}

/// Writes the orders of a turn to the console, and then its notes to the log. It is a call of its own, since few turns have
/// some.
#[inline(never)]
fn write_console<D: Desk>(
    desk: &mut D,
    tick: Tick,
    turn: &Turn,
    text: &mut Text,
    tally: &mut Tally,
) -> Result<(), Stop>
    requires left { tally.old.left + NOTES_MAX < 2 ^ 32 }
    requires refused { tally.old.refused + NOTES_MAX < 2 ^ 32 }
    ensures console { WroteTo Outlet.Console result (D.told desk.old) (D.told desk.new)
        (orders_text tick turn.now.orders.items) }
    ensures log { WroteTo Outlet.Log result (D.told desk.old) (D.told desk.new)
        (notes_text tick turn.now.notes.items) }
    ensures stop { IfErr result (IsTextFault (D.told desk.old) (D.told desk.new)) }
    ensures counted { tally.new.bytes ≡ tally.old.bytes }
    ensures left { OnOk result (tally.new.left ≡ tally.old.left + number_of is_leave turn.now.notes.items) }
    ensures refused { OnOk result (tally.new.refused
        ≡ tally.old.refused + number_of is_refusal turn.now.notes.items) }
    ensures few_left { OnOk result (tally.new.left ≤ tally.old.left + NOTES_MAX) }
    ensures few_refused { OnOk result (tally.new.refused ≤ tally.old.refused + NOTES_MAX) }
    ensures only { OnlyWritesConsole (D.told desk.old) (D.told desk.new) }
{
    write_orders(desk, tick, turn.orders.as_slice(), text)?;
    write_notes(desk, tick, &turn.notes, text, tally)
}

/// Writes orders to the console, each by a write of its own: the text has no room for all of them.
fn write_orders<D: Desk>(
    desk: &mut D,
    tick: Tick,
    orders: &[Order],
    text: &mut Text,
) -> Result<(), Stop>
    ensures wrote { WroteTo Outlet.Console result (D.told desk.old) (D.told desk.new)
        (orders_text tick orders.now) }
    ensures stop { IfErr result (IsTextFault (D.told desk.old) (D.told desk.new)) }
    ensures only { OnlyWrites Outlet.Console (D.told desk.old) (D.told desk.new) }
{
    for order in orders {
        write_order(desk, tick, order, text)?;
    }
    Ok(())
}

/// Writes one order to the console.
fn write_order<D: Desk>(
    desk: &mut D,
    tick: Tick,
    order: &Order,
    text: &mut Text,
) -> Result<(), Stop>
    ensures wrote { WroteTo Outlet.Console result (D.told desk.old) (D.told desk.new)
        (order_text tick order.now) }
    ensures stop { IfErr result (λ stop. stop ≡ Stop.WriteFault Outlet.Console) }
    ensures failed { OnErr result (WriteFailed Outlet.Console (D.told desk.old) (D.told desk.new)) }
    ensures only { OnlyWrites Outlet.Console (D.told desk.old) (D.told desk.new) }
{
    text.clear();
    write_console_line(tick, order, text);
    send(desk, &Outlet::Console, text.as_slice())
}

/// Writes the notes of an event to the log, if there are some.
fn write_notes<D: Desk>(
    desk: &mut D,
    tick: Tick,
    notes: &Notes,
    text: &mut Text,
    tally: &mut Tally,
) -> Result<(), Stop>
    requires left { tally.old.left + NOTES_MAX < 2 ^ 32 }
    requires refused { tally.old.refused + NOTES_MAX < 2 ^ 32 }
    ensures wrote { WroteTo Outlet.Log result (D.told desk.old) (D.told desk.new)
        (notes_text tick notes.now.items) }
    ensures stop { IfErr result (λ stop. stop ≡ Stop.WriteFault Outlet.Log) }
    ensures failed { OnErr result (WriteFailed Outlet.Log (D.told desk.old) (D.told desk.new)) }
    ensures counted { tally.new.bytes ≡ tally.old.bytes }
    ensures left { OnOk result (tally.new.left ≡ tally.old.left + number_of is_leave notes.now.items) }
    ensures refused { OnOk result (tally.new.refused
        ≡ tally.old.refused + number_of is_refusal notes.now.items) }
    ensures few_left { OnOk result (tally.new.left ≤ tally.old.left + NOTES_MAX) }
    ensures few_refused { OnOk result (tally.new.refused ≤ tally.old.refused + NOTES_MAX) }
    ensures only { OnlyWrites Outlet.Log (D.told desk.old) (D.told desk.new) }
{
    if notes.is_empty() {
        return Ok(());
    }
    write_all(desk, tick, notes.as_slice(), text, tally)
}

/// Writes notes to the log, all by one write: the text has room for them.
fn write_all<D: Desk>(
    desk: &mut D,
    tick: Tick,
    notes: &[Note],
    text: &mut Text,
    tally: &mut Tally,
) -> Result<(), Stop>
    requires few { length notes.now ≤ NOTES_MAX }
    requires left { tally.old.left + NOTES_MAX < 2 ^ 32 }
    requires refused { tally.old.refused + NOTES_MAX < 2 ^ 32 }
    ensures wrote { WroteTo Outlet.Log result (D.told desk.old) (D.told desk.new)
        (notes_text tick notes.now) }
    ensures stop { IfErr result (λ stop. stop ≡ Stop.WriteFault Outlet.Log) }
    ensures failed { OnErr result (WriteFailed Outlet.Log (D.told desk.old) (D.told desk.new)) }
    ensures counted { tally.new.bytes ≡ tally.old.bytes }
    ensures left { OnOk result (tally.new.left ≡ tally.old.left + number_of is_leave notes.now) }
    ensures refused { OnOk result (tally.new.refused ≡ tally.old.refused + number_of is_refusal notes.now) }
    ensures few_left { OnOk result (tally.new.left ≤ tally.old.left + NOTES_MAX) }
    ensures few_refused { OnOk result (tally.new.refused ≤ tally.old.refused + NOTES_MAX) }
    ensures only { OnlyWrites Outlet.Log (D.told desk.old) (D.told desk.new) }
{
    text.clear();
    append_notes(text, tick, notes);
    send(desk, &Outlet::Log, text.as_slice())?;
    tally.note(notes);
    Ok(())
}

/// Appends the lines of notes. There is room for them.
fn append_notes(text: &mut Text, tick: Tick, notes: &[Note])
    requires few { length notes.now ≤ NOTES_MAX }
    requires empty { text.old.items ≡ [] }
    ensures { text.new.items ≡ notes_text tick notes.now }
{
    for note in notes {
        write_log_line(tick, note, text);
    }
}
