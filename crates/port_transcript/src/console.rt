//! Lines of the console: a tick, what a peripheral is told to do, and a line feed.
//!
//! | order | its text |
//! |---|---|
//! | power on, power off | `PLUG ON LIFE`; `PLUG OFF LIFE` |
//! | a control transfer of the enumeration | `PLUG ASK LIFE NUMBER SETUP` |
//! | a control job of the token | `TOKEN JOB LIFE NUMBER CTL SETUP BYTES` |
//! | a job at an endpoint of the token | `TOKEN JOB LIFE NUMBER IN ENDPOINT`; `TOKEN JOB LIFE NUMBER OUT ENDPOINT BYTES` |
//!
//! PLUG is `KEYBOARD`, `MOUSE` or `TOKEN`. SETUP is the eight bytes as they come on the bus.
ghost use Rattle.std.specs.Prelude.{◌≡◌, ◌+◌, ◌≤◌, ◌++◌};
ghost use Rattle.arrayvec.specs.ArrayVec.{array_vec_len};
ghost use Rattle.port_transcript.specs.ConsoleLine.{job_words, kind_text, order_text, order_words};

use crate::plug::plug_name;
use crate::text::{
    TEXT_SIZE, Text, append, append_bytes, append_digits, append_number, append_tick,
};
use psd_base::{Job, JobKind, Order, Tick};

/// The most bytes that a line of the console has, its line feed included: those of a control job of `BLOCK_SIZE` bytes.
pub const CONSOLE_LINE_SIZE: usize = 2113;

/// The most bytes of an order without its tick.
const ORDER_SIZE: usize = 2101;

/// The most bytes of a job's transfer.
const KIND_SIZE: usize = 2069;

/// Appends the line. There is room for the longest, of `CONSOLE_LINE_SIZE` bytes. The tick is in milliseconds.
#[tactic(auto, unfolding(crate::specs::ConsoleLine::order_text))]
pub fn write_console_line(tick: Tick, order: &Order, text: &mut Text)
    requires { array_vec_len text.old + CONSOLE_LINE_SIZE ≤ TEXT_SIZE }
    ensures items { text.new.items ≡ text.old.items ++ order_text tick order.now }
    ensures len { array_vec_len text.new ≤ array_vec_len text.old + CONSOLE_LINE_SIZE }
{
    append_tick(text, tick);
    append(text, b" ");
    append_order(text, order);
    append(text, b"\n");
}

/// The line in a fresh text. The tick is in milliseconds.
pub fn console_line(tick: Tick, order: &Order) -> Text
    ensures items { result.items ≡ order_text tick order.now }
    ensures len { array_vec_len result ≤ CONSOLE_LINE_SIZE }
{
    let mut text = Text::new();
    write_console_line(tick, order, &mut text);
    text
}

#[tactic(auto, unfolding(crate::specs::ConsoleLine::order_words))]
fn append_order(text: &mut Text, order: &Order)
    requires { array_vec_len text.old + ORDER_SIZE ≤ TEXT_SIZE }
    ensures items { text.new.items ≡ text.old.items ++ order_words order.now }
    ensures len { array_vec_len text.new ≤ array_vec_len text.old + ORDER_SIZE }
{
    match order {
        Order::On { plug, life } => {
            append(text, plug_name(*plug));
            append(text, b" ON ");
            append_number(text, *life);
        }
        Order::Off { plug, life } => {
            append(text, plug_name(*plug));
            append(text, b" OFF ");
            append_number(text, *life);
        }
        Order::Ask {
            plug,
            life,
            number,
            setup,
        } => {
            append(text, plug_name(*plug));
            append(text, b" ASK ");
            append_number(text, *life);
            append(text, b" ");
            append_number(text, *number);
            append(text, b" ");
            append_digits(text, &setup.bytes());
        }
        Order::Job(job) => append_job(text, job),
    }
}

#[tactic(auto, unfolding(crate::specs::ConsoleLine::job_words))]
fn append_job(text: &mut Text, job: &Job)
    requires { array_vec_len text.old + ORDER_SIZE ≤ TEXT_SIZE }
    ensures items { text.new.items ≡ text.old.items ++ job_words job.now }
    ensures len { array_vec_len text.new ≤ array_vec_len text.old + ORDER_SIZE }
{
    append(text, b"TOKEN JOB ");
    append_number(text, job.life);
    append(text, b" ");
    append_number(text, job.number);
    append(text, b" ");
    append_kind(text, &job.kind);
}

#[tactic(auto, unfolding(crate::specs::ConsoleLine::kind_text))]
fn append_kind(text: &mut Text, kind: &JobKind)
    requires { array_vec_len text.old + KIND_SIZE ≤ TEXT_SIZE }
    ensures items { text.new.items ≡ text.old.items ++ kind_text kind.now }
    ensures len { array_vec_len text.new ≤ array_vec_len text.old + KIND_SIZE }
{
    match kind {
        JobKind::Control { setup, bytes } => {
            append(text, b"CTL ");
            append_digits(text, &setup.bytes());
            append(text, b" ");
            append_bytes(text, bytes);
        }
        JobKind::In { endpoint } => {
            append(text, b"IN ");
            append_number(text, *endpoint);
        }
        JobKind::Out { endpoint, bytes } => {
            append(text, b"OUT ");
            append_number(text, *endpoint);
            append(text, b" ");
            append_bytes(text, bytes);
        }
    }
}
