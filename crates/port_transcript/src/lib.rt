//! The line texts: what each act, order, note and stop looks like where it is written.
//!
//! | line | of what | for example |
//! |---|---|---|
//! | port | an act of a computer, and what it was answered | `1 KM SETUP 0 8006000100004000 -> ACK` |
//! | console | what a peripheral is told to do | `0 KEYBOARD ASK 1 6 8106002200004000` |
//! | log | what became of selection, self-test or a peripheral | `0 KEYBOARD INTERFACE 1 REFUSED F07` |
//! | stop | why a run ended early | `capture 88 truncated` |
//!
//! Each line ends with a line feed. A line of the first three begins with its tick, a number of milliseconds. Numbers
//! are decimal without leading zeros, bytes are lower-case hexadecimal, and no bytes are `-`. Truth values are 0 or 1.
//! All forms of a line stand at the head of the file that writes it.
//!
//! Lines of a port are read back too, and no two of them have one text.
#![tactic(auto)]

mod console;
mod log;
mod plug;
mod port;
mod read;
mod stop;
mod text;
mod tick;
mod words;

pub use console::{CONSOLE_LINE_SIZE, console_line, write_console_line};
pub use log::{LOG_LINE_SIZE, log_line, write_log_line};
pub use port::{ActLine, PORT_LINE_SIZE, port_line, write_port_line};
pub use read::read_port_line;
pub use stop::{STOP_LINE_SIZE, stop_line, write_stop_line};
pub use text::{TEXT_SIZE, Text, append, append_number};
pub use tick::TickDigits;
