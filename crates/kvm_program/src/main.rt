//! Replays recorded USB events through the switch, and writes each computer's transcript.
#![tactic(auto)]

use port_transcript::stop_line;
use psd_base::file_desk::FileDesk;
use psd_base::stop::Stop;
use psd_base::summary::Summary;
use psd_base::words::Words;
use run::kvm;
use std::io::ErrorKind;
use std::process::ExitCode;
use std::rt::{Env, Files};
use std::{env, fs, io};

mod check;
mod command;
#[cfg(test)]
mod consoles;
#[cfg(test)]
mod failed_reads;
mod laws;
mod open;
mod outlets;
mod replay;
mod report;
mod rules;
mod run;
#[cfg(test)]
mod sessions;
mod tally;
#[cfg(test)]
mod tests;

/// The exit status where an outlet can't be written out.
const WRITE_FAULT: u8 = 7;

/// The exit status where there is no memory for the words or for the buffers of the outlets.
const OUT_OF_MEMORY: u8 = 8;

/// The exit status where the system refuses the words, or a file in the place of a standard stream.
const REFUSED: u8 = 12;

/// A file that is always there and holds nothing.
const NOTHING: &str = "/dev/null";

/// Opens a file for each standard stream. Where one was closed when the program began, the first of these takes its
/// number, to be read alone: no file that is opened later gets the bytes of a standard stream.
fn take_streams<R: Files>(rt: &R) -> io::Result<(R::File, R::File, R::File)> {
    Ok((
        fs::open(rt, NOTHING)?,
        fs::open(rt, NOTHING)?,
        fs::open(rt, NOTHING)?,
    ))
}

/// The words behind the program's name.
fn take_words(rt: &(impl Env + AllocGlobal)) -> io::Result<Words> {
    let mut words = Words::new();
    for word in env::args(rt)?.skip(1) {
        words.push(word.as_str());
    }
    Ok(words)
}

/// The exit status where the words couldn't be taken.
fn refusal(error: &io::Error) -> u8 {
    if error.kind() == ErrorKind::OutOfMemory {
        OUT_OF_MEMORY
    } else {
        REFUSED
    }
}

/// The exit status of a run.
fn status_of(ended: &Result<Summary, Stop>) -> u8 {
    match ended {
        Ok(_) => 0,
        Err(stop) => stop.status(),
    }
}

/// Tells of a stop on standard error. Where that fails too, the status alone tells it.
fn tell(rt: &impl Eprint, stop: &Stop) {
    let line = stop_line(stop);
    if let Ok(text) = str::from_utf8(line.as_slice()) {
        let _ = rt.eprint(text);
    }
}

/// Does what the words say at the desk of the current folder, whose buffers are taken before anything is read.
fn obey(rt: &HostRuntime, words: &Words) -> u8 {
    let mut desk = FileDesk::new(rt);
    if desk.reserve().is_err() {
        tell(rt, &Stop::OutOfMemory);
        return OUT_OF_MEMORY;
    }
    let status = status_of(&kvm(rt.alloc(), words, &mut desk));
    match desk.close() {
        Ok(()) => status,
        Err(outlet) => {
            tell(rt, &Stop::WriteFault(outlet));
            WRITE_FAULT
        }
    }
}

fn main(rt: HostRuntime) -> ExitCode {
    let _streams = match take_streams(&rt) {
        Ok(streams) => streams,
        Err(_) => return ExitCode::from(REFUSED),
    };
    match take_words(&rt) {
        Ok(words) => ExitCode::from(obey(&rt, &words)),
        Err(error) => ExitCode::from(refusal(&error)),
    }
}
