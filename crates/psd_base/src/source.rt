//! Where the bytes of an input come from in the current folder.
ghost use Rattle.std.specs.Prelude.{◌≡◌, ◌≤◌, length, Ok, None, IfOk, OnErr};

use crate::outlet::Input;
use std::fs;
use std::io::{self, ErrorKind, Read};
use std::rt::Files;

/// Where the bytes of an input come from.
#[derive(Drop)]
pub enum Source<F> {
    /// Nothing was read yet.
    Unused,
    /// The file of the input. Where there is none, the input reads as empty.
    Opened(Option<F>),
}

impl<F: Read + Drop> Source<F> {
    /// Reads the next bytes to the front of `into`, and answers how many. The first read opens the input's file; where
    /// that fails, the next read tries again.
    pub fn read<R: Files<File = F>>(
        &mut self,
        rt: &R,
        from: &Input,
        into: &mut [u8],
    ) -> io::Result<usize>
        ensures within { IfOk result (λ count. count ≤ length into.old) }
        ensures missing { self.old ≡ Source.Opened None → (result ≡ Ok 0) × (self.new ≡ self.old) }
    {
        match self {
            Source::Unused => {
                let mut file = open(rt, from)?;
                let count = read_if_there(&mut file, into);
                *self = Source::Opened(file);
                count
            }
            Source::Opened(file) => read_if_there(file, into),
        }
    }
}

/// Reads from a file, or nothing where there is none.
fn read_if_there<F: Read>(file: &mut Option<F>, into: &mut [u8]) -> io::Result<usize>
    ensures within { IfOk result (λ count. count ≤ length into.old) }
    ensures missing { file.old ≡ None → (result ≡ Ok 0) × (file.new ≡ None) }
{
    match file {
        Some(file) => read_through(file, into),
        None => Ok(0),
    }
}

/// Reads from a file, and again where a signal interrupted the read.
fn read_through<F: Read>(file: &mut F, into: &mut [u8]) -> io::Result<usize>
    ensures { IfOk result (λ count. count ≤ length into.old) }
{
    for _ in 0..u64::MAX {
        match file.read(into) {
            Ok(count) => return Ok(count),
            Err(error) => {
                if error.kind() != ErrorKind::Interrupted {
                    return Err(error);
                }
            }
        }
    }
    Err(io::Error::from(ErrorKind::Interrupted))
}

/// Opens the file of an input. The rules and the script need not be there.
fn open<R: Files>(rt: &R, from: &Input) -> io::Result<Option<R::File>> {
    match from {
        Input::Rules => open_if_there(rt, "rules.toml"),
        Input::Capture => Ok(Some(fs::open(rt, "capture.kvc")?)),
        Input::Script => open_if_there(rt, "buttons.txt"),
    }
}

fn open_if_there<R: Files>(rt: &R, name: &str) -> io::Result<Option<R::File>> {
    match fs::open(rt, name) {
        Ok(file) => Ok(Some(file)),
        Err(error) if error.kind() == ErrorKind::NotFound => Ok(None),
        Err(error) => Err(error),
    }
}
