//! Which source gives the next event.
ghost use Rattle.std.specs.Prelude.{◌≡◌};
ghost use Rattle.capture_reader.specs.Ahead.{ahead_of, line_of};
ghost use Rattle.capture_reader.specs.Progress.{next_of};

use crate::ahead::Ahead;
use crate::form::Said;

/// The source that gives the next event.
#[derive(Clone, Copy, Debug, PartialEq, Eq)]
pub enum Next {
    Record,
    Line,
    /// Neither has one.
    End,
}

/// The source whose event comes next, by the record and the line that were read ahead. At equal ticks it is the script.
#[inline(always)]
pub fn next_source(capture: &Ahead, script: &Option<Said>) -> Next
    ensures { result ≡ next_of (ahead_of capture.now) (line_of script.now) }
{
    match script {
        None => match &capture.kept {
            None => Next::End,
            Some(_) => Next::Record,
        },
        Some(line) => match &capture.kept {
            None => Next::Line,
            Some(_) => {
                if line.tick <= capture.tick {
                    Next::Line
                } else {
                    Next::Record
                }
            }
        },
    }
}
