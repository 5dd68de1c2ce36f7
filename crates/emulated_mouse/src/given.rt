//! By which case a poll of the emulated mouse is answered.
ghost use Rattle.std.specs.Prelude.{◌≡◌};
ghost use Rattle.emulated_mouse.specs.MouseHistory.{is_report, is_again};

use input_latch::PointerChange;

/// The case by which a poll is answered.
#[derive(Clone, Copy, Debug, PartialEq, Eq)]
pub enum Given {
    /// The report that wasn't acknowledged is sent again.
    Again,
    /// The release that is due is sent.
    Due,
    /// The next piece of the motion that was begun is sent.
    Rest,
    /// This change from the latch is sent, or the first piece of it.
    Next(PointerChange),
    /// There is nothing to send.
    Nothing,
}

impl Given {
    /// Whether a report is sent.
    pub fn is_report(self) -> bool
        ensures { result ≡ is_report self }
    {
        match self {
            Given::Again => true,
            Given::Due => true,
            Given::Rest => true,
            Given::Next(_) => true,
            Given::Nothing => false,
        }
    }

    /// Whether the report that wasn't acknowledged is sent again.
    pub fn is_again(self) -> bool
        ensures { result ≡ is_again self }
    {
        match self {
            Given::Again => true,
            Given::Due => false,
            Given::Rest => false,
            Given::Next(_) => false,
            Given::Nothing => false,
        }
    }
}
