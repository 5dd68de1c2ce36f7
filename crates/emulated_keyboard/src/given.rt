//! By which case a poll of the emulated keyboard is answered.
ghost use Rattle.std.specs.Prelude.{◌≡◌};
ghost use Rattle.emulated_keyboard.specs.KeyboardHistory.{is_report, is_again};

use input_latch::KeyChange;

/// The case by which a poll is answered.
#[derive(Clone, Copy, Debug, PartialEq, Eq)]
pub enum Given {
    /// The report that wasn't acknowledged is sent again.
    Again,
    /// The release that is due is sent.
    Due,
    /// The report after this change from the latch is sent.
    Next(KeyChange),
    /// The last report is sent again, because its time has come.
    Repeated,
    /// There is nothing to send.
    Nothing,
}

impl Given {
    /// Whether a report is sent.
    pub fn is_report(self) -> bool
        ensures { result ≡ is_report self }
    {
        match self {
            Given::Again => true,
            Given::Due => true,
            Given::Next(_) => true,
            Given::Repeated => true,
            Given::Nothing => false,
        }
    }

    /// Whether the report that wasn't acknowledged is sent again.
    pub fn is_again(self) -> bool
        ensures { result ≡ is_again self }
    {
        match self {
            Given::Again => true,
            Given::Due => false,
            Given::Next(_) => false,
            Given::Repeated => false,
            Given::Nothing => false,
        }
    }
}
