//! What became of the changes that a latch was offered.
ghost use Rattle.std.specs.Prelude.{◌≡◌, ◌+◌, ◌<◌, ◌^◌};
ghost use Rattle.input_latch.specs.Verdict.{Taken, Refused, counted};

/// The places of a latch: one for each undelivered change, and one for the release of each key or button that is held.
pub const PLACES: usize = 64;

/// How many of the changes that were offered were taken, and how many refused.
#[derive(Clone, Copy, Debug, PartialEq, Eq)]
pub struct Offered {
    /// Changes that the latch delivers.
    pub taken: u16,
    /// Presses and motions that it doesn't deliver.
    pub refused: u16,
}

impl Offered {
    /// Nothing was offered yet.
    pub(crate) const NOTHING: Offered = Offered {
        taken: 0,
        refused: 0,
    };

    /// Counts a change that was taken.
    pub(crate) fn take(&mut self)
        requires { self.old.taken + 1 < 2 ^ 16 }
        ensures { self.new ≡ counted Taken self.old }
    {
        self.taken += 1;
    }

    /// Counts a change that was refused.
    pub(crate) fn refuse(&mut self)
        requires { self.old.refused + 1 < 2 ^ 16 }
        ensures { self.new ≡ counted Refused self.old }
    {
        self.refused += 1;
    }
}
