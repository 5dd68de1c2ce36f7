//! How far the mouse moved, and how much of it one report says.
ghost use Rattle.std.specs.Prelude.{◌≡◌, ◌&&◌};
ghost use Rattle.input_latch.specs.Motion.{is_zero};
ghost use Rattle.emulated_mouse.specs.Motion.{cut, left, is_still, piece_of, left_of};

/// The most counts that one report says, to either side (HID 1.11, appendix B.2).
pub const COUNTS: i32 = 127;

/// How far the mouse moved: counts to the right, counts towards the user, and steps of the wheel away from the user.
#[derive(Clone, Copy, Debug, PartialEq, Eq)]
pub struct Motion {
    pub x: i32,
    pub y: i32,
    pub wheel: i32,
}

/// What one report says of a motion, each count from -`COUNTS` to `COUNTS`.
#[derive(Clone, Copy, Debug, PartialEq, Eq)]
pub struct Piece {
    pub x: i8,
    pub y: i8,
    pub wheel: i8,
}

impl Motion {
    /// No motion.
    pub const STILL: Motion = Motion {
        x: 0,
        y: 0,
        wheel: 0,
    };

    /// Whether nothing moved.
    pub fn is_still(self) -> bool
        ensures { result ≡ is_still self }
    {
        is_zero(self.x) && is_zero(self.y) && is_zero(self.wheel)
    }

    /// What the next report says.
    pub fn piece(self) -> Piece
        ensures { result ≡ piece_of self }
    {
        Piece {
            x: cut(self.x),
            y: cut(self.y),
            wheel: cut(self.wheel),
        }
    }

    /// What is left behind that report.
    pub fn left(self) -> Motion
        ensures { result ≡ left_of self }
    {
        Motion {
            x: left(self.x),
            y: left(self.y),
            wheel: left(self.wheel),
        }
    }
}

impl Piece {
    /// No motion.
    pub const STILL: Piece = Piece {
        x: 0,
        y: 0,
        wheel: 0,
    };
}

/// Whether a count is zero.
fn is_zero(count: i32) -> bool
    ensures { result ≡ is_zero count }
{
    count == 0
}

/// The count as far as one report says it.
fn cut(count: i32) -> i8
    ensures { result ≡ cut count }
{
    if count > COUNTS {
        COUNTS as i8
    } else if count < -COUNTS {
        -COUNTS as i8
    } else {
        count as i8
    }
}

/// What is left of the count.
fn left(count: i32) -> i32
    ensures { result ≡ left count }
{
    if count > COUNTS {
        count - COUNTS
    } else if count < -COUNTS {
        count + COUNTS
    } else {
        0
    }
}
