//! Motions that are added up.
ghost use Rattle.std.specs.Prelude.{◌≡◌, ◌&&◌};
ghost use Rattle.input_latch.specs.Motion.{is_zero, sum_of, all_of, join_of};

use crate::pointer_latch::PointerChange;
use psd_base::Sample;

/// The largest count of a motion, to either side.
const COUNT_MAX: i64 = 2_147_483_647;

/// What a motion and the change before it come to.
#[derive(Clone, Copy)]
pub enum Join {
    /// The change before isn't a motion, or there is none.
    Apart,
    /// A sum is too large.
    TooFar,
    /// One motion by these counts in x, y and wheel.
    Sum(i32, i32, i32),
}

/// Adds the sample's motion to the last undelivered change, if that is a motion.
pub fn joined_with(last: Option<PointerChange>, sample: &Sample) -> Join
    ensures { result ≡ join_of last sample.now.x sample.now.y sample.now.wheel }
{
    match last {
        None => Join::Apart,
        Some(change) => match change {
            PointerChange::Press(_) => Join::Apart,
            PointerChange::Release(_) => Join::Apart,
            PointerChange::Motion { x, y, wheel } => all_of(
                sum(x, sample.x),
                sum(y, sample.y),
                sum(wheel, sample.wheel),
            ),
        },
    }
}

/// The motion of three sums, unless one is too large.
fn all_of(x: Option<i32>, y: Option<i32>, wheel: Option<i32>) -> Join
    ensures { result ≡ all_of x y wheel }
{
    match x {
        None => Join::TooFar,
        Some(x) => match y {
            None => Join::TooFar,
            Some(y) => match wheel {
                None => Join::TooFar,
                Some(wheel) => Join::Sum(x, y, wheel),
            },
        },
    }
}

/// The sum, unless it is too large.
fn sum(a: i32, b: i32) -> Option<i32>
    ensures { result ≡ sum_of a b }
{
    let sum = a as i64 + b as i64;
    if -COUNT_MAX <= sum && sum <= COUNT_MAX {
        Some(sum as i32)
    } else {
        None
    }
}

/// Whether a sample has no motion.
pub fn is_still(sample: &Sample) -> bool
    ensures { result ≡ (is_zero sample.now.x && is_zero sample.now.y && is_zero sample.now.wheel) }
{
    is_zero(sample.x) && is_zero(sample.y) && is_zero(sample.wheel)
}

/// Whether a count is zero.
fn is_zero(count: i32) -> bool
    ensures { result ≡ is_zero count }
{
    count == 0
}
