//! Bytes that are written where they are to lie.
ghost use Rattle.std.specs.Prelude.{◌≡◌, ℕ, ◌+◌, ◌≤◌, List, length, take, ◌++◌};

/// The most bytes that are rendered at once.
pub const RENDERED_MAX: usize = 512;

/// What has a form in bytes, at most `RENDERED_MAX`, and can write it where it is to lie: so it isn't copied there.
pub trait Render: Copy {
    /// The bytes.
    ghost rendered: { Self → List ℕ };

    /// Writes the bytes over those from a place on, and answers the place behind them. There is room for the most.
    fn render(&self, into: &mut [u8], at: usize) -> usize
        requires { at + RENDERED_MAX ≤ length into.old }
        ensures items { take result into.new ≡ take at into.old ++ rendered self.now }
        ensures end { result ≡ at + length (rendered self.now) }
        ensures most { length (rendered self.now) ≤ RENDERED_MAX }
        ensures len { length into.new ≡ length into.old };
}
