//! Which interrupt endpoint of the emulated keyboard and mouse an act polls.

/// What a transaction at another endpoint than 0 polls (USB 2.0, 8.5.4).
#[derive(Clone, Copy, Debug, PartialEq, Eq)]
pub enum Polled {
    /// Nothing: it is no IN, the device isn't addressed or not configured, or it has no such endpoint.
    Nothing,
    /// An endpoint that is halted.
    Halted,
    /// The keyboard, and whether the host acknowledges the answer.
    Keyboard(bool),
    /// The mouse, and whether the host acknowledges the answer.
    Mouse(bool),
}
