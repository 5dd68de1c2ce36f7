//! What one report of a mouse says.

/// The buttons that are down and the motion of one report of a mouse.
#[derive(Clone, Copy, Debug, PartialEq, Eq)]
pub struct Sample {
    /// Buttons 1 to 5 in bits 0 to 4.
    pub buttons: u8,
    /// Counts to the right.
    pub x: i32,
    /// Counts towards the user.
    pub y: i32,
    /// Steps of the wheel away from the user.
    pub wheel: i32,
}
