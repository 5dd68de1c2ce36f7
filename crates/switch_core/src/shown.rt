//! What the console shows anew at an event.
use psd_base::{KeySet, Sample};

/// What the console shows anew at an event, to whichever port is selected.
#[derive(Clone, Copy)]
pub enum Shown {
    /// Nothing.
    Nothing,
    /// The keys that are down at the keyboard.
    Keys(KeySet),
    /// The buttons that are down at the mouse, and how it was moved.
    Pointer(Sample),
}
