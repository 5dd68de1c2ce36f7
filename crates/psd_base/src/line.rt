//! One line of a port's transcript.
use crate::act::{Act, Answer, Side};
use crate::event::Tick;

/// What one act of a computer was answered, and when.
#[derive(Debug, PartialEq, Eq, Drop)]
pub struct Line {
    pub tick: Tick,
    pub side: Side,
    pub act: Act,
    pub answer: Answer,
}
