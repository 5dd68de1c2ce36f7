//! What one event gave.
ghost use Rattle.std.specs.Prelude.{◌≡◌, []};
ghost use Rattle.psd_base.specs.declared.act.Answer.TheVariants.{Silent};

use psd_base::act::Answer;
use psd_base::console::{Notes, Orders};

/// What the switch gave at one event.
#[derive(Debug, Drop)]
pub struct Turn {
    /// What the computer that acted was answered. At an event that is no act it means nothing.
    pub answer: Answer,
    /// What the peripherals at the console are told, in its order.
    pub orders: Orders,
    /// What the log says of the event, in its order.
    pub notes: Notes,
}

impl Turn {
    /// A turn that gave nothing.
    pub fn new() -> Turn
        ensures answer { result.answer ≡ Silent }
        ensures orders { result.orders.items ≡ [] }
        ensures notes { result.notes.items ≡ [] }
    {
        Turn {
            answer: Answer::Silent,
            orders: Orders::new(),
            notes: Notes::new(),
        }
    }

    /// Forgets what an event gave, but for the answer: an act writes over it.
    pub fn begin(&mut self)
        ensures answer { self.new.answer ≡ self.old.answer }
        ensures orders { self.new.orders.items ≡ [] }
        ensures notes { self.new.notes.items ≡ [] }
    {
        self.orders.clear();
        if !self.notes.is_empty() {
            self.notes.clear();
        }
    }
}
