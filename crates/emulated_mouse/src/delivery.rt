//! What a computer reads of how the mouse was used while it was selected, as laws over all histories of its port.
ghost use Rattle.std.specs.Prelude.{List};
ghost use Rattle.emulated_mouse.specs.Delivery.{Moment, sides_of, MakesAccepted, ReadsAccepted, ReadsAll, ReadsInOrder, ReadsOwed};

/// In each selection the mouse makes the reports of the accepted changes in order, as many as the latch gave, and no
/// other.
pub fn makes_accepted()
    ensures { (past : List Moment) → MakesAccepted (sides_of past) }
{}

/// What the host acknowledges, behind what was owed when the selection began, are the first of these reports.
pub fn reads_accepted()
    ensures { (past : List Moment) → ReadsAccepted (sides_of past) }
{}

/// Where a poll of the selected port has nothing to answer, all accepted changes were read.
pub fn reads_all()
    ensures { (past : List Moment) → ReadsAll (sides_of past) }
{}

/// Button changes are read in order, and the motions that are read between two of them add up to the accepted motions.
pub fn reads_in_order()
    ensures { (past : List Moment) → ReadsInOrder (sides_of past) }
{}

/// After a deselection no more is read than what was owed, and at last no button is down.
pub fn reads_owed()
    ensures { (past : List Moment) → ReadsOwed (sides_of past) }
{}
