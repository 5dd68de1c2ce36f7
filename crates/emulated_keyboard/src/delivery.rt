//! What a computer reads of what was typed while it was selected, as laws over all histories of its port.
//!
//! A history begins with nothing, and its moments are the sets that the console shows, the selections of the port, the bus
//! resets, configurations and class requests of its computer, and the polls of its keyboard, each acknowledged or not. A span
//! begins at a selection, and while the port is selected also at a bus reset and a completed SET_CONFIGURATION.
ghost use Rattle.std.specs.Prelude.{ℕ, List};
ghost use Rattle.emulated_keyboard.specs.Delivery.{Moment, sides_of, ShowsAccepted, AllShown, ReadsAccepted, ReadAll, AllByChange, ReadsOwed, ReleaseRead};

/// In each span the reports show the accepted changes in order: as many as the latch gave, and no other.
pub fn shows_accepted()
    ensures { (past : List Moment) → ShowsAccepted (sides_of past) }
{}

/// Where a poll of the selected port has nothing to answer, all accepted changes are shown.
pub fn shows_all()
    ensures { (tick : ℕ) (past : List Moment) → AllShown tick (sides_of past) }
{}

/// In each span the computer reads, from one fresh report that it acknowledged to the next, the first accepted changes in
/// order: one for each fresh report that was made by a change. What it was owed at the selection isn't fresh.
pub fn reads_accepted()
    ensures { (past : List Moment) → ReadsAccepted (sides_of past) }
{}

/// Where a poll of the selected port has nothing to answer, the computer has read all accepted changes.
pub fn reads_all()
    ensures { (tick : ℕ) (past : List Moment) → ReadAll tick (sides_of past) }
{}

/// Where the idle rate is 0 throughout the span, every fresh report was made by a change.
pub fn repeats_none()
    ensures { (past : List Moment) → AllByChange (sides_of past) }
{}

/// Between a deselection and the next selection the computer reads at most the one report that it hadn't acknowledged
/// before, and then one with nothing pressed.
pub fn reads_owed()
    ensures { (past : List Moment) → ReadsOwed (sides_of past) }
{}

/// Where a poll there has nothing to answer, the report that the computer read last has nothing pressed, or there is none
/// since its last bus reset or configuration.
pub fn reads_release()
    ensures { (past : List Moment) → ReleaseRead (sides_of past) }
{}
