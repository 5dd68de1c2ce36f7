//! That what other computers do is no part of a port's view, nor of what its computer is answered, as laws: each function's
//! contract is one, and its body is empty.
ghost use Rattle.port_model.specs.Independence.{ActAddsItsItem, ActLeavesOtherLines, ActLeavesOtherViews};
ghost use Rattle.port_model.specs.Independence.{SameViewSameLines, ViewIgnoresOthers};

/// An act of one port leaves the view of every other port as it was.
#[tactic(auto, using(crate::proofs::Independence::act_leaves_other_views))]
pub fn act_leaves_other_views()
    ensures { ActLeavesOtherViews }
{}

/// An act of one port leaves the lines of every other port as they were.
#[tactic(auto, using(crate::proofs::Independence::act_leaves_other_lines))]
pub fn act_leaves_other_lines()
    ensures { ActLeavesOtherLines }
{}

/// At its own port an act adds its own item to the view, and nothing else.
#[tactic(auto, using(crate::proofs::Independence::act_adds_its_item))]
pub fn act_adds_its_item()
    ensures { ActAddsItsItem }
{}

/// A port's view has nothing of what other computers do: acts of theirs may be taken out, added or exchanged.
#[tactic(auto, using(crate::proofs::Independence::view_ignores_others))]
pub fn view_ignores_others()
    ensures { ViewIgnoresOthers }
{}

/// A computer is answered the same in two runs in which the same concerns its port.
#[tactic(auto, using(crate::proofs::Independence::same_view_same_lines))]
pub fn same_view_same_lines()
    ensures { SameViewSameLines }
{}
