//! - **What it is**: that a destination that nothing sends changes nothing of a node step. Inputs for the destinations of a
//!   list, to which alone something is sent, give the shares that the inputs for all destinations give, and what moves of
//!   each listed destination is the same (`thin_step`). So in every loading a node needs to know of no more destinations
//!   than those that enter the links into it or are produced there (`pairs_over_lists`).
//! - **On what it stands**: `ltm_node` for the node step, `ltm_loading` for what its arms send, and `ltm_standing` for lists
//!   of destinations and their sums.
//! - **What a call costs**: nothing; each function holds a law.
//! - **When to change it here**: where the node step or what a node reads changes.
#![tactic(auto)]

ghost use Rattle.ltm_thin.specs.Thinned.{ThinStep, ThinIsSolvable};
ghost use Rattle.ltm_thin.specs.NodeLists.{PairsOverLists, ListedInRange};

/// The node steps of inputs for all destinations and of those for the destinations of a list move the same, where nothing
/// is sent to any other destination.
pub fn thin_step()
    ensures { ThinStep }
{}

/// Where inputs for all destinations have the sizes that a node step is made for, so have those for the destinations of a
/// list.
pub fn thin_is_solvable()
    ensures { ThinIsSolvable }
{}

/// In every loading the node step of what a node reads for the destinations of its list is what moves there in the slot, and
/// nothing moves of any other destination.
pub fn pairs_over_lists()
    ensures { PairsOverLists }
{}

/// What a node reads for the destinations of its list has the sizes that a node step is made for.
pub fn listed_in_range()
    ensures { ListedInRange }
{}
