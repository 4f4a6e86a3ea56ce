//! What holds of every index, whatever was placed in it.
ghost use Rattle.ltm_index.specs.Lists.{StandsByEntry, StandsOnce, StaysWithout, WithinHorizon};

use crate::read_index::ReadIndex;

/// A slot stands in the list of a boundary exactly where that boundary is its entry, and at most once. So a list without
/// a slot that has another entry is that list. Slots and boundaries of the lists lie within the horizon.
pub fn slots_stand_by_entry(index: &ReadIndex)
    ensures stands { StandsByEntry index.now }
    ensures once { StandsOnce index.now }
    ensures without { StaysWithout index.now }
    ensures within { WithinHorizon index.now }
{}
