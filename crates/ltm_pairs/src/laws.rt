//! What the reaches and readers leave out reads the same as before.
ghost use Rattle.ltm_pairs.specs.Touched.{EditsKeep, TouchedHoldsReaders, BatchTouchesReaders, AddedSlotsAreNew};
ghost use Rattle.ltm_pairs.specs.Readers.{ReadersAreAll, PositionsStay};
ghost use Rattle.ltm_pairs.specs.Dependents.{DependentsAreAll};
ghost use Rattle.ltm_pairs.specs.OneRoad.{ReadersOnOneRoad};
ghost use Rattle.ltm_pairs.specs.Waking.{ReadersWake, ReadersKeepPositions};

use ltm_demand::production_stays;
use ltm_limits::{limits_are_lengthened, limits_are_set, limits_stay_whole};
use ltm_loading::{inputs_by_parts, position_read_only, set_by_one_pair, setting_read_only};
use ltm_scenario::edits_make;
use ltm_splits::{pair_stays, rows_stay};

/// An accepted edit keeps the network, and a horizon that is no shorter.
pub fn edits_keep()
    ensures { EditsKeep }
{
    edits_make();
    limits_stay_whole();
}

/// An accepted edit changes the inputs and the positions of no pair outside its reaches.
pub fn touched_holds_readers()
    ensures { TouchedHoldsReaders }
{
    edits_make();
    production_stays();
    rows_stay();
    pair_stays();
    limits_are_set();
    limits_are_lengthened();
    setting_read_only();
    position_read_only();
}

/// An accepted batch changes the inputs and the positions of no pair outside the reaches of its edits.
pub fn batch_touches_readers()
    ensures { BatchTouchesReaders }
{
    edits_make();
    edits_keep();
    touched_holds_readers();
}

/// The slots that an accepted batch adds are those that its edits add.
pub fn added_slots_are_new()
    ensures { AddedSlotsAreNew }
{
    edits_make();
}

/// A commit changes the inputs of its readers alone.
pub fn readers_are_all()
    ensures { ReadersAreAll }
{
    inputs_by_parts();
    set_by_one_pair();
}

/// A commit moves the positions of its readers alone.
pub fn positions_stay()
    ensures { PositionsStay }
{
    set_by_one_pair();
}

/// A commit changes the inputs of no pair that does not depend on the arms that changed.
pub fn dependents_are_all()
    ensures { DependentsAreAll }
{
    readers_are_all();
}

/// To wake the readers of a commit wakes each pair whose inputs changed, and the others keep their positions.
pub fn readers_wake()
    ensures wake { ReadersWake }
    ensures positions { ReadersKeepPositions }
{
    readers_are_all();
    positions_stay();
}

/// The readers of a commit on one road, worked by hand: `reads_commit` gives the same.
pub fn readers_on_one_road()
    ensures { ReadersOnOneRoad }
{}
