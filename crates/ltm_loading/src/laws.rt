//! What holds of every loading of a setting, and of every front of one.
ghost use Rattle.ltm_loading.specs.LoadingLaws.{
  NeverFall,
  FirstInFirstOut,
  WithinExit,
  WithinStorage,
  WithinProduced,
  Conserved,
  LeftHasEntered,
  AddsUp,
  OneFront,
  OneLoading,
};
ghost use Rattle.ltm_loading.specs.Ranges.{
  WithinCapacity,
  TotalsSmall,
  InRange,
  CountsSmall,
  OutputsSmall,
};
ghost use Rattle.ltm_loading.specs.NextPair.{NextPair, NextSlot};
ghost use Rattle.ltm_loading.specs.Uncounted.{StepByMoves, UncountedInRange};
ghost use Rattle.ltm_loading.specs.ByPlace.{InputsByPlace, CountsByPlace};
ghost use Rattle.ltm_loading.specs.NodeGroups.{GroupsByRow, GroupsAreSet};
ghost use Rattle.ltm_loading.specs.Ready.{LinksAreReady, OriginsAreReady};
ghost use Rattle.ltm_loading.specs.Reads.{
  InputsReadOnly,
  SettingReadOnly,
  PositionReadOnly,
  InputsByParts,
  CountsSetOnly,
  SetByOnePair,
};
ghost use Rattle.ltm_loading.specs.Differing.{
  NoneDiffer,
  DifferingIsWithinPairs,
  DifferencesAddUp,
  DifferingEitherWay,
};
ghost use Rattle.ltm_loading.specs.OneRoad.{OneRoadIsWorked};

/// No count falls from one boundary to the next.
pub fn never_fall()
    ensures { NeverFall }
{}

/// A destination leaves a link, or an origin, only out of the first units that entered it.
pub fn first_in_first_out()
    ensures { FirstInFirstOut }
{}

/// What leaves a link in a slot is at most its exit limit.
pub fn within_exit()
    ensures { WithinExit }
{}

/// What is on a link is at most its storage.
pub fn within_storage()
    ensures { WithinStorage }
{}

/// No more of a destination leaves an origin than was produced.
pub fn within_produced()
    ensures { WithinProduced }
{}

/// What left the origins for a destination has arrived or is on a link.
pub fn conserved()
    ensures { Conserved }
{}

/// No more has left a link than has entered it.
pub fn left_has_entered()
    ensures { LeftHasEntered }
{}

/// What was produced has left its origin or waits there, and what has left has arrived or is on a link.
pub fn adds_up()
    ensures { AddsUp }
{}

/// Two fronts of one setting up to a slot are equal up to it.
pub fn one_front()
    ensures { OneFront }
{}

/// Two loadings of one setting are equal.
pub fn one_loading()
    ensures { OneLoading }
{}

/// What enters a link in a slot, and what leaves it, is at most its capacity, and so is what leaves an origin.
pub fn within_capacity()
    ensures { WithinCapacity }
{}

/// What has entered a link, has left it or has left an origin is at most 32,000 units for each slot so far, so in 10,000
/// slots it fits 32 bits.
pub fn totals_small()
    ensures { TotalsSmall }
{}

/// What a pair of the front's slot reads is in the range of a node step.
pub fn in_range()
    ensures { InRange }
{}

/// A count of the front is at most 160,000 units for each slot so far.
pub fn counts_small()
    ensures { CountsSmall }
{}

/// A number that the node step of a pair at the front gives is at most 160,000 units for each slot up to the pair's.
pub fn outputs_small()
    ensures { OutputsSmall }
{}

/// In the row of a node's counts those of each group of the node stand together, in the order of its groups, and what has
/// arrived stands last; no other row of that width has them so.
pub fn groups_by_row()
    ensures { GroupsByRow }
{}

/// The groups of a node are different groups, and with what has arrived at the node they are what its pairs set.
pub fn groups_are_set()
    ensures { GroupsAreSet }
{}

/// The inputs of a pair are the same for counts that agree at all that the pair reads, up to its slot.
pub fn inputs_read_only()
    ensures { InputsReadOnly }
{}

/// The inputs of a pair are the same for settings of one network that give it the same numbers: what an edit leaves alone
/// for a pair, the pair does not notice.
pub fn setting_read_only()
    ensures { SettingReadOnly }
{}

/// So are the positions of its in-links: the boundaries by which no more has entered than may have left.
pub fn position_read_only()
    ensures { PositionReadOnly }
{}

/// Inputs of which each part is the same are the same.
pub fn inputs_by_parts()
    ensures { InputsByParts }
{}

/// The counts of a node at a boundary are the same for counts that agree there at all that its pairs set.
pub fn counts_set_only()
    ensures { CountsSetOnly }
{}

/// Each count is set by the pairs of one node alone; but what leaves the origin of a node without out-links, by none.
pub fn set_by_one_pair()
    ensures { SetByOnePair }
{}

/// Once the node step of a pair is applied to the front, the node of the pair is done too.
pub fn next_pair()
    ensures { NextPair }
{}

/// Once all nodes of a slot are done, the front is one slot longer.
pub fn next_slot()
    ensures { NextSlot }
{}

/// What a pair moves does not depend on its counts: where 0 is read for each of them, the node step is what moves, and the
/// counts and what moves are the node step.
pub fn step_by_moves()
    ensures { StepByMoves }
{}

/// What a pair of the front's slot reads is in the range of a node step also with 0 for each count.
pub fn uncounted_in_range()
    ensures { UncountedInRange }
{}

/// The inputs of a pair are known by their numbers: by what they hold at each place of the node's shape.
pub fn inputs_by_place()
    ensures { InputsByPlace }
{}

/// The counts of a node at a boundary are known by their numbers.
pub fn counts_by_place()
    ensures { CountsByPlace }
{}

/// At the front no destination has left a link with more than its share of the units that may leave, and what is on a
/// link has had room for a wave's time.
pub fn links_are_ready()
    ensures { LinksAreReady }
{}

/// At the front no destination has left an origin with more than its share of the units that may leave.
pub fn origins_are_ready()
    ensures { OriginsAreReady }
{}

/// Two loadings of one setting differ at no pair.
pub fn none_differ()
    ensures { NoneDiffer }
{}

/// At most all pairs differ.
pub fn differing_is_within_pairs()
    ensures { DifferingIsWithinPairs }
{}

/// From one setting to the next, no fewer pairs differ than over both at once.
pub fn differences_add_up()
    ensures { DifferencesAddUp }
{}

/// With equal horizons, as many pairs differ the one way as the other.
pub fn differing_either_way()
    ensures { DifferingEitherWay }
{}

/// What the pairs of one road read before and after its entry is closed for a slot, worked by hand: 5 of 8 differ.
pub fn one_road_is_worked()
    ensures { OneRoadIsWorked }
{}
