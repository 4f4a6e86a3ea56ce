//! What holds of every run of events.
ghost use Rattle.ltm_repair.specs.Kept.{
  OpeningIsRepair,
  RunsKeepFacts,
  RestIsLoading,
  ShownIsLoading,
  PublishingShowsAll,
  RunsTakeNothingBack,
  ClaimsHaveChanged,
  BatchesWakeTouched,
  OthersWakeNone,
};
ghost use Rattle.ltm_repair.specs.Work.{
  NoneTwice,
  CommitsDifferences,
  CommitsAreDiffering,
  CommitsAreUseful,
  DrainsAreExact,
  CommitsAreBounded,
  ClaimsAreUndone,
  ClaimsBalance,
  WorkIsBounded,
};
ghost use Rattle.ltm_repair.specs.Settling.{
  SettleTells,
  SettlesExactly,
  CountIsBounded,
};
ghost use Rattle.ltm_repair.specs.Index.{IndexStaysCurrent};
ghost use Rattle.ltm_repair.specs.Making.{
  IdleIsFront,
  ClaimsAreSolvable,
  AppliedSets,
  ChangedAreForgotten,
  AnswersAreEvents,
};
ghost use Rattle.ltm_repair.specs.OneRoad.{OneRoadIsRepaired};

/// A repair that begins with a loading, shown and kept and at rest, has all the facts.
pub fn opening_is_repair()
    ensures { OpeningIsRepair }
{}

/// Whatever events happen, in whatever order, the facts are kept.
pub fn runs_keep_facts()
    ensures { RunsKeepFacts }
{}

/// At rest the working counts are the loading of the setting as it is now.
pub fn rest_is_loading()
    ensures { RestIsLoading }
{}

/// What is shown are the totals of the loading of as many batches as are shown; where these are all, the repair is at rest.
pub fn shown_is_loading()
    ensures { ShownIsLoading }
{}

/// After publishing, and after a settle count, what is shown are the totals of the loading of all batches.
pub fn publishing_shows_all()
    ensures { PublishingShowsAll }
{}

/// The shown number never falls, and accepted batches stay.
pub fn runs_take_nothing_back()
    ensures { RunsTakeNothingBack }
{}

/// A pair is claimed only where what it reads now is not what is kept of it.
pub fn claims_have_changed()
    ensures { ClaimsHaveChanged }
{}

/// A batch makes no other old pairs active than those that were claimed and those that it touches.
pub fn batches_wake_touched()
    ensures { BatchesWakeTouched }
{}

/// No event but a commit or a batch makes a pair active that was neither active nor claimed.
pub fn others_wake_none()
    ensures { OthersWakeNone }
{}

/// Between two accepted batches no pair is committed twice.
pub fn none_twice()
    ensures { NoneTwice }
{}

/// From rest over one batch to rest, the pairs that read other numbers are committed, each once, and no other.
pub fn commits_differences()
    ensures { CommitsDifferences }
{}

/// From rest over one batch to rest, the commits are as many as pairs differ.
pub fn commits_are_differing()
    ensures { CommitsAreDiffering }
{}

/// Each commit leaves one pair less whose kept inputs are not those of the loading.
pub fn commits_are_useful()
    ensures { CommitsAreUseful }
{}

/// What goes on to rest commits as many pairs as have kept inputs that are not those of the loading.
pub fn drains_are_exact()
    ensures { DrainsAreExact }
{}

/// Without a batch, at most so many pairs are committed as are active, claimed or of a later slot than such a pair.
pub fn commits_are_bounded()
    ensures { CommitsAreBounded }
{}

/// Each claim that is out may still be committed, and at most all pairs may.
pub fn claims_are_undone()
    ensures { ClaimsAreUndone }
{}

/// A claim is out from its event up to its commit or give-back.
pub fn claims_balance()
    ensures { ClaimsBalance }
{}

/// Without a batch, a schedule makes at most two events for each pair, two for each give-back, and vain looks.
pub fn work_is_bounded()
    ensures { WorkIsBounded }
{}

/// A settle count lies between the difference from the last one and the sum of differences from batch to batch.
pub fn settle_tells()
    ensures { SettleTells }
{}

/// With no batch since the last one a settle count is 0, and with one it is how many pairs differ.
pub fn settles_exactly()
    ensures { SettlesExactly }
{}

/// The count never passes the pairs for each batch since the last settle count.
pub fn count_is_bounded()
    ensures { CountIsBounded }
{}

/// An index that has the positions of each idle pair has them after every move of the desk.
pub fn index_stays_current()
    ensures { IndexStaysCurrent }
{}

/// Where all earlier pairs are idle, the counts are the front of a loading.
pub fn idle_is_front()
    ensures { IdleIsFront }
{}

/// The inputs of a claim are in the range of a node step.
pub fn claims_are_solvable()
    ensures { ClaimsAreSolvable }
{}

/// A claim's node step, applied and kept, sets the counts of its pair.
pub fn applied_sets()
    ensures { AppliedSets }
{}

/// Inputs whose counts were those of the node may be forgotten once these are other ones.
pub fn changed_are_forgotten()
    ensures { ChangedAreForgotten }
{}

/// Whatever a call answers, an event has happened.
pub fn answers_are_events()
    ensures { AnswersAreEvents }
{}

/// One road whose entry is closed for a slot: every repair, in whatever order, commits 5 of the 8 pairs, each once.
pub fn one_road_is_repaired()
    ensures { OneRoadIsRepaired }
{}
