//! What holds of every core, of its runs and of its log.
ghost use Rattle.ltm_core.specs.Laws.{RepairLaws, RunLaws};
ghost use Rattle.ltm_core.specs.Log.{LogLaws};
ghost use Rattle.ltm_core.specs.Runs.{CallsAreEvents, HoldsOfRuns};
ghost use Rattle.ltm_core.specs.Settling.{SettleCountsAreExact};
ghost use Rattle.ltm_core.specs.Telling.{ListLaws};

use ltm_repair::{
    answers_are_events, batches_wake_touched, claims_are_undone, claims_balance,
    claims_have_changed, commits_are_bounded, commits_are_differing, commits_are_useful,
    commits_differences, drains_are_exact, none_twice, opening_is_repair, others_wake_none,
    rest_is_loading, runs_keep_facts, runs_take_nothing_back, settle_tells, shown_is_loading,
    work_is_bounded,
};

/// The laws of a repair by which a core keeps its facts.
pub(crate) fn repair_laws()
    ensures { RepairLaws }
{
    opening_is_repair();
    runs_keep_facts();
    rest_is_loading();
    shown_is_loading();
    answers_are_events();
    settle_tells();
    claims_are_undone();
}

/// The laws of a repair's runs.
fn run_laws()
    ensures { RunLaws }
{
    runs_take_nothing_back();
    claims_have_changed();
    batches_wake_touched();
    others_wake_none();
    none_twice();
    commits_are_useful();
    drains_are_exact();
    commits_differences();
    commits_are_differing();
    commits_are_bounded();
    claims_balance();
    work_is_bounded();
}

/// Whatever a call of a core answers, an event has happened; where a pair is computed anew, two.
pub fn calls_are_events()
    ensures { CallsAreEvents }
{
    answers_are_events();
}

/// What holds of every run of a core, whoever makes its events and in whatever order: the shown number never falls; between
/// two batches no pair is committed twice, and no commit is in vain; from rest over one batch to rest exactly the pairs
/// that read other numbers are committed; and the work is bounded.
pub fn runs_of_cores()
    ensures { HoldsOfRuns }
{
    run_laws();
}

/// What a batch and a mark leave of a log.
pub fn logs_tell_all()
    ensures { LogLaws }
{}

/// The list that a core tells is that of its log and of the settles that it has counted; an editor's calls put an entry at its
/// end, and no other call changes it.
pub fn lists_tell_all()
    ensures { ListLaws }
{}

/// With no batch since the last settle count the next one is 0, and with one batch it is how many pairs differ.
pub fn settle_counts_are_exact()
    ensures { SettleCountsAreExact }
{}
