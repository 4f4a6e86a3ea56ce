//! What a worker does to a core in one held turn: one call of the core.
ghost use Rattle.std.specs.Prelude.{◌≡◌, ◌≤◌};
ghost use Rattle.ltm_flows.specs.Shown.{version_of};
ghost use Rattle.ltm_core.specs.CoreAnswers.{Keeps, TellsCommit};
ghost use Rattle.ltm_core.specs.Runs.{MakesOneEvent};
ghost use Rattle.ltm_core.specs.Told.{told_of};
ghost use Rattle.ltm_workers.specs.Beside.{Looks, ShowsRunning};

use ltm_core::{Claimed, Committed, Core, Done, Scratch, calls_are_events, lists_tell_all};

/// What a worker found.
pub(crate) enum Look {
    /// The core is stopped.
    Stopped(Scratch),
    /// What a claim answered.
    Found(Claimed),
}

/// Claims a pair, where the core is not stopped.
pub(crate) fn claim_pair(core: &mut Core, scratch: Scratch) -> Look
    ensures looks { Looks core.old result core.new }
    ensures keeps { Keeps core.old core.new }
    ensures told { told_of core.new ≡ told_of core.old }
    ensures one_event { MakesOneEvent core.old core.new }
{
    lists_tell_all();
    calls_are_events();
    if core.stopped() {
        return Look::Stopped(scratch);
    }
    Look::Found(core.claim(scratch))
}

/// Commits a pair that was worked on.
pub(crate) fn commit_pair(core: &mut Core, done: Done) -> Scratch
    ensures commits { (answer : Committed) × TellsCommit core.old done answer core.new }
    ensures keeps { Keeps core.old core.new }
    ensures told { told_of core.new ≡ told_of core.old }
    ensures one_event { MakesOneEvent core.old core.new }
{
    lists_tell_all();
    calls_are_events();
    match core.commit(done) {
        Committed::Ok(scratch) => return scratch,
        Committed::Stale {
            claimed_at: _,
            now: _,
            scratch,
        } => return scratch,
    }
}

/// Shows the working counts, where no pair is active or claimed, unless the core is stopped or all batches are shown already.
pub(crate) fn show_counts(core: &mut Core)
    ensures shows { ShowsRunning core.old core.new }
    ensures log { core.new.log ≡ core.old.log }
    ensures told { told_of core.new ≡ told_of core.old }
    ensures one_event { MakesOneEvent core.old core.new }
    ensures number { version_of core.old.shown ≤ version_of core.new.shown }
{
    lists_tell_all();
    calls_are_events();
    let is_done = core.shown().version() == core.version();
    if is_done || core.stopped() {
        return;
    }
    let _shown = core.shown();
    core.publish();
}
