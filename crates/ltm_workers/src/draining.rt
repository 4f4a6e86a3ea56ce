//! Work without other workers.
ghost use Rattle.std.specs.Prelude.{◌≡◌, ◌+◌, min};
ghost use Rattle.ltm_core.specs.Cores.{IsNoneOut, IsResting};
ghost use Rattle.ltm_core.specs.CoreAnswers.{IsKeptClaim, CommitsDone};
ghost use Rattle.ltm_workers.specs.Draining.{Works, TellsStep, CountsLeft, CountsDifferences};

use ltm_core::{Claim, Committed, Core, Recomputed, Scratch, calls_are_events, runs_of_cores};
use ltm_units::Steps;

/// Works on a claim that is kept, and commits it.
pub(crate) fn finish(core: &mut Core, claim: Claim, steps: &mut Steps) -> Scratch
    requires { IsKeptClaim core.old claim.pair claim.ticket claim.inputs }
    ensures commits { CommitsDone core.old claim.pair claim.inputs.row core.new }
    ensures ticks { steps.new ≡ min (steps.old + 1) u64.MAX }
{
    let done = claim.work(steps);
    match core.commit(done) {
        Committed::Ok(scratch) => return scratch,
        Committed::Stale { .. } => unreachable!(),
    }
}

/// Computes a pair anew, where there is one; whether there was one.
fn work_once(core: &mut Core, scratch: &mut Scratch, steps: &mut Steps) -> bool
    requires { IsNoneOut core.old }
    ensures { TellsStep core.old steps.old result core.new steps.new }
{
    calls_are_events();
    runs_of_cores();
    core.facts();
    let _taken = steps.count();
    match core.recompute(scratch) {
        Recomputed::Done(_pair) => {
            steps.tick();
            return true;
        }
        Recomputed::NotYet => unreachable!(),
        Recomputed::Rest => return false,
    }
}

/// Brings a core to rest, where no claim is out: claims a pair, works on it and commits it, in one call of the core, until no
/// pair is active or claimed. Each commit ticks the counter once. Takes no memory.
pub fn drain(core: &mut Core, scratch: &mut Scratch, steps: &mut Steps)
    requires { IsNoneOut core.old }
    ensures works { Works core.old steps.old core.new steps.new }
    ensures rest { IsResting core.new }
    ensures count { CountsLeft core.old core.new }
    ensures exact { CountsDifferences core.old core.new }
{
    runs_of_cores();
    core.facts();
    let _taken = steps.count();
    while work_once(core, scratch, steps) {}
}
