//! A settle: all pairs are worked on, the loading is shown, and what was computed anew is counted.
ghost use Rattle.std.specs.Prelude.{◌≡◌};
ghost use Rattle.ltm_flows.specs.Shown.{version_of};
ghost use Rattle.ltm_core.specs.Log.{version_now};
ghost use Rattle.ltm_core.specs.Cores.{IsResting};
ghost use Rattle.ltm_core.specs.CoreAnswers.{SettlesAll};
ghost use Rattle.ltm_session.specs.Ready.{AwaitsLine};
ghost use Rattle.ltm_session.specs.Settles.{IsRepaired, IsShowing, SettlesAlone};

use ltm_core::{Core, Published, Scratch, logs_tell_all, runs_of_cores};
use ltm_units::Steps;
use ltm_workers::drain;

/// Works on pairs until none is active or claimed.
fn repair(core: &mut Core, scratch: &mut Scratch)
    requires { AwaitsLine core.old }
    ensures { IsRepaired core.old core.new }
{
    runs_of_cores();
    let mut steps = Steps::new();
    drain(core, scratch, &mut steps);
}

/// Shows the loading that was worked out.
fn show(core: &mut Core)
    requires { IsResting core.old }
    ensures { IsShowing core.old core.new }
{
    match core.publish() {
        Published::Done(_) => return,
        Published::NotAtRest => unreachable!(),
    }
}

/// Counts the commits since the last settle.
fn count(core: &mut Core) -> u128
    requires { version_of core.old.shown ≡ version_now core.old.log }
    ensures { SettlesAll core.old result core.new }
{
    match core.settle_count() {
        Some(count) => return count,
        None => unreachable!(),
    }
}

/// Works on pairs until none is active or claimed, shows the loading, and counts the pairs that differ from what was
/// settled last. Takes no memory.
pub(crate) fn settle(core: &mut Core, scratch: &mut Scratch) -> u128
    requires { AwaitsLine core.old }
    ensures { SettlesAlone core.old result core.new }
{
    logs_tell_all();
    core.facts();
    let _shown = core.shown();
    repair(core, scratch);
    show(core);
    core.facts();
    let count = count(core);
    core.facts();
    count
}
