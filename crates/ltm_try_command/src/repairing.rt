//! The repair of a trial: its batch is accepted, worked on, shown and counted.
ghost use Rattle.std.specs.Prelude.{◌≡◌, OnOk, IfOk, IsOk};
ghost use Rattle.ltm_scenario.specs.Edits.{edited_all, HaveAmounts};
ghost use Rattle.ltm_flows.specs.Shown.{version_of};
ghost use Rattle.ltm_core.specs.Log.{version_now, scenario_now};
ghost use Rattle.ltm_core.specs.Cores.{IsResting, IsNoneOut};
ghost use Rattle.ltm_core.specs.CoreAnswers.{IsOpeningCore, AcceptsBatch, PublishesAll, SettlesAll};
ghost use Rattle.ltm_try_command.specs.Repairs.{WorksToRest, Repairs};

use ltm_core::{Core, Published, logs_tell_all, settle_counts_are_exact};
use ltm_scenario::{Batch, EditCause};
use ltm_units::{NoMemory, Steps};
use ltm_workers::{Bench, drain, drive};

/// Has a batch accepted that is no other than one that can be.
fn accept(core: &mut Core, batch: Batch) -> Result<(), NoMemory>
    requires amounts { HaveAmounts batch }
    requires accepted { IsOk (edited_all (scenario_now core.old.log) batch) }
    ensures { OnOk result (AcceptsBatch core.old batch core.new) }
{
    match core.accept(batch) {
        Ok(()) => return Ok(()),
        Err((_batch, fault)) => match fault.cause {
            EditCause::NoMemory => return Err(NoMemory),
            _ => unreachable!(),
        },
    }
}

/// Works on all that is left, first as the schedule says, and tells how many solves that took.
fn work(core: &mut Core, schedule: &[u8]) -> Result<u64, NoMemory>
    requires { IsNoneOut core.old }
    ensures { IfOk result (WorksToRest core.old core.new) }
{
    let mut bench = Bench::create(core)?;
    let mut scratch = core.scratch()?;
    let mut steps = Steps::new();
    let _driven = drive(core, &mut bench, schedule, &mut steps);
    drain(core, &mut scratch, &mut steps);
    Ok(steps.count())
}

/// Shows what is worked out.
fn publish(core: &mut Core)
    requires { IsResting core.old }
    ensures { PublishesAll core.old (version_now core.old.log) core.new }
{
    match core.publish() {
        Published::Done(_) => {}
        Published::NotAtRest => unreachable!(),
    }
}

/// Counts the commits.
fn settle(core: &mut Core) -> u128
    requires { version_of core.old.shown ≡ version_now core.old.log }
    ensures { SettlesAll core.old result core.new }
{
    let Some(recomputed) = core.settle_count() else {
        unreachable!()
    };
    recomputed
}

/// Has a batch accepted, works on it, shows what comes of it, and tells how many pairs were computed anew and how many
/// solves that took.
pub(crate) fn repair(
    core: &mut Core,
    batch: Batch,
    schedule: &[u8],
) -> Result<(u128, u64), NoMemory>
    requires opening { IsOpeningCore core.old.scenario core.old }
    requires amounts { HaveAmounts batch }
    requires accepted { IsOk (edited_all core.old.scenario batch) }
    ensures { IfOk result (λ done. Repairs core.old.scenario batch done.0 done.1 core.new) }
{
    logs_tell_all();
    settle_counts_are_exact();
    core.facts();
    accept(core, batch)?;
    let solved = work(core, schedule)?;
    core.facts();
    let _pairs = core.pairs();
    publish(core);
    let _shown = core.shown();
    let recomputed = settle(core);
    Ok((recomputed, solved))
}
