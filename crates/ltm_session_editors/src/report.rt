//! What is told of editors once all are done.
ghost use Rattle.std.specs.Prelude.{◌≡◌, IfOk, OnOk};
ghost use Rattle.ltm_core.specs.Log.{version_now, scenario_now};
ghost use Rattle.ltm_core.specs.Cores.{IsNoneOut, IsResting};
ghost use Rattle.ltm_core.specs.CoreAnswers.{PublishesAll};
ghost use Rattle.ltm_editors.specs.Offices.{opening_of};
ghost use Rattle.ltm_session_editors.specs.Editing.{TellsTotals, TellsHistory};

use crate::lines::calls_text;
use ltm_core::{Core, Published, Scratch, logs_tell_all};
use ltm_editors::Office;
use ltm_report::totals_text;
use ltm_units::{NoMemory, Steps};
use ltm_workers::drain;
use std::alloc::Global;

/// Lets a core go.
pub(crate) fn let_go(_core: Core) {}

/// Works on all pairs that are left.
fn repair(core: &mut Core, scratch: &mut Scratch)
    requires { IsNoneOut core.old }
    ensures log { core.new.log ≡ core.old.log }
    ensures rest { IsResting core.new }
{
    let mut steps = Steps::new();
    drain(core, scratch, &mut steps);
}

/// Shows the loading that was worked out.
fn show(core: &mut Core)
    requires { IsResting core.old }
    ensures all { PublishesAll core.old (version_now core.old.log) core.new }
    ensures log { core.new.log ≡ core.old.log }
{
    match core.publish() {
        Published::Done(_) => return,
        Published::NotAtRest => unreachable!(),
    }
}

/// Brings a core to rest, shows its loading, and appends the totals.
fn push_settled(alloc: Global, core: &mut Core, into: &mut Vec<u8>) -> Result<(), NoMemory>
    requires { IsNoneOut core.old }
    ensures { OnOk result (TellsTotals core.old.log into.old.items into.new.items) }
{
    logs_tell_all();
    let mut scratch = core.scratch()?;
    repair(core, &mut scratch);
    show(core);
    let loading = core.shown();
    totals_text(alloc, loading, into)
}

/// Appends the totals to the lines of all calls.
fn finish(alloc: Global, core: &mut Core, lines: Vec<u8>) -> Result<Vec<u8>, NoMemory>
    requires { IsNoneOut core.old }
    ensures { IfOk result (λ text. TellsTotals core.old.log lines.items text.items) }
{
    let mut text = lines;
    push_settled(alloc, core, &mut text)?;
    Ok(text)
}

/// Tells what stands in an office: each call, and the totals of the loading of the scenario that they leave.
pub(crate) fn report(alloc: Global, office: Office) -> Result<Vec<u8>, NoMemory>
    ensures { IfOk result (λ text. TellsHistory (opening_of office) office.history text.items) }
{
    office.facts();
    match calls_text(alloc, office.calls()) {
        Ok(lines) => {
            let mut core = office.into_core();
            let text = finish(alloc, &mut core, lines);
            let_go(core);
            return text;
        }
        Err(fault) => {
            let_go(office.into_core());
            return Err(fault);
        }
    }
}
