//! A trial, from two numbers to its report.
ghost use Rattle.std.specs.Prelude.{◌≡◌, ◌↔◌, ◌++◌, ◌<◌, ◌⊎◌, ℕ, Ok, Err, OnOk, IfOk, IsOk};
ghost use Rattle.ltm_flows.specs.Counts.{Counts};
ghost use Rattle.ltm_scenario.specs.Data.{ScenarioData};
ghost use Rattle.ltm_scenario.specs.Edits.{edited_all, HaveAmounts};
ghost use Rattle.ltm_scenario.specs.Valid.{IsValid};
ghost use Rattle.ltm_loading.specs.Setting.{Setting};
ghost use Rattle.ltm_setting.specs.Setting.{setting_of};
ghost use Rattle.ltm_flows.specs.Shown.{ShowsCounts};
ghost use Rattle.ltm_times.specs.Times.{time_spent};
ghost use Rattle.ltm_report.specs.Made.{work_line};
ghost use Rattle.ltm_report.specs.Reports.{totals_report};
ghost use Rattle.ltm_core.specs.CoreAnswers.{IsOpeningCore};
ghost use Rattle.ltm_try_command.specs.Trial.{size_of, IsTrial, TellsTrial};

use crate::lines::{push_size, push_work};
use crate::repairing::repair;
use ltm_core::Core;
use ltm_make::{Made, MakeFault, make_case};
use ltm_report::totals_text;
use ltm_scenario::Batch;
use ltm_units::NoMemory;
use std::alloc::Global;

/// The first two lines: of what is shown before the batch.
fn push_before(alloc: Global, core: &Core, into: &mut Vec<u8>) -> Result<(), NoMemory>
    ensures { (s : Setting) (c : Counts) → ShowsCounts s 0 c core.now.shown
        → OnOk result (into.new.items ≡ into.old.items
        ++ size_of (setting_of core.now.scenario) ++ totals_report 0 s c) }
{
    push_size(alloc, core, into)?;
    totals_text(alloc, core.shown(), into)?;
    Ok(())
}

/// The last two lines: of what is shown after the batch.
fn push_after(
    alloc: Global,
    core: &Core,
    recomputed: u128,
    solved: u64,
    into: &mut Vec<u8>,
) -> Result<(), NoMemory>
    ensures { (s : Setting) (c : Counts) → ShowsCounts s 1 c core.now.shown
        → OnOk result (into.new.items ≡ into.old.items
        ++ totals_report 1 s c ++ work_line recomputed solved (time_spent s c)) }
{
    totals_text(alloc, core.shown(), into)?;
    push_work(alloc, core.shown(), recomputed, solved, into)?;
    Ok(())
}

/// The report of a trial over a core that has its case.
fn report(
    alloc: Global,
    core: &mut Core,
    batch: Batch,
    schedule: &[u8],
) -> Result<Vec<u8>, NoMemory>
    requires opening { IsOpeningCore core.old.scenario core.old }
    requires amounts { HaveAmounts batch }
    requires accepted { IsOk (edited_all core.old.scenario batch) }
    ensures { IfOk result (λ text. TellsTrial core.old.scenario batch text.items) }
{
    core.facts();
    let _shown = core.shown();
    let mut text = Vec::new(alloc);
    push_before(alloc, core, &mut text)?;
    let (recomputed, solved) = repair(core, batch, schedule)?;
    push_after(alloc, core, recomputed, solved, &mut text)?;
    Ok(text)
}

/// A core is let go here alone.
fn let_go(_core: Core) {}

/// The same over a core that is let go then.
fn report_and_let_go(
    alloc: Global,
    core: Core,
    batch: Batch,
    schedule: &[u8],
) -> Result<Vec<u8>, NoMemory>
    requires opening { IsOpeningCore core.scenario core }
    requires amounts { HaveAmounts batch }
    requires accepted { IsOk (edited_all core.scenario batch) }
    ensures { IfOk result (λ text. TellsTrial core.scenario batch text.items) }
{
    let mut core = core;
    let text = report(alloc, &mut core, batch, schedule);
    let_go(core);
    text
}

/// The report of a trial of a made case.
fn report_made(alloc: Global, made: Made) -> Result<Vec<u8>, NoMemory>
    requires valid { IsValid made.scenario }
    requires amounts { HaveAmounts made.batch }
    requires accepted { IsOk (edited_all made.scenario made.batch) }
    ensures { IfOk result (λ text. TellsTrial made.scenario made.batch text.items) }
{
    let Made {
        scenario,
        batch,
        schedule,
    } = made;
    match Core::create(alloc, scenario) {
        Ok(core) => return report_and_let_go(alloc, core, batch, schedule.as_slice()),
        Err((_scenario, fault)) => return Err(fault),
    }
}

/// The report of a trial: a case is made of the two numbers (see `ltm_make::make_case`) and loaded; its batch is accepted
/// and repaired, first by four virtual workers as the case's schedule says, then to rest; and four lines tell its size, the
/// totals before and after, and the work, as
///
/// ```text
/// case nodes 4 links 8 pairs 240
/// version 0 generated 53.000 arrived 53.000 on_links 0.000 waiting 0.000
/// version 1 generated 83.000 arrived 83.000 on_links 0.000 waiting 0.000
/// recomputed 232 solved 232 spent 3969740000
/// ```
pub fn try_report(alloc: Global, start: u64, nodes: u32) -> Result<Vec<u8>, MakeFault>
    ensures text { IfOk result (λ text. IsTrial start nodes text.items) }
    ensures size { (result ≡ Err MakeFault.BadSize) ↔ ((nodes < 4) ⊎ (400 < nodes)) }
{
    match make_case(alloc, start, nodes) {
        Ok(made) => match report_made(alloc, made) {
            Ok(text) => Ok(text),
            Err(NoMemory) => Err(MakeFault::NoMemory),
        },
        Err(fault) => Err(fault),
    }
}
