//! What editors make of a case.
ghost use Rattle.std.specs.Prelude.{◌≡◌, ◌≤◌, ℕ, [], IfOk, OnOk, All, length};
ghost use Rattle.ltm_scenario.specs.Edits.{HaveAmounts};
ghost use Rattle.ltm_scenario.specs.Valid.{IsValid};
ghost use Rattle.ltm_core.specs.Cores.{IsNoneOut};
ghost use Rattle.ltm_editors.specs.Offices.{opening_of};
ghost use Rattle.ltm_session_editors.specs.Histories.{batches_by, script_by};
ghost use Rattle.ltm_session_editors.specs.Editing.{IsEditingText};

use crate::editors::edit_all;
use crate::report::{let_go, report};
use crate::script::Script;
use ltm_core::Core;
use ltm_editors::{Desk, Office};
use ltm_scenario::Scenario;
use ltm_units::NoMemory;
use std::alloc::Global;
use std::sync::Wait;
use std::thread::Threads;

/// Sets a desk for an office, lets an editor make the calls of each script, and ends the desk once all have left it.
fn edit_office<R: Threads + Wait + Sync>(
    rt: &R,
    alloc: Global,
    office: Office,
    scripts: Vec<Script>,
) -> (Office, Result<(), NoMemory>)
    requires empty { office.history ≡ [] }
    requires few { length scripts.items ≤ 8 }
    requires amounts { All (All HaveAmounts) scripts.items }
    ensures opening { opening_of result.0 ≡ opening_of office }
    ensures calls { OnOk result.1 ((n : ℕ)
        → batches_by n result.0.history ≡ script_by scripts.items n) }
{
    let editors = scripts.len() as u32;
    match Desk::create(alloc, office) {
        Ok((desk, first)) => {
            let (first, done) = edit_all(rt, &desk, first, editors, scripts);
            return (desk.close(first), done);
        }
        Err((office, fault)) => return (office, Err(fault)),
    }
}

/// Tells what editors make of a core.
fn edit_core<R: Threads + Wait + Sync>(
    rt: &R,
    alloc: Global,
    core: Core,
    scripts: Vec<Script>,
) -> Result<Vec<u8>, NoMemory>
    requires fresh { core.log.batches ≡ [] }
    requires none_out { IsNoneOut core }
    requires few { length scripts.items ≤ 8 }
    requires amounts { All (All HaveAmounts) scripts.items }
    ensures { IfOk result (λ text. IsEditingText core.log.opening scripts.items text.items) }
{
    let office = Office::create(alloc, core);
    let (office, done) = edit_office(rt, alloc, office, scripts);
    office.facts();
    match done {
        Ok(()) => return report(alloc, office),
        Err(fault) => {
            let_go(office.into_core());
            return Err(fault);
        }
    }
}

/// Tells what editors make of a scenario.
pub(crate) fn edit_scenario<R: Threads + Wait + Sync>(
    rt: &R,
    alloc: Global,
    scenario: Scenario,
    scripts: Vec<Script>,
) -> Result<Vec<u8>, NoMemory>
    requires valid { IsValid scenario }
    requires few { length scripts.items ≤ 8 }
    requires amounts { All (All HaveAmounts) scripts.items }
    ensures { IfOk result (λ text. IsEditingText scenario scripts.items text.items) }
{
    match Core::create(alloc, scenario) {
        Ok(core) => return edit_core(rt, alloc, core, scripts),
        Err((_scenario, fault)) => return Err(fault),
    }
}
