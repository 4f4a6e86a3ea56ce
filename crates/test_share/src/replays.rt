//! A plain replay: a history is right where one scenario, edited by itself, gives the same verdicts in the same order.
ghost use Rattle.std.specs.Prelude.{◌≡◌, ◌<◌};
ghost use Rattle.ltm_scenario.specs.Valid.{IsValid};

use crate::roads::{Change, batch_of, scenario_of};
use ltm_editors::{Call, Verdict};
use ltm_scenario::{Batch, Scenario};
use std::alloc::Global;

/// How many calls each editor makes.
pub const TURNS: u32 = 6;

/// What an editor asks for at a turn: of two editors who raise the horizon the one who comes later may be refused.
pub fn change_of(editor: u32, turn: u32) -> Change
    requires editor { editor < 100 }
    requires turn { turn < 100 }
{
    match (editor + turn) % 4 {
        0 => Change::Slots(5 + (3 * editor + 2 * turn) % 9),
        1 => Change::CloseA,
        2 => Change::CloseZ,
        _ => Change::CloseAThenZ,
    }
}

/// What the scenario answers to a batch, after so many that it accepted.
fn answer(scenario: &mut Scenario, batch: &Batch, before: u64) -> Option<Verdict>
    requires { IsValid scenario.old }
    ensures { IsValid scenario.new }
{
    if !batch.has_amounts() {
        return None;
    }
    match scenario.accept(batch) {
        Ok(()) => Some(Verdict::Accepted(before.checked_add(1)?)),
        Err(fault) => Some(Verdict::Refused(fault)),
    }
}

/// Whether the next call of the history has the verdict that the scenario gives its batch.
fn is_next(
    alloc: Global,
    scenario: &mut Scenario,
    turns: &mut [u32; 9],
    accepted: &mut u64,
    call: &Call,
) -> bool
    requires { IsValid scenario.old }
    ensures { IsValid scenario.new }
{
    let editor = call.editor;
    if editor > 8 {
        return false;
    }
    let turn = turns[editor as usize];
    if turn >= TURNS {
        return false;
    }
    turns[editor as usize] = turn + 1;
    let Some(batch) = batch_of(alloc, change_of(editor, turn)) else {
        return false;
    };
    let verdict = answer(scenario, &batch, *accepted);
    if let Verdict::Accepted(count) = call.verdict {
        *accepted = count;
    }
    verdict == Some(call.verdict)
}

/// Whether the history is what a replay gives, with all calls of so many editors.
pub fn is_replayed(alloc: Global, editors: u32, calls: &[Call]) -> bool {
    let Some(mut scenario) = scenario_of(alloc) else {
        return false;
    };
    let mut turns = [0u32; 9];
    let mut accepted = 0u64;
    for call in calls {
        if !is_next(alloc, &mut scenario, &mut turns, &mut accepted, call) {
            return false;
        }
    }
    calls.len() as u64 == u64::from(editors) * u64::from(TURNS)
}
