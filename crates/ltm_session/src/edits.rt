//! The answer to an edit.
ghost use Rattle.std.specs.Prelude.{◌≡◌, ◌≢◌, ◌++◌, ℕ, List, Ok, Err, IfErr, OnOk, OnErr};
ghost use mathlib.Core.List.{IsPrefix};
ghost use Rattle.ltm_scenario.specs.Edits.{edited_all, HaveAmounts};
ghost use Rattle.ltm_script.specs.declared.command.Command.TheVariants as command;
ghost use Rattle.ltm_core.specs.Log.{scenario_now};
ghost use Rattle.ltm_core.specs.CoreAnswers.{AcceptsBatch, LooksAs};
ghost use Rattle.ltm_report.specs.EditFaults.{edit_fault_line};
ghost use Rattle.ltm_session.specs.Analysts.{state_of};
ghost use Rattle.ltm_session.specs.Answers.{Replies};
ghost use Rattle.ltm_session.specs.Ready.{AwaitsLine};
ghost use Rattle.ltm_core.specs.Told.{settles_of, told_of};

use ltm_core::{Core, lists_tell_all, logs_tell_all};
use ltm_report::{accepted_text, edit_fault_text};
use ltm_scenario::{Batch, EditCause, EditFault};
use ltm_units::NoMemory;
use std::alloc::Global;

/// Makes the edits of a batch, or changes nothing but room.
fn make_edits(core: &mut Core, batch: Batch) -> Result<(), EditFault>
    requires { HaveAmounts batch }
    ensures ok { OnOk result (AcceptsBatch core.old batch core.new) }
    ensures err { OnErr result (LooksAs core.old core.new) }
    ensures cause { IfErr result (λ fault. fault.cause ≢ EditCause.NoMemory
        → edited_all (scenario_now core.old.log) batch ≡ Err fault) }
{
    match core.accept(batch) {
        Ok(()) => return Ok(()),
        Err((_, fault)) => return Err(fault),
    }
}

/// Appends why a batch was refused.
fn push_refusal(alloc: Global, fault: EditFault, into: &mut Vec<u8>) -> Result<(), NoMemory>
    ensures ok { OnOk result ((fault.cause ≢ EditCause.NoMemory)
        × (into.new.items ≡ into.old.items ++ edit_fault_line fault)) }
    ensures err { OnErr result (into.new.items ≡ into.old.items) }
{
    if fault.cause == EditCause::NoMemory {
        return Err(NoMemory);
    }
    edit_fault_text(alloc, &fault, into)
}

/// Makes the edits of a batch, or refuses it, and appends which. The text of an accepted batch is written before it is
/// accepted, so that nothing can fail after.
#[tactic(auto, using(crate::proofs::Looking::looks_refl, crate::proofs::Looking::looks_state, crate::proofs::Looking::looks_awaits, crate::proofs::Looking::batch_state, crate::proofs::Looking::batch_awaits, crate::proofs::Counted::batch_settles_none, crate::proofs::Counted::looks_settle_none, crate::proofs::Looking::batch_grows, crate::proofs::Looking::looks_grow))]
pub(crate) fn reply_edit(
    alloc: Global,
    core: &mut Core,
    batch: Batch,
    into: &mut Vec<u8>,
) -> Result<(), NoMemory>
    requires { HaveAmounts batch }
    ensures ok { OnOk result ((text : List ℕ)
        × Replies (state_of core.old) (Ok (command.Edit batch)) text (state_of core.new)
        × (into.new.items ≡ into.old.items ++ text)) }
    ensures err { OnErr result ((into.new.items ≡ into.old.items) × LooksAs core.old core.new) }
    ensures awaits { AwaitsLine core.old → AwaitsLine core.new }
    ensures settles { settles_of core.new ≡ settles_of core.old }
    ensures grows { IsPrefix (told_of core.old) (told_of core.new) }
{
    logs_tell_all();
    lists_tell_all();
    let before = into.len();
    accepted_text(core.version() + 1, into)?;
    match make_edits(core, batch) {
        Ok(()) => return Ok(()),
        Err(fault) => {
            into.truncate(before);
            return push_refusal(alloc, fault, into);
        }
    }
}
