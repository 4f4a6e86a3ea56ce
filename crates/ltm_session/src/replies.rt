//! Answers that change nothing but what an edit changes: to all lines but a settle.
ghost use Rattle.std.specs.Prelude.{◌≡◌, ◌≢◌, ◌++◌, ℕ, List, Ok, Err, OnOk, OnErr};
ghost use mathlib.Core.List.{IsPrefix};
ghost use Rattle.ltm_script.specs.Commands.{HasAmounts};
ghost use Rattle.ltm_core.specs.CoreAnswers.{LooksAs};
ghost use Rattle.ltm_session.specs.Analysts.{Analysts, state_of};
ghost use Rattle.ltm_session.specs.Answers.{Replies};
ghost use Rattle.ltm_session.specs.Ready.{AwaitsLine};
ghost use Rattle.ltm_core.specs.Told.{settles_of, told_of};

use crate::edits::reply_edit;
use crate::questions::reply_question;
use ltm_core::Core;
use ltm_report::command_fault_text;
use ltm_script::{Command, CommandFault};
use ltm_units::NoMemory;
use std::alloc::Global;

/// Appends why a line is no command.
pub fn reply_fault(alloc: Global, fault: CommandFault, into: &mut Vec<u8>) -> Result<(), NoMemory>
    requires { fault ≢ CommandFault.NoMemory }
    ensures ok { OnOk result ((text : List ℕ) × ((s : Analysts) → Replies s (Err fault) text s)
        × (into.new.items ≡ into.old.items ++ text)) }
    ensures err { OnErr result (into.new.items ≡ into.old.items) }
{
    command_fault_text(alloc, fault, into)
}

/// Answers a command that is no settle, and makes its event. It asks nothing of what is claimed or was counted.
#[tactic(auto, using(crate::proofs::Looking::looks_refl, crate::proofs::Looking::list_begins))]
pub fn reply(
    alloc: Global,
    core: &mut Core,
    command: Command,
    into: &mut Vec<u8>,
) -> Result<(), NoMemory>
    requires amounts { HasAmounts command }
    requires other { command ≢ Command.Settle }
    ensures ok { OnOk result ((text : List ℕ)
        × Replies (state_of core.old) (Ok command) text (state_of core.new)
        × (into.new.items ≡ into.old.items ++ text)) }
    ensures err { OnErr result ((into.new.items ≡ into.old.items) × LooksAs core.old core.new) }
    ensures awaits { AwaitsLine core.old → AwaitsLine core.new }
    ensures settles { settles_of core.new ≡ settles_of core.old }
    // An edit may lengthen the list that the core tells.
    ensures grows { IsPrefix (told_of core.old) (told_of core.new) }
{
    match command {
        Command::Edit(batch) => reply_edit(alloc, core, batch, into),
        Command::Ask(question) => reply_question(alloc, core, &question, into),
        Command::Settle => unreachable!(),
    }
}
