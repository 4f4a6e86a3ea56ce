//! The answer to one line.
ghost use Rattle.std.specs.Prelude.{◌≡◌, ◌≢◌, ◌+◌, ◌++◌, ℕ, List, Ok, OnOk, OnErr};
ghost use Rattle.ltm_core.specs.Cores.{IsResting};
ghost use Rattle.ltm_core.specs.CoreAnswers.{LooksAs};
ghost use Rattle.ltm_script.specs.Line.{reading};
ghost use Rattle.ltm_session.specs.Analysts.{state_of};
ghost use Rattle.ltm_session.specs.Answers.{CountsAlone, AnswersAlone, Settles};
ghost use Rattle.ltm_session.specs.Ready.{AwaitsLine};
ghost use Rattle.ltm_session.specs.Session.{AnswersLine};
ghost use Rattle.ltm_core.specs.Told.{settles_of};

use crate::replies::{reply, reply_fault};
use crate::settling::settle;
use ltm_core::{Core, Scratch};
use ltm_report::{ANSWER_ROOM, settled_text};
use ltm_script::{Command, CommandFault, read_command};
use ltm_units::NoMemory;
use std::alloc::Global;

/// Settles, and appends the count. Its room is taken before.
#[tactic(auto, using(crate::proofs::Looking::looks_refl))]
fn answer_settle(core: &mut Core, scratch: &mut Scratch, into: &mut Vec<u8>) -> Result<(), NoMemory>
    requires { AwaitsLine core.old }
    ensures ok { OnOk result ((text : List ℕ)
        × Settles CountsAlone (state_of core.old) text (state_of core.new)
        × (into.new.items ≡ into.old.items ++ text)) }
    ensures rest { OnOk result (IsResting core.new) }
    ensures settles { OnOk result (settles_of core.new ≡ settles_of core.old + 1) }
    ensures err { OnErr result ((into.new.items ≡ into.old.items) × LooksAs core.old core.new) }
    ensures awaits { AwaitsLine core.new }
{
    into.reserve(ANSWER_ROOM)?;
    let version = core.version();
    let count = settle(core, scratch);
    match settled_text(version, count, into) {
        Ok(()) => return Ok(()),
        Err(_) => unreachable!(),
    }
}

/// Answers one line of a session without workers, which stands without its newline: makes the events of its command, and
/// appends its answer. With want of memory nothing is done, but that room may be taken.
///
/// The core stands as after `Core::create`, or as after an earlier answer.
#[tactic(auto, using(crate::proofs::Looking::looks_refl))]
pub fn answer(
    alloc: Global,
    core: &mut Core,
    scratch: &mut Scratch,
    line: &[u8],
    into: &mut Vec<u8>,
) -> Result<(), NoMemory>
    requires { AwaitsLine core.old }
    // What is answered, and the log, what is shown and how many settles were counted after it.
    ensures ok { OnOk result ((text : List ℕ)
        × AnswersLine AnswersAlone (state_of core.old) line.now text (state_of core.new)
        × (into.new.items ≡ into.old.items ++ text)) }
    // After a settle the core is at rest.
    ensures rest { OnOk result (reading line.now ≡ Ok Command.Settle → IsResting core.new) }
    // A line that says so settles once, and no other line settles.
    ensures settles { OnOk result (reading line.now ≡ Ok Command.Settle
        → settles_of core.new ≡ settles_of core.old + 1) }
    ensures others { OnOk result (reading line.now ≢ Ok Command.Settle
        → settles_of core.new ≡ settles_of core.old) }
    ensures err { OnErr result ((into.new.items ≡ into.old.items) × LooksAs core.old core.new) }
    ensures awaits { AwaitsLine core.new }
{
    match read_command(alloc, line) {
        Ok(Command::Settle) => answer_settle(core, scratch, into),
        Ok(command) => reply(alloc, core, command, into),
        Err(CommandFault::NoMemory) => Err(NoMemory),
        Err(fault) => reply_fault(alloc, fault, into),
    }
}
