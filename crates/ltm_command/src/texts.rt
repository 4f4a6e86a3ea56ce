//! The commands that answer one text.
ghost use Rattle.std.specs.Prelude.{◌≢◌, ℕ, List, Option};
ghost use Rattle.ltm_command.specs.declared.words.Command.{Command};
ghost use Rattle.ltm_command.specs.Words.{IsSized};
ghost use Rattle.ltm_command.specs.Answers.{HasText};
ghost use Rattle.ltm_command.specs.Program.{IsAnswerUnder, Fetches};
ghost use Rattle.ltm_command.specs.Run.{IsRun, outside};

use crate::answer::answer;
use crate::closing::write_text;
use crate::curves::run_curves;
use crate::refusing::refuse;
use crate::status::Status;
use crate::words::Command;
use ltm_io::{OpenFolder, Sink};
use std::alloc::Global;
use std::thread::Threads;

/// Writes a text that was made whole before, or says why there is none.
fn run_text<R: Threads + Sync, F: OpenFolder, W: Sink>(
    rt: &R,
    alloc: Global,
    command: Command,
    folder: &mut F,
    output: &mut W,
) -> Status
    requires text { HasText command }
    requires sized { IsSized command }
    requires no_curves { command ≢ Command.Curves }
    ensures { (left : Option (List ℕ)) (read_faults : ℕ)
        → IsRun (IsAnswerUnder command (F.told folder.old))
        (Fetches command (F.told folder.old)) ⊥ result
        (outside (F.told folder.old) (F.faults folder.old) left read_faults (W.written output.old)
        (W.faults output.old))
        (outside (F.told folder.new) (F.faults folder.new) left read_faults (W.written output.new)
        (W.faults output.new)) }
{
    match answer(rt, alloc, command, folder) {
        Ok(text) => write_text(output, text.as_slice(), Status::Ok),
        Err(refusal) => refuse(alloc, refusal, output),
    }
}

/// Writes what a command answers to a folder, or says why there is no answer; whatever the input holds, it stays as it is.
pub fn run_command<R: Threads + Sync, F: OpenFolder, W: Sink>(
    rt: &R,
    alloc: Global,
    command: Command,
    folder: &mut F,
    output: &mut W,
) -> Status
    requires text { HasText command }
    requires sized { IsSized command }
    ensures { (left : Option (List ℕ)) (read_faults : ℕ)
        → IsRun (IsAnswerUnder command (F.told folder.old))
        (Fetches command (F.told folder.old)) ⊥ result
        (outside (F.told folder.old) (F.faults folder.old) left read_faults (W.written output.old)
        (W.faults output.old))
        (outside (F.told folder.new) (F.faults folder.new) left read_faults (W.written output.new)
        (W.faults output.new)) }
{
    match command {
        Command::Curves => run_curves(alloc, folder, output),
        _ => run_text(rt, alloc, command, folder, output),
    }
}
