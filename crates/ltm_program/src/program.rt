//! The top call of the program: what the words ask for, over a folder, an input and an output.
ghost use Rattle.std.specs.Prelude.{Some, map, string_bytes};
ghost use Rattle.ltm_command.specs.Words as words_say;
ghost use Rattle.ltm_command.specs.Words.{IsSized};
ghost use Rattle.ltm_command.specs.Run.{outside};
ghost use Rattle.ltm_program.specs.Ran.{Ran};

use crate::alone::refuse_words;
use crate::edit_together::edit_together;
use crate::serve_beside::serve_beside;
use crate::view::serve_viewed;
use ltm_command::{Command, Status, command_of, run_command};
use ltm_io::{Folder, OpenFolder, Sink, Source};
use ltm_workers::Gate;
use std::alloc::Global;
use std::sync::Wait;
use std::thread::Threads;

/// Does a command.
fn do_command<R: Threads + Wait + Sync, F: OpenFolder, S: Source, W: Sink, G: Gate>(
    rt: &R,
    alloc: Global,
    command: Command,
    folder: &mut F,
    input: &mut S,
    output: &mut W,
    gate: &G,
) -> Status
    requires { IsSized command }
    ensures { Ran (Some command) result
        (outside (F.told folder.old) (F.faults folder.old) (S.left input.old) (S.faults input.old)
        (W.written output.old) (W.faults output.old))
        (outside (F.told folder.new) (F.faults folder.new) (S.left input.new) (S.faults input.new)
        (W.written output.new) (W.faults output.new)) }
{
    match command {
        Command::Session { workers } => serve_beside(
            rt, alloc, workers, folder, input, output, gate,
        ),
        Command::View { viewers } => serve_viewed(rt, alloc, viewers, folder, input, output),
        Command::Editors { editors } => edit_together(rt, alloc, editors, folder, output),
        _ => run_command(rt, alloc, command, folder, output),
    }
}

/// Does what the words ask for, over this folder, this input and this output: all that `run_alone` does, and with the words
/// `session N`, N from 1 to 64, a session beside so many workers, which run in threads of their own and have ended when it
/// returns. Each worker calls the gate for each pair that it claimed.
///
/// `view V`, V of 1 or 2, serves the script as `session 0` does; what each settle shows is posted on a board for each of V
/// viewers, which they read in threads of their own. At the end each viewer tells the totals of the loading that was shown last.
///
/// `editors K`, K from 1 to 8, fetches and reads the case, fetches `edits1.jsonl` to `editsK.jsonl`, reads all their lines, and
/// then lets K editors make them, each in a thread of its own; it writes each call with its verdict, in the order of their one
/// history, and the totals of the loading that they leave.
pub fn run<R: Threads + Wait + Sync, F: OpenFolder, S: Source, W: Sink, G: Gate>(
    rt: &R,
    alloc: Global,
    words: &[String],
    folder: &mut F,
    input: &mut S,
    output: &mut W,
    gate: &G,
) -> Status
    ensures { Ran (words_say.command_of (map string_bytes words.now)) result
        (outside (F.told folder.old) (F.faults folder.old) (S.left input.old) (S.faults input.old)
        (W.written output.old) (W.faults output.old))
        (outside (F.told folder.new) (F.faults folder.new) (S.left input.new) (S.faults input.new)
        (W.written output.new) (W.faults output.new)) }
{
    match command_of(words) {
        Some(command) => do_command(rt, alloc, command, folder, input, output, gate),
        None => refuse_words(output),
    }
}
