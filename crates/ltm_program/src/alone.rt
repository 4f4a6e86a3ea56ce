//! The top call that waits for nobody: what the words ask for, over a folder, an input and an output.
ghost use Rattle.std.specs.Prelude.{◌≡◌, ℕ, List, Option, None, Some, map, string_bytes};
ghost use Rattle.ltm_io.specs.Folder.{Files};
ghost use Rattle.ltm_io.specs.declared.doc.Doc.{Doc};
ghost use Rattle.ltm_command.specs.Words as words_say;
ghost use Rattle.ltm_command.specs.Words.{IsSized};
ghost use Rattle.ltm_command.specs.Run.{outside};
ghost use Rattle.ltm_program.specs.Ran.{Ran, needs_threads, without_threads};

use crate::serve::serve;
use ltm_command::{Command, Status, command_of, run_command, usage_text, write_text};
use ltm_io::{OpenFolder, Sink, Source};
use std::alloc::Global;
use std::thread::Threads;

/// Says what could have been asked for, where the words ask for no command; whatever else there is stays as it is.
pub(crate) fn refuse_words<W: Sink>(output: &mut W) -> Status
    ensures { (told : Option Files) (faults : Doc → ℕ) (left : Option (List ℕ)) (read_faults : ℕ)
        → Ran None result
        (outside told faults left read_faults (W.written output.old) (W.faults output.old))
        (outside told faults left read_faults (W.written output.new) (W.faults output.new)) }
{
    write_text(output, usage_text(), Status::Usage)
}

/// Whether the words ask for a command whose threads may wait for one another. For all others, and for words that ask for none,
/// `run_alone` does what `run` does, and returns.
pub fn may_wait(words: &[String]) -> bool
    ensures { result ≡ needs_threads (words_say.command_of (map string_bytes words.now)) }
{
    match command_of(words) {
        Some(Command::Session { workers }) => workers > 0,
        Some(Command::View { .. }) => true,
        Some(Command::Editors { .. }) => true,
        _ => false,
    }
}

/// Does a command that can do without threads; one that cannot is refused, as words that ask for none.
fn do_alone<R: Threads + Sync, F: OpenFolder, S: Source, W: Sink>(
    rt: &R,
    alloc: Global,
    command: Command,
    folder: &mut F,
    input: &mut S,
    output: &mut W,
) -> Status
    requires { IsSized command }
    ensures { Ran (without_threads (Some command)) result
        (outside (F.told folder.old) (F.faults folder.old) (S.left input.old) (S.faults input.old)
        (W.written output.old) (W.faults output.old))
        (outside (F.told folder.new) (F.faults folder.new) (S.left input.new) (S.faults input.new)
        (W.written output.new) (W.faults output.new)) }
{
    match command {
        Command::Session { workers: 0 } => serve(alloc, folder, input, output),
        Command::Session { .. } => refuse_words(output),
        Command::View { .. } => refuse_words(output),
        Command::Editors { .. } => refuse_words(output),
        _ => run_command(rt, alloc, command, folder, output),
    }
}

/// Does what the words ask for, over this folder, this input and this output, where no thread has to be started for it: words
/// that ask for workers, viewers or editors are refused by the usage line, as those that ask for nothing. Only `load`, `delay`,
/// `totals` and `gap` start threads here, for a large case; each works alone, and where none can be started the answer is the same.
///
/// - `load` fetches the files of the case in order and reads them, loads the network (Yperman 2007) and
///   writes the totals line and a line for each link.
/// - `delay`, `gap` and `totals N` report of the same loading what is lost, against which least, and what has passed by when.
/// - `session 0` fetches and reads the case likewise, and answers the script of edits and questions on the input line by
///   line; each answer is written whole before the next line is read.
/// - `try START NODES` makes a case of the two numbers, loads it, repairs what its batch changes, and writes four lines; it
///   touches no file.
/// - `routes` fetches the setup, the links, the demand and the profile of a matrix, finds the least routes by free-flow time
///   (Dijkstra 1959) and writes the `splits.csv` that sends traffic along them, in equal parts where several are least.
/// - `routes times` writes the times that these routes take.
/// - `curves` fetches, reads and loads the case as `load` does, and writes the loading as a curve file.
/// - `check` reads the case, then opens `curves.csv`, reads it piece by piece, and says whether it is the loading of the case,
///   or why not.
///
/// Everything is decided in this order: the words, the fetches, what the files say, the script line by line, the writing.
/// `signals.csv` and `limits.csv` alone are fetched once the setup was read, each only where the setup asks for it; `profile.csv`
/// is fetched only where the demand is a matrix.
pub fn run_alone<R: Threads + Sync, F: OpenFolder, S: Source, W: Sink>(
    rt: &R,
    alloc: Global,
    words: &[String],
    folder: &mut F,
    input: &mut S,
    output: &mut W,
) -> Status
    ensures { Ran (without_threads (words_say.command_of (map string_bytes words.now))) result
        (outside (F.told folder.old) (F.faults folder.old) (S.left input.old) (S.faults input.old)
        (W.written output.old) (W.faults output.old))
        (outside (F.told folder.new) (F.faults folder.new) (S.left input.new) (S.faults input.new)
        (W.written output.new) (W.faults output.new)) }
{
    match command_of(words) {
        Some(command) => do_alone(rt, alloc, command, folder, input, output),
        None => refuse_words(output),
    }
}
