//! What each command answers, before a byte of it is written.
ghost use Rattle.std.specs.Prelude.{◌≡◌, ◌≢◌, ◌≤◌, Ok, Err, IfOk, IfErr, IfSome, true, false};
ghost use Rattle.ltm_io.specs.declared.doc.Doc.{Doc};
ghost use Rattle.ltm_casefile.specs.declared.faults.File.{File};
ghost use Rattle.ltm_casefile.specs.declared.faults.CaseFault.{CaseFault};
ghost use Rattle.ltm_casefile.specs.Case.{is_case_file, asks_for};
ghost use Rattle.ltm_casefile.specs.Roads.{is_of_roads, roads_ask};
ghost use Rattle.ltm_command.specs.declared.words.Command.{Command};
ghost use Rattle.ltm_try_command.specs.Trial.{IsTrial};
ghost use Rattle.ltm_command.specs.Words.{IsSized};
ghost use Rattle.ltm_command.specs.Answers.{Answers, AnswersFault, HasText, may_fetch, fetches};
ghost use Rattle.ltm_command.specs.Program.{FileFailed, IsMissing};
ghost use Rattle.ltm_check_command.specs.declared.refusal.Refusal.{Refusal};
ghost use Rattle.ltm_check_command.specs.Checks.{is_check_file, check_asks_for};

use crate::report::report_case;
use crate::words::Command;
use ltm_casefile::CaseFault;
use ltm_check_command::{Refusal, check_text};
use ltm_io::{Folder, OpenFolder};
use ltm_make::MakeFault;
use ltm_routes_command::{RouteLines, route_text};
use ltm_try_command::try_report;
use std::alloc::Global;
use std::thread::Threads;

/// The lines of least routes over the folder's roads, or why there are none.
#[tactic(auto, using(crate::proofs::MissingFile::routes_failed, crate::proofs::Answering::routes_fault))]
fn routes<F: Folder>(alloc: Global, lines: RouteLines, folder: &mut F) -> Result<Vec<u8>, CaseFault>
    ensures keeps { F.told folder.new ≡ F.told folder.old }
    ensures others { (d : Doc) → is_of_roads d ≡ false
        → F.faults folder.new d ≡ F.faults folder.old d }
    ensures unasked { IfSome (F.told folder.old) (λ files. (d : Doc)
        → roads_ask files d ≡ false → F.faults folder.new d ≡ F.faults folder.old d) }
    ensures text { IfOk result (λ text. Answers (Command.Routes lines) (F.told folder.old)
        (Ok text.items)) }
    ensures fault { IfErr result (λ e. AnswersFault (Command.Routes lines) (F.told folder.old)
        (Refusal.Case e)) }
    ensures failed { (file : File) → result ≡ Err (CaseFault.Folder file)
        → FileFailed (Command.Routes lines) (F.told folder.old) (F.faults folder.old)
        (F.faults folder.new) }
{
    route_text(alloc, lines, folder)
}

/// The report of a trial, or that there is none for want of memory.
fn trial(alloc: Global, start: u64, nodes: u32) -> Result<Vec<u8>, CaseFault>
    requires few { 4 ≤ nodes }
    requires many { nodes ≤ 400 }
    ensures text { IfOk result (λ text. IsTrial start nodes text.items) }
    ensures fault { IfErr result (λ e. e ≡ CaseFault.NoMemory) }
{
    match try_report(alloc, start, nodes) {
        Ok(text) => return Ok(text),
        Err(MakeFault::NoMemory) => return Err(CaseFault::NoMemory),
        Err(MakeFault::BadSize) => unreachable!(),
    }
}

/// That the curve file beside the folder's case is its loading, or why it is not.
#[tactic(auto, using(crate::proofs::MissingFile::check_failed, crate::proofs::Answering::check_fault))]
fn check<F: OpenFolder>(alloc: Global, folder: &mut F) -> Result<Vec<u8>, Refusal>
    ensures keeps { F.told folder.new ≡ F.told folder.old }
    ensures others { (d : Doc) → is_check_file d ≡ false
        → F.faults folder.new d ≡ F.faults folder.old d }
    ensures unasked { IfSome (F.told folder.old) (λ files. (d : Doc)
        → check_asks_for files d ≡ false → F.faults folder.new d ≡ F.faults folder.old d) }
    ensures text { IfOk result (λ text. Answers Command.Check (F.told folder.old) (Ok text.items)) }
    ensures fault { IfErr result (AnswersFault Command.Check (F.told folder.old)) }
    ensures failed { (refusal : Refusal) → result ≡ Err refusal → IsMissing refusal
        → FileFailed Command.Check (F.told folder.old) (F.faults folder.old) (F.faults folder.new) }
{
    check_text(alloc, folder)
}

/// What a command answers that asks nothing but what the files of a case say.
fn case_answer<R: Threads + Sync, F: Folder>(
    rt: &R,
    alloc: Global,
    command: Command,
    folder: &mut F,
) -> Result<Vec<u8>, CaseFault>
    requires text { HasText command }
    requires sized { IsSized command }
    requires no_check { command ≢ Command.Check }
    requires no_curves { command ≢ Command.Curves }
    ensures keeps { F.told folder.new ≡ F.told folder.old }
    ensures others { (d : Doc) → may_fetch command d ≡ false
        → F.faults folder.new d ≡ F.faults folder.old d }
    ensures unasked { IfSome (F.told folder.old) (λ files. (d : Doc)
        → fetches command files d ≡ false → F.faults folder.new d ≡ F.faults folder.old d) }
    ensures text { IfOk result (λ text. Answers command (F.told folder.old) (Ok text.items)) }
    ensures fault { IfErr result (λ e. AnswersFault command (F.told folder.old) (Refusal.Case e)) }
    ensures failed { (file : File) → result ≡ Err (CaseFault.Folder file)
        → FileFailed command (F.told folder.old) (F.faults folder.old) (F.faults folder.new) }
{
    match command {
        Command::Report(report) => report_case(rt, alloc, report, folder),
        Command::Routes(lines) => routes(alloc, lines, folder),
        Command::Try { start, nodes } => trial(alloc, start, nodes),
        Command::Curves => unreachable!(),
        Command::Check => unreachable!(),
        Command::Session { .. } => unreachable!(),
        Command::View { .. } => unreachable!(),
        Command::Editors { .. } => unreachable!(),
    }
}

/// A text, or the fault of a case as a refusal.
fn told<R: Threads + Sync, F: Folder>(
    rt: &R,
    alloc: Global,
    command: Command,
    folder: &mut F,
) -> Result<Vec<u8>, Refusal>
    requires text { HasText command }
    requires sized { IsSized command }
    requires no_check { command ≢ Command.Check }
    requires no_curves { command ≢ Command.Curves }
    ensures keeps { F.told folder.new ≡ F.told folder.old }
    ensures others { (d : Doc) → may_fetch command d ≡ false
        → F.faults folder.new d ≡ F.faults folder.old d }
    ensures unasked { IfSome (F.told folder.old) (λ files. (d : Doc)
        → fetches command files d ≡ false → F.faults folder.new d ≡ F.faults folder.old d) }
    ensures text { IfOk result (λ text. Answers command (F.told folder.old) (Ok text.items)) }
    ensures fault { IfErr result (AnswersFault command (F.told folder.old)) }
    ensures failed { (refusal : Refusal) → result ≡ Err refusal → IsMissing refusal
        → FileFailed command (F.told folder.old) (F.faults folder.old) (F.faults folder.new) }
{
    match case_answer(rt, alloc, command, folder) {
        Ok(text) => Ok(text),
        Err(fault) => Err(Refusal::Case(fault)),
    }
}

/// The whole text that a command answers to a folder, or why there is none.
pub fn answer<R: Threads + Sync, F: OpenFolder>(
    rt: &R,
    alloc: Global,
    command: Command,
    folder: &mut F,
) -> Result<Vec<u8>, Refusal>
    requires text { HasText command }
    requires sized { IsSized command }
    requires no_curves { command ≢ Command.Curves }
    ensures keeps { F.told folder.new ≡ F.told folder.old }
    ensures others { (d : Doc) → may_fetch command d ≡ false
        → F.faults folder.new d ≡ F.faults folder.old d }
    ensures unasked { IfSome (F.told folder.old) (λ files. (d : Doc)
        → fetches command files d ≡ false → F.faults folder.new d ≡ F.faults folder.old d) }
    ensures text { IfOk result (λ text. Answers command (F.told folder.old) (Ok text.items)) }
    ensures fault { IfErr result (AnswersFault command (F.told folder.old)) }
    ensures failed { (refusal : Refusal) → result ≡ Err refusal → IsMissing refusal
        → FileFailed command (F.told folder.old) (F.faults folder.old) (F.faults folder.new) }
{
    match command {
        Command::Check => check(alloc, folder),
        _ => told(rt, alloc, command, folder),
    }
}
