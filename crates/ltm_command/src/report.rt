//! The commands that report of a case's loading: `load`, `delay`, `gap`.
ghost use Rattle.std.specs.Prelude.{◌≡◌, Ok, Err, IfOk, IfErr, IfSome, true, false};
ghost use Rattle.ltm_io.specs.declared.doc.Doc.{Doc};
ghost use Rattle.ltm_casefile.specs.declared.faults.File.{File};
ghost use Rattle.ltm_casefile.specs.declared.faults.CaseFault.{CaseFault};
ghost use Rattle.ltm_casefile.specs.Case.{is_case_file, asks_for};
ghost use Rattle.ltm_command.specs.declared.words.Command.{Command};
ghost use Rattle.ltm_command.specs.Words.{IsSized};
ghost use Rattle.ltm_command.specs.Answers.{Answers, AnswersFault};
ghost use Rattle.ltm_command.specs.Program.{FileFailed};
ghost use Rattle.ltm_check_command.specs.declared.refusal.Refusal.{Refusal};

use crate::words::{Command, Report};
use ltm_casefile::{CaseFault, read_case};
use ltm_io::Folder;
use ltm_report::{delay_report_of, gap_report_of, report_of, sampled_report_of};
use std::alloc::Global;
use std::thread::Threads;

/// A report of the folder's case, or why there is none.
#[tactic(auto, using(crate::proofs::MissingFile::failed, crate::proofs::Answering::report_told, crate::proofs::Answering::report_fault))]
pub fn report_case<R: Threads + Sync, F: Folder>(
    rt: &R,
    alloc: Global,
    report: Report,
    folder: &mut F,
) -> Result<Vec<u8>, CaseFault>
    requires { IsSized (Command.Report report) }
    ensures keeps { F.told folder.new ≡ F.told folder.old }
    ensures others { (d : Doc) → is_case_file d ≡ false
        → F.faults folder.new d ≡ F.faults folder.old d }
    ensures unasked { IfSome (F.told folder.old) (λ files. (d : Doc) → asks_for files d ≡ false
        → F.faults folder.new d ≡ F.faults folder.old d) }
    ensures text { IfOk result (λ text. Answers (Command.Report report) (F.told folder.old)
        (Ok text.items)) }
    ensures fault { IfErr result (λ e. AnswersFault (Command.Report report) (F.told folder.old)
        (Refusal.Case e)) }
    ensures failed { (file : File) → result ≡ Err (CaseFault.Folder file)
        → FileFailed (Command.Report report) (F.told folder.old) (F.faults folder.old)
        (F.faults folder.new) }
{
    let scenario = read_case(alloc, folder)?;
    match report {
        Report::Load => Ok(report_of(rt, alloc, &scenario)?),
        Report::Delay => Ok(delay_report_of(rt, alloc, &scenario)?),
        Report::Gap => Ok(gap_report_of(rt, alloc, &scenario)?),
        Report::Totals { every } => Ok(sampled_report_of(rt, alloc, every, &scenario)?),
    }
}
