//! The command `session 0`: the folder's case is read, and the script of the input is served on one thread.
ghost use Rattle.std.specs.Prelude.{◌≡◌, Some, Ok, IfOk, IfErr, IfSome, false};
ghost use Rattle.ltm_io.specs.declared.doc.Doc.{Doc};
ghost use Rattle.ltm_casefile.specs.Case.{asks_for, is_case_file};
ghost use Rattle.ltm_casefile.specs.KeptCase.{kept_case_of};
ghost use Rattle.ltm_casefile.specs.Faults.{Agrees, HasRisen, WasAsked};
ghost use Rattle.ltm_core.specs.CoreAnswers.{IsOpeningCore};
ghost use Rattle.ltm_command.specs.declared.words.Command.{Command};
ghost use Rattle.ltm_command.specs.Answers.{DescribesKept};
ghost use Rattle.ltm_command.specs.Run.{outside};
ghost use Rattle.ltm_program.specs.Ran.{Ran};

use crate::closing::close;
use ltm_casefile::{CaseFault, read_kept_case};
use ltm_command::{Status, refuse_fault};
use ltm_core::Core;
use ltm_io::{Folder, Sink, Source};
use ltm_session::{Served, serve_alone};
use std::alloc::Global;

/// A core that has just begun, of the case that the folder's files describe, or why there is none.
pub(crate) fn open_case<F: Folder>(alloc: Global, folder: &mut F) -> Result<Core, CaseFault>
    ensures case { IfOk result (λ core. DescribesKept (F.told folder.old) (Ok core.log.opening)) }
    ensures begun { IfOk result (λ core. IsOpeningCore core.log.opening core) }
    ensures fault { IfErr result (λ e. IfSome (F.told folder.old)
        (λ files. Agrees (kept_case_of files) e)) }
    ensures risen { IfErr result (HasRisen (F.faults folder.old) (F.faults folder.new)) }
    ensures asked { IfErr result (λ e. IfSome (F.told folder.old)
        (λ files. WasAsked (asks_for files) e)) }
    ensures keeps { F.told folder.new ≡ F.told folder.old }
    ensures others { (d : Doc) → is_case_file d ≡ false
        → F.faults folder.new d ≡ F.faults folder.old d }
    ensures unasked { IfSome (F.told folder.old) (λ files. (d : Doc) → asks_for files d ≡ false
        → F.faults folder.new d ≡ F.faults folder.old d) }
{
    let scenario = read_kept_case(alloc, folder)?;
    match Core::create(alloc, scenario) {
        Ok(core) => return Ok(core),
        Err(_) => return Err(CaseFault::NoMemory),
    }
}

/// Lets a core go.
pub(crate) fn let_go(_core: Core) {}

/// Reads the folder's case and serves the script of the input, or says why there is no case.
pub(crate) fn serve<F: Folder, S: Source, W: Sink>(
    alloc: Global,
    folder: &mut F,
    input: &mut S,
    output: &mut W,
) -> Status
    ensures { Ran (Some (Command.Session 0)) result
        (outside (F.told folder.old) (F.faults folder.old) (S.left input.old) (S.faults input.old)
        (W.written output.old) (W.faults output.old))
        (outside (F.told folder.new) (F.faults folder.new) (S.left input.new) (S.faults input.new)
        (W.written output.new) (W.faults output.new)) }
{
    match open_case(alloc, folder) {
        Ok(core) => {
            let Served { end, core } = serve_alone(alloc, core, input, output);
            let_go(core);
            close(alloc, end, output)
        }
        Err(fault) => refuse_fault(alloc, fault, output),
    }
}
