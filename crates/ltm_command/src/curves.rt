//! The command `curves`, whose text is written a piece at a time.
ghost use Rattle.std.specs.Prelude.{ℕ, List, Option};
ghost use Rattle.ltm_command.specs.declared.words.Command.{Command};
ghost use Rattle.ltm_command.specs.Program.{IsAnswerUnder, Fetches};
ghost use Rattle.ltm_command.specs.Run.{IsRun, outside};

use crate::refusing::refuse_fault;
use crate::status::Status;
use crate::words::Command;
use ltm_casefile::read_kept_case;
use ltm_check_command::write_loading;
use ltm_io::{Folder, Sink, SinkError};
use std::alloc::Global;

/// Writes the curve file of the loading of the folder's case, or says why there is none; whatever the input holds, it stays as
/// it is.
pub fn run_curves<F: Folder, W: Sink>(alloc: Global, folder: &mut F, output: &mut W) -> Status
    ensures { (left : Option (List ℕ)) (read_faults : ℕ)
        → IsRun (IsAnswerUnder Command.Curves (F.told folder.old))
        (Fetches Command.Curves (F.told folder.old)) ⊥ result
        (outside (F.told folder.old) (F.faults folder.old) left read_faults (W.written output.old)
        (W.faults output.old))
        (outside (F.told folder.new) (F.faults folder.new) left read_faults (W.written output.new)
        (W.faults output.new)) }
{
    match read_kept_case(alloc, folder) {
        Ok(scenario) => match write_loading(alloc, &scenario, output) {
            Ok(()) => return Status::Ok,
            Err(SinkError::WriteFault) => return Status::WriteFault,
            Err(SinkError::NoMemory) => return Status::NoMemory,
        },
        Err(fault) => return refuse_fault(alloc, fault, output),
    }
}
