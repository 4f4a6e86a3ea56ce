//! The command `view V`: the folder's case is read, and the script of the input is served while viewers look on.
ghost use Rattle.std.specs.Prelude.{◌≤◌, ◌<◌, Some};
ghost use Rattle.ltm_command.specs.declared.words.Command.{Command};
ghost use Rattle.ltm_command.specs.Run.{outside};
ghost use Rattle.ltm_program.specs.Ran.{Ran};

use crate::closing::close;
use crate::serve::{let_go, open_case};
use ltm_command::{Status, refuse_fault};
use ltm_io::{Folder, Sink, Source};
use ltm_session_viewers::view;
use std::alloc::Global;
use std::sync::Wait;
use std::thread::Threads;

/// Reads the folder's case and serves the script of the input while so many viewers look on, or says why there is no case.
pub(crate) fn serve_viewed<R: Threads + Wait + Sync, F: Folder, S: Source, W: Sink>(
    rt: &R,
    alloc: Global,
    viewers: u32,
    folder: &mut F,
    input: &mut S,
    output: &mut W,
) -> Status
    requires { (0 < viewers) × (viewers ≤ 2) }
    ensures { Ran (Some (Command.View viewers)) result
        (outside (F.told folder.old) (F.faults folder.old) (S.left input.old) (S.faults input.old)
        (W.written output.old) (W.faults output.old))
        (outside (F.told folder.new) (F.faults folder.new) (S.left input.new) (S.faults input.new)
        (W.written output.new) (W.faults output.new)) }
{
    match open_case(alloc, folder) {
        Ok(core) => {
            let mut core = core;
            let end = view(rt, alloc, &mut core, viewers, input, output);
            let_go(core);
            close(alloc, end, output)
        }
        Err(fault) => refuse_fault(alloc, fault, output),
    }
}
