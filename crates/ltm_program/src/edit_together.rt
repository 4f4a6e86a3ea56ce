//! The command `editors K`: so many editors edit the folder's case, each in a thread of its own.
ghost use Rattle.std.specs.Prelude.{◌≡◌, ◌⊎◌, ◌≤◌, ℕ, List, Option, Some, Err};
ghost use Rattle.ltm_io.specs.Faults.{Rose};
ghost use Rattle.ltm_io.specs.Sink.{appended, AppendsFront};
ghost use Rattle.ltm_session_editors.specs.declared.fault.EditsFault.{EditsFault};
ghost use Rattle.ltm_session_editors.specs.declared.refusal.EditorsRefusal.{EditorsRefusal};
ghost use Rattle.ltm_session_editors.specs.Lines.{long_edits_line, bad_script_line};
ghost use Rattle.ltm_session_editors.specs.Answers.{IsTold, IsUngiven};
ghost use Rattle.ltm_command.specs.declared.words.Command.{Command};
ghost use Rattle.ltm_command.specs.Program.{IsWhole};
ghost use Rattle.ltm_command.specs.Run.{outside};
ghost use Rattle.ltm_program.specs.Editors.{edits_refusal, edits_status, editing_words, editing_status};
ghost use Rattle.ltm_program.specs.Ran.{Ran};

use crate::closing::close_many;
use ltm_command::{Status, refuse_fault, write_text};
use ltm_io::{Folder, Sink};
use ltm_session_editors::{
    EditorsRefusal, EditsFault, LineCause, bad_script_text, editing_text, long_edits_text,
};
use std::alloc::Global;
use std::sync::Wait;
use std::thread::Threads;

/// Says that a file of edits has more bytes than are read.
fn refuse_long<W: Sink>(alloc: Global, editor: u32, output: &mut W) -> Status
    ensures answers { (result ≡ Status.TooLong)
        ⊎ ((result ≡ Status.WriteFault) ⊎ (result ≡ Status.NoMemory)) }
    ensures wrote { result ≡ Status.TooLong
        → W.written output.new ≡ appended (long_edits_line editor) (W.written output.old) }
    ensures front { (W.written output.new ≡ W.written output.old)
        ⊎ AppendsFront (W.written output.old) (W.written output.new) (long_edits_line editor) }
    ensures cause { result ≡ Status.WriteFault → Rose (W.faults output.old) (W.faults output.new) }
{
    match long_edits_text(alloc, editor) {
        Ok(line) => write_text(output, line.as_slice(), Status::TooLong),
        Err(_) => Status::NoMemory,
    }
}

/// Says which line of a file of edits is no edit, and why.
fn refuse_line<W: Sink>(
    alloc: Global,
    editor: u32,
    line: u32,
    cause: LineCause,
    output: &mut W,
) -> Status
    ensures answers { (result ≡ Status.BadScript)
        ⊎ ((result ≡ Status.WriteFault) ⊎ (result ≡ Status.NoMemory)) }
    ensures wrote { result ≡ Status.BadScript
        → W.written output.new
        ≡ appended (bad_script_line editor line cause) (W.written output.old) }
    ensures front { (W.written output.new ≡ W.written output.old)
        ⊎ AppendsFront (W.written output.old) (W.written output.new)
        (bad_script_line editor line cause) }
    ensures cause { result ≡ Status.WriteFault → Rose (W.faults output.old) (W.faults output.new) }
{
    match bad_script_text(alloc, editor, line, cause) {
        Ok(text) => write_text(output, text.as_slice(), Status::BadScript),
        Err(_) => Status::NoMemory,
    }
}

/// Says what is wrong with the files of edits, where something is.
fn refuse_edits<W: Sink>(alloc: Global, fault: EditsFault, output: &mut W) -> Status
    ensures whole { IsWhole result → IsTold (EditorsRefusal.Edits fault) × (result ≡ edits_status fault)
        × (W.written output.new ≡ appended (edits_refusal fault) (W.written output.old)) }
    ensures front { (W.written output.new ≡ W.written output.old)
        ⊎ (IsTold (EditorsRefusal.Edits fault)
        × AppendsFront (W.written output.old) (W.written output.new) (edits_refusal fault)) }
    ensures folder_fault { result ≡ Status.FolderFault
        → IsUngiven (EditorsRefusal.Edits fault) × (W.written output.new ≡ W.written output.old) }
    ensures cause { result ≡ Status.WriteFault
        → IsTold (EditorsRefusal.Edits fault) × Rose (W.faults output.old) (W.faults output.new) }
{
    match fault {
        EditsFault::Missing(_) => Status::FolderFault,
        EditsFault::TooLong(editor) => refuse_long(alloc, editor, output),
        EditsFault::TooMany => close_many(alloc, output),
        EditsFault::BadLine {
            editor,
            line,
            cause,
        } => refuse_line(alloc, editor, line, cause, output),
        EditsFault::NoMemory => Status::NoMemory,
    }
}

/// Says why there is no text, where that lies in the files.
fn refuse<W: Sink>(alloc: Global, refusal: EditorsRefusal, output: &mut W) -> Status
    ensures whole { IsWhole result → IsTold refusal × (result ≡ editing_status (Err refusal))
        × (W.written output.new ≡ appended (editing_words (Err refusal)) (W.written output.old)) }
    ensures front { (W.written output.new ≡ W.written output.old)
        ⊎ (IsTold refusal
        × AppendsFront (W.written output.old) (W.written output.new)
        (editing_words (Err refusal))) }
    ensures folder_fault { result ≡ Status.FolderFault
        → IsUngiven refusal × (W.written output.new ≡ W.written output.old) }
    ensures cause { result ≡ Status.WriteFault
        → IsTold refusal × Rose (W.faults output.old) (W.faults output.new) }
{
    match refusal {
        EditorsRefusal::Case(fault) => refuse_fault(alloc, fault, output),
        EditorsRefusal::Edits(fault) => refuse_edits(alloc, fault, output),
    }
}

/// Has so many editors edit the folder's case, and writes what they made, or says why there is nothing to write; whatever the
/// input holds, it stays as it is.
pub fn edit_together<R: Threads + Wait + Sync, F: Folder, W: Sink>(
    rt: &R,
    alloc: Global,
    editors: u32,
    folder: &mut F,
    output: &mut W,
) -> Status
    requires { editors ≤ 8 }
    ensures { (left : Option (List ℕ)) (read_faults : ℕ)
        → Ran (Some (Command.Editors editors)) result
        (outside (F.told folder.old) (F.faults folder.old) left read_faults (W.written output.old)
        (W.faults output.old))
        (outside (F.told folder.new) (F.faults folder.new) left read_faults (W.written output.new)
        (W.faults output.new)) }
{
    match editing_text(rt, alloc, editors, folder) {
        Ok(text) => write_text(output, text.as_slice(), Status::Ok),
        Err(refusal) => refuse(alloc, refusal, output),
    }
}
