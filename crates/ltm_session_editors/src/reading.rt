//! The lines of the files as batches.
ghost use Rattle.std.specs.Prelude.{◌≡◌, ◌≤◌, ◌⊎◌, ℕ, List, length, Ok, Err, IfOk, IfErr, All};
ghost use Rattle.ltm_scenario.specs.Edits.{HaveAmounts};
ghost use Rattle.ltm_session_editors.specs.Each.{each_from};
ghost use Rattle.ltm_session_editors.specs.Scripts.{batch_at, script_of};
ghost use Rattle.ltm_session_editors.specs.Faults.{IfMissing};
ghost use Rattle.ltm_units.specs.Bounds.{longest_file};

use crate::cutting::line_len;
use crate::fault::{EditsFault, LineCause};
use crate::script::Script;
use crate::text::Text;
use ltm_scenario::Batch;
use ltm_script::{Command, CommandFault, every_line_is_read, read_command};
use std::alloc::Global;

/// That a line of an editor's file is no batch.
fn bad_line(editor: u32, line: u32, cause: LineCause) -> EditsFault
    ensures { result ≡ EditsFault.BadLine editor line cause }
{
    EditsFault::BadLine {
        editor,
        line,
        cause,
    }
}

/// A line of an editor's file as a batch.
#[tactic(auto, unfolding(crate::specs::Scripts::batch_at))]
fn read_line(alloc: Global, editor: u32, line: u32, bytes: &[u8]) -> Result<Batch, EditsFault>
    ensures ok { IfOk result (λ batch. batch_at editor line bytes.now ≡ Ok batch) }
    ensures amounts { IfOk result HaveAmounts }
    ensures fault { IfErr result (λ e. (e ≡ EditsFault.NoMemory)
        ⊎ (batch_at editor line bytes.now ≡ Err e)) }
    ensures given { IfErr result (IfMissing ⊥) }
{
    match read_command(alloc, bytes) {
        Ok(Command::Edit(batch)) => return Ok(batch),
        Ok(_) => return Err(bad_line(editor, line, LineCause::NotEdit)),
        Err(CommandFault::NotJson) => return Err(bad_line(editor, line, LineCause::NotJson)),
        Err(CommandFault::NotCommand(place)) => {
            return Err(bad_line(editor, line, LineCause::NotCommand(place)));
        }
        Err(CommandFault::NoMemory) => return Err(EditsFault::NoMemory),
    }
}

/// The batches of all lines of an editor's file.
fn read_script(alloc: Global, editor: u32, text: &[u8]) -> Result<Script, EditsFault>
    requires { length text.now ≤ longest_file }
    ensures ok { IfOk result (λ script. script_of editor text.now ≡ Ok script) }
    ensures amounts { IfOk result (All HaveAmounts) }
    ensures fault { IfErr result (λ e. (e ≡ EditsFault.NoMemory)
        ⊎ (script_of editor text.now ≡ Err e)) }
    ensures given { IfErr result (IfMissing ⊥) }
{
    let mut batches = Vec::new(alloc);
    let mut line: u32 = 1;
    let mut at: usize = 0;
    while at < text.len() {
        let end = at + line_len(&text[at..]);
        match read_line(alloc, editor, line, &text[at..end]) {
            Ok(batch) => {
                if batches.push(batch).is_err() {
                    return Err(EditsFault::NoMemory);
                }
            }
            Err(fault) => return Err(fault),
        }
        at = end + 1;
        line += 1;
    }
    Ok(Script { batches })
}

/// The batches of all files, in order of editor.
pub(crate) fn read_scripts(alloc: Global, texts: &[Text]) -> Result<Vec<Script>, EditsFault>
    requires { length texts.now ≤ 8 }
    ensures ok { IfOk result (λ scripts. each_from script_of 1 texts.now ≡ Ok scripts.items) }
    ensures count { IfOk result (λ scripts. length scripts.items ≡ length texts.now) }
    ensures amounts { IfOk result (λ scripts. All (All HaveAmounts) scripts.items) }
    ensures fault { IfErr result (λ e. (e ≡ EditsFault.NoMemory)
        ⊎ (each_from script_of 1 texts.now ≡ Err e)) }
    ensures given { IfErr result (IfMissing ⊥) }
{
    let mut scripts = Vec::new(alloc);
    let mut editor: u32 = 1;
    for text in texts {
        match read_script(alloc, editor, text.bytes()) {
            Ok(script) => {
                if scripts.push(script).is_err() {
                    return Err(EditsFault::NoMemory);
                }
            }
            Err(fault) => return Err(fault),
        }
        editor += 1;
    }
    Ok(scripts)
}
