//! The whole text of several editors, from the files of a folder.
ghost use Rattle.std.specs.Prelude.{◌≡◌, ◌≤◌, ℕ, Ok, Err, IfOk, IfErr, IfSome, true, false};
ghost use Rattle.std.specs.List.{Contains};
ghost use Rattle.ltm_io.specs.declared.doc.Doc.{Doc};
ghost use Rattle.ltm_casefile.specs.Case.{is_case_file, asks_for};
ghost use Rattle.ltm_session_editors.specs.Files.{docs_of};
ghost use Rattle.ltm_session_editors.specs.Answers.{AnswersEditing, IsTold, IsUngiven, Missed};

use crate::editing::edit_scenario;
use crate::edits::read_edits;
use crate::refusal::EditorsRefusal;
use ltm_casefile::{CaseFault, read_kept_case};
use ltm_io::Folder;
use std::alloc::Global;
use std::sync::Wait;
use std::thread::Threads;

/// What so many editors, at most 8, make of the folder's case, as a text: a line for each call, in the order of their one
/// history, as `call 1 editor 2 accepted version 1`, and then the totals of the loading of the scenario that they leave.
///
/// The case is read first, as `read_kept_case` has it; then the files of edits are fetched and read, as `read_edits` has it; then each
/// editor makes a call of each line of its file, in a thread of its own where one can be made.
pub fn editing_text<R: Threads + Wait + Sync, F: Folder>(
    rt: &R,
    alloc: Global,
    editors: u32,
    folder: &mut F,
) -> Result<Vec<u8>, EditorsRefusal>
    requires { editors ≤ 8 }
    ensures text { IfOk result (λ text. AnswersEditing (F.told folder.old) editors
        (Ok text.items)) }
    ensures fault { IfErr result (λ e. IsTold e
        → AnswersEditing (F.told folder.old) editors (Err e)) }

    // A file is not given only where its count of faults rose in this call, and it is one of the case or of the edits.
    ensures missed { IfErr result (λ e. IsUngiven e
        → Missed (F.told folder.old) editors (F.faults folder.old) (F.faults folder.new)) }

    ensures keeps { F.told folder.new ≡ F.told folder.old }
    ensures later { (d : Doc) → F.faults folder.old d ≤ F.faults folder.new d }
    ensures others { (d : Doc) → is_case_file d ≡ false → (Contains (docs_of editors) d → ⊥)
        → F.faults folder.new d ≡ F.faults folder.old d }
    ensures unasked { IfSome (F.told folder.old) (λ files. (d : Doc) → asks_for files d ≡ false
        → (Contains (docs_of editors) d → ⊥)
        → F.faults folder.new d ≡ F.faults folder.old d) }
{
    let scenario = match read_kept_case(alloc, folder) {
        Ok(scenario) => scenario,
        Err(fault) => return Err(EditorsRefusal::Case(fault)),
    };
    let scripts = match read_edits(alloc, editors, folder) {
        Ok(scripts) => scripts,
        Err(fault) => return Err(EditorsRefusal::Edits(fault)),
    };
    match edit_scenario(rt, alloc, scenario, scripts) {
        Ok(text) => Ok(text),
        Err(_) => Err(EditorsRefusal::Case(CaseFault::NoMemory)),
    }
}
