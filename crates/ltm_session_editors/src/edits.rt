//! All edits of all editors.
ghost use Rattle.std.specs.Prelude.{◌≡◌, ◌≤◌, ◌⊎◌, ℕ, length, Ok, Err, IfOk, IfErr, IfSome, All};
ghost use Rattle.std.specs.List.{Contains};
ghost use Rattle.ltm_io.specs.Faults.{Rose};
ghost use Rattle.ltm_io.specs.declared.doc.Doc.{Doc};
ghost use Rattle.ltm_scenario.specs.Edits.{HaveAmounts};
ghost use Rattle.ltm_session_editors.specs.Files.{docs_of};
ghost use Rattle.ltm_session_editors.specs.Scripts.{scripts_in, scripts_of};
ghost use Rattle.ltm_session_editors.specs.Faults.{Agrees, IfMissing};

use crate::cutting::are_many;
use crate::fault::EditsFault;
use crate::fetching::{all_files, fetch_texts};
use crate::reading::read_scripts;
use crate::script::Script;
use crate::text::Text;
use ltm_io::Folder;
use std::alloc::Global;

/// The batches that the texts say: first their lines are counted, then they are read.
fn read_texts(alloc: Global, texts: &[Text]) -> Result<Vec<Script>, EditsFault>
    requires { length texts.now ≤ 8 }
    ensures ok { IfOk result (λ scripts. scripts_in texts.now ≡ Ok scripts.items) }
    ensures count { IfOk result (λ scripts. length scripts.items ≡ length texts.now) }
    ensures amounts { IfOk result (λ scripts. All (All HaveAmounts) scripts.items) }
    ensures fault { IfErr result (λ e. (e ≡ EditsFault.NoMemory) ⊎ (scripts_in texts.now ≡ Err e)) }
    ensures given { IfErr result (IfMissing ⊥) }
{
    if are_many(texts) {
        return Err(EditsFault::TooMany);
    }
    read_scripts(alloc, texts)
}

/// The batches of so many editors, at most 8: the lines of `edits1.jsonl` are those of editor 1, and so on. Or what is wrong
/// first: a file that is not given or is too long, by editor; then that one has too many lines; then the first line that is
/// no batch of edits, by editor and line.
#[tactic(auto, unfolding(crate::specs::Scripts::scripts_of))]
pub fn read_edits<F: Folder>(
    alloc: Global,
    editors: u32,
    folder: &mut F,
) -> Result<Vec<Script>, EditsFault>
    requires { editors ≤ 8 }
    ensures ok { IfOk result (λ scripts. IfSome (F.told folder.old)
        (λ files. scripts_of files editors ≡ Ok scripts.items)) }
    ensures count { IfOk result (λ scripts. length scripts.items ≡ editors) }

    // Each amount is within what a scenario asks for.
    ensures amounts { IfOk result (λ scripts. All (All HaveAmounts) scripts.items) }

    ensures fault { IfErr result (λ e. IfSome (F.told folder.old)
        (λ files. Agrees (scripts_of files editors) e)) }

    // A file is not given only where its count of faults rose in this call, and it is an editor's.
    ensures missed { IfErr result (IfMissing ((d : Doc) × Contains (docs_of editors) d
        × Rose (F.faults folder.old d) (F.faults folder.new d))) }

    ensures keeps { F.told folder.new ≡ F.told folder.old }
    ensures later { (d : Doc) → F.faults folder.old d ≤ F.faults folder.new d }
    ensures others { (d : Doc) → (Contains (docs_of editors) d → ⊥)
        → F.faults folder.new d ≡ F.faults folder.old d }
{
    let files = all_files();
    let texts = match fetch_texts(alloc, folder, &files[..editors as usize]) {
        Ok(texts) => texts,
        Err(fault) => return Err(fault),
    };
    read_texts(alloc, texts.as_slice())
}
