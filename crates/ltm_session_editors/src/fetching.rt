//! The files of edits as they come from the folder.
ghost use Rattle.std.specs.Prelude.{◌≡◌, ◌≢◌, ◌≤◌, ℕ, length, Ok, Err, IfOk, IfErr, IfSome};
ghost use Rattle.std.specs.List.{Contains};
ghost use Rattle.ltm_io.specs.Faults.{Rose};
ghost use Rattle.ltm_io.specs.declared.doc.Doc.{Doc};
ghost use Rattle.ltm_session_editors.specs.Each.{each_from};
ghost use Rattle.ltm_session_editors.specs.Files.{sized, text_at, all_docs, docs_of};
ghost use Rattle.ltm_session_editors.specs.Faults.{Agrees, IfMissing};

use crate::fault::EditsFault;
use crate::text::Text;
use ltm_io::{Doc, Fetched, Folder};
use std::alloc::Global;

/// The most bytes that a file of edits may have.
const MOST: u64 = 16_777_216;

/// The bytes of an editor's file.
fn fetch_text<F: Folder>(
    alloc: Global,
    folder: &mut F,
    editor: u32,
    doc: Doc,
) -> Result<Text, EditsFault>
    ensures ok { IfOk result (λ text. IfSome (F.told folder.old) (λ files. sized editor (files doc)
        ≡ Ok text)) }
    ensures fault { IfErr result (λ e. IfSome (F.told folder.old)
        (λ files. Agrees (sized editor (files doc)) e)) }
    ensures missed { IfErr result (IfMissing
        (Rose (F.faults folder.old doc) (F.faults folder.new doc))) }
    ensures keeps { F.told folder.new ≡ F.told folder.old }
    ensures later { (d : Doc) → F.faults folder.old d ≤ F.faults folder.new d }
    ensures others { (d : Doc) → d ≢ doc → F.faults folder.new d ≡ F.faults folder.old d }
{
    let mut bytes = Vec::new(alloc);
    match folder.fetch(doc, &mut bytes, MOST) {
        Fetched::Found => Ok(Text { bytes }),
        Fetched::TooLong => Err(EditsFault::TooLong(editor)),
        Fetched::Failed => Err(EditsFault::Missing(editor)),
        Fetched::NoMemory => Err(EditsFault::NoMemory),
    }
}

/// The bytes of these files, of which each is an editor's, in order.
pub(crate) fn fetch_texts<F: Folder>(
    alloc: Global,
    folder: &mut F,
    docs: &[Doc],
) -> Result<Vec<Text>, EditsFault>
    requires { length docs.now ≤ 8 }
    ensures ok { IfOk result (λ texts. IfSome (F.told folder.old)
        (λ files. each_from (text_at files) 1 docs.now ≡ Ok texts.items)) }
    ensures count { IfOk result (λ texts. length texts.items ≡ length docs.now) }
    ensures fault { IfErr result (λ e. IfSome (F.told folder.old)
        (λ files. Agrees (each_from (text_at files) 1 docs.now) e)) }
    ensures missed { IfErr result (IfMissing ((d : Doc) × Contains docs.now d
        × Rose (F.faults folder.old d) (F.faults folder.new d))) }
    ensures keeps { F.told folder.new ≡ F.told folder.old }
    ensures later { (d : Doc) → F.faults folder.old d ≤ F.faults folder.new d }
    ensures others { (d : Doc) → (Contains docs.now d → ⊥)
        → F.faults folder.new d ≡ F.faults folder.old d }
{
    let mut texts = Vec::new(alloc);
    let mut editor: u32 = 1;
    for doc in docs {
        match fetch_text(alloc, folder, editor, *doc) {
            Ok(text) => {
                if texts.push(text).is_err() {
                    return Err(EditsFault::NoMemory);
                }
            }
            Err(fault) => return Err(fault),
        }
        editor += 1;
    }
    Ok(texts)
}

/// The files that editors may have.
pub(crate) fn all_files() -> [Doc; 8]
    ensures { result ≡ all_docs }
{
    [
        Doc::Edits1,
        Doc::Edits2,
        Doc::Edits3,
        Doc::Edits4,
        Doc::Edits5,
        Doc::Edits6,
        Doc::Edits7,
        Doc::Edits8,
    ]
}
