//! The step of a post.
ghost use Rattle.std.specs.Prelude.{◌≡◌, ◌+◌, [], ◌∷◌, ◌++◌, drop, length, OnOk, OnErr};
ghost use Rattle.ltm_board.specs.Lists.{entries_of_posts, entries_of_batches, opening_of, IsSheetAfter};
ghost use Rattle.ltm_board.specs.Panels.{posts_of, IsRight, AllKeep};
ghost use Rattle.ltm_board.specs.Sheets.{links_on};

use crate::glimpse::Glimpse;
use crate::panel::{Panel, Posting};
use crate::rule::{BoardRule, Looks};
use crate::sheet::Sheet;
use left_right::writer::Writer;
use ltm_scenario::{Batch, edits_make};
use std::alloc::AllocError;
use std::sync::Wait;

pub type BoardWriter = Writer<Panel, Posting, Glimpse, BoardRule>;

/// Puts a post behind those that are shown. Where it is refused what is shown stays, and a posting may be left, which the next
/// one takes away.
pub(crate) fn post_on<R: Wait>(
    rt: &R,
    mut writer: BoardWriter,
    batches: Vec<Batch>,
    count: u64,
    sheet: Sheet,
) -> (BoardWriter, Result<(), AllocError>)
    requires right { IsRight writer.desk.shown.value }
    requires keeps { AllKeep (length writer.desk.shown.value.posts.items)
        (drop writer.behind writer.log.items) }
    requires sheet { IsSheetAfter (entries_of_posts (posts_of writer.desk.shown.value)
        ++ entries_of_batches batches.items) sheet }
    requires count { count + 1
        ≡ length (entries_of_posts (posts_of writer.desk.shown.value) ++ entries_of_batches batches.items) }
    ensures right { IsRight result.0.desk.shown.value }
    ensures keeps { AllKeep (length result.0.desk.shown.value.posts.items)
        (drop result.0.behind result.0.log.items) }
    ensures ok { OnOk result.1 (posts_of result.0.desk.shown.value
        ≡ posts_of writer.desk.shown.value ++ entries_of_batches batches.items ∷ []) }
    ensures err { OnErr result.1 (result.0.desk.shown.value ≡ writer.desk.shown.value) }
    ensures opening { opening_of (posts_of result.0.desk.shown.value)
        ≡ opening_of (posts_of writer.desk.shown.value) }
    ensures links { links_on result.0.desk.shown.value.sheet
        ≡ links_on writer.desk.shown.value.sheet }
{
    edits_make();
    let posting = Posting {
        keeps: writer.published().posts.len(),
        batches,
        count,
        sheet,
    };
    match writer.append(posting) {
        Ok(()) => return writer.publish_as::<Looks, R>(rt),
        Err(_) => return (writer, Err(AllocError)),
    }
}
