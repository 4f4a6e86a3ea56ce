//! The steps of a viewer.
ghost use Rattle.std.specs.Prelude.{◌≡◌, ◌+◌, true, length, IsTrue, MatchResult};
ghost use mathlib.Core.List.{IsPrefix};
ghost use Rattle.left_right.specs.Sides.{view};
ghost use Rattle.ltm_board.specs.Sheets.{links_on};
ghost use Rattle.ltm_board.specs.Lists.{entries_of_posts, opening_of, links_told, is_opened, IsSheetAfter};
ghost use Rattle.ltm_board.specs.Panels.{posts_of};
ghost use Rattle.ltm_board.specs.Looks.{HasRead};

use crate::glimpse::Glimpse;
use crate::panel::Panel;
use crate::rule::{BoardRule, Looks};
use crate::same::begins_with;
use crate::sheet::Sheet;
use crossbeam_utils::Backoff;
use left_right::reader::Reader;
use ltm_scenario::edits_make;
use std::snapshot::Snapshot;
use std::sync::Wait;

pub type BoardReader = Reader<Panel, Glimpse, BoardRule>;

/// How many batches a look found, and in proofs alone what it found.
#[derive(Drop)]
pub struct Found {
    pub count: u64,
    pub panel: Snapshot<Panel>,
}

// One look, which gives the sheet.
fn read_once(reader: BoardReader, into: &mut Sheet) -> Result<(Found, BoardReader), BoardReader>
    requires opened { is_opened (entries_of_posts (opening_of (view reader.place).seen)) ≡ true }
    requires links { links_on into.old ≡ links_told (entries_of_posts (opening_of (view reader.place).seen)) }
    ensures read { MatchResult result (λ r. HasRead (view reader.place).seen
        (view r.1.place).seen r.0 into.new) (λ r. view r.place ≡ view reader.place) }
    ensures links { links_on into.new ≡ links_on into.old }
{
    edits_make();
    let reading = reader.enter_as::<Looks>()?;
    let panel = reading.get();
    into.copy_from(&panel.sheet);
    let found = Found {
        count: panel.count,
        panel: Snapshot::of(panel),
    };
    Ok((found, reading.leave()))
}

/// Looks until the board lets it in, which it does at once unless it has ended.
pub(crate) fn read_in<R: Wait>(
    rt: &R,
    mut reader: BoardReader,
    into: &mut Sheet,
) -> (Found, BoardReader)
    requires opened { is_opened (entries_of_posts (opening_of (view reader.place).seen)) ≡ true }
    requires links { links_on into.old ≡ links_told (entries_of_posts (opening_of (view reader.place).seen)) }
    ensures read { HasRead (view reader.place).seen (view result.1.place).seen result.0 into.new }
    ensures links { links_on into.new ≡ links_on into.old }
{
    let backoff = Backoff::new();
    for _ in rt.forever() {
        match read_once(reader, into) {
            Ok(done) => return done,
            Err(back) => reader = back,
        }
        backoff.snooze();
    }
    unreachable!()
}

// One look, and whether the posts that were found begin with those of a note.
fn find_once(reader: BoardReader, note: &Panel) -> (bool, BoardReader)
    requires opened { is_opened (entries_of_posts (opening_of (view reader.place).seen)) ≡ true }
    requires opening { opening_of (posts_of note.now) ≡ opening_of (view reader.place).seen }
    ensures begins { IsPrefix (view reader.place).seen (view result.1.place).seen }
    ensures found { IsTrue result.0 → IsPrefix (posts_of note.now) (view result.1.place).seen }
{
    match reader.enter_as::<Looks>() {
        Ok(reading) => {
            let found = begins_with(&reading.get().posts, &note.posts);
            (found, reading.leave())
        }
        Err(back) => (false, back),
    }
}

/// Looks until the posts begin with those of a note, as they do at the first look where the note is of this board.
pub(crate) fn find_in<R: Wait>(rt: &R, mut reader: BoardReader, note: &Panel) -> BoardReader
    requires opened { is_opened (entries_of_posts (opening_of (view reader.place).seen)) ≡ true }
    requires opening { opening_of (posts_of note.now) ≡ opening_of (view reader.place).seen }
    ensures begins { IsPrefix (view reader.place).seen (view result.place).seen }
    ensures found { IsPrefix (posts_of note.now) (view result.place).seen }
{
    let backoff = Backoff::new();
    for _ in rt.forever() {
        let (found, back) = find_once(reader, note);
        if found {
            return back;
        }
        reader = back;
        backoff.snooze();
    }
    unreachable!()
}
