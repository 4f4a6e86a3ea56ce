//! The end that posts: how a board is made, posts, is read by its owner, tells its viewer, and ends.
ghost use Rattle.std.specs.Prelude.{◌≡◌, ◌+◌, ◌++◌, [], ◌∷◌, length, OnOk, OnErr, IfOk};
ghost use Rattle.ltm_core.specs.Setting.{setting_of};
ghost use Rattle.ltm_board.specs.Sheets.{links_on};
ghost use Rattle.ltm_board.specs.Lists.{opening_posts, entries_of_posts, entries_of_batches, LeadsTo, IsLoadingOf, IsSheetAfter};
ghost use Rattle.ltm_board.specs.Panels.{posts_of, IsRight};
ghost use Rattle.ltm_board.specs.Boards.{board_opening, board_list, board_sheet, board_links, viewer_opening, viewer_lists, viewer_links, note_list};

use crate::note::Note;
use crate::opening::{open, seat};
use crate::panel::{Panel, copies};
use crate::posting::{BoardWriter, post_on};
use crate::sheet::Sheet;
use crate::told::Told;
use crate::viewer::Viewer;
use ltm_flows::Loading;
use ltm_scenario::{Batch, Scenario, edits_make};
use ltm_units::NoMemory;
use std::alloc::Global;
use std::marker::Model;
use std::mem;
use std::snapshot::Snapshot;
use std::sync::Wait;

/// The end that posts. Contracts see its list, post by post, and its sheet. It is not `Drop`: end it by `close`.
///
/// ```text
/// Board::create --> board, viewer          board --- post --> board
///
/// board --- note --> a note                viewer --- read --> a sheet, a length
///                       '---- learn by the viewer
/// board, viewer --- close
/// ```
pub struct Board {
    writer: Option<BoardWriter>,
}

impl Model for Board {
    ghost use Rattle.std.specs.Prelude.{◌≡◌, true, is_some, [], length, drop, IfSome};
    ghost use Rattle.ltm_board.specs.Panels.{posts_of, IsRight, AllKeep};
    ghost use Rattle.ltm_board.specs.Boards.{BoardData, of_some, no_sheet};

    ghost Value = { BoardData };

    ghost view = { λ b. record { list = of_some [] (λ w. posts_of w.desk.shown.value) b.writer; sheet = of_some no_sheet (λ w. w.desk.shown.value.sheet) b.writer } };

    ghost invariant = { λ b. (is_some b.writer ≡ true) × IfSome b.writer (λ w. IsRight w.desk.shown.value × AllKeep (length w.desk.shown.value.posts.items) (drop w.behind w.log.items)) };
}

impl Board {
    /// A board on which the loading of an opening scenario is shown, and its viewer, which has been told of it.
    pub fn create<R: Wait>(
        rt: &R,
        alloc: Global,
        opening: &Scenario,
        loading: &Loading,
    ) -> Result<(Board, Viewer), NoMemory>
        requires { IsLoadingOf opening.now loading.now }
        ensures list { IfOk result (λ r. (board_list r.0 ≡ opening_posts opening.now)
            × (viewer_lists r.1 ≡ opening_posts opening.now ∷ [])) }
        ensures sheet { IfOk result (λ r. IsSheetAfter (entries_of_posts (board_list r.0))
            (board_sheet r.0)) }
        ensures links { IfOk result (λ r. (board_links r.0 ≡ (setting_of opening.now).links)
            × (viewer_links r.1 ≡ (setting_of opening.now).links)) }
        ensures one { IfOk result (λ r. viewer_opening r.1 ≡ board_opening r.0) }
    {
        edits_make();
        let sheet = Sheet::of(alloc, loading)?;
        let copy = sheet.try_copy()?;
        let mut writer = open(rt, alloc, opening, sheet, copy)?;
        match seat(&mut writer) {
            Ok(reader) => {
                let told = Told::Then(Snapshot::of(writer.published()), Snapshot::of(&Told::None));
                let viewer = Viewer::of(reader, told);
                let board = Board {
                    writer: Some(writer),
                };
                return Ok((board, viewer));
            }
            Err(_) => {
                drop(writer.take(rt));
                return Err(NoMemory);
            }
        }
    }

    // What is shown.
    fn shown(&self) -> &Panel
        ensures right { IsRight result.now }
        ensures list { posts_of result.now ≡ board_list self.now }
        ensures sheet { result.now.sheet ≡ board_sheet self.now }
    {
        let Some(writer) = &self.writer else {
            unreachable!()
        };
        writer.published()
    }

    /// Puts batches last and shows the sheet of the loading after them, as one post: whoever reads finds all of it or nothing.
    /// Or it shows what it showed. It may wait for a read of its viewer.
    pub fn post<R: Wait>(
        &mut self,
        rt: &R,
        batches: &[Batch],
        scenario: &Scenario,
        loading: &Loading,
    ) -> Result<(), NoMemory>
        requires leads { LeadsTo (entries_of_posts (board_list self.old)
            ++ entries_of_batches batches.now) scenario.now }
        requires loading { IsLoadingOf scenario.now loading.now }
        // All batches are one post, behind those before it.
        ensures list { OnOk result (board_list self.new
            ≡ board_list self.old ++ entries_of_batches batches.now ∷ []) }
        ensures sheet { OnOk result (IsSheetAfter (entries_of_posts (board_list self.new))
            (board_sheet self.new)) }
        ensures refused { OnErr result ((board_list self.new ≡ board_list self.old)
            × (board_sheet self.new ≡ board_sheet self.old)) }
        ensures board { (board_opening self.new ≡ board_opening self.old)
            × (board_links self.new ≡ board_links self.old) }
    {
        let _after = scenario;
        let panel = self.shown();
        let Some(count) = panel.count.checked_add(batches.len() as u64) else {
            return Err(NoMemory);
        };
        let alloc = panel.sheet.allocator();
        let copied = copies(alloc, batches)?;
        let sheet = Sheet::of(alloc, loading)?;
        let Some(writer) = self.writer.take() else {
            unreachable!()
        };
        let (writer, done) = post_on(rt, writer, copied, count, sheet);
        let before = mem::replace(&mut self.writer, Some(writer));
        let None = before else { unreachable!() };
        match done {
            Ok(()) => return Ok(()),
            Err(_) => return Err(NoMemory),
        }
    }

    /// Gives the sheet that is shown, and answers how many batches are in its list. It asks nobody, and takes no memory.
    pub fn sheet(&self, into: &mut Sheet) -> u64
        requires { links_on into.old ≡ board_links self.now }
        ensures sheet { into.new ≡ board_sheet self.now }
        ensures right { IsSheetAfter (entries_of_posts (board_list self.now)) into.new }
        ensures count { result + 1 ≡ length (entries_of_posts (board_list self.now)) }
    {
        let panel = self.shown();
        into.copy_from(&panel.sheet);
        panel.count
    }

    /// The posts that are published.
    pub fn note(&self) -> Note<'_>
        ensures { note_list result ≡ board_list self.now }
    {
        Note {
            panel: self.shown(),
        }
    }

    /// Ends a board. It may wait for a read of its viewer; a viewer that reads afterwards waits for ever.
    pub fn end<R: Wait>(self, rt: &R) {
        let Board { writer } = self;
        let Some(writer) = writer else { unreachable!() };
        drop(writer.take(rt));
    }

    /// Ends a board and its viewer.
    pub fn close<R: Wait>(self, rt: &R, viewer: Viewer) {
        drop(viewer);
        self.end(rt);
    }
}
