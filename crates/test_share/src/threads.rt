//! A viewer in a thread of its own, and what it and its board read before and after a post.
ghost use Rattle.std.specs.Prelude.{◌≡◌, ◌++◌, [], ◌∷◌, true, false};
ghost use Rattle.std.specs.Thread.{IsSync};
ghost use Rattle.ltm_board.specs.Sheets.{links_on};
ghost use Rattle.ltm_board.specs.Lists.{IsLoadingOf, LeadsTo, entries_of_posts, entries_of_batches};
ghost use Rattle.ltm_board.specs.Boards.{board_opening, board_list, board_links, viewer_opening, viewer_links};

use crate::reads::{Read, read_of};
use crate::signs::Sign;
use ltm_board::{Board, Sheet, Viewer};
use ltm_flows::Loading;
use ltm_scenario::{Batch, Scenario};
use std::slice;
use std::sync::Wait;
use std::thread::{Threads, join_mut};

/// One read.
fn look<R: Wait>(rt: &R, viewer: &mut Viewer, sheet: &mut Sheet) -> Read
    requires { links_on sheet.old ≡ viewer_links viewer.old }
    ensures viewer { (viewer_opening viewer.new ≡ viewer_opening viewer.old) × (viewer_links viewer.new ≡ viewer_links viewer.old) }
    ensures sheet { links_on sheet.new ≡ links_on sheet.old }
{
    let length = viewer.read(rt, sheet);
    read_of(length, sheet)
}

/// What the viewer reads before the board is let on, and what it reads once that has posted, or once it has waited too long.
fn look_twice<R: Wait>(
    rt: &R,
    looked: &Sign,
    posted: &Sign,
    viewer: &mut Viewer,
    sheet: &mut Sheet,
) -> [Read; 2]
    requires { links_on sheet.old ≡ viewer_links viewer.old }
    ensures viewer { (viewer_opening viewer.new ≡ viewer_opening viewer.old) × (viewer_links viewer.new ≡ viewer_links viewer.old) }
    ensures sheet { links_on sheet.new ≡ links_on sheet.old }
{
    let older = look(rt, viewer, sheet);
    looked.give();
    posted.wait();
    [older, look(rt, viewer, sheet)]
}

/// Posts once the viewer has looked, or once the board has waited too long; whether there was memory.
fn post_between<R: Wait>(
    rt: &R,
    looked: &Sign,
    posted: &Sign,
    board: &mut Board,
    batch: &Batch,
    scenario: &Scenario,
    loading: &Loading,
) -> bool
    requires leads { LeadsTo (entries_of_posts (board_list board.old) ++ entries_of_batches (batch.now ∷ [])) scenario.now }
    requires loading { IsLoadingOf scenario.now loading.now }
    ensures board { (board_opening board.new ≡ board_opening board.old) × (board_links board.new ≡ board_links board.old) }
    ensures refused { result ≡ false → board_list board.new ≡ board_list board.old }
{
    looked.wait();
    let done = board.post(rt, slice::from_ref(batch), scenario, loading);
    posted.give();
    done.is_ok()
}

/// What was read before a post and after it, in another thread; after the note of a post; and of the board itself.
#[derive(Clone, Copy, Debug, PartialEq, Eq)]
pub struct Played {
    /// Neither waited for the other in vain: the viewer looked before the post, and again after it.
    pub met: bool,
    pub older: Read,
    pub newer: Read,
    pub last: Read,
    pub own: Read,
    /// The first post was not refused.
    pub at_once: bool,
    /// Nor, where it was, the second.
    pub posted: bool,
}

/// A viewer reads in another thread while the board posts a batch, which it posts again where there was no memory; then it
/// learns the board's note and reads once more.
pub fn play<R: Threads + Wait + Sync>(
    rt: &R,
    board: &mut Board,
    viewer: &mut Viewer,
    sheet: &mut Sheet,
    batch: &Batch,
    scenario: &Scenario,
    loading: &Loading,
) -> Played
    requires one { viewer_opening viewer.old ≡ board_opening board.old }
    requires links { (links_on sheet.old ≡ viewer_links viewer.old) × (viewer_links viewer.old ≡ board_links board.old) }
    requires leads { LeadsTo (entries_of_posts (board_list board.old) ++ entries_of_batches (batch.now ∷ [])) scenario.now }
    requires loading { IsLoadingOf scenario.now loading.now }
    ensures { viewer_opening viewer.new ≡ board_opening board.new }
{
    let looked = Sign::new();
    let posted = Sign::new();
    let ([older, newer], at_once) = join_mut(
        rt,
        &mut || -> [Read; 2]
            requires { IsSync R.row × (links_on sheet.now ≡ viewer_links viewer.now) }
            ensures viewer { (viewer_opening viewer.exit.now ≡ viewer_opening viewer.entry.now) × (viewer_links viewer.exit.now ≡ viewer_links viewer.entry.now) }
            ensures sheet { links_on sheet.exit.now ≡ links_on sheet.entry.now }
        { look_twice(rt, &looked, &posted, viewer, sheet) },
        &mut || -> bool
            requires { IsSync R.row × LeadsTo (entries_of_posts (board_list board.now) ++ entries_of_batches (batch.now ∷ [])) scenario.now × IsLoadingOf scenario.now loading.now }
            ensures board { (board_opening board.exit.now ≡ board_opening board.entry.now) × (board_links board.exit.now ≡ board_links board.entry.now) }
            ensures refused { result ≡ false → board_list board.exit.now ≡ board_list board.entry.now }
        { post_between(rt, &looked, &posted, board, batch, scenario, loading) },
    );
    let met = looked.is_met() && posted.is_met();
    let done = at_once
        || board
            .post(rt, slice::from_ref(batch), scenario, loading)
            .is_ok();
    viewer.learn(rt, board.note());
    let last = look(rt, viewer, sheet);
    let length = board.sheet(sheet);
    Played {
        met,
        older,
        newer,
        last,
        own: read_of(length, sheet),
        at_once,
        posted: done,
    }
}
