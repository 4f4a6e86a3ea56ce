//! What a board of one road is played with. Each function owns one thing, so that each is let go in one place.
ghost use Rattle.std.specs.Prelude.{◌≡◌, Ok};
ghost use Rattle.ltm_scenario.specs.Valid.{IsValid};
ghost use Rattle.ltm_scenario.specs.Edits.{edited_all};
ghost use Rattle.ltm_setting.specs.Setting.{setting_of};
ghost use Rattle.ltm_board.specs.Sheets.{links_on};
ghost use Rattle.ltm_board.specs.Lists.{IsLoadingOf};

use crate::posted::{edited, loading_of};
use crate::reads::{CLOSED, OPENING, Read};
use crate::roads::{Change, batch_of, scenario_of};
use crate::threads::{Played, play};
use ltm_board::{Board, Sheet, lists_lead};
use ltm_flows::Loading;
use ltm_scenario::{Batch, Scenario};
use ltm_setting::link_count;
use std::alloc::Global;
use std::sync::Wait;
use std::thread::Threads;

fn with_sheet<R: Threads + Wait + Sync>(
    rt: &R,
    alloc: Global,
    opening: &Scenario,
    first: &Loading,
    batch: &Batch,
    next: &Scenario,
    second: &Loading,
    sheet: &mut Sheet,
) -> Option<Played>
    requires first { IsLoadingOf opening.now first.now }
    requires edited { edited_all opening.now batch.now ≡ Ok next.now }
    requires second { IsLoadingOf next.now second.now }
    requires links { links_on sheet.old ≡ (setting_of opening.now).links }
{
    lists_lead();
    match Board::create(rt, alloc, opening, first) {
        Ok((mut board, mut viewer)) => {
            let played = play(rt, &mut board, &mut viewer, sheet, batch, next, second);
            board.close(rt, viewer);
            Some(played)
        }
        Err(_) => None,
    }
}

fn with_second<R: Threads + Wait + Sync>(
    rt: &R,
    alloc: Global,
    opening: &Scenario,
    first: &Loading,
    batch: &Batch,
    next: &Scenario,
    second: &Loading,
) -> Option<Played>
    requires first { IsLoadingOf opening.now first.now }
    requires edited { edited_all opening.now batch.now ≡ Ok next.now }
    requires second { IsLoadingOf next.now second.now }
{
    let mut sheet = Sheet::create(alloc, link_count(opening)).ok()?;
    with_sheet(rt, alloc, opening, first, batch, next, second, &mut sheet)
}

fn with_next<R: Threads + Wait + Sync>(
    rt: &R,
    alloc: Global,
    opening: &Scenario,
    first: &Loading,
    batch: &Batch,
    next: &Scenario,
) -> Option<Played>
    requires first { IsLoadingOf opening.now first.now }
    requires edited { edited_all opening.now batch.now ≡ Ok next.now }
{
    let second = loading_of(alloc, next)?;
    with_second(rt, alloc, opening, first, batch, next, &second)
}

fn with_batch<R: Threads + Wait + Sync>(
    rt: &R,
    alloc: Global,
    opening: &Scenario,
    first: &Loading,
    batch: &Batch,
) -> Option<Played>
    requires valid { IsValid opening.now }
    requires first { IsLoadingOf opening.now first.now }
{
    let next = edited(opening, batch)?;
    with_next(rt, alloc, opening, first, batch, &next)
}

fn with_first<R: Threads + Wait + Sync>(
    rt: &R,
    alloc: Global,
    opening: &Scenario,
    first: &Loading,
) -> Option<Played>
    requires valid { IsValid opening.now }
    requires first { IsLoadingOf opening.now first.now }
{
    let batch = batch_of(alloc, Change::CloseA)?;
    with_batch(rt, alloc, opening, first, &batch)
}

fn with_opening<R: Threads + Wait + Sync>(
    rt: &R,
    alloc: Global,
    opening: &Scenario,
) -> Option<Played>
    requires { IsValid opening.now }
{
    let first = loading_of(alloc, opening)?;
    with_first(rt, alloc, opening, &first)
}

/// The board of one road, whose entry is closed by a post.
fn played<R: Threads + Wait + Sync>(rt: &R, alloc: Global) -> Option<Played> {
    let opening = scenario_of(alloc)?;
    with_opening(rt, alloc, &opening)
}

/// Before a post and after it are read what is shown then; where the threads did not meet, the two in order.
fn is_in_order(played: &Played, after: Read) -> bool {
    let (older, newer) = (played.older, played.newer);
    if played.met || older != newer {
        older == OPENING && newer == after
    } else {
        older == OPENING || older == after
    }
}

/// What is read where a post may be refused: before it is made what was shown before it.
fn is_right(played: &Played) -> bool {
    let after = if played.at_once { CLOSED } else { OPENING };
    let end = if played.posted { CLOSED } else { OPENING };
    is_in_order(played, after) && played.last == end && played.own == end
}

#[test]
fn a_viewer_reads_an_older_and_then_a_newer_list(rt: HostRuntime) {
    let is_fine = match played(&rt, rt.alloc()) {
        Some(played) => is_right(&played) && played.at_once && played.posted,
        None => false,
    };
    assert!(rt; is_fine);
}

// With enough memory no post is refused; an allocation that fails shows the rest.
#[test]
fn a_refused_post_shows_nothing(rt: HostRuntime) {
    let is_fine = match played(&rt, rt.alloc()) {
        Some(played) => is_right(&played),
        None => true,
    };
    assert!(rt; is_fine);
}
