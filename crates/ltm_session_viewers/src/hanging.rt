//! How the boards of a view are hung.
ghost use Rattle.std.specs.Prelude.{◌≡◌, ◌≤◌, ◌<◌, IfOk};
ghost use Rattle.ltm_core.specs.Log.{version_now};
ghost use Rattle.ltm_board.specs.Boards.{board_list};
ghost use Rattle.ltm_board.specs.Lists.{entries_of_posts};
ghost use Rattle.ltm_session.specs.Answerers.{IsUnread};
ghost use Rattle.ltm_session_viewers.specs.Hung.{AllHave, board_hook, board_hooks, watch_hook, watch_hooks, how_many, shown_list};

use crate::boards::Boards;
use crate::stage::Stage;
use crate::watch::Watch;
use crate::watches::Watches;
use ltm_board::{Board, Sheet};
use ltm_core::{Core, Scratch, logs_tell_all};
use ltm_session::Script;
use ltm_setting::link_count;
use ltm_units::NoMemory;
use std::alloc::Global;
use std::sync::Wait;

/// A board with the loading that a core shows, which has accepted nothing, and its viewer.
fn hang_one<R: Wait>(rt: &R, alloc: Global, core: &Core) -> Result<(Board, Watch), NoMemory>
    requires { version_now core.now.log ≡ 0 }
    ensures list { IfOk result (λ r. entries_of_posts (board_list r.0) ≡ shown_list core.now) }
    ensures hook { IfOk result (λ r. watch_hook r.1 ≡ board_hook r.0) }
{
    logs_tell_all();
    core.facts();
    let links = link_count(core.scenario());
    let sheet = Sheet::create(alloc, links)?;
    let spare = Sheet::create(alloc, links)?;
    let (board, viewer) = Board::create(rt, alloc, core.scenario(), core.shown())?;
    Ok((
        board,
        Watch {
            viewer,
            sheet,
            spare,
        },
    ))
}

/// A board for each of so many viewers, one or two, and the viewers.
fn hang<R: Wait>(
    rt: &R,
    alloc: Global,
    core: &Core,
    viewers: u32,
) -> Result<(Boards, Watches), NoMemory>
    requires few { (0 < viewers) × (viewers ≤ 2) }
    requires fresh { version_now core.now.log ≡ 0 }
    ensures lists { IfOk result (λ r. AllHave r.0 (shown_list core.now)) }
    ensures hooks { IfOk result (λ r. (watch_hooks r.1 ≡ board_hooks r.0)
        × (how_many (board_hooks r.0) ≡ viewers)) }
{
    let (board, watch) = hang_one(rt, alloc, core)?;
    if viewers == 1 {
        let boards = Boards {
            first: board,
            second: None,
        };
        let watches = Watches {
            first: watch,
            second: None,
        };
        return Ok((boards, watches));
    }
    match hang_one(rt, alloc, core) {
        Ok((next_board, next_watch)) => {
            let boards = Boards {
                first: board,
                second: Some(next_board),
            };
            let watches = Watches {
                first: watch,
                second: Some(next_watch),
            };
            return Ok((boards, watches));
        }
        Err(fault) => {
            drop(watch);
            board.end(rt);
            return Err(fault);
        }
    }
}

/// Takes all memory that a view needs beside its answers and its posts.
pub(crate) fn take_stage<R: Wait>(
    rt: &R,
    alloc: Global,
    core: &Core,
    viewers: u32,
) -> Result<(Stage, Watches), NoMemory>
    requires few { (0 < viewers) × (viewers ≤ 2) }
    requires fresh { version_now core.now.log ≡ 0 }
    ensures unread { IfOk result (λ r. IsUnread r.0.script) }
    ensures lists { IfOk result (λ r. AllHave r.0.boards (shown_list core.now)) }
    ensures hooks { IfOk result (λ r. (watch_hooks r.1 ≡ board_hooks r.0.boards)
        × (how_many (board_hooks r.0.boards) ≡ viewers)) }
{
    let script = Script::create(alloc)?;
    let scratch = core.scratch()?;
    let (boards, watches) = hang(rt, alloc, core, viewers)?;
    let stage = Stage {
        alloc,
        script,
        scratch,
        boards,
    };
    Ok((stage, watches))
}
