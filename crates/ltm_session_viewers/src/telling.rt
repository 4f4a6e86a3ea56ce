//! What viewers tell at the end of the script.
ghost use Rattle.std.specs.Prelude.{◌≡◌, ◌⊎◌, ◌++◌, ◌≤◌, ℕ, List, OnOk, Err};
ghost use Rattle.ltm_io.specs.Faults.{Rose};
ghost use Rattle.ltm_board.specs.Boards.{board_list};
ghost use Rattle.ltm_board.specs.Lists.{entries_of_posts};
ghost use Rattle.ltm_session.specs.Analysts.{state_of};
ghost use Rattle.ltm_session.specs.Answers.{ReportsShown};
ghost use Rattle.ltm_session_viewers.specs.Hung.{AllHave, board_hook, board_hooks, watch_hook, watch_hooks, how_many, shown_list};
ghost use Rattle.ltm_session_viewers.specs.Lines.{ViewersTell, viewer_report};
ghost use Rattle.ltm_session_viewers.specs.Serving.{TellsLast};

use crate::boards::Boards;
use crate::texts::viewer_text;
use crate::watch::Watch;
use crate::watches::Watches;
use crate::watching::look_last;
use ltm_board::{Board, lists_lead};
use ltm_core::{Core, logs_tell_all};
use ltm_io::Sink;
use ltm_session::{SessionEnd, write_answer};
use ltm_units::NoMemory;
use std::alloc::Global;
use std::sync::Wait;

/// Appends what one viewer tells of the loading that the core shows.
fn push_one<R: Wait>(
    rt: &R,
    alloc: Global,
    core: &Core,
    number: u32,
    board: &Board,
    watch: &mut Watch,
    into: &mut Vec<u8>,
) -> Result<(), NoMemory>
    requires hook { watch_hook watch.old ≡ board_hook board.now }
    requires posted { entries_of_posts (board_list board.now) ≡ shown_list core.now }
    ensures { OnOk result ((line : List ℕ)
        × ReportsShown (state_of core.now) (viewer_report number) line
        × (into.new.items ≡ into.old.items ++ line)) }
{
    logs_tell_all();
    lists_lead();
    core.facts();
    let _shown = core.shown();
    let count = look_last(rt, board, watch);
    viewer_text(alloc, number, count, watch.sheet.totals(), into)
}

/// Appends what all viewers tell of the loading that the core shows.
pub(crate) fn push_all<R: Wait>(
    rt: &R,
    alloc: Global,
    core: &Core,
    boards: &Boards,
    watches: &mut Watches,
    into: &mut Vec<u8>,
) -> Result<(), NoMemory>
    requires hooks { watch_hooks watches.old ≡ board_hooks boards.now }
    requires posted { AllHave boards.now (shown_list core.now) }
    ensures { OnOk result ((lines : List ℕ)
        × ViewersTell (how_many (board_hooks boards.now)) (state_of core.now) lines
        × (into.new.items ≡ into.old.items ++ lines)) }
{
    push_one(rt, alloc, core, 1, &boards.first, &mut watches.first, into)?;
    match (&boards.second, &mut watches.second) {
        (Some(board), Some(watch)) => push_one(rt, alloc, core, 2, board, watch, into),
        _ => Ok(()),
    }
}

/// Writes what all viewers tell at the end of a script.
pub(crate) fn push_last<R: Wait, W: Sink>(
    rt: &R,
    alloc: Global,
    core: &Core,
    boards: &Boards,
    watches: &mut Watches,
    sink: &mut W,
) -> SessionEnd
    requires hooks { watch_hooks watches.old ≡ board_hooks boards.now }
    requires posted { AllHave boards.now (shown_list core.now) }
    ensures tells { TellsLast (how_many (board_hooks boards.now)) (state_of core.now) result
        (W.written sink.old) (W.written sink.new) }
    ensures later { W.faults sink.old ≤ W.faults sink.new }
    ensures fault { result ≡ SessionEnd.WriteFault → Rose (W.faults sink.old) (W.faults sink.new) }
{
    let mut text = Vec::new(alloc);
    let Ok(()) = push_all(rt, alloc, core, boards, watches, &mut text) else {
        return SessionEnd::NoMemory;
    };
    match write_answer(text.as_slice(), sink) {
        Ok(()) => SessionEnd::Ended,
        Err(end) => end,
    }
}
