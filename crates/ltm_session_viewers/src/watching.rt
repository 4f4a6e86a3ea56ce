//! What viewers do while the script goes on, and what each knows at its end.
ghost use Rattle.std.specs.Prelude.{◌≡◌, ◌+◌, length};
ghost use Rattle.std.specs.Thread.{IsSync};
ghost use Rattle.ltm_board.specs.Lists.{entries_of_posts, IsSheetAfter};
ghost use Rattle.ltm_board.specs.Boards.{board_list};
ghost use Rattle.ltm_session_viewers.specs.Hung.{board_hook, watch_hook, watch_hooks};

use crate::news::News;
use crate::watch::Watch;
use crate::watches::Watches;
use ltm_board::Board;
use std::sync::Wait;
use std::thread::{Threads, join_mut};

/// Reads once.
fn look<R: Wait>(rt: &R, watch: &mut Watch)
    ensures { watch_hook watch.new ≡ watch_hook watch.old }
{
    let Watch {
        viewer,
        sheet,
        spare: _,
    } = watch;
    viewer.read(rt, sheet);
}

/// Reads at first, and then whenever a loading was posted, until the script is at its end.
pub(crate) fn look_on<R: Wait>(rt: &R, news: &News, watch: &mut Watch)
    ensures { watch_hook watch.new ≡ watch_hook watch.old }
{
    for _ in rt.forever() {
        let heard = news.heard();
        look(rt, watch);
        if news.has_ended() {
            return;
        }
        news.listen(rt, heard);
    }
    unreachable!()
}

/// Two viewers look on, each in a thread of its own; where none can be made the first looks at the end alone.
fn look_both<R: Threads + Wait + Sync>(rt: &R, news: &News, first: &mut Watch, second: &mut Watch)
    ensures first { watch_hook first.new ≡ watch_hook first.old }
    ensures second { watch_hook second.new ≡ watch_hook second.old }
{
    join_mut(
        rt,
        &mut || -> ()
            requires { IsSync R.row }
            ensures { watch_hook first.exit.now ≡ watch_hook first.entry.now }
        { look_on(rt, news, first) },
        &mut || -> ()
            requires { IsSync R.row }
            ensures { watch_hook second.exit.now ≡ watch_hook second.entry.now }
        { look_on(rt, news, second) },
    );
}

/// All viewers look on until the script is at its end.
pub(crate) fn look_all<R: Threads + Wait + Sync>(rt: &R, news: &News, watches: &mut Watches)
    ensures { watch_hooks watches.new ≡ watch_hooks watches.old }
{
    let Watches { first, second } = watches;
    match second {
        Some(second) => look_both(rt, news, first, second),
        None => look_on(rt, news, first),
    }
}

/// Learns what its board has published, and reads once more. The sheet is that of this read where the list that was read is
/// as long as the board's own, else it is the one that the board itself gives. Answers how many batches the list has.
pub(crate) fn look_last<R: Wait>(rt: &R, board: &Board, watch: &mut Watch) -> u64
    requires { watch_hook watch.old ≡ board_hook board.now }
    ensures sheet { IsSheetAfter (entries_of_posts (board_list board.now)) watch.new.sheet }
    ensures count { result + 1 ≡ length (entries_of_posts (board_list board.now)) }
    ensures watch { watch_hook watch.new ≡ watch_hook watch.old }
{
    let Watch {
        viewer,
        sheet,
        spare,
    } = watch;
    let count = board.sheet(spare);
    viewer.learn(rt, board.note());
    let read = viewer.read(rt, sheet);
    if read != count {
        sheet.copy_from(spare);
    }
    count
}
