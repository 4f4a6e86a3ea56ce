//! Posts on all boards.
ghost use Rattle.std.specs.Prelude.{◌≡◌, ◌⊎◌, ◌++◌, ◌≤◌, length, drop, OnOk, IfErr};
ghost use Rattle.ltm_flows.specs.Shown.{version_of};
ghost use Rattle.ltm_core.specs.Log.{version_now};
ghost use Rattle.ltm_board.specs.Lists.{entries_of_posts, entries_of_batches, LeadsTo, IsLoadingOf};
ghost use Rattle.ltm_board.specs.Boards.{board_list};
ghost use Rattle.ltm_session_viewers.specs.Hung.{AllHave, board_hooks, first_of, shown_list};

use crate::boards::Boards;
use crate::news::News;
use ltm_board::lists_lead;
use ltm_core::{Core, logs_tell_all};
use ltm_flows::Loading;
use ltm_scenario::{Batch, Scenario};
use ltm_session::SessionEnd;
use ltm_units::NoMemory;
use std::sync::Wait;

/// Posts batches and the loading after them on all boards.
fn post_all<R: Wait>(
    rt: &R,
    boards: &mut Boards,
    batches: &[Batch],
    scenario: &Scenario,
    loading: &Loading,
) -> Result<(), NoMemory>
    requires alike { AllHave boards.old (entries_of_posts (board_list boards.old.first)) }
    requires leads { LeadsTo (entries_of_posts (board_list boards.old.first)
        ++ entries_of_batches batches.now) scenario.now }
    requires loading { IsLoadingOf scenario.now loading.now }
    ensures ok { OnOk result (AllHave boards.new (entries_of_posts (board_list boards.old.first)
        ++ entries_of_batches batches.now)) }
    ensures hooks { board_hooks boards.new ≡ board_hooks boards.old }
{
    let Boards { first, second } = boards;
    first.post(rt, batches, scenario, loading)?;
    match second {
        Some(board) => board.post(rt, batches, scenario, loading),
        None => Ok(()),
    }
}

/// The batches after the first so many.
fn after(batches: &[Batch], count: u64) -> &[Batch]
    requires { count ≤ length batches.now }
    ensures { result.now ≡ drop count batches.now }
{
    &batches[count as usize..]
}

/// Posts the loading that is shown, where it is newer than that of the first so many batches, and tells the viewers.
pub(crate) fn post_newer<R: Wait>(
    rt: &R,
    news: &News,
    core: &Core,
    before: u64,
    boards: &mut Boards,
) -> Result<(), SessionEnd>
    requires posted { AllHave boards.old (first_of core.now.log before) }
    requires few { before ≤ version_now core.now.log }
    requires newer { (version_of core.now.shown ≡ before)
        ⊎ (version_of core.now.shown ≡ version_now core.now.log) }
    ensures ok { OnOk result (AllHave boards.new (shown_list core.now)) }
    ensures end { IfErr result (λ end. end ≡ SessionEnd.NoMemory) }
    ensures hooks { board_hooks boards.new ≡ board_hooks boards.old }
{
    logs_tell_all();
    lists_lead();
    core.facts();
    let loading = core.shown();
    if loading.version() == before {
        return Ok(());
    }
    let batches = after(core.accepted(), before);
    post_all(rt, boards, batches, core.scenario(), loading)?;
    news.tell_post();
    Ok(())
}
