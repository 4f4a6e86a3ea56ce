//! A session at which viewers look on.
ghost use Rattle.std.specs.Prelude.{◌≡◌, ◌≢◌, ◌≤◌, ◌<◌, ℕ, List, [], Some, None, IfSome, IsSomeAnd};
ghost use Rattle.std.specs.Thread.{IsSync};
ghost use Rattle.ltm_io.specs.Faults.{Rose};
ghost use Rattle.ltm_core.specs.Log.{version_now};
ghost use Rattle.ltm_session.specs.Analysts.{state_of, opening_of};
ghost use Rattle.ltm_session.specs.Session.{Wrote, end_of};
ghost use Rattle.ltm_session_viewers.specs.Hung.{board_hooks, watch_hooks, how_many};
ghost use Rattle.ltm_session_viewers.specs.Serving.{IsSet, ServesPosting, Views};
ghost use Rattle.ltm_session_viewers.specs.View.{IsView};

use crate::boards::Boards;
use crate::hanging::take_stage;
use crate::news::News;
use crate::serving::serve_and_end;
use crate::stage::Stage;
use crate::telling::push_last;
use crate::watches::Watches;
use crate::watching::look_all;
use ltm_core::Core;
use ltm_io::{Sink, Source};
use ltm_session::SessionEnd;
use std::alloc::Global;
use std::sync::Wait;
use std::thread::{Threads, join_mut};

/// Serves a script while all viewers look on in other threads; where none can be made they look at the end alone.
fn serve_watched<R: Threads + Wait + Sync, S: Source, W: Sink>(
    rt: &R,
    core: &mut Core,
    stage: Stage,
    watches: &mut Watches,
    source: &mut S,
    sink: &mut W,
) -> (Boards, SessionEnd)
    requires set { IsSet core.old stage }
    ensures serves { ServesPosting core.old stage (S.left source.old) (S.left source.new) result.1
        (W.written sink.old) (W.written sink.new) core.new result.0 }
    ensures read_fault { result.1 ≡ SessionEnd.ReadFault
        → Rose (S.faults source.old) (S.faults source.new) }
    ensures write_fault { result.1 ≡ SessionEnd.WriteFault
        → Rose (W.faults sink.old) (W.faults sink.new) }
    ensures later { W.faults sink.old ≤ W.faults sink.new }
    ensures watches { watch_hooks watches.new ≡ watch_hooks watches.old }
{
    let news = News::new();
    let mut waiting = Some(stage);
    let (_looked, (boards, end)) = join_mut(
        rt,
        &mut || -> ()
            requires { IsSync R.row }
            ensures { watch_hooks watches.exit.now ≡ watch_hooks watches.entry.now }
        { look_all(rt, &news, watches) },
        &mut || -> (Boards, SessionEnd)
            requires { IsSync R.row × IsSomeAnd waiting (λ stage. IsSet core.now stage) }
            ensures none { waiting.exit ≡ None }
            ensures serves { IfSome waiting.entry (λ stage. ServesPosting core.entry.now stage
                (S.left source.entry.now) (S.left source.exit.now) result.1
                (W.written sink.entry.now) (W.written sink.exit.now) core.exit.now result.0) }
            ensures read_fault { result.1 ≡ SessionEnd.ReadFault
                → Rose (S.faults source.entry.now) (S.faults source.exit.now) }
            ensures write_fault { result.1 ≡ SessionEnd.WriteFault
                → Rose (W.faults sink.entry.now) (W.faults sink.exit.now) }
            ensures later { W.faults sink.entry.now ≤ W.faults sink.exit.now }
        {
            let Some(stage) = waiting.take() else {
                unreachable!()
            };
            serve_and_end(rt, &news, core, stage, source, sink)
        },
    );
    let None = waiting else { unreachable!() };
    (boards, end)
}

/// Serves a script while viewers look on, and lets them tell at its end what is shown.
fn view_from<R: Threads + Wait + Sync, S: Source, W: Sink>(
    rt: &R,
    core: &mut Core,
    stage: Stage,
    watches: &mut Watches,
    source: &mut S,
    sink: &mut W,
) -> (Boards, SessionEnd)
    requires set { IsSet core.old stage }
    requires hooks { watch_hooks watches.old ≡ board_hooks stage.boards }
    ensures view { Views (how_many (board_hooks stage.boards)) core.old (S.left source.old)
        (S.left source.new) result.1 (W.written sink.old) (W.written sink.new) core.new }
    ensures read_fault { result.1 ≡ SessionEnd.ReadFault
        → Rose (S.faults source.old) (S.faults source.new) }
    ensures write_fault { result.1 ≡ SessionEnd.WriteFault
        → Rose (W.faults sink.old) (W.faults sink.new) }
    ensures later { W.faults sink.old ≤ W.faults sink.new }
{
    let alloc = stage.alloc;
    let (boards, end) = serve_watched(rt, core, stage, watches, source, sink);
    match end {
        SessionEnd::Ended => {
            let told = push_last(rt, alloc, core, &boards, watches, sink);
            return (boards, told);
        }
        _ => return (boards, end),
    }
}

/// Serves a script without workers, as `serve_alone` does, while one or two viewers look on: each finished loading that a settle
/// shows is posted on a board for each of them, which it reads in a thread of its own. At the end of the script each viewer
/// learns what its board has published, reads once more, and tells the totals of what it read.
///
/// The core has accepted nothing, as `Core::create` gives it. It is left with the log of the lines that were answered, and
/// shows what was settled last. A post for which there is no memory ends it with `NoMemory`.
pub fn view<R: Threads + Wait + Sync, S: Source, W: Sink>(
    rt: &R,
    alloc: Global,
    core: &mut Core,
    viewers: u32,
    source: &mut S,
    sink: &mut W,
) -> SessionEnd
    requires few { (0 < viewers) × (viewers ≤ 2) }
    requires fresh { version_now core.old.log ≡ 0 }
    // What was answered and told, what was written of it, how that ended, and the log, what is shown and how many settles
    // were counted then.
    ensures view { (output : List ℕ)
        × IsView viewers (opening_of core.old) (S.left source.old) (S.left source.new) result output
        (state_of core.new)
        × Wrote result (W.written sink.old) (W.written sink.new) output }
    // Where nothing failed, it ended as the script says.
    ensures end { (script : List ℕ) → S.left source.old ≡ Some script
        → result ≢ SessionEnd.ReadFault → result ≢ SessionEnd.WriteFault
        → result ≢ SessionEnd.NoMemory → result ≡ end_of script }
    ensures read { (script : List ℕ) → S.left source.old ≡ Some script → result ≡ SessionEnd.Ended
        → S.left source.new ≡ Some [] }
    // A fault of the outside is told only where a count of faults rose.
    ensures read_fault { result ≡ SessionEnd.ReadFault
        → Rose (S.faults source.old) (S.faults source.new) }
    ensures write_fault { result ≡ SessionEnd.WriteFault
        → Rose (W.faults sink.old) (W.faults sink.new) }
    ensures later { W.faults sink.old ≤ W.faults sink.new }
{
    core.facts();
    match take_stage(rt, alloc, core, viewers) {
        Ok((stage, mut watches)) => {
            let (boards, end) = view_from(rt, core, stage, &mut watches, source, sink);
            drop(watches);
            boards.end(rt);
            return end;
        }
        Err(_) => return SessionEnd::NoMemory,
    }
}
