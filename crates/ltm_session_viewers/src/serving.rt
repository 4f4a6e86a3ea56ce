//! A script that is served while what it settles is posted.
ghost use Rattle.std.specs.Prelude.{◌≡◌, ◌≤◌};
ghost use Rattle.ltm_io.specs.Faults.{Rose};
ghost use Rattle.ltm_session_viewers.specs.Serving.{IsSet, ServesPosting};

use crate::boards::Boards;
use crate::news::News;
use crate::stage::Stage;
use crate::viewed::Viewed;
use ltm_core::{Core, Scratch};
use ltm_io::{Sink, Source};
use ltm_session::{SessionEnd, serve_lines};
use std::sync::Wait;

/// Lets buffers go.
fn let_go(_scratch: Scratch) {}

/// Does nothing. The check ties a reference that came back to the one that was lent where it is used, and so knows then
/// what that one leaves.
fn take_back<T>(back: &mut T)
    ensures { back.new ≡ back.old }
{}

/// Serves a script, says how that ends, and tells the viewers that it is at its end.
pub(crate) fn serve_and_end<R: Wait, S: Source, W: Sink>(
    rt: &R,
    news: &News,
    core: &mut Core,
    stage: Stage,
    source: &mut S,
    sink: &mut W,
) -> (Boards, SessionEnd)
    requires set { IsSet core.old stage }
    ensures serves { ServesPosting core.old stage (S.left source.old) (S.left source.new) result.1
        (W.written sink.old) (W.written sink.new) core.new result.0 }
    ensures read_fault { result.1 ≡ SessionEnd.ReadFault
        → Rose (S.faults source.old) (S.faults source.new) }
    ensures write_fault { result.1 ≡ SessionEnd.WriteFault
        → Rose (W.faults sink.old) (W.faults sink.new) }
    ensures later { W.faults sink.old ≤ W.faults sink.new }
{
    let Stage {
        alloc,
        script,
        scratch,
        boards,
    } = stage;
    let viewed = Viewed {
        rt,
        alloc,
        news,
        core,
        scratch,
        boards,
    };
    let (viewed, end) = serve_lines(viewed, script, source, sink);
    let Viewed {
        rt: _,
        alloc: _,
        news: _,
        core,
        scratch,
        boards,
    } = viewed;
    let_go(scratch);
    take_back(core);
    news.tell_end();
    (boards, end)
}
