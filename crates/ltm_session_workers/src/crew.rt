//! An editor and its workers.
ghost use Rattle.std.specs.Prelude.{◌≡◌, ◌+◌, ◌≤◌, ℕ, List, None, IfSome, IsSomeAnd};
ghost use Rattle.std.specs.Thread.{IsSync};
ghost use Rattle.ltm_io.specs.Faults.{Rose};
ghost use Rattle.ltm_turn.specs.Passes.{turn_id, editor_turn, worker_turn, editor_list, editor_seen, editor_workers};
ghost use Rattle.ltm_session.specs.Answerers.{IsUnread};
ghost use Rattle.ltm_session_workers.specs.Beside.{SessionBeside, ReadsAll};

use crate::beside::Beside;
use crate::place::Place;
use ltm_core::{Core, Scratch};
use ltm_io::{Sink, Source};
use ltm_session::{Script, SessionEnd, serve_lines};
use ltm_turn::{EditorPass, WorkerPass};
use ltm_workers::{Gate, Settler, stop_beside, work};
use std::sync::Wait;
use std::thread::{Threads, join_mut};

/// What an editor and its workers work with: all memory but that of answers is taken before.
#[derive(Drop)]
pub(crate) struct Gear {
    pub(crate) script: Script,
    pub(crate) scratch: Scratch,
    pub(crate) scratches: Vec<Scratch>,
}

/// An editor, and what it and its workers work with.
pub(crate) struct Outfit {
    pub(crate) editor: EditorPass<Core>,
    pub(crate) gear: Gear,
}

/// Answers all lines of a script beside workers, and then stops the core, so that they end.
fn edit<R: Wait, S: Source, W: Sink>(
    place: &Place<R>,
    outfit: Outfit,
    source: &mut S,
    sink: &mut W,
) -> (EditorPass<Core>, SessionEnd)
    requires turn { editor_turn outfit.editor ≡ turn_id place.now.turn.now }
    requires unread { IsUnread outfit.gear.script }
    ensures turn { (editor_turn result.0 ≡ turn_id place.now.turn.now)
        × (editor_workers result.0 ≡ editor_workers outfit.editor) }
    ensures session { SessionBeside (S.left source.old) (S.left source.new) result.1
        (W.written sink.old) (W.written sink.new) (editor_list outfit.editor)
        (editor_seen outfit.editor) (editor_list result.0) (editor_seen result.0) }
    ensures read_fault { result.1 ≡ SessionEnd.ReadFault
        → Rose (S.faults source.old) (S.faults source.new) }
    ensures write_fault { result.1 ≡ SessionEnd.WriteFault
        → Rose (W.faults sink.old) (W.faults sink.new) }
    ensures read { ReadsAll (S.left source.old) result.1 (S.left source.new) }
    ensures later { W.faults sink.old ≤ W.faults sink.new }
{
    let Outfit { editor, gear } = outfit;
    let Gear {
        script,
        scratch,
        scratches: _,
    } = gear;
    let beside = Beside {
        place,
        editor,
        settler: Settler::new(scratch),
    };
    let (beside, end) = serve_lines(beside, script, source, sink);
    let Beside {
        place: _,
        editor,
        settler: _,
    } = beside;
    let editor = stop_beside(place.rt, place.turn, place.hints, editor);
    (editor, end)
}

/// Starts the workers one after another, and is the editor beside them; at the end it stops the core. A worker for which no
/// thread can be made runs last, in this one, and ends at once.
pub(crate) fn crew<R: Threads + Wait + Sync, S: Source, W: Sink, G: Gate>(
    place: &Place<R>,
    workers: u32,
    outfit: Outfit,
    source: &mut S,
    sink: &mut W,
    gate: &G,
) -> (EditorPass<Core>, SessionEnd)
    requires turn { editor_turn outfit.editor ≡ turn_id place.now.turn.now }
    requires room { editor_workers outfit.editor + workers ≤ 64 }
    requires unread { IsUnread outfit.gear.script }
    ensures turn { (editor_turn result.0 ≡ turn_id place.now.turn.now)
        × (editor_workers result.0 ≡ editor_workers outfit.editor) }
    ensures session { SessionBeside (S.left source.old) (S.left source.new) result.1
        (W.written sink.old) (W.written sink.new) (editor_list outfit.editor)
        (editor_seen outfit.editor) (editor_list result.0) (editor_seen result.0) }
    ensures read_fault { result.1 ≡ SessionEnd.ReadFault
        → Rose (S.faults source.old) (S.faults source.new) }
    ensures write_fault { result.1 ≡ SessionEnd.WriteFault
        → Rose (W.faults sink.old) (W.faults sink.new) }
    ensures read { ReadsAll (S.left source.old) result.1 (S.left source.new) }
    ensures later { W.faults sink.old ≤ W.faults sink.new }
{
    if workers == 0 {
        return edit(place, outfit, source, sink);
    }
    let Outfit { editor, mut gear } = outfit;
    let Some(idle) = gear.scratches.pop() else {
        return edit(place, Outfit { editor, gear }, source, sink);
    };
    let mut editor = editor;
    let (rt, turn, hints) = (place.rt, place.turn, place.hints);
    let pass = turn.split(&mut editor);
    let rest = workers - 1;
    let mut hand = Some((pass, idle));
    let mut outfit = Some(Outfit { editor, gear });
    let ((worker, _idle), (mut editor, end)) = join_mut(
        rt,
        &mut || -> (WorkerPass<Core>, Scratch)
            requires { IsSync R.row × IsSync G.row
                × IsSomeAnd hand (λ p. worker_turn p.0 ≡ turn_id turn.now) }
            ensures { (worker_turn result.0 ≡ turn_id turn.entry.now) × (hand.exit ≡ None) }
        {
            let Some((pass, idle)) = hand.take() else {
                unreachable!()
            };
            work(rt, turn, hints, pass, gate, idle)
        },
        &mut || -> (EditorPass<Core>, SessionEnd)
            requires { IsSync R.row × IsSync G.row
                × IsSomeAnd outfit (λ d. (editor_turn d.editor ≡ turn_id place.now.turn.now)
                × (editor_workers d.editor + rest ≤ 64)
                × IsUnread d.gear.script) }
            ensures none { outfit.exit ≡ None }
            ensures turn { IfSome outfit.entry
                (λ d. (editor_turn result.0 ≡ turn_id place.entry.now.turn.now)
                × (editor_workers result.0 ≡ editor_workers d.editor)) }
            ensures session { IfSome outfit.entry
                (λ d. SessionBeside (S.left source.entry.now) (S.left source.exit.now) result.1
                (W.written sink.entry.now) (W.written sink.exit.now)
                (editor_list d.editor) (editor_seen d.editor)
                (editor_list result.0) (editor_seen result.0)) }
            ensures read_fault { result.1 ≡ SessionEnd.ReadFault
                → Rose (S.faults source.entry.now) (S.faults source.exit.now) }
            ensures write_fault { result.1 ≡ SessionEnd.WriteFault
                → Rose (W.faults sink.entry.now) (W.faults sink.exit.now) }
            ensures read { ReadsAll (S.left source.entry.now) result.1 (S.left source.exit.now) }
            ensures later { W.faults sink.entry.now ≤ W.faults sink.exit.now }
        {
            let Some(outfit) = outfit.take() else {
                unreachable!()
            };
            crew(place, rest, outfit, source, sink, gate)
        },
    );
    let None = hand else { unreachable!() };
    let None = outfit else { unreachable!() };
    turn.join(&mut editor, worker);
    (editor, end)
}
