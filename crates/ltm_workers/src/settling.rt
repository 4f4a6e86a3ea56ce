//! A settle beside workers.
ghost use Rattle.std.specs.Prelude.{◌≡◌, ◌≤◌};
ghost use Rattle.ltm_turn.specs.Passes.{turn_id, editor_turn, editor_list, editor_seen, editor_workers};
ghost use Rattle.ltm_workers.specs.Beside.{SettlesBeside};

use crate::calling::Calling;
use crate::editor_turns::{
    Settled, claim_as_editor, commit_as_editor, count_as_editor, recompute_as_editor,
    show_as_editor,
};
use crate::hints::Hints;
use ltm_core::{Claimed, Core, Recomputed, Scratch};
use ltm_turn::{EditorPass, Turn};
use ltm_units::Steps;
use std::sync::Wait;

/// What an editor settles with beside workers: its buffers, and what it has seen of workers that it called.
#[derive(Drop)]
pub struct Settler {
    scratch: Scratch,
    calling: Calling,
}

impl Settler {
    /// Of an editor that has not settled yet.
    pub fn new(scratch: Scratch) -> Settler {
        Settler {
            scratch,
            calling: Calling::new(),
        }
    }
}

/// Claims a pair, works on it with no turn held, and commits it, as a worker does.
fn share_as_editor<R: Wait>(
    rt: &R,
    turn: &Turn<Core>,
    editor: EditorPass<Core>,
    scratch: Scratch,
) -> (EditorPass<Core>, Scratch, Recomputed)
    requires { editor_turn editor ≡ turn_id turn.now }
    ensures turn { (editor_turn result.0 ≡ turn_id turn.now)
        × (editor_workers result.0 ≡ editor_workers editor) }
    ensures list { editor_list result.0 ≡ editor_list editor }
    ensures seen { editor_seen editor ≤ editor_seen result.0 }
{
    let (editor, claimed) = claim_as_editor(rt, turn, editor, scratch);
    match claimed {
        Claimed::Got(claim) => {
            let pair = claim.pair();
            let mut steps = Steps::new();
            let done = claim.work(&mut steps);
            let (editor, scratch) = commit_as_editor(rt, turn, editor, done);
            return (editor, scratch, Recomputed::Done(pair));
        }
        Claimed::NotYet(scratch) => return (editor, scratch, Recomputed::NotYet),
        Claimed::Rest(scratch) => return (editor, scratch, Recomputed::Rest),
    }
}

/// Makes a pair, where there is one: beside workers that are called as they do, else in one turn.
fn make_pair<R: Wait>(
    rt: &R,
    turn: &Turn<Core>,
    editor: EditorPass<Core>,
    scratch: Scratch,
    together: bool,
) -> (EditorPass<Core>, Scratch, Recomputed)
    requires { editor_turn editor ≡ turn_id turn.now }
    ensures turn { (editor_turn result.0 ≡ turn_id turn.now)
        × (editor_workers result.0 ≡ editor_workers editor) }
    ensures list { editor_list result.0 ≡ editor_list editor }
    ensures seen { editor_seen editor ≤ editor_seen result.0 }
{
    if together {
        return share_as_editor(rt, turn, editor, scratch);
    }
    let mut scratch = scratch;
    let (editor, found) = recompute_as_editor(rt, turn, editor, &mut scratch);
    (editor, scratch, found)
}

/// Settles beside workers: makes pairs until none is active or claimed, shows what is worked out, and counts. It computes each
/// pair anew while workers sleep; where slots and rows are wide it calls them, and claims, works and commits as they do. In each
/// held turn it makes one call of the core. Takes no memory.
pub fn settle_beside<R: Wait>(
    rt: &R,
    turn: &Turn<Core>,
    hints: &Hints,
    editor: EditorPass<Core>,
    settler: Settler,
) -> (EditorPass<Core>, Settler, Settled)
    requires { editor_turn editor ≡ turn_id turn.now }
    ensures turn { (editor_turn result.0 ≡ turn_id turn.now)
        × (editor_workers result.0 ≡ editor_workers editor) }
    ensures settled { SettlesBeside (editor_list editor) result.2.version result.2.count
        (editor_list result.0) (editor_seen result.0) }
{
    let Settler {
        scratch,
        mut calling,
    } = settler;
    calling.alone(hints);
    let mut editor = editor;
    let mut scratch = scratch;
    for _ in rt.forever() {
        let (after, next, found) = make_pair(rt, turn, editor, scratch, calling.is_together());
        scratch = next;
        match found {
            Recomputed::Done(pair) => {
                editor = after;
                calling.after_pair(turn, hints, pair.slot, scratch.width());
            }
            Recomputed::NotYet => {
                editor = after;
                calling.after_vain_look();
            }
            Recomputed::Rest => {
                let shown = show_as_editor(rt, turn, after);
                let (after, counted) = count_as_editor(rt, turn, shown);
                editor = after;
                if let Some(settled) = counted {
                    calling.alone(hints);
                    return (editor, Settler { scratch, calling }, settled);
                }
            }
        }
    }
    unreachable!()
}
