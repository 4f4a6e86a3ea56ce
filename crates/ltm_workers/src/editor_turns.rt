//! The turns of an editor that settles or ends: in each it makes one call of the core.
ghost use Rattle.std.specs.Prelude.{◌≡◌, ◌≤◌, [], ◌∷◌, ◌++◌, None, IfSome};
ghost use Rattle.ltm_flows.specs.Shown.{version_of};
ghost use Rattle.ltm_core.specs.declared.entry.LogEntry.TheVariants.{Mark};
ghost use Rattle.ltm_core.specs.Told.{told_of};
ghost use Rattle.ltm_turn.specs.Passes.{turn_id, editor_turn, editor_list, editor_seen, editor_workers};
ghost use Rattle.ltm_workers.specs.Beside.{CountsCommits, SettlesBeside};

use crate::events::{commit_pair, show_counts};
use crate::hints::Hints;
use ltm_core::{Claimed, Core, Done, Recomputed, Scratch, lists_tell_all};
use ltm_turn::{EditorPass, Turn};
use std::sync::Wait;

/// Computes a pair anew.
pub(crate) fn recompute_as_editor<R: Wait>(
    rt: &R,
    turn: &Turn<Core>,
    editor: EditorPass<Core>,
    scratch: &mut Scratch,
) -> (EditorPass<Core>, Recomputed)
    requires { editor_turn editor ≡ turn_id turn.now }
    ensures turn { (editor_turn result.0 ≡ turn_id turn.now)
        × (editor_workers result.0 ≡ editor_workers editor) }
    ensures list { editor_list result.0 ≡ editor_list editor }
    ensures seen { editor_seen editor ≤ editor_seen result.0 }
{
    lists_tell_all();
    let mut held = turn.take_editor(rt, editor);
    let found = held.get_mut().recompute(scratch);
    (turn.give_editor(held), found)
}

/// Claims a pair.
pub(crate) fn claim_as_editor<R: Wait>(
    rt: &R,
    turn: &Turn<Core>,
    editor: EditorPass<Core>,
    scratch: Scratch,
) -> (EditorPass<Core>, Claimed)
    requires { editor_turn editor ≡ turn_id turn.now }
    ensures turn { (editor_turn result.0 ≡ turn_id turn.now)
        × (editor_workers result.0 ≡ editor_workers editor) }
    ensures list { editor_list result.0 ≡ editor_list editor }
    ensures seen { editor_seen editor ≤ editor_seen result.0 }
{
    lists_tell_all();
    let mut held = turn.take_editor(rt, editor);
    let claimed = held.get_mut().claim(scratch);
    (turn.give_editor(held), claimed)
}

/// Commits a pair that was worked on.
pub(crate) fn commit_as_editor<R: Wait>(
    rt: &R,
    turn: &Turn<Core>,
    editor: EditorPass<Core>,
    done: Done,
) -> (EditorPass<Core>, Scratch)
    requires { editor_turn editor ≡ turn_id turn.now }
    ensures turn { (editor_turn result.0 ≡ turn_id turn.now)
        × (editor_workers result.0 ≡ editor_workers editor) }
    ensures list { editor_list result.0 ≡ editor_list editor }
    ensures seen { editor_seen editor ≤ editor_seen result.0 }
{
    let mut held = turn.take_editor(rt, editor);
    let scratch = commit_pair(held.get_mut(), done);
    (turn.give_editor(held), scratch)
}

/// Shows the working counts, where no pair is active or claimed.
pub(crate) fn show_as_editor<R: Wait>(
    rt: &R,
    turn: &Turn<Core>,
    editor: EditorPass<Core>,
) -> EditorPass<Core>
    requires { editor_turn editor ≡ turn_id turn.now }
    ensures turn { (editor_turn result ≡ turn_id turn.now)
        × (editor_workers result ≡ editor_workers editor) }
    ensures list { editor_list result ≡ editor_list editor }
    ensures seen { editor_seen editor ≤ editor_seen result }
{
    let mut held = turn.take_editor(rt, editor);
    show_counts(held.get_mut());
    turn.give_editor(held)
}

/// A settle's version and count.
#[derive(Clone, Copy)]
pub struct Settled {
    /// How many batches are settled.
    pub version: u64,
    /// How many pairs were committed since the settle before.
    pub count: u128,
}

/// The version and the commits since the last count, where all batches are shown; else the core is left as it is.
fn count_commits(core: &mut Core) -> Option<Settled>
    ensures none { result ≡ None → core.new ≡ core.old }
    ensures some { IfSome result (λ n. CountsCommits core.old n.version n.count core.new) }
    ensures shown { core.new.shown ≡ core.old.shown }
    ensures told { IfSome result (λ n. told_of core.new ≡ told_of core.old ++ Mark ∷ []) }
    ensures settles { IfSome result (λ n. SettlesBeside (told_of core.old) n.version n.count
        (told_of core.new) (version_of core.new.shown)) }
{
    lists_tell_all();
    core.facts();
    let version = core.version();
    let counted = core.settle_count();
    core.facts();
    match counted {
        Some(count) => return Some(Settled { version, count }),
        None => return None,
    }
}

/// Counts a settle, where all batches are shown.
pub(crate) fn count_as_editor<R: Wait>(
    rt: &R,
    turn: &Turn<Core>,
    editor: EditorPass<Core>,
) -> (EditorPass<Core>, Option<Settled>)
    requires { editor_turn editor ≡ turn_id turn.now }
    ensures turn { (editor_turn result.0 ≡ turn_id turn.now)
        × (editor_workers result.0 ≡ editor_workers editor) }
    ensures none { result.1 ≡ None → editor_list result.0 ≡ editor_list editor }
    ensures some { IfSome result.1 (λ n. SettlesBeside (editor_list editor) n.version n.count
        (editor_list result.0) (editor_seen result.0)) }
    ensures seen { editor_seen editor ≤ editor_seen result.0 }
{
    let mut held = turn.take_editor(rt, editor);
    match count_commits(held.get_mut()) {
        Some(settled) => return (turn.give_editor(held), Some(settled)),
        None => return (turn.give_editor(held), None),
    }
}

/// Stops the core, and calls all workers, so that each ends.
pub fn stop_beside<R: Wait>(
    rt: &R,
    turn: &Turn<Core>,
    hints: &Hints,
    editor: EditorPass<Core>,
) -> EditorPass<Core>
    requires { editor_turn editor ≡ turn_id turn.now }
    ensures turn { (editor_turn result ≡ turn_id turn.now)
        × (editor_workers result ≡ editor_workers editor) }
    ensures list { editor_list result ≡ editor_list editor }
    ensures seen { editor_seen editor ≤ editor_seen result }
{
    let mut held = turn.take_editor(rt, editor);
    held.get_mut().stop();
    let editor = turn.give_editor(held);
    hints.call_all(turn);
    editor
}
