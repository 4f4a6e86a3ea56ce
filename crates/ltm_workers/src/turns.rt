//! The turns of a worker: in each it makes one event of the core.
ghost use Rattle.std.specs.Prelude.{◌≡◌, ◌≤◌};
ghost use Rattle.ltm_turn.specs.Passes.{turn_id, worker_turn, worker_seen};

use crate::events::{Look, claim_pair, commit_pair, show_counts};
use ltm_core::{Core, Done, Scratch};
use ltm_turn::{Turn, WorkerPass};
use std::sync::Wait;

/// What became of a turn in which a worker looks for a pair.
pub(crate) enum Sight {
    /// Another holds the turn.
    Busy(Scratch),
    /// The worker held it.
    Seen(Look),
}

/// Looks for a pair, where nobody holds the turn.
pub(crate) fn look_in_turn(
    turn: &Turn<Core>,
    pass: WorkerPass<Core>,
    scratch: Scratch,
) -> (WorkerPass<Core>, Sight)
    requires { worker_turn pass ≡ turn_id turn.now }
    ensures turn { worker_turn result.0 ≡ turn_id turn.now }
    ensures seen { worker_seen pass ≤ worker_seen result.0 }
{
    match turn.try_take_worker(pass) {
        Ok(held) => {
            let mut held = held;
            let seen = claim_pair(held.get_mut(), scratch);
            return (turn.give_worker(held), Sight::Seen(seen));
        }
        Err(pass) => return (pass, Sight::Busy(scratch)),
    }
}

/// Commits a pair.
pub(crate) fn commit_in_turn<R: Wait>(
    rt: &R,
    turn: &Turn<Core>,
    pass: WorkerPass<Core>,
    done: Done,
) -> (WorkerPass<Core>, Scratch)
    requires { worker_turn pass ≡ turn_id turn.now }
    ensures turn { worker_turn result.0 ≡ turn_id turn.now }
    ensures seen { worker_seen pass ≤ worker_seen result.0 }
{
    let mut held = turn.take_worker(rt, pass);
    let scratch = commit_pair(held.get_mut(), done);
    (turn.give_worker(held), scratch)
}

/// Shows the working counts, where no pair is active or claimed.
pub(crate) fn show_in_turn<R: Wait>(
    rt: &R,
    turn: &Turn<Core>,
    pass: WorkerPass<Core>,
) -> WorkerPass<Core>
    requires { worker_turn pass ≡ turn_id turn.now }
    ensures turn { worker_turn result ≡ turn_id turn.now }
    ensures seen { worker_seen pass ≤ worker_seen result }
{
    let mut held = turn.take_worker(rt, pass);
    show_counts(held.get_mut());
    turn.give_worker(held)
}
