//! A worker beside the editor.
ghost use Rattle.std.specs.Prelude.{◌≡◌, ◌≤◌};
ghost use Rattle.ltm_turn.specs.Passes.{turn_id, worker_turn, worker_seen};

use crate::events::Look;
use crate::gate::Gate;
use crate::hints::Hints;
use crate::idling::Idling;
use crate::turns::{Sight, commit_in_turn, look_in_turn, show_in_turn};
use ltm_core::{Claim, Claimed, Core, Scratch};
use ltm_turn::{Turn, WorkerPass};
use ltm_units::Steps;
use std::sync::Wait;

/// Makes the node step of a claimed pair with no turn held, and commits it in a turn.
fn finish<R: Wait, G: Gate>(
    rt: &R,
    turn: &Turn<Core>,
    pass: WorkerPass<Core>,
    gate: &G,
    claim: Claim,
) -> (WorkerPass<Core>, Scratch)
    requires { worker_turn pass ≡ turn_id turn.now }
    ensures turn { worker_turn result.0 ≡ turn_id turn.now }
    ensures seen { worker_seen pass ≤ worker_seen result.0 }
{
    gate.between(rt, claim.pair());
    let mut steps = Steps::new();
    commit_in_turn(rt, turn, pass, claim.work(&mut steps))
}

/// What became of a round.
enum Round {
    /// The core is stopped.
    Ended(Scratch),
    /// A pair was committed.
    Worked(Scratch),
    /// Another held the turn.
    Busy(Scratch),
    /// Claims are out, and no other pair of their slot has to be worked on.
    NothingFree(Scratch),
    /// No pair is active or claimed, and the working counts are shown.
    Rested(Scratch),
}

/// Looks for a pair, and works on it where there is one.
fn go_round<R: Wait, G: Gate>(
    rt: &R,
    turn: &Turn<Core>,
    pass: WorkerPass<Core>,
    gate: &G,
    scratch: Scratch,
    idling: &mut Idling,
) -> (WorkerPass<Core>, Round)
    requires { worker_turn pass ≡ turn_id turn.now }
    ensures turn { worker_turn result.0 ≡ turn_id turn.now }
    ensures seen { worker_seen pass ≤ worker_seen result.0 }
{
    let (pass, sight) = look_in_turn(turn, pass, scratch);
    match sight {
        Sight::Busy(scratch) => return (pass, Round::Busy(scratch)),
        Sight::Seen(Look::Stopped(scratch)) => return (pass, Round::Ended(scratch)),
        Sight::Seen(Look::Found(Claimed::Got(claim))) => {
            idling.after_claim(turn);
            let (pass, scratch) = finish(rt, turn, pass, gate, claim);
            return (pass, Round::Worked(scratch));
        }
        Sight::Seen(Look::Found(Claimed::NotYet(scratch))) => {
            return (pass, Round::NothingFree(scratch));
        }
        Sight::Seen(Look::Found(Claimed::Rest(scratch))) => {
            return (show_in_turn(rt, turn, pass), Round::Rested(scratch));
        }
    }
}

/// While it is called: claims pairs, works on them and commits them, and shows what is worked out where it finds rest, until the
/// core is stopped. In each held turn it makes one call of the core; each node step is made with no turn held.
///
/// Where claims are out and no pair is left to claim it looks again after a pause; where it is not called, and where the core
/// rests, it sleeps until it is told of news: so an editor that may wait for a line calls (`Hints::call_while_reading`), and whoever
/// stops the core calls all. Takes no memory.
pub fn work<R: Wait, G: Gate>(
    rt: &R,
    turn: &Turn<Core>,
    hints: &Hints,
    pass: WorkerPass<Core>,
    gate: &G,
    scratch: Scratch,
) -> (WorkerPass<Core>, Scratch)
    requires { worker_turn pass ≡ turn_id turn.now }
    ensures turn { worker_turn result.0 ≡ turn_id turn.now }
    ensures seen { worker_seen pass ≤ worker_seen result.0 }
{
    let mut idling = Idling::new();
    let mut pass = pass;
    let mut scratch = scratch;
    for _ in rt.forever() {
        if !idling.is_called(rt, turn, hints) {
            continue;
        }
        let news = idling.before_look(turn);
        let (after, round) = go_round(rt, turn, pass, gate, scratch, &mut idling);
        pass = after;
        match round {
            Round::Ended(last) => return (pass, last),
            Round::Worked(next) => {
                scratch = next;
                idling.after_work(hints);
            }
            Round::Busy(next) => {
                scratch = next;
                idling.after_busy_look();
            }
            Round::NothingFree(next) => {
                scratch = next;
                idling.after_vain_look(rt);
            }
            Round::Rested(next) => {
                scratch = next;
                idling.after_rest(rt, hints, news);
            }
        }
    }
    unreachable!()
}
