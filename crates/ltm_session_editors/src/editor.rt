//! What one editor does: each batch of its script in a take of its own.
ghost use Rattle.std.specs.Prelude.{◌≡◌, ◌++◌, ◌∷◌, [], OnOk, All};
ghost use Rattle.std.specs.List.{Contains};
ghost use Rattle.ltm_scenario.specs.Edits.{HaveAmounts};
ghost use Rattle.ltm_editors.specs.Seats.{desk_id, seat_place, seat_seen, held_place, held_value};
ghost use Rattle.ltm_session_editors.specs.Histories.{batches_by};

use crate::script::Script;
use ltm_editors::{Desk, Held, Office, Seat};
use ltm_scenario::Batch;
use ltm_units::NoMemory;
use std::sync::Wait;

/// Makes one call, whatever it is answered.
fn ask(held: &mut Held<Office>, batch: Batch) -> Result<(), NoMemory>
    requires { HaveAmounts batch }
    ensures put { OnOk result (batches_by (held_place held.old).number (held_value held.new).history
        ≡ batches_by (held_place held.old).number (held_value held.old).history ++ batch ∷ []) }
    ensures place { held_place held.new ≡ held_place held.old }
{
    match held.accept(batch) {
        Ok(_verdict) => return Ok(()),
        Err((_batch, fault)) => return Err(fault),
    }
}

/// Makes one call, in a take of its own.
fn call<R: Wait>(
    rt: &R,
    desk: &Desk<Office>,
    seat: Seat<Office>,
    batch: Batch,
) -> (Seat<Office>, Result<(), NoMemory>)
    requires desk { (seat_place seat).desk ≡ desk_id desk.now }
    requires own { Contains (seat_place seat).numbers (seat_place seat).number }
    requires amounts { HaveAmounts batch }
    ensures place { seat_place result.0 ≡ seat_place seat }
    ensures put { OnOk result.1 (batches_by (seat_place seat).number (seat_seen result.0)
        ≡ batches_by (seat_place seat).number (seat_seen seat) ++ batch ∷ []) }
{
    let mut held = desk.take(rt, seat);
    let done = ask(&mut held, batch);
    (desk.give(held), done)
}

/// Makes a call of each batch of a script, in order, and stops where memory is not found.
pub(crate) fn edit<R: Wait>(
    rt: &R,
    desk: &Desk<Office>,
    seat: Seat<Office>,
    script: Script,
) -> (Seat<Office>, Result<(), NoMemory>)
    requires desk { (seat_place seat).desk ≡ desk_id desk.now }
    requires own { Contains (seat_place seat).numbers (seat_place seat).number }
    requires amounts { All HaveAmounts script }
    ensures place { seat_place result.0 ≡ seat_place seat }
    ensures all { OnOk result.1 (batches_by (seat_place seat).number (seat_seen result.0)
        ≡ batches_by (seat_place seat).number (seat_seen seat) ++ script) }
{
    let mut seat = seat;
    for batch in script.into_batches() {
        let (after, done) = call(rt, desk, seat, batch);
        seat = after;
        if done.is_err() {
            return (seat, Err(NoMemory));
        }
    }
    (seat, Ok(()))
}
