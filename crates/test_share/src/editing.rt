//! What one editor does at a desk.
ghost use Rattle.std.specs.Prelude.{◌≡◌, IfSome};
ghost use Rattle.ltm_editors.specs.Seats.{desk_id, seat_place, held_place};

use crate::roads::{Change, batch_of, office_of};
use ltm_core::{Core, Scratch};
use ltm_editors::{Desk, Held, Office, Seat};
use ltm_units::Steps;
use ltm_workers::drain;
use std::alloc::Global;
use std::sync::Wait;

/// A desk of the road, and its first seat.
pub fn desk_of(alloc: Global) -> Option<(Desk<Office>, Seat<Office>)>
    ensures desk { IfSome result (λ r. (seat_place r.1).desk ≡ desk_id r.0) }
    ensures first { IfSome result (λ r. ((seat_place r.1).number ≡ 0) × ((seat_place r.1).made ≡ 1) × ((seat_place r.1).others ≡ 0)) }
{
    let Some(office) = office_of(alloc) else {
        return None;
    };
    match Desk::create(alloc, office) {
        Ok(pair) => return Some(pair),
        Err((office, _)) => {
            let_go(office.into_core());
            return None;
        }
    }
}

/// Has the batch of a change accepted.
fn ask(alloc: Global, held: &mut Held<Office>, change: Change)
    ensures { held_place held.new ≡ held_place held.old }
{
    let Some(batch) = batch_of(alloc, change) else {
        return;
    };
    if !batch.has_amounts() {
        return;
    }
    let _ = held.accept(batch);
}

/// Makes one call, in a take of its own.
pub fn call<R: Wait>(
    rt: &R,
    alloc: Global,
    desk: &Desk<Office>,
    seat: Seat<Office>,
    change: Change,
) -> Seat<Office>
    requires { (seat_place seat).desk ≡ desk_id desk.now }
    ensures { seat_place result ≡ seat_place seat }
{
    let mut held = desk.take(rt, seat);
    ask(alloc, &mut held, change);
    desk.give(held)
}

/// Brings a core to rest and publishes it: generated, arrived, on links and waiting of what is then shown, in units.
pub fn totals(core: &mut Core) -> Option<[u64; 4]> {
    let mut scratch = core.scratch().ok()?;
    if core.claimed() != 0 {
        return None;
    }
    let mut steps = Steps::new();
    drain(core, &mut scratch, &mut steps);
    let _ = core.publish();
    let totals = core.shown().totals();
    Some([
        totals.generated.0,
        totals.arrived.0,
        totals.on_links.0,
        totals.waiting.0,
    ])
}

/// Lets a core go.
pub fn let_go(_core: Core) {}
