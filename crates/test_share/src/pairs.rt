//! Two editors on threads, with one call each.
ghost use Rattle.std.specs.Prelude.{◌≡◌};
ghost use Rattle.ltm_editors.specs.Seats.{desk_id, seat_place};

use crate::editing::{call, desk_of, let_go, totals};
use crate::roads::Change;
use ltm_editors::{Call, Desk, Office, Seat, Verdict};
use ltm_scenario::{EditCause, EditFault};
use std::alloc::Global;
use std::sync::Wait;
use std::sync::atomic::{AtomicU64, Ordering};
use std::thread::join;

/// What two editors made of the road: the editor and the verdict of the first and of the second call, and the totals of the
/// loading at the end.
#[derive(Drop)]
struct Made {
    calls: Option<[(u32, Verdict); 2]>,
    totals: Option<[u64; 4]>,
}

/// The editors and verdicts, where there are two calls.
fn both(calls: &[Call]) -> Option<[(u32, Verdict); 2]> {
    match calls {
        [one, other] => Some([(one.editor, one.verdict), (other.editor, other.verdict)]),
        _ => None,
    }
}

/// Takes the office apart.
fn end(office: Office) -> Made {
    let calls = both(office.calls());
    let mut core = office.into_core();
    let totals = totals(&mut core);
    let_go(core);
    Made { calls, totals }
}

/// Waits for a flag.
fn await_flag(rt: &impl Wait, flag: &AtomicU64) {
    for _ in rt.forever() {
        if flag.load(Ordering::SeqCst) == 1 {
            return;
        }
    }
}

/// Waits for a flag, then takes the desk: how many calls stand in its history.
fn look<R: Wait>(
    rt: &R,
    desk: &Desk<Office>,
    seat: Seat<Office>,
    flag: &AtomicU64,
) -> (Seat<Office>, usize)
    requires { (seat_place seat).desk ≡ desk_id desk.now }
    ensures { seat_place result.0 ≡ seat_place seat }
{
    await_flag(rt, flag);
    let held = desk.take(rt, seat);
    let found = held.get().calls().len();
    (desk.give(held), found)
}

/// Makes one call, and then sets a flag.
fn call_and_tell<R: Wait>(
    rt: &R,
    alloc: Global,
    desk: &Desk<Office>,
    seat: Seat<Office>,
    flag: &AtomicU64,
) -> Seat<Office>
    requires { (seat_place seat).desk ≡ desk_id desk.now }
    ensures { seat_place result ≡ seat_place seat }
{
    let seat = call(rt, alloc, desk, seat, Change::CloseA);
    flag.store(1, Ordering::SeqCst);
    seat
}

// The one closes the road at its start; the other asks for a link that is not there. Either comes first.
#[test]
fn two_editors_make_one_history(rt: HostRuntime) {
    let alloc: Global = rt.alloc();
    let Some((desk, mut first)) = desk_of(alloc) else {
        panic!(rt; "no desk")
    };
    let one = desk.split(&mut first);
    let other = desk.split(&mut first);
    let (one, other) = join(
        &rt,
        || -> Seat<Office>
            requires { (seat_place one).desk ≡ desk_id desk }
            ensures { seat_place result ≡ seat_place one }
        { call(&rt, alloc, &desk, one, Change::CloseA) },
        || -> Seat<Office>
            requires { (seat_place other).desk ≡ desk_id desk }
            ensures { seat_place result ≡ seat_place other }
        { call(&rt, alloc, &desk, other, Change::CloseZ) },
    );
    desk.join(&mut first, one);
    desk.join(&mut first, other);
    let made = end(desk.close(first));
    let accepted = (1, Verdict::Accepted(1));
    let refused = (
        2,
        Verdict::Refused(EditFault {
            place: 1,
            cause: EditCause::UnknownName,
        }),
    );
    let one_first = made.calls == Some([accepted, refused]);
    let other_first = made.calls == Some([refused, accepted]);
    assert!(rt; one_first || other_first);
    assert!(rt; made.totals == Some([1000, 500, 500, 0]));
}

// Who takes the desk once it knows that another has given it finds that one's call.
#[test]
fn a_call_that_was_told_of_is_found(rt: HostRuntime) {
    let alloc: Global = rt.alloc();
    let Some((desk, mut first)) = desk_of(alloc) else {
        panic!(rt; "no desk")
    };
    let one = desk.split(&mut first);
    let other = desk.split(&mut first);
    let flag = AtomicU64::new(0);
    let (one, (other, found)) = join(
        &rt,
        || -> Seat<Office>
            requires { (seat_place one).desk ≡ desk_id desk }
            ensures { seat_place result ≡ seat_place one }
        { call_and_tell(&rt, alloc, &desk, one, &flag) },
        || -> (Seat<Office>, usize)
            requires { (seat_place other).desk ≡ desk_id desk }
            ensures { seat_place result.0 ≡ seat_place other }
        { look(&rt, &desk, other, &flag) },
    );
    desk.join(&mut first, one);
    desk.join(&mut first, other);
    let office = desk.close(first);
    let calls = office.calls().len();
    let ones = office
        .calls()
        .iter()
        .filter(|call| call.editor == 1)
        .count();
    let_go(office.into_core());
    assert!(rt; found == 1);
    assert!(rt; calls == 1);
    assert!(rt; ones == 1);
}
