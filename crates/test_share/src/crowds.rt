//! Many editors on threads of their own.
ghost use Rattle.std.specs.Prelude.{◌≡◌, ◌+◌, ◌<◌, ◌≤◌, ℕ};
ghost use Rattle.std.specs.Thread.{IsSync};
ghost use Rattle.ltm_editors.specs.Seats.{desk_id, seat_place};

use crate::editing::{call, desk_of, let_go};
use crate::replays::{TURNS, change_of, is_replayed};
use ltm_editors::{Desk, Office, Seat};
use std::alloc::Global;
use std::sync::Wait;
use std::thread::{Threads, join};

/// Makes all calls of an editor, each in a take of its own.
fn edit<R: Wait>(rt: &R, alloc: Global, desk: &Desk<Office>, seat: Seat<Office>) -> Seat<Office>
    requires { (seat_place seat).desk ≡ desk_id desk.now }
    ensures { seat_place result ≡ seat_place seat }
{
    let mut seat = seat;
    let editor = seat.number();
    if editor > 8 {
        return seat;
    }
    for turn in 0..TURNS {
        seat = call(rt, alloc, desk, seat, change_of(editor, turn));
    }
    seat
}

/// Starts the editors one after another, and joins them in the other order.
fn crowd<R: Threads + Wait + Sync>(
    rt: &R,
    alloc: Global,
    desk: &Desk<Office>,
    first: Seat<Office>,
    editors: u32,
) -> Seat<Office>
    requires desk { (seat_place first).desk ≡ desk_id desk.now }
    requires first { (seat_place first).number ≡ 0 }
    requires room { (seat_place first).made + editors ≤ 9 }
    ensures desk { (seat_place result).desk ≡ desk_id desk.now }
    ensures first { (seat_place result).number ≡ 0 }
    ensures others { (seat_place result).others ≡ (seat_place first).others }
{
    if editors == 0 {
        return first;
    }
    let mut first = first;
    let seat = desk.split(&mut first);
    let rest = editors - 1;
    let (seat, mut first) = join(
        rt,
        || -> Seat<Office>
            requires { IsSync R.row × ((seat_place seat).desk ≡ desk_id desk.now) }
            ensures { seat_place result ≡ seat_place seat }
        { edit(rt, alloc, desk, seat) },
        || -> Seat<Office>
            requires { IsSync R.row × ((seat_place first).desk ≡ desk_id desk.now) × ((seat_place first).number ≡ 0) × ((seat_place first).made + rest ≤ 9) }
            ensures { ((seat_place result).desk ≡ desk_id desk.entry.now) × ((seat_place result).number ≡ 0) × ((seat_place result).others ≡ (seat_place first).others) }
        { crowd(rt, alloc, desk, first, rest) },
    );
    desk.join(&mut first, seat);
    first
}

/// Whether what so many editors make is what a replay of their calls gives.
fn is_legal<R: Threads + Wait + Sync>(rt: &R, alloc: Global, editors: u32) -> bool
    requires { editors ≤ 8 }
{
    let Some((desk, first)) = desk_of(alloc) else {
        return false;
    };
    let first = crowd(rt, alloc, &desk, first, editors);
    let office = desk.close(first);
    let legal = is_replayed(alloc, editors, office.calls());
    let_go(office.into_core());
    legal
}

// All that editors do is one legal history, whoever of them comes first.
#[test]
fn histories_are_what_a_replay_gives(rt: HostRuntime) {
    let alloc: Global = rt.alloc();
    let alone = is_legal(&rt, alloc, 1);
    let three = is_legal(&rt, alloc, 3);
    let eight = is_legal(&rt, alloc, 8);
    assert!(rt; alone);
    assert!(rt; three);
    assert!(rt; eight);
}
