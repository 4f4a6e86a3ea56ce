//! Editors in threads of their own.
ghost use Rattle.std.specs.Prelude.{◌≡◌, ◌+◌, ◌++◌, ◌≤◌, [], ◌∷◌, Ok, OnOk, All, length};
ghost use Rattle.std.specs.List.{Contains};
ghost use Rattle.std.specs.Thread.{IsSync};
ghost use Rattle.ltm_scenario.specs.Edits.{HaveAmounts};
ghost use Rattle.ltm_editors.specs.Seats.{desk_id, seat_place, seat_seen};
ghost use Rattle.ltm_session_editors.specs.Histories.{batches_by};
ghost use Rattle.ltm_session_editors.specs.Crews.{MadeAll};

use crate::editor::edit;
use crate::script::Script;
use ltm_editors::{Desk, Office, Seat};
use ltm_units::NoMemory;
use std::sync::Wait;
use std::thread::{Threads, join};

/// That both did all that they had to do.
fn both(one: Result<(), NoMemory>, other: Result<(), NoMemory>) -> Result<(), NoMemory>
    ensures one { OnOk result (one ≡ Ok tt) }
    ensures other { OnOk result (other ≡ Ok tt) }
{
    if one.is_err() {
        return Err(NoMemory);
    }
    other
}

/// Splits a seat for each script, starts its editor, and joins the seats in the other order. An editor for whom no thread can be
/// made runs in this one.
pub(crate) fn edit_all<R: Threads + Wait + Sync>(
    rt: &R,
    desk: &Desk<Office>,
    first: Seat<Office>,
    editors: u32,
    scripts: Vec<Script>,
) -> (Seat<Office>, Result<(), NoMemory>)
    requires desk { (seat_place first).desk ≡ desk_id desk.now }
    requires first { (seat_place first).number ≡ 0 }
    requires alone { (seat_place first).numbers ≡ 0 ∷ [] }
    requires fresh { seat_seen first ≡ [] }
    requires count { length scripts.items ≡ editors }
    requires room { (seat_place first).made + editors ≤ 9 }
    requires amounts { All (All HaveAmounts) scripts.items }
    ensures desk { (seat_place result.0).desk ≡ desk_id desk.now }
    ensures first { (seat_place result.0).number ≡ 0 }
    ensures made { (seat_place result.0).made ≡ (seat_place first).made + editors }
    ensures others { (seat_place result.0).others ≡ (seat_place first).others }
    ensures opening { (seat_place result.0).opening ≡ (seat_place first).opening }
    ensures all { OnOk result.1 (MadeAll (seat_place first).made scripts.items
        (seat_place result.0).numbers (seat_seen result.0)) }
{
    if editors == 0 {
        return (first, Ok(()));
    }
    let mut first = first;
    let mut scripts = scripts;
    let script = scripts.remove(0);
    let seat = desk.split(&mut first);
    let rest = editors - 1;
    let ((seat, one), (mut first, others)) = join(
        rt,
        || -> (Seat<Office>, Result<(), NoMemory>)
            requires { IsSync R.row × ((seat_place seat).desk ≡ desk_id desk.now)
                × Contains (seat_place seat).numbers (seat_place seat).number
                × All HaveAmounts script }
            ensures place { seat_place result.0 ≡ seat_place seat }
            ensures all { OnOk result.1 (batches_by (seat_place seat).number (seat_seen result.0)
                ≡ batches_by (seat_place seat).number (seat_seen seat) ++ script) }
        { edit(rt, desk, seat, script) },
        || -> (Seat<Office>, Result<(), NoMemory>)
            requires { IsSync R.row × ((seat_place first).desk ≡ desk_id desk.now)
                × ((seat_place first).number ≡ 0) × ((seat_place first).numbers ≡ 0 ∷ [])
                × (seat_seen first ≡ [])
                × (length scripts.items ≡ rest) × ((seat_place first).made + rest ≤ 9)
                × All (All HaveAmounts) scripts.items }
            ensures desk { (seat_place result.0).desk ≡ desk_id desk.entry.now }
            ensures first { (seat_place result.0).number ≡ 0 }
            ensures made { (seat_place result.0).made ≡ (seat_place first).made + rest }
            ensures others { (seat_place result.0).others ≡ (seat_place first).others }
            ensures opening { (seat_place result.0).opening ≡ (seat_place first).opening }
            ensures all { OnOk result.1 (MadeAll (seat_place first).made scripts.items
                (seat_place result.0).numbers (seat_seen result.0)) }
        { edit_all(rt, desk, first, rest, scripts) },
    );
    desk.join(&mut first, seat);
    (first, both(one, others))
}
