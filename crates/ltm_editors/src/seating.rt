//! How a desk is made and ended, and how seats are split from the first and joined with it.
ghost use Rattle.std.specs.Prelude.{◌≡◌, ◌≤◌, ℕ, [], Some, IfOk, IfErr};
ghost use Rattle.ltm_editors.specs.Lists.{entries_of, SeesBoth};
ghost use Rattle.ltm_editors.specs.Seats.{first_place, place_after_split, next_place, place_after_join, desk_id, seat_place, seat_seen};

use crate::desk::{Desk, Seat};
use crate::recorded::Recorded;
use crate::rule::{JoinSeat, SplitSeat, Tell};
use atomic_table::{Refused, Table};
use ltm_units::NoMemory;
use std::alloc::{AllocFailed, Global};
use std::snapshot::Snapshot;

impl<T: Recorded> Desk<T> {
    /// A free desk, and its first seat, of number 0, which has seen the empty history. Where memory is not found the value
    /// comes back.
    pub fn create(alloc: Global, value: T) -> Result<(Desk<T>, Seat<T>), (T, NoMemory)>
        requires { T.history value ≡ [] }
        ensures place { IfOk result (λ r. seat_place r.1
            ≡ first_place (desk_id r.0) (T.opening value)) }
        ensures seen { IfOk result (λ r. seat_seen r.1 ≡ []) }
        ensures err { IfErr result (λ r. r.0 ≡ value) }
    {
        let about = Snapshot::of(&value);
        match Box::new(alloc, value) {
            Ok(boxed) => return Desk::of_box(alloc, &about, boxed),
            Err(failed) => {
                let AllocFailed { value } = failed;
                return Err((value, NoMemory));
            }
        }
    }

    // The desk of a value that lies in a box.
    fn of_box(
        alloc: Global,
        about: &Snapshot<T>,
        boxed: Box<T>,
    ) -> Result<(Desk<T>, Seat<T>), (T, NoMemory)>
        requires about { about.now.value ≡ boxed.value }
        requires empty { T.history boxed.value ≡ [] }
        ensures place { IfOk result (λ r. seat_place r.1
            ≡ first_place (desk_id r.0) (T.opening boxed.value)) }
        ensures seen { IfOk result (λ r. seat_seen r.1 ≡ []) }
        ensures err { IfErr result (λ r. r.0 ≡ boxed.value) }
    {
        let mut slots = Vec::new(alloc);
        if let Err(failed) = slots.push(Some(boxed)) {
            let AllocFailed { value } = failed;
            let Some(boxed) = value else { unreachable!() };
            slots.destroy_empty();
            return Err((Box::into_inner(boxed), NoMemory));
        }
        match Table::new(alloc, &[0], slots, about) {
            Ok((table, seat)) => Ok((
                Desk { table },
                Seat {
                    seat,
                    number: 0,
                    made: 1,
                    others: 0,
                },
            )),
            Err(Refused { mut slots }) => {
                let Some(Some(boxed)) = slots.pop() else {
                    unreachable!()
                };
                slots.destroy_empty();
                Err((Box::into_inner(boxed), NoMemory))
            }
        }
    }

    /// A seat with the next number, which has seen what the first has. At most 8 are split from a first seat.
    pub fn split(&self, first: &mut Seat<T>) -> Seat<T>
        requires desk { (seat_place first.old).desk ≡ desk_id self.now }
        requires first { (seat_place first.old).number ≡ 0 }
        requires room { (seat_place first.old).made ≤ 8 }
        ensures first { seat_place first.new ≡ place_after_split (seat_place first.old) }
        ensures first_seen { seat_seen first.new ≡ seat_seen first.old }
        ensures next { seat_place result ≡ next_place (seat_place first.old) }
        ensures next_seen { seat_seen result ≡ seat_seen first.old }
    {
        let Seat {
            seat,
            number: _,
            made,
            others,
        } = first;
        let token = self.table.shared.split_seat::<SplitSeat>(seat);
        let number = *made;
        *made += 1;
        *others += 1;
        Seat {
            seat: token,
            number,
            made: 0,
            others: 0,
        }
    }

    /// Ends a seat. The first has then seen the longer of both lists: in it the entries of the numbers of the one seat are those
    /// that it had seen, and of the numbers of the other those that the other had.
    pub fn join(&self, first: &mut Seat<T>, other: Seat<T>)
        requires desk { (seat_place first.old).desk ≡ desk_id self.now }
        requires other { (seat_place other).desk ≡ desk_id self.now }
        requires first { (seat_place first.old).number ≡ 0 }
        ensures place { seat_place first.new
            ≡ place_after_join (seat_place first.old) (seat_place other) }
        ensures seen { SeesBoth T.author (seat_place first.old).numbers (seat_seen first.old)
            (seat_place other).numbers (seat_seen other) (seat_seen first.new) }
    {
        let (token, _, _, _) = other.open();
        let Seat {
            seat,
            number: _,
            made: _,
            others,
        } = first;
        self.table.shared.join_seat::<JoinSeat>(seat, token);
        self.table.shared.load::<Tell>(seat, 0);
        *others = others.saturating_sub(1);
    }

    /// Ends the desk, once every other seat was joined: the value has the opening of the desk, and exactly the history that the
    /// first seat has seen; and no entry has a number that was not given out.
    pub fn close(self, first: Seat<T>) -> T
        requires desk { (seat_place first).desk ≡ desk_id self }
        requires first { (seat_place first).number ≡ 0 }
        requires alone { (seat_place first).others ≡ 0 }
        ensures opening { (seat_place first).opening ≡ Some (T.opening result) }
        ensures history { T.history result ≡ seat_seen first }
        ensures made { (n : ℕ) → (seat_place first).made ≤ n
            → entries_of T.author n (T.history result) ≡ [] }
    {
        let Desk { table } = self;
        let (token, _, _, _) = first.open();
        let mut closed = table.close_with(token);
        let value = closed.take(0);
        closed.free();
        let Some(boxed) = value else { unreachable!() };
        Box::into_inner(boxed)
    }
}

impl<T: Recorded> Seat<T> {
    /// Its number: 0 for the first seat, and then in the order of splitting.
    pub fn number(&self) -> u32
        ensures { result ≡ (seat_place self.now).number }
    {
        self.number
    }
}
