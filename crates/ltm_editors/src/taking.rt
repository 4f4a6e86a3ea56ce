//! How a desk is taken and given.
ghost use Rattle.std.specs.Prelude.{◌≡◌, true, false, [], ◌∷◌, Some, None, IfSome};
ghost use mathlib.Core.List.{IsPrefix};
ghost use Rattle.ltm_editors.specs.Lists.{HasNoMore, GrowsBy};
ghost use Rattle.ltm_editors.specs.Views.{holding, idle};
ghost use Rattle.ltm_editors.specs.Seats.{desk_id, seat_place, seat_seen, held_place, held_found, held_value};

use crate::desk::{Desk, Grip, Held, Seat};
use crate::recorded::Recorded;
use crate::rule::{Free, Take};
use crate::view::View;
use crossbeam_utils::Backoff;
use std::sync::Wait;

impl<T: Recorded> Desk<T> {
    // Takes the desk if it is free, and the value out of its slot.
    fn try_acquire(
        &self,
        seat: &mut atomic_table::Seat<Option<Box<T>>, View<T::Opening, T::Entry>>,
    ) -> Option<Box<T>>
        requires table { seat.old.table_id ≡ self.now.table.shared.table_id }
        requires idle { (seat.old.me.1 ≡ []) × (seat.old.me.0.live ≡ true)
            × (seat.old.me.0.joining ≡ false) }
        ensures table { seat.new.table_id ≡ seat.old.table_id }
        ensures won { IfSome result (λ x. seat.new.me
            ≡ (holding seat.old.me.0 (T.history x.value), (0, None) ∷ [])) }
        ensures opening { IfSome result (λ x. seat.old.me.0.opening ≡ Some (T.opening x.value)) }
        ensures history { IfSome result (λ x. IsPrefix seat.old.me.0.seen (T.history x.value)
            × HasNoMore T.author seat.old.me.0.numbers seat.old.me.0.seen (T.history x.value)) }
        ensures lost { result ≡ None → seat.new.me ≡ seat.old.me }
    {
        if self.table.shared.compare_exchange::<Take>(seat, 0, 0, 1) == 0 {
            return Some(self.table.shared.exchange(seat, 0, None).unwrap());
        }
        None
    }

    // Waits until the desk is free, and takes it.
    fn acquire<R: Wait>(
        &self,
        rt: &R,
        seat: &mut atomic_table::Seat<Option<Box<T>>, View<T::Opening, T::Entry>>,
    ) -> Box<T>
        requires table { seat.old.table_id ≡ self.now.table.shared.table_id }
        requires idle { (seat.old.me.1 ≡ []) × (seat.old.me.0.live ≡ true)
            × (seat.old.me.0.joining ≡ false) }
        ensures table { seat.new.table_id ≡ seat.old.table_id }
        ensures seat { seat.new.me
            ≡ (holding seat.old.me.0 (T.history result.value), (0, None) ∷ []) }
        ensures opening { seat.old.me.0.opening ≡ Some (T.opening result.value) }
        ensures begins { IsPrefix seat.old.me.0.seen (T.history result.value) }
        ensures own { HasNoMore T.author seat.old.me.0.numbers seat.old.me.0.seen
            (T.history result.value) }
    {
        let backoff = Backoff::new();
        for _ in rt.forever() {
            if let Some(value) = self.try_acquire(seat) {
                return value;
            }
            backoff.snooze();
        }
        unreachable!()
    }

    // Puts the value into its slot, notes its history, and frees the desk.
    fn release(
        &self,
        seat: &mut atomic_table::Seat<Option<Box<T>>, View<T::Opening, T::Entry>>,
        value: Box<T>,
    )
        requires table { seat.old.table_id ≡ self.now.table.shared.table_id }
        requires holds { (seat.old.me.1 ≡ (0, None) ∷ []) × (seat.old.me.0.live ≡ true)
            × (seat.old.me.0.holds ≡ true) × (seat.old.me.0.joining ≡ false) }
        requires opening { seat.old.me.0.opening ≡ Some (T.opening value.value) }
        requires grows { GrowsBy T.author seat.old.me.0.number seat.old.me.0.seen
            (T.history value.value) }
        ensures { (seat.new.table_id ≡ seat.old.table_id)
            × (seat.new.me ≡ (idle seat.old.me.0 (T.history value.value), [])) }
    {
        let taken = self.table.shared.exchange(seat, 0, Some(value));
        let None = taken else { unreachable!() };
        self.table.shared.store::<Free>(seat, 0, 0);
    }

    /// The seat finds a value with the opening of its desk, and with a history that begins with all that the seat has seen
    /// and has no other entry of its number, nor of one that was joined with it. It waits while another holds the desk.
    pub fn take<R: Wait>(&self, rt: &R, seat: Seat<T>) -> Held<T>
        requires { (seat_place seat).desk ≡ desk_id self.now }
        ensures place { held_place result ≡ seat_place seat }
        ensures opening { (seat_place seat).opening ≡ Some (T.opening (held_value result)) }
        ensures found { held_found result ≡ T.history (held_value result) }
        ensures begins { IsPrefix (seat_seen seat) (T.history (held_value result)) }
        ensures own { HasNoMore T.author (seat_place seat).numbers (seat_seen seat)
            (T.history (held_value result)) }
    {
        let (mut token, number, made, others) = seat.open();
        let value = self.acquire(rt, &mut token);
        Held {
            grip: Grip {
                seat: token,
                number,
                made,
                others,
            },
            value,
        }
    }

    /// Frees the desk. The seat has seen the whole history that it leaves.
    pub fn give(&self, held: Held<T>) -> Seat<T>
        requires { (held_place held).desk ≡ desk_id self.now }
        ensures place { seat_place result ≡ held_place held }
        ensures seen { seat_seen result ≡ T.history (held_value held) }
    {
        let Held { grip, value } = held;
        let Grip {
            mut seat,
            number,
            made,
            others,
        } = grip;
        self.release(&mut seat, value);
        Seat {
            seat,
            number,
            made,
            others,
        }
    }
}
