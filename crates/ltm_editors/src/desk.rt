//! The desk, its seats, and what holds it.
//!
//! Methods stand in the files `taking`, `seating` and `accepting`: their clauses name structs of this file, and a definition
//! that names a struct with a ghost field is not brought in where the struct stands.
ghost use Rattle.std.specs.Prelude.{◌≡◌, ◌≤◌, true, false, [], ◌∷◌, Some, None};
ghost use Rattle.ltm_editors.specs.Lists.{GrowsBy};

use crate::recorded::Recorded;
use crate::rule::DeskRule;
use crate::view::View;
use atomic_table::Table;
use std::alloc::Global;
use std::snapshot::Snapshot;

/// A value that one seat at a time holds. It is shared by `&` between threads, and each steps with a seat of its own.
///
/// ```text
/// Desk::create --> desk, first seat --- split --> seat      one for each editor but the first
///
///     seat --- take --> Held --- give --> seat
///
/// first seat, seat --- join --> first seat       desk, first seat --- close --> the value
/// ```
pub struct Desk<T: Recorded> {
    pub(crate) table: Table<
        Option<Box<T>>,
        View<T::Opening, T::Entry>,
        Snapshot<T>,
        DeskRule,
        Global,
    >,
    pub ghost sized: { (table.shared.table_id.words ≡ 1) × (table.shared.table_id.slots ≡ 1) },
}

/// A seat at a desk. The first one, of number 0, makes others and takes them in.
pub struct Seat<T: Recorded> {
    pub(crate) seat: atomic_table::Seat<Option<Box<T>>, View<T::Opening, T::Entry>>,
    pub(crate) number: u32,
    pub(crate) made: u32,
    pub(crate) others: u32,
    pub ghost sits: { (seat.me.1 ≡ []) × (seat.me.0.live ≡ true) × (seat.me.0.holds ≡ false) × (seat.me.0.joining ≡ false) },
    pub ghost counted: { (seat.me.0.number ≡ number) × (seat.me.0.made ≡ made) × (seat.me.0.others ≡ others) },
    pub ghost within: { others ≤ made },
    pub ghost first: { number ≡ 0 → (seat.me.0.chair ≡ true) × (1 ≤ made) },
}

/// A seat while it holds the desk.
pub struct Grip<T: Recorded> {
    pub(crate) seat: atomic_table::Seat<Option<Box<T>>, View<T::Opening, T::Entry>>,
    pub(crate) number: u32,
    pub(crate) made: u32,
    pub(crate) others: u32,
    pub ghost sits: { (seat.me.1 ≡ (0, None) ∷ []) × (seat.me.0.live ≡ true) × (seat.me.0.holds ≡ true) × (seat.me.0.joining ≡ false) },
    pub ghost counted: { (seat.me.0.number ≡ number) × (seat.me.0.made ≡ made) × (seat.me.0.others ≡ others) },
    pub ghost within: { others ≤ made },
    pub ghost first: { number ≡ 0 → (seat.me.0.chair ≡ true) × (1 ≤ made) },
}

/// The desk, held by a seat, with the value. What the value tells has grown by entries of the seat's number alone. It is given
/// back by `give`, and cannot be let go.
pub struct Held<T: Recorded> {
    pub(crate) grip: Grip<T>,
    pub(crate) value: Box<T>,
    pub ghost opens: { grip.seat.me.0.opening ≡ Some (T.opening value.value) },
    pub ghost grows: { GrowsBy T.author grip.number grip.seat.me.0.seen (T.history value.value) },
}

impl<T: Recorded> Drop for Seat<T> {
    fn drop(self) {
        let Self {
            seat: _seat,
            number: _,
            made: _,
            others: _,
        } = self;
    }
}

impl<T: Recorded> Seat<T> {
    // The token of the table, the number, and the first seat's two counts.
    pub(crate) fn open(
        self,
    ) -> (
        atomic_table::Seat<Option<Box<T>>, View<T::Opening, T::Entry>>,
        u32,
        u32,
        u32,
    )
        ensures { (result.0 ≡ self.seat) × (result.1 ≡ self.number) × (result.2 ≡ self.made)
            × (result.3 ≡ self.others) }
    {
        let Seat {
            seat,
            number,
            made,
            others,
        } = self;
        (seat, number, made, others)
    }
}
