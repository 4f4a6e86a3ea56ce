//! The turn, its passes, and what holds it.
//!
//! Methods stand in the files `turn`, `taking` and `held`: their clauses name structs of this file, and a definition that
//! names a struct with a ghost field is not brought in where the struct stands.
ghost use Rattle.std.specs.Prelude.{◌≡◌, true, false, [], ◌∷◌, None};

use crate::Told;
use crate::rule::TurnRule;
use crate::view::View;
use atomic_table::{Seat, Table};
use crossbeam_utils::sync::EventCount;
use std::alloc::Global;
use std::snapshot::Snapshot;

/// A value that one pass at a time holds. It is shared by `&` between threads, and each steps with a pass of its own.
///
/// ```text
/// Turn::create --> turn, editor --- split --> worker      once for each thread of the crew
///
///     editor --- take_editor --> EditorHeld --- give_editor --> editor
///     worker --- take_worker --> WorkerHeld --- give_worker --> worker
///
/// editor, worker --- join --> editor          turn, editor --- close --> the value
/// ```
pub struct Turn<T: Told> {
    pub(crate) table: Table<Option<Box<T>>, View<T::Entry>, Snapshot<T>, TurnRule, Global>,
    pub(crate) news: EventCount,
    pub ghost sized: { (table.shared.table_id.words ≡ 1) × (table.shared.table_id.slots ≡ 1) },
}

/// The one pass of a turn whose holder may lengthen the list.
pub struct EditorPass<T: Told> {
    pub(crate) seat: Seat<Option<Box<T>>, View<T::Entry>>,
    pub(crate) workers: u32,
    pub ghost edits: { (seat.me.1 ≡ []) × (seat.me.0.editor ≡ true) × (seat.me.0.works ≡ false) × (seat.me.0.holds ≡ false) },
    pub ghost counted: { seat.me.0.workers ≡ workers },
}

/// A pass whose holder leaves the list as it is.
pub struct WorkerPass<T: Told> {
    pub(crate) seat: Seat<Option<Box<T>>, View<T::Entry>>,
    pub ghost works: { (seat.me.1 ≡ []) × (seat.me.0.editor ≡ false) × (seat.me.0.works ≡ true) × (seat.me.0.holds ≡ false) },
}

/// The editor's seat while it holds the turn. Ghost fields stand here and not on the struct that lends the value, so that
/// what is written through a lent `&mut` is written back by itself.
pub struct EditorGrip<T: Told> {
    pub(crate) seat: Seat<Option<Box<T>>, View<T::Entry>>,
    pub(crate) workers: u32,
    pub ghost edits: { (seat.me.1 ≡ (0, None) ∷ []) × (seat.me.0.editor ≡ true) × (seat.me.0.works ≡ false) × (seat.me.0.holds ≡ true) },
    pub ghost counted: { seat.me.0.workers ≡ workers },
}

/// A worker's seat while it holds the turn.
pub struct WorkerGrip<T: Told> {
    pub(crate) seat: Seat<Option<Box<T>>, View<T::Entry>>,
    pub ghost works: { (seat.me.1 ≡ (0, None) ∷ []) × (seat.me.0.editor ≡ false) × (seat.me.0.works ≡ true) × (seat.me.0.holds ≡ true) },
}

/// The turn, held by the editor, with the value. It is given back by `give_editor`, and cannot be let go.
pub struct EditorHeld<T: Told> {
    pub(crate) grip: EditorGrip<T>,
    pub(crate) value: Box<T>,
}

/// The turn, held by a worker, with the value, and the value as it was found. It is given back by `give_worker`, and cannot
/// be let go.
pub struct WorkerHeld<T: Told> {
    pub(crate) grip: WorkerGrip<T>,
    pub(crate) value: Box<T>,
    pub(crate) before: Snapshot<T>,
}

impl<T: Told> Drop for EditorPass<T> {
    fn drop(self) {
        let Self {
            seat: _seat,
            workers: _,
        } = self;
    }
}

impl<T: Told> Drop for WorkerPass<T> {
    fn drop(self) {
        let Self { seat: _seat } = self;
    }
}

impl<T: Told> EditorPass<T> {
    // The seat, and how many workers there are.
    pub(crate) fn open(self) -> (Seat<Option<Box<T>>, View<T::Entry>>, u32)
        ensures { (result.0 ≡ self.seat) × (result.1 ≡ self.workers) }
    {
        let EditorPass { seat, workers } = self;
        (seat, workers)
    }
}

impl<T: Told> WorkerPass<T> {
    // The seat.
    pub(crate) fn open(self) -> Seat<Option<Box<T>>, View<T::Entry>>
        ensures { result ≡ self.seat }
    {
        let WorkerPass { seat } = self;
        seat
    }
}
