//! How the turn is taken and given.
ghost use Rattle.std.specs.Prelude.{◌≡◌, ◌≤◌, true, false, [], ◌∷◌, None, IfSome, IfOk, IfErr};
ghost use mathlib.Core.List.{IsPrefix};
ghost use Rattle.ltm_turn.specs.Views.{holding, idle};
ghost use Rattle.ltm_turn.specs.Passes.{turn_id, editor_turn, worker_turn, editor_held_turn, worker_held_turn, editor_list, editor_seen, worker_seen, editor_workers, editor_found, editor_found_number, editor_held_workers, editor_value, worker_found, worker_found_number, worker_value, worker_found_value};

use crate::Told;
use crate::passes::{EditorGrip, EditorHeld, EditorPass, Turn, WorkerGrip, WorkerHeld, WorkerPass};
use crate::rule::{Free, Note, Take};
use crate::view::View;
use atomic_table::Seat;
use crossbeam_utils::Backoff;
use std::snapshot::Snapshot;
use std::sync::Wait;

impl<T: Told> Turn<T> {
    // Takes the turn if it is free, and the value out of its slot.
    fn try_acquire(&self, seat: &mut Seat<Option<Box<T>>, View<T::Entry>>) -> Option<Box<T>>
        requires table { seat.old.table_id ≡ self.now.table.shared.table_id }
        requires idle { (seat.old.me.1 ≡ [])
            × (seat.old.me.0.editor ≡ false → seat.old.me.0.works ≡ true) }
        ensures table { seat.new.table_id ≡ seat.old.table_id }
        ensures won { IfSome result (λ x. (seat.new.me
            ≡ (holding seat.old.me.0 (T.entries x.value) (T.number x.value), (0, None) ∷ []))
            × (seat.old.me.0.number ≤ T.number x.value)
            × (seat.old.me.0.editor ≡ true → T.entries x.value ≡ seat.old.me.0.entries)) }
        ensures lost { result ≡ None → seat.new.me ≡ seat.old.me }
    {
        if self.table.shared.compare_exchange::<Take>(seat, 0, 0, 1) == 0 {
            return Some(self.table.shared.exchange(seat, 0, None).unwrap());
        }
        None
    }

    // Waits until the turn is free, and takes it.
    fn acquire<R: Wait>(&self, rt: &R, seat: &mut Seat<Option<Box<T>>, View<T::Entry>>) -> Box<T>
        requires table { seat.old.table_id ≡ self.now.table.shared.table_id }
        requires idle { (seat.old.me.1 ≡ [])
            × (seat.old.me.0.editor ≡ false → seat.old.me.0.works ≡ true) }
        ensures seat { (seat.new.table_id ≡ seat.old.table_id)
            × (seat.new.me
            ≡ (
              holding seat.old.me.0 (T.entries result.value) (T.number result.value),
              (0, None) ∷ [],
            )) }
        ensures number { seat.old.me.0.number ≤ T.number result.value }
        ensures list { seat.old.me.0.editor ≡ true
            → T.entries result.value ≡ seat.old.me.0.entries }
    {
        let backoff = Backoff::new();
        for _ in rt.forever() {
            if let Some(value) = self.try_acquire(seat) {
                return value;
            }
            backoff.snooze();
        }
        unreachable!()
    }

    // Puts the value into its slot, notes it, and frees the turn.
    fn release(&self, seat: &mut Seat<Option<Box<T>>, View<T::Entry>>, value: Box<T>)
        requires table { seat.old.table_id ≡ self.now.table.shared.table_id }
        requires holds { (seat.old.me.1 ≡ (0, None) ∷ []) × (seat.old.me.0.holds ≡ true)
            × (seat.old.me.0.editor ≡ false → seat.old.me.0.works ≡ true) }
        requires list { seat.old.me.0.editor ≡ false
            → T.entries value.value ≡ seat.old.me.0.entries }
        requires number { seat.old.me.0.number ≤ T.number value.value }
        ensures { (seat.new.table_id ≡ seat.old.table_id)
            × (seat.new.me
            ≡ (idle (holding seat.old.me.0 (T.entries value.value) (T.number value.value)), [])) }
    {
        let taken = self.table.shared.exchange(seat, 0, Some(value));
        let None = taken else { unreachable!() };
        self.table.shared.load::<Note>(seat, 0);
        self.table.shared.store::<Free>(seat, 0, 0);
    }

    /// The editor finds exactly the list that it last left, and a number that is at least the greatest that it has seen. It
    /// waits while another holds the turn.
    pub fn take_editor<R: Wait>(&self, rt: &R, pass: EditorPass<T>) -> EditorHeld<T>
        requires { editor_turn pass ≡ turn_id self.now }
        ensures turn { editor_held_turn result ≡ editor_turn pass }
        ensures list { (T.entries (editor_value result) ≡ editor_list pass)
            × (editor_found result ≡ editor_list pass) }
        ensures number { (editor_seen pass ≤ T.number (editor_value result))
            × (editor_found_number result ≡ T.number (editor_value result)) }
        ensures workers { editor_held_workers result ≡ editor_workers pass }
    {
        let (mut seat, workers) = pass.open();
        let value = self.acquire(rt, &mut seat);
        EditorHeld {
            grip: EditorGrip { seat, workers },
            value,
        }
    }

    /// A worker finds a number that is at least the greatest that it has seen. It waits while another holds the turn.
    pub fn take_worker<R: Wait>(&self, rt: &R, pass: WorkerPass<T>) -> WorkerHeld<T>
        requires { worker_turn pass ≡ turn_id self.now }
        ensures turn { worker_held_turn result ≡ worker_turn pass }
        ensures list { worker_found result ≡ T.entries (worker_value result) }
        ensures number { (worker_seen pass ≤ T.number (worker_value result))
            × (worker_found_number result ≡ T.number (worker_value result)) }
        ensures value { worker_found_value result ≡ worker_value result }
    {
        let mut seat = pass.open();
        let value = self.acquire(rt, &mut seat);
        let before = Snapshot::of(value.as_ref());
        WorkerHeld {
            grip: WorkerGrip { seat },
            value,
            before,
        }
    }

    /// The same, without waiting: where another holds the turn, the pass comes back, and has seen no more than before.
    pub fn try_take_worker(&self, pass: WorkerPass<T>) -> Result<WorkerHeld<T>, WorkerPass<T>>
        requires { worker_turn pass ≡ turn_id self.now }
        ensures taken { IfOk result (λ held. (worker_held_turn held ≡ worker_turn pass)
            × (worker_found held ≡ T.entries (worker_value held))
            × (worker_seen pass ≤ T.number (worker_value held))
            × (worker_found_number held ≡ T.number (worker_value held))
            × (worker_found_value held ≡ worker_value held)) }
        ensures busy { IfErr result (λ back. (worker_turn back ≡ worker_turn pass)
            × (worker_seen back ≡ worker_seen pass)) }
    {
        let mut seat = pass.open();
        match self.try_acquire(&mut seat) {
            Some(value) => {
                let before = Snapshot::of(value.as_ref());
                return Ok(WorkerHeld {
                    grip: WorkerGrip { seat },
                    value,
                    before,
                });
            }
            None => return Err(WorkerPass { seat }),
        }
    }

    /// Frees the turn. The editor may have put entries behind those that it found, and the number may have risen.
    pub fn give_editor(&self, held: EditorHeld<T>) -> EditorPass<T>
        requires turn { editor_held_turn held ≡ turn_id self.now }
        requires list { IsPrefix (editor_found held) (T.entries (editor_value held)) }
        requires number { editor_found_number held ≤ T.number (editor_value held) }
        ensures turn { editor_turn result ≡ editor_held_turn held }
        ensures list { editor_list result ≡ T.entries (editor_value held) }
        ensures number { editor_seen result ≡ T.number (editor_value held) }
        ensures workers { editor_workers result ≡ editor_held_workers held }
    {
        let EditorHeld { grip, value } = held;
        let EditorGrip { mut seat, workers } = grip;
        self.release(&mut seat, value);
        EditorPass { seat, workers }
    }

    /// Frees the turn. The list is as the worker found it, the number may have risen, and the value is what one turn may make of
    /// the one that was found.
    pub fn give_worker(&self, held: WorkerHeld<T>) -> WorkerPass<T>
        requires turn { worker_held_turn held ≡ turn_id self.now }
        requires list { T.entries (worker_value held) ≡ worker_found held }
        requires number { worker_found_number held ≤ T.number (worker_value held) }
        requires one_turn { T.may_become (worker_found_value held) (worker_value held) }
        ensures turn { worker_turn result ≡ worker_held_turn held }
        ensures number { worker_seen result ≡ T.number (worker_value held) }
    {
        let WorkerHeld {
            grip,
            value,
            before: _before,
        } = held;
        let WorkerGrip { mut seat } = grip;
        self.release(&mut seat, value);
        WorkerPass { seat }
    }
}
