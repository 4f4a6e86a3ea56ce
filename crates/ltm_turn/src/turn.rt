//! How a turn is made and ended, and how workers join it and leave it.
ghost use Rattle.std.specs.Prelude.{◌≡◌, ◌+◌, ◌-◌, ◌<◌, ◌≤◌, max, IfOk, IfErr};
ghost use Rattle.ltm_turn.specs.Passes.{turn_id, editor_turn, worker_turn, editor_list, editor_seen, worker_seen, editor_workers};

use crate::Told;
use crate::passes::{EditorPass, Turn, WorkerPass};
use crate::rule::{JoinWorker, SplitWorker};
use atomic_table::{Refused, Table};
use crossbeam_utils::sync::EventCount;
use ltm_units::NoMemory;
use std::alloc::{AllocFailed, Global};
use std::snapshot::Snapshot;

impl<T: Told> Turn<T> {
    /// A free turn, and the pass of its editor, which has seen the value and has no workers. Where memory is not found the
    /// value comes back.
    pub fn create(alloc: Global, value: T) -> Result<(Turn<T>, EditorPass<T>), (T, NoMemory)>
        ensures ok { IfOk result (λ r. (editor_turn r.1 ≡ turn_id r.0)
            × (editor_list r.1 ≡ T.entries value) × (editor_seen r.1 ≡ T.number value)
            × (editor_workers r.1 ≡ 0)) }
        ensures err { IfErr result (λ r. r.0 ≡ value) }
    {
        let about = Snapshot::of(&value);
        match Box::new(alloc, value) {
            Ok(boxed) => return Turn::of_box(alloc, &about, boxed),
            Err(failed) => {
                let AllocFailed { value } = failed;
                return Err((value, NoMemory));
            }
        }
    }

    // The turn of a value that lies in a box.
    fn of_box(
        alloc: Global,
        about: &Snapshot<T>,
        boxed: Box<T>,
    ) -> Result<(Turn<T>, EditorPass<T>), (T, NoMemory)>
        requires { about.now.value ≡ boxed.value }
        ensures ok { IfOk result (λ r. (editor_turn r.1 ≡ turn_id r.0)
            × (editor_list r.1 ≡ T.entries boxed.value) × (editor_seen r.1 ≡ T.number boxed.value)
            × (editor_workers r.1 ≡ 0)) }
        ensures err { IfErr result (λ r. r.0 ≡ boxed.value) }
    {
        let mut slots = Vec::new(alloc);
        if let Err(failed) = slots.push(Some(boxed)) {
            let AllocFailed { value } = failed;
            let Some(boxed) = value else { unreachable!() };
            slots.destroy_empty();
            return Err((Box::into_inner(boxed), NoMemory));
        }
        match Table::new(alloc, &[0], slots, about) {
            Ok((table, seat)) => Ok((
                Turn {
                    table,
                    news: EventCount::new(),
                },
                EditorPass { seat, workers: 0 },
            )),
            Err(Refused { mut slots }) => {
                let Some(Some(boxed)) = slots.pop() else {
                    unreachable!()
                };
                slots.destroy_empty();
                Err((Box::into_inner(boxed), NoMemory))
            }
        }
    }

    /// A worker's pass, which has seen the greatest number that the editor has. At most 64 are split and not joined.
    pub fn split(&self, editor: &mut EditorPass<T>) -> WorkerPass<T>
        requires turn { editor_turn editor.old ≡ turn_id self.now }
        requires room { editor_workers editor.old < 64 }
        ensures turn { (editor_turn editor.new ≡ editor_turn editor.old)
            × (worker_turn result ≡ editor_turn editor.old) }
        ensures editor { (editor_list editor.new ≡ editor_list editor.old)
            × (editor_seen editor.new ≡ editor_seen editor.old) }
        ensures workers { editor_workers editor.new ≡ editor_workers editor.old + 1 }
        ensures worker { worker_seen result ≡ editor_seen editor.old }
    {
        let EditorPass { seat, workers } = editor;
        let seat = self.table.shared.split_seat::<SplitWorker>(seat);
        *workers += 1;
        WorkerPass { seat }
    }

    /// Ends a worker's pass. What it has seen the editor has seen too.
    pub fn join(&self, editor: &mut EditorPass<T>, worker: WorkerPass<T>)
        requires turn { (editor_turn editor.old ≡ turn_id self.now)
            × (worker_turn worker ≡ turn_id self.now) }
        ensures turn { editor_turn editor.new ≡ editor_turn editor.old }
        ensures list { editor_list editor.new ≡ editor_list editor.old }
        ensures number { editor_seen editor.new
            ≡ max (editor_seen editor.old) (worker_seen worker) }
        ensures workers { editor_workers editor.new ≡ editor_workers editor.old - 1 }
    {
        let other = worker.open();
        let EditorPass { seat, workers } = editor;
        self.table.shared.join_seat::<JoinWorker>(seat, other);
        *workers = workers.saturating_sub(1);
    }

    /// Ends the turn, once every worker's pass was joined: the value has the list that the editor left.
    pub fn close(self, editor: EditorPass<T>) -> T
        requires turn { editor_turn editor ≡ turn_id self }
        requires workers { editor_workers editor ≡ 0 }
        ensures list { T.entries result ≡ editor_list editor }
        ensures number { editor_seen editor ≤ T.number result }
    {
        let Turn { table, news: _ } = self;
        let (seat, _) = editor.open();
        let mut closed = table.close_with(seat);
        let value = closed.take(0);
        closed.free();
        let Some(boxed) = value else { unreachable!() };
        Box::into_inner(boxed)
    }
}

impl<T: Told> EditorPass<T> {
    /// How many passes were split and not joined.
    pub fn workers(&self) -> u32
        ensures { result ≡ editor_workers self.now }
    {
        self.workers
    }
}
