//! The value of a turn that is held.
ghost use Rattle.std.specs.Prelude.{◌≡◌};
ghost use Rattle.std.specs.Borrow.{Lends, sem};
ghost use Rattle.ltm_turn.specs.Passes.{editor_value, worker_value, with_editor_value, with_worker_value};
ghost use Rattle.ltm_turn.specs.contracts.passes.EditorHeld.{the_row as editor_row};
ghost use Rattle.ltm_turn.specs.contracts.passes.WorkerHeld.{the_row as worker_row};

use crate::Told;
use crate::passes::{EditorHeld, WorkerHeld};

impl<T: Told> EditorHeld<T> {
    /// The value.
    pub fn get(&self) -> &T
        ensures { result.now ≡ editor_value self.now }
    {
        self.value.as_ref()
    }

    /// The value, to be changed: what is written stands in the held turn.
    pub fn get_mut(&mut self) -> &mut T
        ensures* writes_back { sem 𝓛 (Lends
            (editor_row T.row T.Entry.row T.Told) T.row self.entry result
            (with_editor_value self.old)) }
        ensures value { result.now ≡ editor_value self.old }
    {
        self.value.as_mut()
    }
}

impl<T: Told> WorkerHeld<T> {
    /// The value.
    pub fn get(&self) -> &T
        ensures { result.now ≡ worker_value self.now }
    {
        self.value.as_ref()
    }

    /// The value, to be changed: what is written stands in the held turn.
    pub fn get_mut(&mut self) -> &mut T
        ensures* writes_back { sem 𝓛 (Lends
            (worker_row T.row T.Entry.row T.Told) T.row self.entry result
            (with_worker_value self.old)) }
        ensures value { result.now ≡ worker_value self.old }
    {
        self.value.as_mut()
    }
}
