//! What the arms of a node move to its sink.
ghost use Rattle.std.specs.Prelude.{◌≡◌, ◌<◌, ◌+◌, true};
ghost use Rattle.ltm_node.specs.Shape.{is_own};

use super::Mover;
use crate::loads::Load;
use crate::tally::Tally;

impl Mover<'_> {
    ghost use Rattle.ltm_node.specs.Moving.{IsMovingAt, HaveMovedTo, IsLoad};

    /// Adds what an arm moves to the sink.
    #[inline]
    fn sink<T: Tally>(&self, load: Load, row: &mut [u64], tally: &T)
        requires load { IsLoad self.now.inputs.now load }
        requires here { is_own self.now.inputs.now.shape load.destination ≡ true }
        requires before { IsMovingAt self.now (T.stands tally.now) load.destination load.arm row.old }
        ensures after { IsMovingAt self.now (T.stands tally.now) load.destination (load.arm + 1) row.new }
    {
        T::passes();
        let sunk = self.portion.of(load.arm, load.amount);
        row[self.shape.left_after_place(load.arm, load.destination)] += sunk;
        row[self.shape.arrived_after_place()] += sunk;
    }

    /// Adds what all arms move to the sink.
    pub(super) fn sink_all<T: Tally>(&self, destination: u32, row: &mut [u64], tally: &T)
        requires destination { destination < self.now.inputs.now.shape.destinations }
        requires here { is_own self.now.inputs.now.shape destination ≡ true }
        requires before { HaveMovedTo self.now (T.stands tally.now) destination row.old }
        ensures after { HaveMovedTo self.now (T.stands tally.now) (destination + 1) row.new }
    {
        for arm in 0..self.shape.arms {
            self.sink(self.load(arm, destination), row, tally);
        }
    }
}
