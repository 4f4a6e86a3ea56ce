//! Totals between boundaries.
ghost use Rattle.std.specs.Prelude.{◌≡◌, ◌+◌, ◌*◌, ◌<◌, ◌≤◌, ℤ, pos, ◌≤ℤ◌};
ghost use Rattle.ltm_curve.specs.Counts.{interpolated, at_time, RisesAt};

use crate::curves::Curves;
use ltm_units::{Millis, share_of};

impl Curves {
    ghost use Rattle.ltm_curve.specs.Table.{groups_of, slots_of, total_of};

    /// The total of a group `rest` milliseconds past a boundary, interpolated and rounded down.
    fn past(&self, group: u32, boundary: u32, rest: Millis, step: Millis) -> u64
        requires group { group < groups_of self.now }
        requires rest { rest.0 < step.0 }
        requires boundary { boundary ≤ slots_of self.now }
        requires next { 0 < rest.0 → boundary < slots_of self.now }
        requires rises { 0 < rest.0
            → total_of self.now group boundary ≤ total_of self.now group (boundary + 1) }
        ensures { result ≡ interpolated (total_of self.now group) step.0 (boundary * step.0
            + rest.0) }
    {
        let before = self.total(group, boundary);
        if rest.0 == 0 {
            return before;
        }
        let after = self.total(group, boundary + 1);
        before + share_of(after - before, rest.0, step.0)
    }

    /// The total of a group at a time in milliseconds after the start: at a boundary its total, between two boundaries
    /// interpolated and rounded down, and 0 before the start.
    pub fn at(&self, group: u32, time: i64, step: Millis) -> u64
        requires group { group < groups_of self.now }
        requires some_step { 1 ≤ step.0 }
        requires time { time ≤ℤ pos (slots_of self.now * step.0) }
        requires rises { RisesAt (total_of self.now group) step.0 time }
        ensures { result ≡ at_time (total_of self.now group) step.0 time }
    {
        if time < 0 {
            return 0;
        }
        let _slots = self.slots();
        let time = time as u64;
        let boundary = (time / step.0) as u32;
        let rest = Millis(time % step.0);
        self.past(group, boundary, rest, step)
    }
}
