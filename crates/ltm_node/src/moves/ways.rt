//! What the arms of a node move to a destination to which all goes by one out-link, or by two.
//!
//! Nearly every row of weights has no more than two above 0. Such out-links are found once for all arms, so that no arm
//! looks through the weights: one out-link gets all of an amount, and the second of two what the first leaves of it.
ghost use Rattle.std.specs.Prelude.{◌≡◌, ◌+◌, ◌<◌, ◌≤◌, false, sum, drop, length, slice_index};
ghost use Rattle.ltm_node.specs.Shape.{is_own};
ghost use Rattle.ltm_node.specs.Outputs.{entered_after_place};

use super::Mover;
use crate::loads::Load;
use crate::tally::Tally;

/// An out-link, and where the count that has entered it for a destination stands.
#[derive(Clone, Copy)]
pub struct Way {
    pub out: u32,
    pub place: usize,
}

/// Two out-links, the weight of the first, and the sum of all weights.
#[derive(Clone, Copy)]
pub struct TwoWays {
    pub first: Way,
    pub second: Way,
    pub weight: u64,
    pub whole: u64,
}

/// The first out-link from this one on that has a weight above 0.
#[inline]
pub fn next_above(weights: &[u64], from: u32) -> u32
    requires few { length weights.now ≤ 4 }
    requires some { 0 < sum (drop from weights.now) }
    ensures behind { from ≤ result }
    ensures within { result < length weights.now }
    ensures above { 0 < slice_index weights.now result }
    ensures rest { sum (drop result weights.now) ≡ sum (drop from weights.now) }
{
    let mut out = from;
    'outs: while weights[out as usize] == 0 {
        out += 1;
    }
    out
}

impl Mover<'_> {
    ghost use Rattle.ltm_node.specs.Moving.{IsMovingAt, HaveMovedTo, IsLoad, IsOnlyWay, AreOnlyWays};

    /// An out-link as a way to a destination.
    #[inline]
    pub(super) fn way_by(&self, destination: u32, out: u32) -> Way
        requires destination { destination < self.now.inputs.now.shape.destinations }
        requires out { out < self.now.inputs.now.shape.outs }
        ensures out { result.out ≡ out }
        ensures place { result.place
            ≡ entered_after_place self.now.inputs.now.shape out destination }
    {
        Way {
            out,
            place: self.shape.entered_after_place(out, destination),
        }
    }

    /// Adds what moves of a load that goes by one out-link.
    #[inline]
    fn send_by_one<T: Tally>(&self, load: Load, way: Way, row: &mut [u64], tally: &mut T)
        requires load { IsLoad self.now.inputs.now load }
        requires elsewhere { is_own self.now.inputs.now.shape load.destination ≡ false }
        requires way { IsOnlyWay self.now.inputs.now load.destination way }
        requires before { IsMovingAt self.now (T.stands tally.old) load.destination load.arm row.old }
        ensures after { IsMovingAt self.now (T.stands tally.new) load.destination (load.arm + 1) row.new }
    {
        T::passes();
        if load.amount == 0 {
            return;
        }
        let moved = self.enter(load.by(way.out, load.amount), way.place, row, tally);
        self.leave(load, moved, row, tally);
    }

    /// Adds what all arms move to a destination that is not the node, by one out-link.
    pub(super) fn send_all_by_one<T: Tally>(
        &self,
        destination: u32,
        way: Way,
        row: &mut [u64],
        tally: &mut T,
    )
        requires destination { destination < self.now.inputs.now.shape.destinations }
        requires elsewhere { is_own self.now.inputs.now.shape destination ≡ false }
        requires way { IsOnlyWay self.now.inputs.now destination way }
        requires before { HaveMovedTo self.now (T.stands tally.old) destination row.old }
        ensures after { HaveMovedTo self.now (T.stands tally.new) (destination + 1) row.new }
    {
        let mut place = destination as usize;
        for arm in 0..self.shape.arms {
            self.send_by_one(self.load_at(arm, destination, place), way, row, tally);
            place += self.shape.destinations as usize;
        }
    }

    /// Adds what moves of a load that goes by two out-links.
    #[inline]
    fn send_by_two<T: Tally>(&self, load: Load, pair: TwoWays, row: &mut [u64], tally: &mut T)
        requires load { IsLoad self.now.inputs.now load }
        requires elsewhere { is_own self.now.inputs.now.shape load.destination ≡ false }
        requires pair { AreOnlyWays self.now.inputs.now load.destination pair }
        requires before { IsMovingAt self.now (T.stands tally.old) load.destination load.arm row.old }
        ensures after { IsMovingAt self.now (T.stands tally.new) load.destination (load.arm + 1) row.new }
    {
        T::passes();
        if load.amount == 0 {
            return;
        }
        let part = load.amount * pair.weight / pair.whole;
        let first = self.enter(load.by(pair.first.out, part), pair.first.place, row, tally);
        let other = load.amount - part;
        let second = self.enter(
            load.by(pair.second.out, other),
            pair.second.place,
            row,
            tally,
        );
        self.leave(load, first + second, row, tally);
    }

    /// Adds what all arms move to a destination that is not the node, by two out-links.
    pub(super) fn send_all_by_two<T: Tally>(
        &self,
        destination: u32,
        pair: TwoWays,
        row: &mut [u64],
        tally: &mut T,
    )
        requires destination { destination < self.now.inputs.now.shape.destinations }
        requires elsewhere { is_own self.now.inputs.now.shape destination ≡ false }
        requires pair { AreOnlyWays self.now.inputs.now destination pair }
        requires before { HaveMovedTo self.now (T.stands tally.old) destination row.old }
        ensures after { HaveMovedTo self.now (T.stands tally.new) (destination + 1) row.new }
    {
        let mut place = destination as usize;
        for arm in 0..self.shape.arms {
            self.send_by_two(self.load_at(arm, destination, place), pair, row, tally);
            place += self.shape.destinations as usize;
        }
    }
}
