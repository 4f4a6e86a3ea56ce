//! What the arms of a node move in a slot, added to the counts at its beginning.
//!
//! All that goes to a destination is split over the same weights, so their sum is formed once for all arms, and the first
//! weights above 0 are looked for once. Where one or two weights are all of the sum, as in nearly every row, no arm looks
//! through the weights (`moves/ways.rt`). Else an amount is split out-link by out-link, what is not split yet staying in
//! hand, and ends with the last weight above 0. An amount of 0 moves nothing and is passed over, and so
//! is a destination to which no arm sends, before its weights are looked at, and where there are many by fours
//! (`moves/walk.rt`).
//!
//! Whoever changes this: the rule is `MovesAtShares` of `specs/Step.antt`, with `part` and `to_sink` of `specs/Demands.antt`
//! for what is sent by each way. The pass here is its general form, for all shapes and shares; each fast form is proved
//! against the same rule.
//!
//! How much moves of a part is the tally's to say (`tally.rt`): either each part is rounded down by itself, or a whole turn
//! is, and is split over its parts. The pass is written over the tally, so that no part asks which of the two it is.
//!
//! - `Portion::Whole` comes before the shares in `step_wide`: where no out-link is short, one pass is enough, and neither
//!   shares nor a fraction are worked out. What its tally has is what the shares are made from where one is short, and
//!   only those that are short are asked (`ask`). A turn of which all moves is its parts, so both rules share this pass.
//! - The narrow step (`narrow.rt`), for at most one out-link and one destination, writes the counts straight to their places.
//!   It saves the copy of the counts, the split and the tally, and where one arm alone sends more than its out-link can take,
//!   the shares too.
//! - `share_of_rest` divides in 64 bits, and only for a weight that is neither 0 nor all that is left; `sum_of` adds up to four
//!   weights without a loop; each pass over the arms steps from load to load, and `split` from out-link to out-link, by their
//!   places in the rows.
//!
//! A change of the rule is made in `specs/Step.antt`, here and in `narrow.rt` with `specs/Narrow.antt`. A change of the order
//! of the loops is one of `IsMoving` in `specs/Moving.antt`, which says how far row and tally are: a turn is split over the
//! destinations in the order of their numbers. Where a number stands in a row is told by `shape.rt`, `specs/Shape.antt` and
//! `specs/Outputs.antt`; the passes rely on the loads standing arm by arm.
ghost use Rattle.std.specs.Prelude.{◌≡◌, ◌<◌, ◌+◌, ℕ, IsFalse, false, sum, length};
ghost use Rattle.ltm_units.specs.Sums.{sum_below};
ghost use Rattle.ltm_node.specs.Shape.{is_own, sending_place, width};
ghost use Rattle.ltm_node.specs.Inputs.{sending, weights};
ghost use Rattle.ltm_node.specs.Outputs.{entered_after_place};
ghost use Rattle.ltm_node.specs.Solvable.{IsSolvable};
ghost use Rattle.ltm_node.specs.Portion.{AreFractions};
ghost use Rattle.ltm_node.specs.Reading.{row_as};

mod sinks;
mod walk;
mod ways;

use crate::loads::{Load, Part};
use crate::portion::Portion;
use crate::reading::{Numbers, Reading};
use crate::shape::NodeShape;
use crate::split::share_of_rest;
use crate::tally::Tally;
use ltm_units::sum_of;
use ways::{TwoWays, next_above};

/// The arms of a node, each of which moves a portion of what it sends. The shape and the row of the inputs are at hand, so
/// that they need not be read anew behind each write.
#[derive(Clone, Copy)]
pub struct Mover<'a> {
    pub inputs: &'a Reading<'a>,
    pub portion: Portion<'a>,
    shape: NodeShape,
    numbers: Numbers<'a>,
    ghost solvable: { IsSolvable inputs.now },
    ghost fractions: { AreFractions inputs.now portion },
    ghost same_shape: { shape ≡ inputs.now.shape },
    ghost same_row: { inputs.now.row ≡ row_as numbers.counted shape numbers.row.now },
    ghost long: { length numbers.row.now ≡ width shape },
}

impl Mover<'_> {
    ghost use Rattle.ltm_node.specs.Moving.{IsMovingBy, IsMovingAt, HaveMovedTo, IsLoad, IsPart, moved_by};

    /// The arms of a node that move this portion of what they send.
    #[inline]
    pub fn of<'a>(inputs: &'a Reading<'a>, portion: Portion<'a>) -> Mover<'a>
        requires solvable { IsSolvable inputs.now }
        requires fractions { AreFractions inputs.now portion }
        ensures inputs { result.inputs.now ≡ inputs.now }
        ensures portion { result.portion ≡ portion.entry }
    {
        Mover {
            inputs,
            portion,
            shape: inputs.shape(),
            numbers: inputs.numbers(),
        }
    }

    /// What an arm sends to a destination, from its place in the row.
    #[inline]
    fn load_at(&self, arm: u32, destination: u32, place: usize) -> Load
        requires arm { arm < self.now.inputs.now.shape.arms }
        requires destination { destination < self.now.inputs.now.shape.destinations }
        requires place { place ≡ sending_place self.now.shape arm destination }
        ensures arm { result.arm ≡ arm }
        ensures destination { result.destination ≡ destination }
        ensures load { IsLoad self.now.inputs.now result }
    {
        Load {
            arm,
            destination,
            amount: self.numbers.row[place],
        }
    }

    /// What an arm sends to a destination.
    #[inline]
    fn load(&self, arm: u32, destination: u32) -> Load
        requires arm { arm < self.now.inputs.now.shape.arms }
        requires destination { destination < self.now.inputs.now.shape.destinations }
        ensures arm { result.arm ≡ arm }
        ensures destination { result.destination ≡ destination }
        ensures load { IsLoad self.now.inputs.now result }
    {
        self.load_at(arm, destination, self.shape.sending_place(arm, destination))
    }

    /// The weights of all out-links for a destination.
    #[inline]
    fn weights(&self, destination: u32) -> &[u64]
        requires { destination < self.now.inputs.now.shape.destinations }
        ensures weights { result.now ≡ weights self.now.inputs.now destination }
        ensures outs { length result.now ≡ self.now.inputs.now.shape.outs }
    {
        let from = self.shape.weights_place(destination);
        &self.numbers.row[from..from + self.shape.outs as usize]
    }

    /// The sum of the weights for a destination.
    #[inline]
    fn whole_weight(&self, destination: u32) -> u64
        requires { destination < self.now.inputs.now.shape.destinations }
        ensures { result ≡ sum (weights self.now.inputs.now destination) }
    {
        sum_of(self.weights(destination))
    }

    /// Adds what moves of a part, whose count stands at this place of the row, and returns it.
    #[inline]
    fn enter<T: Tally>(&self, part: Part, place: usize, row: &mut [u64], tally: &mut T) -> u64
        requires part { IsPart self.now.inputs.now part }
        requires place { place
            ≡ entered_after_place self.now.inputs.now.shape part.out part.destination }
        requires before { IsMovingBy self.now (T.stands tally.old) part.destination part.arm part.out row.old }
        ensures moved { result ≡ moved_by self.now part.arm part.destination part.out }
        ensures after { IsMovingBy self.now (T.stands tally.new) part.destination part.arm (part.out
            + 1) row.new }
    {
        T::passes();
        if part.amount == 0 {
            return 0;
        }
        let moved = tally.take(self, part);
        row[place] += moved;
        moved
    }

    /// Where the count that has entered the first out-link for a destination stands.
    #[inline]
    fn entered_begin(&self, destination: u32) -> usize
        requires { destination < self.now.inputs.now.shape.destinations }
        ensures { result ≡ entered_after_place self.now.inputs.now.shape 0 destination }
    {
        self.shape.arms as usize * self.shape.destinations as usize + destination as usize
    }

    /// Adds what has left an arm by all out-links.
    #[inline]
    fn leave<T: Tally>(&self, load: Load, total: u64, row: &mut [u64], tally: &T)
        requires load { IsLoad self.now.inputs.now load }
        requires elsewhere { is_own self.now.inputs.now.shape load.destination ≡ false }
        requires total { total
            ≡ sum_below self.now.inputs.now.shape.outs
            (moved_by self.now load.arm load.destination) }
        requires before { IsMovingBy self.now (T.stands tally.now) load.destination load.arm
            self.now.inputs.now.shape.outs row.old }
        ensures after { IsMovingAt self.now (T.stands tally.now) load.destination (load.arm + 1) row.new }
    {
        row[self.shape.left_after_place(load.arm, load.destination)] += total;
    }

    /// Adds what moves of a load that is split over weights of this sum.
    #[inline]
    fn split<T: Tally>(&self, load: Load, whole: u64, row: &mut [u64], tally: &mut T)
        requires load { IsLoad self.now.inputs.now load }
        requires elsewhere { is_own self.now.inputs.now.shape load.destination ≡ false }
        requires whole { whole ≡ sum (weights self.now.inputs.now load.destination) }
        requires before { IsMovingAt self.now (T.stands tally.old) load.destination load.arm row.old }
        ensures after { IsMovingAt self.now (T.stands tally.new) load.destination (load.arm + 1) row.new }
    {
        T::passes();
        let weights = self.weights(load.destination);
        let mut left = load.amount;
        let mut rest = whole;
        let mut total = 0u64;
        let mut out = 0u32;
        let mut place = self.entered_begin(load.destination);
        while rest > 0 {
            let weight = weights[out as usize];
            let part = load.by(out, share_of_rest(left, weight, rest));
            left -= part.amount;
            rest -= weight;
            total += self.enter(part, place, row, tally);
            place += self.shape.destinations as usize;
            out += 1;
        }
        self.leave(load, total, row, tally);
    }

    /// Adds what an arm moves to a destination that is not the node.
    #[inline]
    fn send<T: Tally>(&self, load: Load, whole: u64, row: &mut [u64], tally: &mut T)
        requires load { IsLoad self.now.inputs.now load }
        requires elsewhere { is_own self.now.inputs.now.shape load.destination ≡ false }
        requires whole { whole ≡ sum (weights self.now.inputs.now load.destination) }
        requires before { IsMovingAt self.now (T.stands tally.old) load.destination load.arm row.old }
        ensures after { IsMovingAt self.now (T.stands tally.new) load.destination (load.arm + 1) row.new }
    {
        T::passes();
        if load.amount > 0 {
            self.split(load, whole, row, tally);
        }
    }

    /// Adds what all arms move to a destination that is not the node, by any out-links.
    fn send_all_by_any<T: Tally>(
        &self,
        destination: u32,
        whole: u64,
        row: &mut [u64],
        tally: &mut T,
    )
        requires destination { destination < self.now.inputs.now.shape.destinations }
        requires elsewhere { is_own self.now.inputs.now.shape destination ≡ false }
        requires whole { whole ≡ sum (weights self.now.inputs.now destination) }
        requires before { HaveMovedTo self.now (T.stands tally.old) destination row.old }
        ensures after { HaveMovedTo self.now (T.stands tally.new) (destination + 1) row.new }
    {
        let mut place = destination as usize;
        for arm in 0..self.shape.arms {
            self.send(self.load_at(arm, destination, place), whole, row, tally);
            place += self.shape.destinations as usize;
        }
    }

    /// Whether some arm sends to a destination.
    #[inline]
    fn is_sent_to(&self, destination: u32) -> bool
        requires { destination < self.now.inputs.now.shape.destinations }
        ensures { IsFalse result → (i : ℕ) → i < self.now.inputs.now.shape.arms
            → sending self.now.inputs.now i destination ≡ 0 }
    {
        let mut place = destination as usize;
        for arm in 0..self.shape.arms {
            if self.load_at(arm, destination, place).amount > 0 {
                return true;
            }
            place += self.shape.destinations as usize;
        }
        false
    }

    /// Adds what all arms move to a destination that is not the node.
    fn send_all<T: Tally>(&self, destination: u32, row: &mut [u64], tally: &mut T)
        requires destination { destination < self.now.inputs.now.shape.destinations }
        requires elsewhere { is_own self.now.inputs.now.shape destination ≡ false }
        requires before { HaveMovedTo self.now (T.stands tally.old) destination row.old }
        ensures after { HaveMovedTo self.now (T.stands tally.new) (destination + 1) row.new }
    {
        T::passes();
        if !self.is_sent_to(destination) {
            return;
        }
        let whole = self.whole_weight(destination);
        if whole == 0 {
            return;
        }
        let weights = self.weights(destination);
        let out = next_above(weights, 0);
        let first = self.way_by(destination, out);
        let weight = weights[out as usize];
        if weight == whole {
            self.send_all_by_one(destination, first, row, tally);
            return;
        }
        let other = next_above(weights, out + 1);
        if weight + weights[other as usize] == whole {
            let second = self.way_by(destination, other);
            let pair = TwoWays {
                first,
                second,
                weight,
                whole,
            };
            self.send_all_by_two(destination, pair, row, tally);
        } else {
            self.send_all_by_any(destination, whole, row, tally);
        }
    }

    /// Adds what all arms move to a destination.
    #[inline]
    fn move_to<T: Tally>(&self, destination: u32, row: &mut [u64], tally: &mut T)
        requires destination { destination < self.now.inputs.now.shape.destinations }
        requires before { HaveMovedTo self.now (T.stands tally.old) destination row.old }
        ensures after { HaveMovedTo self.now (T.stands tally.new) (destination + 1) row.new }
    {
        if self.shape.is_own(destination) {
            self.sink_all(destination, row, tally);
        } else {
            self.send_all(destination, row, tally);
        }
    }
}
