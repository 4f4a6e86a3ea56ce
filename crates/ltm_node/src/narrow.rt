//! The step of a narrow node, which has at most one out-link, in a case with one destination.
//!
//! All that its arms send goes one way, so each count is written straight to its place in the row of the outputs.
ghost use Rattle.std.specs.Prelude.{◌≡◌, ℕ, ◌≤◌, false, true, length, IsTrue, IsFalse};
ghost use Rattle.ltm_units.specs.Sums.{sum_below};
ghost use Rattle.ltm_node.specs.Shape.{counts_width, is_own, width};
ghost use Rattle.ltm_node.specs.Inputs.{sending};
ghost use Rattle.ltm_node.specs.Solvable.{IsSolvable};
ghost use Rattle.ltm_node.specs.Step.{IsNodeStep};
ghost use Rattle.ltm_node.specs.Narrow.{IsNarrow, HaveLeft, HaveMoved, HaveShifted, leaves, laid, most_moved};
ghost use Rattle.ltm_node.specs.Reading.{row_as};
ghost use Rattle.ltm_units.specs.Bounds.{most_in_slot};

mod readers;

use crate::outputs::NodeOutputs;
use crate::reading::{Numbers, Reading};
use crate::shape::NodeShape;

/// A narrow node. The shape and the row of its inputs are at hand, so that they need not be read anew behind each write.
#[derive(Clone, Copy)]
pub struct Narrow<'a> {
    pub inputs: &'a Reading<'a>,
    pub shape: NodeShape,
    numbers: Numbers<'a>,
    ghost solvable: { IsSolvable inputs.now },
    ghost narrow: { IsNarrow inputs.now.shape },
    ghost same_shape: { shape ≡ inputs.now.shape },
    ghost same_row: { inputs.now.row ≡ row_as numbers.counted shape numbers.row.now },
    ghost long: { length numbers.row.now ≡ width shape },
}

/// What more than any narrow node moves is.
const MOST: u64 = 320_000;

impl Narrow<'_> {
    /// Whether all that the arms send goes to the out-link where their shares are 1; else nothing does.
    #[inline]
    fn all_leaves(&self) -> bool
        requires elsewhere { is_own self.now.inputs.now.shape 0 ≡ false }
        ensures out { IsTrue result → self.now.inputs.now.shape.outs ≡ 1 }
        ensures all { IsTrue result → (arm : ℕ)
            → leaves self.now.inputs.now arm ≡ sending self.now.inputs.now arm 0 }
        ensures nothing { IsFalse result → (arm : ℕ) → leaves self.now.inputs.now arm ≡ 0 }
    {
        if self.shape.outs == 0 {
            return false;
        }
        self.weight() > 0
    }

    /// Writes what has left each arm where nothing leaves it.
    fn keep_left(&self, counts: &mut [u64])
        requires nothing { (arm : ℕ) → leaves self.now.inputs.now arm ≡ 0 }
        requires width { length counts.old ≡ counts_width self.now.inputs.now.shape }
        ensures after { HaveLeft self.now.inputs.now self.now.inputs.now.shape.arms
            (laid self.now.inputs.now.shape counts.new) }
    {
        for arm in 0..self.shape.arms {
            let count = self.left(arm);
            counts[self.shape.left_after_place(arm, 0)] = count;
        }
    }

    /// Writes what has left each arm where all that it sends leaves it, and gives what leaves them all, for as long as that
    /// is within a bound. That it may end early also keeps so short a loop from being widened.
    #[inline]
    fn write_left(&self, counts: &mut [u64], most: u64) -> u64
        requires all { (arm : ℕ)
            → leaves self.now.inputs.now arm ≡ sending self.now.inputs.now arm 0 }
        requires width { length counts.old ≡ counts_width self.now.inputs.now.shape }
        ensures small { result ≤ most_moved }
        ensures width { length counts.new ≡ counts_width self.now.inputs.now.shape }
        ensures after { result ≤ most
            → HaveLeft self.now.inputs.now self.now.inputs.now.shape.arms
            (laid self.now.inputs.now.shape counts.new) }
        ensures total { result ≤ most
            → result ≡ sum_below self.now.inputs.now.shape.arms (leaves self.now.inputs.now) }
    {
        let mut total = 0u64;
        for arm in 0..self.shape.arms {
            let amount = self.sending(arm);
            let count = self.left(arm) + amount;
            counts[self.shape.left_after_place(arm, 0)] = count;
            total += amount;
            if total > most {
                return total;
            }
        }
        total
    }

    /// Writes what has entered the out-link and what has arrived.
    #[inline]
    fn write_rest(&self, counts: &mut [u64], entering: u64, arriving: u64)
        requires before { HaveLeft self.now.inputs.now self.now.inputs.now.shape.arms
            (laid self.now.inputs.now.shape counts.old) }
        requires entering { entering ≤ most_moved }
        requires arriving { arriving ≤ most_moved }
        ensures after { HaveMoved self.now.inputs.now entering arriving
            (laid self.now.inputs.now.shape counts.new) }
    {
        let arrived = self.arrived() + arriving;
        if self.shape.outs > 0 {
            let count = self.entered() + entering;
            counts[self.shape.entered_after_place(0, 0)] = count;
        }
        counts[self.shape.arrived_after_place()] = arrived;
    }

    /// Writes the counts where there are one arm and one out-link, and this amount moves.
    #[inline]
    fn shift(&self, counts: &mut [u64], amount: u64)
        requires arm { self.now.inputs.now.shape.arms ≡ 1 }
        requires out { self.now.inputs.now.shape.outs ≡ 1 }
        requires amount { amount ≤ most_in_slot }
        requires width { length counts.old ≡ counts_width self.now.inputs.now.shape }
        ensures after { HaveShifted self.now.inputs.now amount
            (laid self.now.inputs.now.shape counts.new) }
    {
        let left = self.left(0) + amount;
        let entered = self.entered() + amount;
        let arrived = self.arrived();
        counts[self.shape.left_after_place(0, 0)] = left;
        counts[self.shape.entered_after_place(0, 0)] = entered;
        counts[self.shape.arrived_after_place()] = arrived;
    }

    /// Writes the counts where nothing moves. Kept out of line.
    #[inline(never)]
    fn stay(&self, counts: &mut [u64])
        requires elsewhere { is_own self.now.inputs.now.shape 0 ≡ false }
        requires nothing { (arm : ℕ) → leaves self.now.inputs.now arm ≡ 0 }
        requires width { length counts.old ≡ counts_width self.now.inputs.now.shape }
        ensures { IsNodeStep self.now.inputs.now (laid self.now.inputs.now.shape counts.new) }
    {
        self.keep_left(counts);
        self.write_rest(counts, 0, 0);
    }

    /// Writes the counts of the node that is the destination. Kept out of line.
    #[inline(never)]
    fn sink(&self, counts: &mut [u64])
        requires own { is_own self.now.inputs.now.shape 0 ≡ true }
        requires width { length counts.old ≡ counts_width self.now.inputs.now.shape }
        ensures { IsNodeStep self.now.inputs.now (laid self.now.inputs.now.shape counts.new) }
    {
        let total = self.write_left(counts, MOST);
        self.write_rest(counts, 0, total);
    }

    /// Writes the counts where one arm alone sends: it moves what the out-link can take.
    #[inline]
    fn send_alone(&self, counts: &mut [u64])
        requires elsewhere { is_own self.now.inputs.now.shape 0 ≡ false }
        requires arm { self.now.inputs.now.shape.arms ≡ 1 }
        requires out { self.now.inputs.now.shape.outs ≡ 1 }
        requires all { (arm : ℕ)
            → leaves self.now.inputs.now arm ≡ sending self.now.inputs.now arm 0 }
        requires width { length counts.old ≡ counts_width self.now.inputs.now.shape }
        ensures { IsNodeStep self.now.inputs.now (laid self.now.inputs.now.shape counts.new) }
    {
        let amount = self.sending(0);
        let most = self.can_take();
        self.shift(counts, amount.min(most));
    }

    /// Writes what has left each of two arms where these amounts leave them.
    #[inline]
    fn write_two(&self, counts: &mut [u64], first: u64, second: u64)
        requires arms { self.now.inputs.now.shape.arms ≡ 2 }
        requires first { first ≡ leaves self.now.inputs.now 0 }
        requires second { second ≡ leaves self.now.inputs.now 1 }
        requires width { length counts.old ≡ counts_width self.now.inputs.now.shape }
        ensures { HaveLeft self.now.inputs.now self.now.inputs.now.shape.arms
            (laid self.now.inputs.now.shape counts.new) }
    {
        let one = self.left(0) + first;
        let other = self.left(1) + second;
        counts[self.shape.left_after_place(0, 0)] = one;
        counts[self.shape.left_after_place(1, 0)] = other;
    }

    /// Writes the counts where two arms send, as an in-link and the origin, if the out-link can take what they do; whether it
    /// did. It has no loop, since most nodes of a corridor are such.
    #[inline]
    fn send_two(&self, counts: &mut [u64]) -> bool
        requires elsewhere { is_own self.now.inputs.now.shape 0 ≡ false }
        requires arms { self.now.inputs.now.shape.arms ≡ 2 }
        requires out { self.now.inputs.now.shape.outs ≡ 1 }
        requires all { (arm : ℕ)
            → leaves self.now.inputs.now arm ≡ sending self.now.inputs.now arm 0 }
        requires width { length counts.old ≡ counts_width self.now.inputs.now.shape }
        ensures { IsTrue result
            → IsNodeStep self.now.inputs.now (laid self.now.inputs.now.shape counts.new) }
    {
        let first = self.sending(0);
        let second = self.sending(1);
        let most = self.can_take();
        let total = first + second;
        if total > most {
            return false;
        }
        self.write_two(counts, first, second);
        self.write_rest(counts, total, 0);
        true
    }

    /// Writes the counts where several arms send, if the out-link can take what they do; whether it did. Kept out of line.
    #[inline(never)]
    fn send_many(&self, counts: &mut [u64]) -> bool
        requires elsewhere { is_own self.now.inputs.now.shape 0 ≡ false }
        requires out { self.now.inputs.now.shape.outs ≡ 1 }
        requires all { (arm : ℕ)
            → leaves self.now.inputs.now arm ≡ sending self.now.inputs.now arm 0 }
        requires width { length counts.old ≡ counts_width self.now.inputs.now.shape }
        ensures { IsTrue result
            → IsNodeStep self.now.inputs.now (laid self.now.inputs.now.shape counts.new) }
    {
        let most = self.can_take();
        let total = self.write_left(counts, most);
        if total > most {
            return false;
        }
        self.write_rest(counts, total, 0);
        true
    }

    /// Writes the counts where all that the arms send goes to the out-link, if it can take that or there is one arm alone;
    /// whether it did.
    #[inline]
    fn send(&self, counts: &mut [u64]) -> bool
        requires elsewhere { is_own self.now.inputs.now.shape 0 ≡ false }
        requires out { self.now.inputs.now.shape.outs ≡ 1 }
        requires all { (arm : ℕ)
            → leaves self.now.inputs.now arm ≡ sending self.now.inputs.now arm 0 }
        requires width { length counts.old ≡ counts_width self.now.inputs.now.shape }
        ensures { IsTrue result
            → IsNodeStep self.now.inputs.now (laid self.now.inputs.now.shape counts.new) }
    {
        if self.shape.arms == 2 {
            return self.send_two(counts);
        }
        if self.shape.arms == 1 {
            self.send_alone(counts);
            return true;
        }
        self.send_many(counts)
    }

    /// Writes the counts at the end of the slot, where the out-link can take all that is sent to it or is sent to by one arm
    /// alone; whether it did.
    #[inline]
    pub fn write(&self, counts: &mut [u64]) -> bool
        requires { length counts.old ≡ counts_width self.now.inputs.now.shape }
        ensures { IsTrue result
            → IsNodeStep self.now.inputs.now (laid self.now.inputs.now.shape counts.new) }
    {
        if self.is_own() {
            self.sink(counts);
            return true;
        }
        if !self.all_leaves() {
            self.stay(counts);
            return true;
        }
        self.send(counts)
    }
}

/// Writes the counts at the end of the slot where the node is narrow, and its out-link can take all that is sent to it or
/// is sent to by one arm alone; whether it did.
#[inline]
pub fn step_narrow(inputs: &Reading<'_>, outputs: &mut NodeOutputs) -> bool
    requires solvable { IsSolvable inputs.now }
    requires room { counts_width inputs.now.shape ≤ outputs.old.room }
    ensures step { IsTrue result → IsNodeStep inputs.now outputs.new }
    ensures room { outputs.new.room ≡ outputs.old.room }
{
    let shape = inputs.shape();
    if shape.outs > 1 || shape.destinations != 1 {
        return false;
    }
    let numbers = inputs.numbers();
    let narrow = Narrow {
        inputs,
        shape,
        numbers,
    };
    outputs.write_narrow(&narrow)
}
