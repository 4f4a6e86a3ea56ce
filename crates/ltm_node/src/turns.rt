//! The turns of a node while its arms move by them, where each turn is rounded down whole.
ghost use Rattle.std.specs.Prelude.{◌≡◌, ◌≢◌, ℕ, ◌<◌, true};
ghost use Rattle.ltm_shares.specs.Sent.{sent_at};
ghost use Rattle.ltm_node.specs.Solvable.{IsSolvable};
ghost use Rattle.ltm_node.specs.Portion.{denominator, numerator, AreFractions};
ghost use Rattle.ltm_node.specs.Step.{turned};
ghost use Rattle.ltm_node.specs.Moving.{HoldsSent};

use crate::portion::Portion;
use crate::reading::Reading;
use ltm_shares::Sent;

/// What is left to move by each turn, an arm and an out-link, and what is left of the parts over which it is split.
#[derive(Drop)]
pub struct Turns {
    pub left: Sent,
    pub rest: Sent,
}

impl Turns {
    ghost use Rattle.ltm_node.specs.Tally.{IsLeftOf};

    /// The turns before any arm has moved: by each an arm is to move its portion of all that it sends by it.
    pub fn begin(inputs: &Reading<'_>, portion: Portion<'_>, sent: Sent) -> Turns
        requires solvable { IsSolvable inputs.now }
        requires fractions { AreFractions inputs.now portion }
        requires by_turn { inputs.now.shape.by_turn ≡ true }
        requires sent { HoldsSent inputs.now sent }
        ensures { (arm out : ℕ) → arm < inputs.now.shape.arms → out < inputs.now.shape.outs
            → IsLeftOf result inputs.now portion.entry arm out 0 }
    {
        let mut turns = Turns {
            left: Sent::nothing(),
            rest: sent,
        };
        for arm in 0..inputs.arms() {
            turns.begin_arm(inputs, portion, arm);
        }
        turns
    }

    /// By each turn of an arm its portion of what it sends by it is to move.
    fn begin_arm(&mut self, inputs: &Reading<'_>, portion: Portion<'_>, arm: u32)
        requires solvable { IsSolvable inputs.now }
        requires fractions { AreFractions inputs.now portion }
        requires arm { arm < inputs.now.shape.arms }
        requires sent { HoldsSent inputs.now self.old.rest }
        requires nothing { (out : ℕ) → out < 4 → sent_at self.old.left arm out ≡ 0 }
        ensures turns { (out : ℕ) → out < inputs.now.shape.outs → sent_at self.new.left arm out
            ≡ turned inputs.now (denominator portion.entry) (numerator portion.entry) arm out }
        ensures others { (i j : ℕ) → j < 4 → i ≢ arm → sent_at self.new.left i j ≡ sent_at self.old.left i j }
        ensures rest { self.new.rest ≡ self.old.rest }
    {
        for out in 0..inputs.outs() {
            let whole = self.rest.at(arm as usize, out as usize);
            let amount = portion.of(arm, whole);
            self.left.add(arm as usize, out as usize, amount);
        }
    }
}
