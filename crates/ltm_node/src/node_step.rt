//! The node step.
//!
//! All arms first send all, in one pass and without any fraction. Only where an out-link then gets more than it can take
//! are the shares worked out, and the pass made again with them. A narrow node has a shorter way.
ghost use Rattle.std.specs.Prelude.{◌≡◌, ◌≢◌, ◌<◌, ◌≤◌, ◌*◌, ◌/◌, ◌+◌, ℕ, false, true, IsTrue, slice_index};
ghost use Rattle.ltm_units.specs.Sums.{sum_below};
ghost use Rattle.ltm_shares.specs.Demands.{demands_of};
ghost use Rattle.ltm_shares.specs.Sent.{sent_at};
ghost use Rattle.ltm_shares.specs.Shares.{AreShares};
ghost use Rattle.ltm_node.specs.Shape.{counts_width};
ghost use Rattle.ltm_node.specs.Demands.{sent, demands};
ghost use Rattle.ltm_node.specs.Solvable.{IsSolvable};
ghost use Rattle.ltm_node.specs.Step.{IsNodeStep};
ghost use Rattle.ltm_node.specs.Uncounted.{uncounted};
ghost use Rattle.ltm_node.specs.Moving.{HoldsSent, AreTotals, AreTotalsOf, FitsSupply, AsksFirst, priority_or_more};

use crate::inputs::NodeInputs;
use crate::narrow::step_narrow;
use crate::outputs::NodeOutputs;
use crate::portion::Portion;
use crate::reading::Reading;
use crate::turns::Turns;
use ltm_shares::{ARMS, NodeDemands, OUTS, Sent, Shares, shares};

/// Writes the node step of the inputs into the room of the outputs, as `solve` does, for a caller that keeps both. Takes no
/// memory.
pub fn write_step(inputs: &NodeInputs, outputs: &mut NodeOutputs)
    requires solvable { IsSolvable inputs.now }
    requires room { counts_width inputs.now.shape ≤ outputs.old.room }
    ensures step { IsNodeStep inputs.now outputs.new }
    ensures room { outputs.new.room ≡ outputs.old.room }
{
    step(&Reading::counted(inputs), outputs);
}

/// Writes what moves: the node step of the inputs where nothing has been counted. The counts of the inputs are not read,
/// whatever they are. Takes no memory.
pub fn write_moves(inputs: &NodeInputs, outputs: &mut NodeOutputs)
    requires solvable { IsSolvable (uncounted inputs.now) }
    requires room { counts_width inputs.now.shape ≤ outputs.old.room }
    ensures step { IsNodeStep (uncounted inputs.now) outputs.new }
    ensures room { outputs.new.room ≡ outputs.old.room }
{
    step(&Reading::uncounted(inputs), outputs);
}

/// Writes the node step of the inputs as they are read.
#[inline(always)]
fn step(inputs: &Reading<'_>, outputs: &mut NodeOutputs)
    requires solvable { IsSolvable inputs.now }
    requires room { counts_width inputs.now.shape ≤ outputs.old.room }
    ensures step { IsNodeStep inputs.now outputs.new }
    ensures room { outputs.new.room ≡ outputs.old.room }
{
    if !step_narrow(inputs, outputs) {
        step_wide(inputs, outputs);
    }
}

/// Writes the node step by the pass for all shapes. It is out of line, so that what it keeps at hand is not made ready for a
/// narrow node.
#[inline(never)]
fn step_wide(inputs: &Reading<'_>, outputs: &mut NodeOutputs)
    requires solvable { IsSolvable inputs.now }
    requires room { counts_width inputs.now.shape ≤ outputs.old.room }
    ensures step { IsNodeStep inputs.now outputs.new }
    ensures room { outputs.new.room ≡ outputs.old.room }
{
    let mut sent = Sent::nothing();
    outputs.advance(inputs, Portion::Whole, &mut sent);
    let totals = add_up(inputs, &sent);
    if fits_supply(inputs, &sent, &totals) {
        return;
    }
    step_short(inputs, sent, &totals, outputs);
}

/// Writes the node step where an out-link is short. It is out of line for the same reason.
#[inline(never)]
fn step_short(inputs: &Reading<'_>, sent: Sent, totals: &[u64; OUTS], outputs: &mut NodeOutputs)
    requires solvable { IsSolvable inputs.now }
    requires sent { HoldsSent inputs.now sent }
    requires totals { AreTotals inputs.now sent (slice_index totals.now) }
    requires room { counts_width inputs.now.shape ≤ outputs.old.room }
    ensures step { IsNodeStep inputs.now outputs.new }
    ensures room { outputs.new.room ≡ outputs.old.room }
{
    let shares = share_out(inputs, &sent, totals);
    if inputs.by_turn() {
        step_by_turn(inputs, &shares, sent, outputs);
    } else {
        step_by_part(inputs, &shares, outputs);
    }
}

/// Writes the node step where each arm moves its share, and each part is rounded down by itself.
fn step_by_part(inputs: &Reading<'_>, shares: &Shares, outputs: &mut NodeOutputs)
    requires solvable { IsSolvable inputs.now }
    requires shares { AreShares (demands inputs.now) shares.now.denominator (slice_index shares.now.numerators) }
    requires by_part { inputs.now.shape.by_turn ≡ false }
    requires room { counts_width inputs.now.shape ≤ outputs.old.room }
    ensures step { IsNodeStep inputs.now outputs.new }
    ensures room { outputs.new.room ≡ outputs.old.room }
{
    let mut moved = Sent::nothing();
    outputs.advance(inputs, Portion::Share(shares), &mut moved);
}

/// Writes the node step where each arm moves its share, and each turn is rounded down whole.
fn step_by_turn(inputs: &Reading<'_>, shares: &Shares, sent: Sent, outputs: &mut NodeOutputs)
    requires solvable { IsSolvable inputs.now }
    requires shares { AreShares (demands inputs.now) shares.now.denominator (slice_index shares.now.numerators) }
    requires by_turn { inputs.now.shape.by_turn ≡ true }
    requires sent { HoldsSent inputs.now sent }
    requires room { counts_width inputs.now.shape ≤ outputs.old.room }
    ensures step { IsNodeStep inputs.now outputs.new }
    ensures room { outputs.new.room ≡ outputs.old.room }
{
    let portion = Portion::Share(shares);
    let mut turns = Turns::begin(inputs, portion, sent);
    outputs.advance(inputs, portion, &mut turns);
}

/// What all arms send into each out-link.
fn add_up(inputs: &Reading<'_>, sent: &Sent) -> [u64; OUTS]
    requires solvable { IsSolvable inputs.now }
    requires sent { HoldsSent inputs.now sent.now }
    ensures { AreTotals inputs.now sent.now (slice_index result) }
{
    let mut totals = [0u64; OUTS];
    for arm in 0..inputs.arms() {
        add_arm(inputs, sent, arm, &mut totals);
    }
    totals
}

/// Adds what one arm more sends into each out-link. It is done for all out-links that a node may have, so that it takes no
/// loop; what is added up beyond those of the node is not used.
#[inline]
fn add_arm(inputs: &Reading<'_>, sent: &Sent, arm: u32, totals: &mut [u64; OUTS])
    requires solvable { IsSolvable inputs.now }
    requires sent { HoldsSent inputs.now sent.now }
    requires arm { arm < inputs.now.shape.arms }
    requires before { AreTotalsOf inputs.now sent.now arm (slice_index totals.old) }
    ensures { AreTotalsOf inputs.now sent.now (arm + 1) (slice_index totals.new) }
{
    let arm = arm as usize;
    *totals = [
        totals[0].wrapping_add(sent.at(arm, 0)),
        totals[1].wrapping_add(sent.at(arm, 1)),
        totals[2].wrapping_add(sent.at(arm, 2)),
        totals[3].wrapping_add(sent.at(arm, 3)),
    ];
}

/// Whether no out-link gets more than it can take where each arm sends all.
fn fits_supply(inputs: &Reading<'_>, sent: &Sent, totals: &[u64; OUTS]) -> bool
    requires solvable { IsSolvable inputs.now }
    requires totals { AreTotals inputs.now sent.now (slice_index totals.now) }
    ensures { IsTrue result → FitsSupply inputs.now sent.now }
{
    for out in 0..inputs.outs() {
        if totals[out as usize] > inputs.supply(out) {
            return false;
        }
    }
    true
}

/// The shares of the arms. Only the out-links that are sent more than they can take hold an arm back, and no others are
/// asked.
fn share_out(inputs: &Reading<'_>, sent: &Sent, totals: &[u64; OUTS]) -> Shares
    requires solvable { IsSolvable inputs.now }
    requires sent { HoldsSent inputs.now sent.now }
    requires totals { AreTotals inputs.now sent.now (slice_index totals.now) }
    ensures { AreShares (demands inputs.now) result.denominator (slice_index result.numerators) }
{
    let mut demands = NodeDemands {
        arms: inputs.arms() as usize,
        outs: 0,
        sending: Sent::nothing(),
        priority: [1; ARMS],
        supply: [0; OUTS],
    };
    fill_priorities(inputs, &mut demands);
    for out in 0..inputs.outs() {
        ask(inputs, sent, totals[out as usize], out, &mut demands);
    }
    shares(&demands)
}

/// Asks an out-link, if it is sent more than it can take.
#[inline]
fn ask(inputs: &Reading<'_>, sent: &Sent, total: u64, out: u32, into: &mut NodeDemands)
    requires solvable { IsSolvable inputs.now }
    requires sent { HoldsSent inputs.now sent.now }
    requires out { out < inputs.now.shape.outs }
    requires total { total ≡ sum_below inputs.now.shape.arms (λ i. sent_at sent.now i out) }
    requires before { AsksFirst inputs.now out (demands_of into.old) }
    ensures { AsksFirst inputs.now (out + 1) (demands_of into.new) }
{
    let supply = inputs.supply(out);
    if total > supply {
        let next = into.outs;
        copy_column(sent, out as usize, into.arms, &mut into.sending, next);
        into.supply[next] = supply;
        into.outs = next + 1;
    }
}

/// Copies what the arms send into an out-link into a column where nothing is sent yet.
fn copy_column(from: &Sent, out: usize, arms: usize, into: &mut Sent, next: usize)
    requires out { out < 4 }
    requires arms { arms ≤ 5 }
    requires next { next < 4 }
    requires clear { (i : ℕ) → sent_at into.old i next ≡ 0 }
    ensures column { (i : ℕ) → i < arms → sent_at into.new i next ≡ sent_at from.now i out }
    ensures others { (i j : ℕ) → j < 4 → j ≢ next → sent_at into.new i j ≡ sent_at into.old i j }
{
    for arm in 0..arms {
        into.add(arm, next, from.at(arm, out));
    }
}

/// What an arm sends.
#[tactic(auto, using(ltm_units::proofs::Sums::sum_below_more_le, ltm_units::proofs::Sums::sum_below_more))]
fn sum_sent(inputs: &Reading<'_>, arm: u32) -> u64
    requires solvable { IsSolvable inputs.now }
    requires arm { arm < inputs.now.shape.arms }
    ensures { result ≡ sent inputs.now arm }
{
    let mut total = 0u64;
    for destination in 0..inputs.destinations() {
        total += inputs.sending(arm, destination);
    }
    total
}

/// The priority of an arm: its capacity for each unit that it sends, in 1024ths.
fn priority_of(inputs: &Reading<'_>, arm: u32) -> u64
    requires solvable { IsSolvable inputs.now }
    requires arm { arm < inputs.now.shape.arms }
    ensures { result ≡ priority_or_more inputs.now arm }
{
    1024 * inputs.capacity(arm) / sum_sent(inputs, arm).max(1)
}

/// Fills in the priorities of the arms.
fn fill_priorities(inputs: &Reading<'_>, into: &mut NodeDemands)
    requires solvable { IsSolvable inputs.now }
    ensures arms { into.new.arms ≡ into.old.arms }
    ensures outs { into.new.outs ≡ into.old.outs }
    ensures sending { into.new.sending ≡ into.old.sending }
    ensures priority { (i : ℕ) → i < inputs.now.shape.arms
        → slice_index into.new.priority i ≡ priority_or_more inputs.now i }
{
    for arm in 0..inputs.arms() {
        into.priority[arm as usize] = priority_of(inputs, arm);
    }
}
