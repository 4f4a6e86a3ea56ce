//! Inputs that a node step can take, found so number by number.
ghost use Rattle.std.specs.Prelude.{◌≡◌, ◌<◌, ◌≤◌, ◌^◌, ℕ};
ghost use Rattle.ltm_node.specs.Shape.{width};
ghost use Rattle.ltm_node.specs.Inputs.{supply, capacity, weight, left, entered};
ghost use Rattle.ltm_node.specs.Demands.{sent};
ghost use Rattle.ltm_node.specs.Solvable.{IsSolvable};

use ltm_node::{NodeInputs, NodeShape};
use std::process::Abort;

/// The width of a row that has room.
pub fn width_of(rt: &impl Abort, shape: NodeShape) -> usize
    ensures width { result ≡ width shape }
    ensures small { result ≤ 100 }
{
    assert!(rt; shape.arms <= 5);
    assert!(rt; shape.outs <= 4);
    assert!(rt; shape.destinations <= 64);
    let width = shape.width();
    assert!(rt; width <= 100);
    width
}

fn check_supplies(rt: &impl Abort, inputs: &NodeInputs)
    ensures { (out : ℕ) → out < inputs.now.shape.outs → supply inputs.now out ≤ 32000 }
{
    for out in 0..inputs.shape().outs {
        assert!(rt; inputs.supply(out) <= 32_000);
    }
}

#[tactic(auto, using(ltm_units::proofs::Sums::sum_below_more_le, ltm_units::proofs::Sums::sum_below_more))]
fn check_sent(rt: &impl Abort, inputs: &NodeInputs, arm: u32) -> u64
    requires arm { arm < inputs.now.shape.arms }
    ensures { result ≡ sent inputs.now arm }
{
    let mut total = 0u64;
    for destination in 0..inputs.shape().destinations {
        let amount = inputs.sending(arm, destination);
        assert!(rt; amount <= 32_000);
        assert!(rt; total <= 32_000);
        total += amount;
    }
    total
}

fn check_capacity(rt: &impl Abort, inputs: &NodeInputs, arm: u32)
    requires arm { arm < inputs.now.shape.arms }
    ensures some { 1 ≤ capacity inputs.now arm }
    ensures most { capacity inputs.now arm ≤ 32000 }
    ensures within { sent inputs.now arm ≤ capacity inputs.now arm }
{
    let capacity = inputs.capacity(arm);
    assert!(rt; capacity >= 1);
    assert!(rt; capacity <= 32_000);
    let sent = check_sent(rt, inputs, arm);
    assert!(rt; sent <= capacity);
}

fn check_capacities(rt: &impl Abort, inputs: &NodeInputs)
    ensures some { (arm : ℕ) → arm < inputs.now.shape.arms → 1 ≤ capacity inputs.now arm }
    ensures most { (arm : ℕ) → arm < inputs.now.shape.arms → capacity inputs.now arm ≤ 32000 }
    ensures within { (arm : ℕ) → arm < inputs.now.shape.arms → sent inputs.now arm ≤ capacity inputs.now arm }
{
    for arm in 0..inputs.shape().arms {
        check_capacity(rt, inputs, arm);
    }
}

fn check_weights_of(rt: &impl Abort, inputs: &NodeInputs, destination: u32)
    requires { destination < inputs.now.shape.destinations }
    ensures { (out : ℕ) → out < inputs.now.shape.outs → weight inputs.now destination out ≤ 4294967295 }
{
    for out in 0..inputs.shape().outs {
        assert!(rt; inputs.weight(destination, out) <= 4_294_967_295);
    }
}

fn check_weights(rt: &impl Abort, inputs: &NodeInputs)
    ensures { (destination out : ℕ) → destination < inputs.now.shape.destinations → out < inputs.now.shape.outs →
        weight inputs.now destination out ≤ 4294967295 }
{
    for destination in 0..inputs.shape().destinations {
        check_weights_of(rt, inputs, destination);
    }
}

fn check_left_of(rt: &impl Abort, inputs: &NodeInputs, arm: u32)
    requires { arm < inputs.now.shape.arms }
    ensures { (d : ℕ) → d < inputs.now.shape.destinations → left inputs.now arm d ≤ 2 ^ 48 }
{
    for destination in 0..inputs.shape().destinations {
        assert!(rt; inputs.left(arm, destination) <= 1 << 48);
    }
}

fn check_left(rt: &impl Abort, inputs: &NodeInputs)
    ensures { (i d : ℕ) → i < inputs.now.shape.arms → d < inputs.now.shape.destinations → left inputs.now i d ≤ 2 ^ 48 }
{
    for arm in 0..inputs.shape().arms {
        check_left_of(rt, inputs, arm);
    }
}

fn check_entered_of(rt: &impl Abort, inputs: &NodeInputs, out: u32)
    requires { out < inputs.now.shape.outs }
    ensures { (d : ℕ) → d < inputs.now.shape.destinations → entered inputs.now out d ≤ 2 ^ 48 }
{
    for destination in 0..inputs.shape().destinations {
        assert!(rt; inputs.entered(out, destination) <= 1 << 48);
    }
}

fn check_entered(rt: &impl Abort, inputs: &NodeInputs)
    ensures { (j d : ℕ) → j < inputs.now.shape.outs → d < inputs.now.shape.destinations → entered inputs.now j d ≤ 2 ^ 48 }
{
    for out in 0..inputs.shape().outs {
        check_entered_of(rt, inputs, out);
    }
}

/// The inputs are those of the sizes that `solve` asks for.
pub fn check_sizes(rt: &impl Abort, inputs: &NodeInputs)
    ensures { IsSolvable inputs.now }
{
    assert!(rt; inputs.shape().arms <= 5);
    assert!(rt; inputs.shape().outs <= 4);
    assert!(rt; inputs.shape().destinations <= 64);
    assert!(rt; inputs.arrived() <= 1 << 48);
    check_supplies(rt, inputs);
    check_capacities(rt, inputs);
    check_weights(rt, inputs);
    check_left(rt, inputs);
    check_entered(rt, inputs);
}
