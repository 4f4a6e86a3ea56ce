//! Inputs with the counts that follow from them.
ghost use Rattle.std.specs.Prelude.{◌≡◌, ◌+◌, ◌≤◌, min};
ghost use Rattle.ltm_node.specs.Shape.{counts_width};
ghost use Rattle.ltm_node.specs.Solvable.{IsSolvable};
ghost use Rattle.ltm_node.specs.Step.{IsNodeStep};

use crate::inputs::NodeInputs;
use crate::node_step::write_step;
use crate::outputs::NodeOutputs;
use ltm_units::Steps;
use std::marker::Model;

/// The inputs of a pair of node and slot with the counts at the end of the slot. Every value of this type holds counts
/// that are the node step of its inputs.
#[derive(Drop)]
pub struct Solved {
    inputs: NodeInputs,
    outputs: NodeOutputs,
}

impl Model for Solved {
    ghost use Rattle.ltm_node.specs.Step.{IsNodeStep};
    ghost use Rattle.ltm_node.specs.Solution.{Solution};

    ghost Value = { Solution };

    ghost view = { λ s. record { inputs = s.inputs; outputs = s.outputs } };

    ghost invariant = { λ s. IsNodeStep s.inputs s.outputs };
}

/// The node step of the inputs, written into the room of the outputs. Takes no memory and always succeeds.
///
/// All turns of an arm get one share. The share is 1 where the out-links that the arm uses can take all that is sent to
/// them; else an out-link that is full holds the arm back, on which no arm has a greater share for its priority. What an
/// arm moves is its share, rounded down, of what it sends to each destination by each out-link; what is rounded off
/// stays, and is sent later. Where the shape says so (`by_turn`), it is its share, rounded down, of all that it sends by
/// an out-link, and these units are split over the destinations in proportion to what is sent to each: so less than one
/// unit of a turn is rounded off, however many destinations there are. Where two arms of capacities 500 and 1000 send 500
/// each into an out-link that can take 600,
///
/// ```text
///   500 of 500 --\
///                 >-- 600     moved: 200 and 400
///   500 of 1000 -/
/// ```
///
/// the priorities are as 1 to 2. The supply of an out-link is shared by oriented capacities, after the idea of Tampère
/// et al. (2011); the conditions on the shares are this model's own. Where no out-link is short, this is one pass over
/// what the arms send, in 64 bits.
pub fn solve(inputs: NodeInputs, mut outputs: NodeOutputs, steps: &mut Steps) -> Solved
    requires sizes { IsSolvable inputs }
    requires room { counts_width inputs.shape ≤ outputs.room }
    ensures inputs { result.inputs ≡ inputs }
    ensures step { IsNodeStep inputs result.outputs }
    ensures room { result.outputs.room ≡ outputs.room }
    ensures ticks { steps.new ≡ min (steps.old + 1) u64.MAX }
{
    steps.tick();
    write_step(&inputs, &mut outputs);
    Solved { inputs, outputs }
}

impl Solved {
    /// The inputs that were given.
    #[inline]
    pub fn inputs(&self) -> &NodeInputs
        ensures inputs { result.now ≡ self.now.inputs }
        ensures step { IsNodeStep self.now.inputs self.now.outputs }
    {
        &self.inputs
    }

    /// The counts at the end of the slot.
    #[inline]
    pub fn outputs(&self) -> &NodeOutputs
        ensures outputs { result.now ≡ self.now.outputs }
        ensures step { IsNodeStep self.now.inputs self.now.outputs }
    {
        &self.outputs
    }

    /// Gives back the inputs and the counts.
    pub fn release(self) -> (NodeInputs, NodeOutputs)
        ensures inputs { result.0 ≡ self.inputs }
        ensures outputs { result.1 ≡ self.outputs }
        ensures step { IsNodeStep result.0 result.1 }
    {
        (self.inputs, self.outputs)
    }
}
