//! A pair that is worked on: its inputs leave the core as a claim and come back as a step that is done.
ghost use Rattle.std.specs.Prelude.{◌≡◌, ◌+◌, min};

use crate::scratch::Scratch;
use ltm_node::{NodeInputs, NodeOutputs, Solved, solve};
use ltm_units::{Pair, Steps};
use std::marker::Model;

/// A claimed pair with its inputs. It is spent by `work`, or given back to the core.
pub struct Claim {
    pub(crate) pair: Pair,
    pub(crate) ticket: u64,
    pub(crate) inputs: NodeInputs,
    pub(crate) outputs: NodeOutputs,
}

impl Model for Claim {
    ghost use Rattle.std.specs.Prelude.{◌≤◌};
    ghost use Rattle.ltm_node.specs.Solvable.{IsSolvable};
    ghost use Rattle.ltm_core.specs.Claims.{ClaimData, HasWidestRoom};

    ghost Value = { ClaimData };

    ghost view = { λ c. record { pair = c.pair; ticket = c.ticket; inputs = c.inputs; outputs = c.outputs } };

    ghost invariant = { λ c. IsSolvable c.inputs × HasWidestRoom c.inputs c.outputs };
}

/// A claimed pair whose step is made. It is spent by a commit.
pub struct Done {
    pub(crate) pair: Pair,
    pub(crate) ticket: u64,
    pub(crate) solved: Solved,
}

impl Model for Done {
    ghost use Rattle.ltm_node.specs.Step.{IsNodeStep};
    ghost use Rattle.ltm_core.specs.Claims.{DoneData, HasWidestRoom};

    ghost Value = { DoneData };

    ghost view = { λ d. record { pair = d.pair; ticket = d.ticket; solved = d.solved } };

    ghost invariant = { λ d. IsNodeStep d.solved.inputs d.solved.outputs × HasWidestRoom d.solved.inputs d.solved.outputs };
}

impl Claim {
    /// The pair.
    #[inline]
    pub fn pair(&self) -> Pair
        ensures { result ≡ self.now.pair }
    {
        self.pair
    }

    /// How many batches had been accepted at the claim.
    #[inline]
    pub fn ticket(&self) -> u64
        ensures { result ≡ self.now.ticket }
    {
        self.ticket
    }

    /// Makes the node step of the pair's inputs, once. Takes no memory.
    #[tactic(auto, using(crate::proofs::Widths::solvable_fits))]
    pub fn work(self, steps: &mut Steps) -> Done
        ensures pair { result.pair ≡ self.pair }
        ensures ticket { result.ticket ≡ self.ticket }
        ensures inputs { result.solved.inputs ≡ self.inputs }
        ensures ticks { steps.new ≡ min (steps.old + 1) u64.MAX }
    {
        let Claim {
            pair,
            ticket,
            inputs,
            outputs,
        } = self;
        let solved = solve(inputs, outputs, steps);
        Done {
            pair,
            ticket,
            solved,
        }
    }

    /// Gives the buffers back.
    pub(crate) fn into_scratch(self) -> Scratch {
        let Claim {
            pair: _pair,
            ticket: _ticket,
            inputs,
            outputs,
        } = self;
        Scratch { inputs, outputs }
    }
}

impl Done {
    /// The pair.
    #[inline]
    pub fn pair(&self) -> Pair
        ensures { result ≡ self.now.pair }
    {
        self.pair
    }

    /// How many batches had been accepted at the claim.
    #[inline]
    pub fn ticket(&self) -> u64
        ensures { result ≡ self.now.ticket }
    {
        self.ticket
    }

    /// Gives the buffers back.
    pub(crate) fn into_scratch(self) -> Scratch {
        let Done {
            pair: _pair,
            ticket: _ticket,
            solved,
        } = self;
        let (inputs, outputs) = solved.release();
        Scratch { inputs, outputs }
    }
}
