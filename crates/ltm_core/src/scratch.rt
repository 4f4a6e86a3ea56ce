//! The buffers of one worker.
ghost use Rattle.std.specs.Prelude.{◌≡◌, length};

use ltm_node::{NodeInputs, NodeOutputs};
use ltm_units::NoMemory;
use ltm_working::WIDEST;
use std::alloc::Global;
use std::marker::Model;

/// The buffers of one worker, with room for the inputs and the counts of any pair of any scenario. So one worker may serve
/// every core.
#[derive(Drop)]
pub struct Scratch {
    pub(crate) inputs: NodeInputs,
    pub(crate) outputs: NodeOutputs,
}

impl Model for Scratch {
    ghost use Rattle.std.specs.Prelude.{◌≤◌};
    ghost use Rattle.ltm_core.specs.Claims.{ScratchData};
    ghost use Rattle.ltm_units.specs.Bounds.{widest_row};

    ghost Value = { ScratchData };

    ghost view = { λ s. record { inputs = s.inputs; outputs = s.outputs } };

    ghost invariant = { λ s. (widest_row ≤ s.inputs.room) × (widest_row ≤ s.outputs.room) };
}

impl Scratch {
    /// Buffers of the greatest width.
    pub(crate) fn create(alloc: Global) -> Result<Scratch, NoMemory> {
        let inputs = NodeInputs::create(alloc, WIDEST)?;
        let outputs = NodeOutputs::create(alloc, WIDEST)?;
        Ok(Scratch { inputs, outputs })
    }

    /// How many numbers the row in the buffers has: that of the pair that was last worked on with them.
    #[inline]
    pub fn width(&self) -> usize
        ensures { result ≡ length self.now.inputs.row }
    {
        self.inputs.row().len()
    }
}
