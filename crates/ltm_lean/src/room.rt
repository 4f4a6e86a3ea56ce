//! Room for the step of a node.
ghost use Rattle.std.specs.Prelude.{◌≡◌, ◌≤◌, max, length, vec_len, IfOk};

use ltm_node::{NodeInputs, NodeOutputs};
use ltm_units::NoMemory;
use std::alloc::Global;

/// Room for the step of a node: for what its out-links can take, for its row, and for what is read and moves there.
#[derive(Drop)]
pub struct NodeRoom {
    pub takes: Vec<u64>,
    pub row: Vec<u64>,
    pub inputs: NodeInputs,
    pub outputs: NodeOutputs,
}

impl NodeRoom {
    ghost use Rattle.ltm_lean.specs.Rooms.{IsWide};

    /// Room for every node whose row has at most so many numbers.
    pub fn create(alloc: Global, widest: u32) -> Result<NodeRoom, NoMemory>
        ensures { IfOk result (IsWide widest) }
    {
        let takes = vec![in alloc; 0u64; widest as usize].map_err(|_| NoMemory)?;
        let row = vec![in alloc; 0u64; widest as usize].map_err(|_| NoMemory)?;
        let inputs = NodeInputs::create(alloc, widest)?;
        let outputs = NodeOutputs::create(alloc, widest)?;
        Ok(NodeRoom {
            takes,
            row,
            inputs,
            outputs,
        })
    }
}
