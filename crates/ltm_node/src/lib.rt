//! - **What it is**: the node step: what moves from the arms of a node to its out-links and its sink in one slot. An arm
//!   is an in-link or the origin of the node. `shape_as` and the writers of single numbers (`set_sending` and so on) are
//!   for callers outside this repository: a loading writes whole parts of the row in place.
//! - **On what it stands**: `ltm_shares`, which shares out what the out-links can take.
//! - **What a call costs**: where no out-link is short, `solve` makes one pass over what the arms send, in 64 bits; else
//!   it makes at most one round for each arm, and a second pass. It takes no memory.
//! - **When to change it here**: when the node step or the layout of its row changes.
#![tactic(auto)]

mod inputs;
mod laws;
mod loads;
mod moves;
mod narrow;
mod node_step;
mod outputs;
mod portion;
mod reading;
mod shape;
mod solved;
mod split;
mod tally;
mod turns;

pub use inputs::NodeInputs;
pub use laws::{
    moves_add, no_arrivals, nothing_lost, nothing_lost_in_all, nothing_moves, one_solution,
    one_step, same_shape, same_step, sending_kept, supply_kept,
};
pub use node_step::{write_moves, write_step};
pub use outputs::NodeOutputs;
pub use shape::NodeShape;
pub use solved::{Solved, solve};
