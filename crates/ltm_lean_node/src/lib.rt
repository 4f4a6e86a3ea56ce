//! - **What it is**: the node step over the destinations of a list: what its arms send of these, what its out-links take,
//!   and nothing else of the loading is read, and what moves is what moves in every loading of which this is true. What a
//!   link sends of its own list is written at its places in the list of the node (`places_of`, `scatter`).
//! - **On what it stands**: `ltm_node` for the node step, `ltm_thin` for the law that a node needs no other destination, and
//!   `ltm_setting` for the scenario.
//! - **What a call costs**: a step one pass over the weights of the list and over what the arms send, and the node step. The
//!   weights are kept until a further split row of the node begins (`NodeWeights`): only then are they looked up. Places cost
//!   one walk along both lists. Only `places_of` and `NodeWeights::none` take memory.
//! - **When to change it here**: where a node over a list is to read its numbers in another way.
#![tactic(auto)]

mod node_weights;
mod places;
mod row;
mod step;
mod weights;

pub use node_weights::NodeWeights;
pub use places::{places_of, scatter};
pub use step::step_listed;
