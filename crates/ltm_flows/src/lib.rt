//! - **What it is**: the loading of a network: slot by slot from an empty network, and the totals of a finished loading.
//!   In each slot the step of every node is made from what is counted by the beginning of the slot, and its counts are
//!   written at the end of the slot. The order of the nodes is of no matter, since a link takes at least a slot to pass.
//!   `apply`, for a caller that has solved a node with its counts, and `totals`, which is what a `Loading` tells of
//!   itself, are for callers outside this repository.
//! - **On what it stands**: `ltm_inputs` for what a node reads, and `ltm_node` for its step.
//! - **What a call costs**: a loading takes the memory of its counts once, and a step for each pair of node and slot; a
//!   pair takes none.
//! - **When to change it here**: when the order of work changes, or what a loading is summed up to.
#![tactic(auto)]

mod applying;
mod arrivals;
mod cold_loading;
mod last_totals;
mod loading;
mod loading_totals;
mod moves;
mod production;
mod shown_totals;
mod sums;
mod tables;

pub use applying::apply;
pub use cold_loading::{begin_slot, cold, fresh, move_pair};
pub use last_totals::totals_at_end;
pub use loading::Loading;
pub use loading_totals::Totals;
pub use ltm_inputs::{inputs_of, shape_of, widest};
pub use shown_totals::totals;
