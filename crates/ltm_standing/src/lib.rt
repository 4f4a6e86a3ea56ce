//! - **What it is**: what stands on a link, and no more: of each destination what may leave next, and the rows of what entered
//!   in the slots behind. A loading that asks only for totals needs of each destination no earlier count. The numbers are
//!   those of the one loading (`Stands`), whatever is done elsewhere in the network. (Composition of a link by what entered
//!   in each slot: this engine's own, after the cumulative counts of Newell 1993.)
//! - **On what it stands**: `ltm_loading` for what a link sends, and `ltm_curve` for the first units of a group.
//! - **What a call costs**: one pass over the destinations of the link where something enters, is sent or leaves, and one
//!   over each row that the position passes. Only `create` and `take_in` take memory, `take_in` where rows grow.
//! - **When to change it here**: where what stands on a link is to be kept in another way.
#![tactic(auto)]

mod numbers;
mod queue;
mod standing;

pub use standing::Standing;
