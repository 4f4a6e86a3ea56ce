//! - **What it is**: which pairs of node and slot have to be looked at, and which are being worked on: the frontier of a
//!   repair. A pair is active where its inputs may have changed, and claimed while somebody works on it; never both.
//! - **On what it stands**: `ltm_marks`: a row of bits for each slot, and one row for the claims, which are all of one
//!   slot.
//! - **What a call costs**: a mark or a claim costs an access; the front is sought from a slot below which no pair is
//!   active, and in it from a node below which none is, a word of 64 nodes at a time. `create` and `reserve` take memory,
//!   no other call does.
//! - **When to change it here**: where pairs are to be worked on in another order.
#![tactic(auto)]

mod claims;
mod frontier;

pub use frontier::Frontier;
