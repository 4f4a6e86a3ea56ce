//! - **What it is**: cases that are made of a number: a grid of roads with two destinations, demand from every node, a
//!   batch of two edits, and a schedule for a repair. A made case is valid and accepts its batch, so that a large case
//!   for a trial needs no files. All that varies is drawn from one generator, word after word, in an order that the
//!   definitions in `specs/` say.
//! - **On what it stands**: `ltm_scenario` and the kit's `rand_pcg`.
//! - **What a call costs**: the memory of what it makes, and time in proportion to the nodes.
//! - **When to change it here**: when made cases are to look different; every number of theirs then changes.
#![tactic(auto)]

mod branches;
mod demanding;
mod grid;
mod made;
mod making;
mod names;
mod splitting;
mod words;

pub use made::{Made, MakeFault, make_case};
