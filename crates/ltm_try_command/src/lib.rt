//! - **What it is**: a trial of the whole engine: a case is made of two numbers, loaded, changed by its batch, repaired by four
//!   virtual workers as its schedule says, and reported in four lines.
//! - **On what it stands**: `ltm_make` for the case, `ltm_core` and `ltm_workers` for the repair, `ltm_times` and `ltm_report`
//!   for the lines.
//! - **What a call costs**: a cold loading, and a claim, a node step and a commit for each pair that the batch changes. It takes
//!   the memory of the case, of its core and of four workers.
//! - **When to change it here**: when a trial is to do or to tell something else.
#![tactic(auto)]

mod laws;
mod lines;
mod repairing;
mod trial;
mod words;

pub use laws::one_trial;
pub use trial::try_report;
pub use words::{read_nodes, read_start};
