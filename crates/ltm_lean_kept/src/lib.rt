//! - **What it is**: what a loading without history keeps of each boundary: the totals of links and of what has left the origins,
//!   in the table that the other questions of a loading read.
//! - **On what it stands**: `ltm_lean` for the tables and nodes, and `ltm_curve` for the table of totals.
//! - **What a call costs**: three numbers for each link and node of the boundary. No call takes memory.
//! - **When to change it here**: where more of a boundary is to be kept.
#![tactic(auto)]

mod kept;

pub use kept::keep;
