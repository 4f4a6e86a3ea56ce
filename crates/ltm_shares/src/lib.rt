//! - **What it is**: the shares that the arms of a node get when its out-links cannot take all that is sent. An arm is an
//!   in-link or the origin of a node. All of an arm's turns get one share, since its vehicles stand in one queue, and the
//!   arms that an out-link holds back share its supply in proportion to their priorities: oriented capacities, after the
//!   idea of Tampère et al. (2011). The conditions are this model's own, and no agreement with the results of theirs is
//!   claimed. Shares are exact fractions over one denominator of at most 163,840,000^4.
//! - **On what it stands**: `ltm_units` alone.
//! - **What a call costs**: a call of `shares` makes at most one round for each arm, and no round divides. Nothing takes
//!   memory.
//! - **When to change it here**: where arms are to share a supply by other conditions.
#![tactic(auto)]

mod demands;
mod factor;
mod laws;
mod rounds;
mod sent;
mod share;
mod wide;

pub use demands::NodeDemands;
pub use laws::one_solution;
pub use rounds::shares;
pub use sent::{ARMS, OUTS, Sent};
pub use share::Shares;
