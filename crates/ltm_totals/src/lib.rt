//! - **What it is**: how many units may leave a link in a slot and how many it can take, from totals alone: what had entered
//!   and had left it by each boundary, of all destinations together. A loading without history keeps no more of the past.
//!   (Sending and receiving of a link: Yperman 2007, after Newell 1993.)
//! - **On what it stands**: `ltm_setting` for the scenario, and `ltm_loading` for what a link may send and take.
//! - **What a call costs**: a few totals. Only `Totals::none` takes memory: 4 bytes for each link and boundary.
//! - **When to change it here**: where totals are to be kept in another way.
#![tactic(auto)]

mod link;
mod totals;

pub use link::{MayLeave, can_take, may_leave};
pub use totals::Totals;
