//! - **What it is**: the triangular diagram of a link, and the limits that it sets: how soon a vehicle reaches the other
//!   end, how soon free space does, how much passes in each slot and how much fits.
//! - **On what it stands**: `ltm_units` alone.
//! - **What a call costs**: a few divisions, and no memory.
//! - **When to change it here**: when another form of diagram sets the limits of a link, or its sizes have other bounds.
#![tactic(auto)]

mod delay;
mod diagram;
mod laws;

pub use delay::{Delay, Delays};
pub use diagram::{Diagram, DiagramFault, Field, Limits};
pub use laws::{all_slots_alike, limits_in_range, nothing_is_lost, whole_or_one_more};
