//! - **What it is**: the demand of a case: rows of vehicles from an origin to a destination over some slots, and what
//!   they have produced by the end of each slot.
//! - **On what it stands**: `ltm_units` alone.
//! - **What a call costs**: to ask what an origin has produced by a slot, for one destination, for each or for all
//!   together, reads one row of the origin's table, and takes no memory; to set a row costs the rows of its origin that
//!   move and a sum for each slot of that table. A demand made by `of_rows` has no table of each destination, which takes
//!   destinations times slots of each origin: it sums up the origin's rows to the one that is asked for.
//! - **When to change it here**: where demand starts otherwise than evenly over the slots of a row, in whole thousandths,
//!   floored.
#![tactic(auto)]

mod all_rows;
mod demand;
mod laws;
mod origin;
mod pace;
mod production;
mod row;
mod rows;
mod shifting;
mod summing;

pub use all_rows::DemandRows;
pub use demand::{DEFAULT_DEMAND_ROWS, Demand};
pub use laws::{destinations_add_up, production_never_falls, production_stays};
pub use row::{DemandFault, DemandRow};
