//! - **What it is**: limits by link and slot, as they are set for the entry or the exit of links.
//! - **On what it stands**: `ltm_units` alone. A flat table in which the limits of one slot lie side by side, and nothing at
//!   all as long as none was ever set.
//! - **What a call costs**: to ask for a limit reads one place; to set limits of a link costs the slots that are set; a longer
//!   horizon costs nothing.
//! - **When to change it here**: when limits are kept in another form, or reach beyond the horizon of their table.
#![tactic(auto)]

mod laws;
mod limits;

pub use laws::{limits_are_lengthened, limits_are_set, limits_stay_whole};
pub use limits::SlotLimits;
