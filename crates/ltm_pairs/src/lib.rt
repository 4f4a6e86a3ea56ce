//! - **What it is**: which pairs of node and slot read what an edit or a commit changes. `dependents`, which sees no
//!   counts, is for callers outside this repository: the core here sees them, and marks by `reads_commit`.
//! - **On what it stands**: `ltm_setting` and `ltm_loading` for what a pair reads, `ltm_index` for the slots that read a
//!   boundary, and `ltm_repair` for what a commit is.
//! - **What a call costs**: a look-up of a name or a few accesses for each link of a node. No call takes memory.
//! - **When to change it here**: before an edit gets a further kind, or when a pair is to read something that it did not
//!   read before.
#![tactic(auto)]

mod arm_set;
mod commits;
mod edits;
mod laws;
mod spread;
mod windows;

pub use arm_set::ArmSet;
pub use commits::dependents;
pub use edits::touched;
pub use laws::{
    added_slots_are_new, batch_touches_readers, dependents_are_all, edits_keep, positions_stay,
    readers_are_all, readers_on_one_road, readers_wake, touched_holds_readers,
};
pub use ltm_index::{ReadIndex, slots_stand_by_entry};
pub use spread::Spread;
pub use windows::readers_ago;
