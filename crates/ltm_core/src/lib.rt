//! - **What it is**: the core of a repair: the one value that workers, an editor and readers share.
//! - **On what it stands**: `ltm_working`, for what a repair works on; `ltm_scenario`, for batches of edits; `ltm_flows`, for the
//!   loading that is shown; `ltm_repair`, for the laws; `ltm_turn`, in which a core lies beside workers.
//! - **What a call costs**: a claim the inputs of the pairs that it looks at, a commit its counts and a handful of marks, a
//!   publishing the changed cells and, for each edit of demand, what its origin has produced. `create`, `scratch`, `accept` and
//!   `shown_scenario` alone take memory.
//! - **When to change it here**: when the answers of a call change, or what the log keeps. What becomes of the pairs is
//!   `ltm_working`'s.
#![tactic(auto)]

mod answers;
mod claim;
mod entry;
mod history;
mod laws;
mod log;
mod producing;
mod scratch;
mod the_core;

pub use answers::{Claimed, Committed, Published, Recomputed};
pub use claim::{Claim, Done};
pub use entry::LogEntry;
pub use laws::{
    calls_are_events, lists_tell_all, logs_tell_all, runs_of_cores, settle_counts_are_exact,
};
pub use scratch::Scratch;
pub use the_core::Core;
