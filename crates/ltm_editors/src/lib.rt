//! - **What it is**: several editors of one scenario: an office, which is a core with the history of all calls that were made on
//!   it, and a desk, at which seats take turns with it. Every call stands in the history once, with its verdict.
//! - **On what it stands**: `ltm_core`, by which batches are accepted; `atomic_table`, of which the desk has one word and one
//!   slot; the back-off of `crossbeam_utils`.
//! - **What a call costs**: a take one step that wins, and before it as many tries as find the desk held; a give two steps, a
//!   split and a join one and two. `accept` costs what the core's does and the memory of one entry; `Desk::create` takes memory
//!   too, no other call does. A take may wait.
//! - **When to change it here**: when a seat is to know more of the value than an opening and a history, or when an entry is to
//!   tell more of its call. The rule and its steps are kept together: see the head of `rule`.
#![tactic(auto)]

mod accepting;
mod call;
mod desk;
mod facts;
mod office;
mod recorded;
mod rule;
mod seating;
mod taking;
mod view;

pub use call::{Call, Verdict};
pub use desk::{Desk, Held, Seat};
pub use facts::holds_between_steps;
pub use office::Office;
pub use recorded::Recorded;
