//! - **What it is**: the turn: a value that one thread at a time holds, and what each thread has seen of it. One editor
//!   lengthens the list that the value tells, and finds it as it left it; up to 64 workers change what else there is.
//! - **On what it stands**: `atomic_table`, of which it has one word and one slot; the back-off of `crossbeam_utils`, and its
//!   count of events; `NoMemory` of `ltm_units`.
//! - **What a call costs**: a take one step that wins, and before it as many tries as find the turn held; a give two steps.
//!   The value lies on the heap and is not moved. `create` takes memory, no other call does; a take may wait, and who listens for news.
//! - **When to change it here**: when a pass is to know more of the value than a list and a number, or when others than the
//!   editor are to lengthen the list. The rule and its steps are kept together: see the head of `rule`.
#![tactic(auto)]

mod facts;
mod held;
mod news;
mod passes;
mod rule;
mod taking;
mod told;
mod turn;
mod view;

pub use facts::holds_between_steps;
pub use passes::{EditorHeld, EditorPass, Turn, WorkerHeld, WorkerPass};
pub use told::Told;
