//! - **What it is**: the lines of a script as commands: an edit of the scenario, a question, or a settle, each written as a
//!   JSON object; or why a line is none.
//! - **On what it stands**: `ltm_scenario` for edits and batches, and `serde_json`, whose reading of a line counts.
//! - **What a call costs**: the line is read once into a value; each edit costs its members' look-ups.
//! - **When to change it here**: for another command or another kind of edit, or when their members change.
#![tactic(auto)]

mod command;
mod edits;
mod line;
mod members;
mod rows;
mod weights;

pub use command::{Command, CommandFault, Question};
pub use line::{every_line_is_read, read_command};
