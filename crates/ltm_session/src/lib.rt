//! - **What it is**: the session: a script of edits and questions is read line by line, and each line is answered before the
//!   next one is read.
//! - **On what it stands**: `ltm_core` and `ltm_workers` for the repair, `ltm_io` and `ltm_script` for the script,
//!   `ltm_times` and `ltm_report` for the answers, `ltm_io` for the output.
//! - **What a call costs**: an edit the marks of the pairs that it touches, a question the length of its answer and, of
//!   totals, one pass over the links and nodes, of delays one over all boundaries; a settle a claim, a node step and a commit for each pair whose inputs have
//!   changed.
//! - **When to change it here**: when there is another command, another answer, or another end of a session.
#![tactic(auto)]

mod alone;
mod answerer;
mod answering;
mod edits;
mod ends;
mod laws;
mod looping;
mod questions;
mod replies;
mod reports;
mod script;
mod serving;
mod settling;

pub use answerer::Answerer;
pub use answering::answer;
pub use ends::SessionEnd;
pub use laws::{
    alone_is_a_session, answers_are_lines, lines_settle_once, one_output, sessions_keep_the_promise,
};
pub use looping::serve_lines;
pub use replies::{reply, reply_fault};
pub use script::Script;
pub use serving::{Served, serve_alone, serve_line, write_answer};
