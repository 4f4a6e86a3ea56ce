//! - **What it is**: the whole program but its `main`: `run`, which does what the words of a command line ask for over a
//!   folder, an input and an output, and `run_alone`, which can do without threads, waits for nobody and so returns; and the laws of
//!   every run.
//! - **On what it stands**: `ltm_command` for the commands that answer one text, `ltm_session` for the session, which
//!   answers a script line by line, `ltm_session_workers` for workers beside it, `ltm_session_viewers` for viewers at it,
//!   `ltm_session_editors` for several editors, and `ltm_casefile`, which reads the case.
//! - **What a call costs**: a cold loading, the routes to each destination or a trial; a session a cold loading, and then
//!   what its lines cost.
//! - **When to change it here**: when there is another command that is served, or when a session ends or is closed in
//!   another way. Such a command gets a line in each definition of `specs/Ran.antt`, a server with the clause `Ran`, an arm
//!   of `do_command`, and its law (`specs/RanLaws.antt`). A command with a text of its own stands in `ltm_command`.
#![tactic(auto)]

mod alone;
mod closing;
mod edit_together;
mod laws;
mod program;
mod serve;
mod serve_beside;
mod view;

pub use alone::{may_wait, run_alone};
pub use laws::{
    editors_say, files_stay, refusals_say, sessions_say, texts_say, the_promise_is_kept,
};
pub use program::run;
