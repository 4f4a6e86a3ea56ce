//! - **What it is**: all commands as one `Command`, and the one reading of the words; the commands that answer one text:
//!   `load`, `delay`, `gap`, `routes`, `try`, `check`, whose text is made before a byte of it is written, and `curves`, which is
//!   written a piece at a time; the exit statuses, what a run does to the outside (`IsRun`), and the texts that end one.
//! - **On what it stands**: `ltm_casefile`, which reads the case, `ltm_report`, which loads it and writes the lines,
//!   `ltm_routes_command`, which finds routes, `ltm_try_command`, which tries a made case, and `ltm_check_command`, which writes and checks
//!   curve files.
//! - **What a call costs**: a cold loading, the routes to each destination, a trial, or a check; and the memory of the text,
//!   of `curves` that of a piece.
//! - **When to change it here**: when the words of the command line or the exit statuses change.
//!   A new command gets a variant of `Command`, or of `Report`, and its words (`words.rt`, `specs/Words.antt`); one with a text of
//!   its own also what it answers and fetches (`specs/Answers.antt`), a call that makes the text, and an arm of `case_answer`;
//!   `texts.rt` stays as it is. A command that is served stands in `ltm_program`.
#![tactic(auto)]

mod answer;
mod closing;
mod curves;
mod refusing;
mod report;
mod status;
mod texts;
mod words;

pub use closing::{refuse_case, refuse_length, write_text};
pub use refusing::refuse_fault;
pub use status::Status;
pub use texts::run_command;
pub use words::{Command, Report, command_of, one_reading, usage_text};
