//! - **What it is**: a session at which viewers look on: each loading that a settle shows is posted on one or two boards, each
//!   of which a viewer reads in a thread of its own while the script goes on; at the end each viewer tells the totals of the
//!   loading that was shown last.
//! - **On what it stands**: `ltm_session` for lines, answers and ends, `ltm_board` for posts and reads, `ltm_report` for the
//!   line of the totals.
//! - **What a call costs**: what a session without workers costs, and for each board a copy of the batches, two or three
//!   sheets of two numbers a link, and a post for each settle that shows something new. It starts threads and may wait.
//! - **When to change it here**: when viewers tell something else, or are told of posts in another way.
#![tactic(auto)]

mod boards;
mod hanging;
mod news;
mod posting;
mod serving;
mod stage;
mod telling;
mod texts;
mod viewed;
mod viewing;
mod watch;
mod watches;
mod watching;

pub use viewing::view;
