//! - **What it is**: a board: finished loadings are posted at one end, as sheets of totals and two numbers a link, and read
//!   at the other, in any thread. A read gives the sheet of the loading after some list of batches; that list begins with
//!   each list that its viewer read before and with that of each note that it learnt, whatever the order of posts and reads.
//! - **On what it stands**: `ltm_flows` for loadings and their totals, `ltm_scenario` for batches and their equality, `ltm_core`
//!   for the vocabulary of lists of accepted batches, and `left_right` for two copies of what is shown, under a rule
//!   of its own.
//! - **What a call costs**: a post copies its batches twice and makes two sheets, and never a curve; it waits for a read that
//!   still has the copy shown before. A read copies a sheet, takes no memory and waits for no post. To learn a note is a pass
//!   over its batches. Each board has its batches twice.
//! - **When to change it here**: when a sheet is to say more of a loading, or when several viewers are to share a board.
#![tactic(auto)]

mod board;
mod glimpse;
mod laws;
mod looking;
mod note;
mod opening;
mod panel;
mod posting;
mod rule;
mod same;
mod sheet;
mod through;
mod told;
mod viewer;

pub use board::Board;
pub use laws::lists_lead;
pub use note::Note;
pub use sheet::Sheet;
pub use through::Through;
pub use viewer::Viewer;
