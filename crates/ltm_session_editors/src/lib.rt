//! - **What it is**: several editors of one case, as one text: each has a file of edits and makes its lines in a thread of its own,
//!   at a desk where one at a time holds the scenario. The text has a line for each call, in the order of the history, and then
//!   the totals of the loading that the history leaves.
//! - **On what it stands**: `ltm_editors` for the desk, `ltm_io` and `ltm_script` for the files of edits and their lines,
//!   `ltm_workers`, whose drain brings the loading to rest, `ltm_casefile`, which reads the case, and `ltm_report` for the totals
//!   and pieces of lines.
//! - **What a call costs**: each file of edits is fetched once and gone over twice, first to count its lines, then to read them;
//!   then a cold loading, a take of the desk for each line, and once all are done a repair of all that the edits changed. Nothing
//!   is read before all files are there, and nothing is edited before all lines are read. It starts threads and may wait.
//! - **When to change it here**: when another file of edits may stand beside a case, when an editor does something else than one
//!   call a line, or when a line of the text changes.
#![tactic(auto)]

mod answer;
mod cutting;
mod editing;
mod editor;
mod editors;
mod edits;
mod fault;
mod fetching;
mod lines;
mod reading;
mod refusal;
mod report;
mod script;
mod text;

pub use answer::editing_text;
pub use fault::{EditsFault, LineCause};
pub use lines::{bad_script_text, long_edits_text};
pub use refusal::EditorsRefusal;
