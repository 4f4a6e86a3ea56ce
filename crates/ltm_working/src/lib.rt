//! - **What it is**: the working table of a repair: counts, kept inputs, active pairs and claims, the index of reads and
//!   the changed cells. It is one table, of which each call says what becomes of the desk of `ltm_repair` (`desk_at`). It
//!   holds no history and no shown loading.
//! - **On what it stands**: `ltm_flows` and `ltm_pairs` for the numbers and for what reads them, `ltm_rows` for what is
//!   kept of a pair, and `ltm_frontier` and `ltm_index` for its sets.
//! - **What a call costs**: a new table what each pair reads of its links once, its step where its arms send something, and
//!   its weights where a split row begins. A claim reads the amounts of the pairs that it looks at, compares each with what
//!   is kept up to the first number that differs, and reads the counts of the one that it takes; weights it reads only of
//!   pairs that a batch has touched since theirs were read. A commit compares the node's counts with those that stand,
//!   copies the amounts, and makes a handful of marks; `recompute`, which is both, writes no claim and reads the counts
//!   where it sets them. A batch costs the slots that it touches, and those by which the horizon is longer. Only `create`
//!   and `reserve` take memory.
//! - **When to change it here**: when a repair is to keep something more beside its counts, or to find the readers of a
//!   change in another way.
#![tactic(auto)]

mod batches;
mod claiming;
mod commits;
mod differing;
mod found;
mod laws;
mod marking;
mod opening;
mod places;
mod recomputing;
mod renewal;
mod renewing;
mod renewing_links;
mod room;
mod step_form;
mod table;

pub use found::Found;
pub use laws::tables_fit;
pub use room::wide_room;
pub use table::{Table, WIDEST};
