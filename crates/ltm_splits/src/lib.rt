//! - **What it is**: split rows: how the traffic of a node for a destination is spread over the node's out-links, from a
//!   slot on. Contracts see a table as its horizon and the list of its rows in the order of their keys.
//! - **On what it stands**: `ltm_units` alone.
//! - **What a call costs**: to ask for the row in force costs two steps through flat lists where a node and a destination
//!   have one row, which lies in the second of them, and a search by halving where they have more. To set a row costs a
//!   move of that short list at most, and to put another list in its place no copy at all.
//! - **When to change it here**: where a row means something else, or comes into force otherwise than from its first slot
//!   on.
#![tactic(auto)]

mod keys;
mod laws;
mod node_rows;
mod node_table;
mod pair_rows;
mod row_list;
mod rows;
mod splits;
mod weights;

pub use keys::{SplitFault, SplitKey};
pub use laws::{pair_stays, rows_stay, rules_of_rows};
pub use pair_rows::PairRows;
pub use rows::Rows;
pub use splits::{DEFAULT_SPLIT_ROWS, Splits};
pub use weights::Weights;
