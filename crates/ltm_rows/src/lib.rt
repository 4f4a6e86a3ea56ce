//! - **What it is**: rows of what pairs of node and slot read, kept in few bits, and whether a row is equal to one that
//!   is kept. `KeptRows` has a row for each pair of node and slot, without the counts of its node: 16 bits for each
//!   amount, and 32 for each weight; a pair is weighed where its weights are known to be those of the setting as it is.
//!   `ClaimRows` has one for each node, of all that it reads, in 32 bits each. They know no repair: not why a row is kept,
//!   and not when it is out of date. `Begins` tells at which slots a node's weights may be others than in the slot before.
//! - **On what it stands**: `ltm_inputs` for how wide the rows of a node are, `ltm_marks` for which rows are there, and
//!   `ltm_splits` for where split rows begin.
//! - **What a call costs**: a comparison ends at the first number that differs, and a copy moves four numbers at a time.
//!   Only `create`, `of` and `reserve` take memory. `of` goes once over all split rows.
//! - **When to change it here**: when rows are to take fewer bits or to lie in another order. What is kept of a pair is
//!   said in `parts`, and contracts above speak of `kept_row` and `claim_row` alone.
#![tactic(auto)]

mod begins;
mod claim_rows;
mod comparing;
mod layout;
mod narrow;
mod parts;
mod rows;

pub use begins::Begins;
pub use claim_rows::ClaimRows;
pub use comparing::same_numbers;
pub use layout::Part;
pub use parts::{Parts, parts_of};
pub use rows::KeptRows;
