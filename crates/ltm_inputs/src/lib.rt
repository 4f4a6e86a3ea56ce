//! - **What it is**: what a node reads in a slot: the inputs of its node step, from a scenario and the counts of a
//!   loading so far. The row of inputs has seven parts: what each arm sends, what has left each arm, what has entered
//!   each out-link, what has arrived, what each out-link can take, the capacity of each arm, and the weights. Each is
//!   written in its place. What is read of the links (`flows_of`) and the weights (`weigh`) are enough to tell what moves;
//!   the counts are written in later (`count_in`), the counts of a link for all destinations at once. `inputs_of` does all
//!   three, for callers outside this repository: no crate here needs the counts of a row before it has told what moves.
//! - **On what it stands**: `ltm_sending` and `ltm_setting` for the numbers, and `ltm_node` for their places in the row.
//! - **What a call costs**: some reads of flat tables for each arm and out-link, and one for each weight. No call takes
//!   memory.
//! - **When to change it here**: when a pair is to read something more; where each number stands is the concern of
//!   `ltm_node`.
#![tactic(auto)]

mod capacities;
mod counts;
mod flows;
mod inputs;
mod numbers;
mod row;
mod sending;
mod shapes;
mod uncounted;
mod weights;

pub use flows::{flows_of, is_sent};
pub use inputs::{count_in, inputs_of};
pub use shapes::{shape_of, widest};
pub use uncounted::uncounted_if_sent;
pub use weights::{weigh, weigh_as, weights_in};
