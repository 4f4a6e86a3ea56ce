//! - **What it is**: the gap of a loading: what those who travel spend, and an estimate of the least that they could at the
//!   link times of this loading, by earliest arrivals over all routes of the network; and who cannot arrive by the end.
//!   The origins of a large case are searched in threads; what they find is added up and is the same however many there are.
//!   All is read from the totals of a loading, so it may be one without history: what has arrived at a destination is what has
//!   come to its node and has not gone on.
//! - **On what it stands**: `ltm_flows` and `ltm_times` for the loading and its totals, `ltm_setting` for the links, their
//!   limits and the demand, `ltm_search` for the search.
//! - **What a call costs**: for each origin and each boundary beside a slot in which it produces something, one search: a look
//!   at each link that is reached, some divisions and a halving over boundaries. For each origin and destination at most one
//!   slot is cut, by a halving over its units, each a search. Memory of three searches and of a sum for each destination, taken
//!   once in each thread, and of a number for each node. What those to one destination spend takes a look at each origin for
//!   each boundary, and no memory.
//! - **When to change it here**: when travel times within a loading are read in another way, or the least time of those who
//!   are produced in a slot; `dealing.rt`, when it pays to start threads, or how many.
#![tactic(auto)]

mod arrived;
mod cutting;
mod dealing;
mod finding;
mod gaps;
mod laws;
mod leaving;
mod pair;
mod parts;
mod search;
mod slot;
mod sums;

pub use finding::{gaps_in_threads, gaps_of, spent_to};
pub use gaps::{Gap, Gaps};
pub use laws::{
    arrive_in_order, came_and_stayed, earliest_is_first, late_is_exact, nobody_comes_before,
    spent_adds_up,
};
