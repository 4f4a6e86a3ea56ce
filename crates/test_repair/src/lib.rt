//! - **What it is**: worked repairs, as tables of what is done and what is answered, with values that were found by hand, and their parts: the
//!   pairs that read a change, the index of reads and the active pairs. A library with nothing but tests.
//! - **On what it stands**: `ltm_core`, `ltm_workers` and `ltm_casefile`, and what lies below them. It stands
//!   apart so that none of them is proved a second time for its sake.
//! - **What a call costs**: nothing; there is none to make.
//! - **When to change it here**: when an answer of a core changes, or a worked repair is added.
#![tactic(auto)]

#[cfg(test)]
mod claims;
#[cfg(test)]
mod closure;
#[cfg(test)]
mod drives;
#[cfg(test)]
mod frontiers;
#[cfg(test)]
mod horizons;
#[cfg(test)]
mod pairs;
#[cfg(test)]
mod reads;
#[cfg(test)]
mod rig;
#[cfg(test)]
mod roads;
#[cfg(test)]
mod settles;
#[cfg(test)]
mod stories;
