//! - **What it is**: threads that share a loading, alone and together: turns, boards with their viewers, and several editors, whose history is
//!   compared with a plain replay. A library with nothing but tests.
//! - **On what it stands**: `ltm_board`, `ltm_editors`, `ltm_workers` and `ltm_casefile`, and what lies below them. It stands
//!   apart so that none of them is proved a second time for its sake.
//! - **What a call costs**: nothing; there is none to make.
//! - **When to change it here**: when an answer of a turn, a board or an office changes. No test depends on which thread runs first.
#![tactic(auto)]

#[cfg(test)]
mod crowds;
#[cfg(test)]
mod editing;
#[cfg(test)]
mod pairs;
#[cfg(test)]
mod posted;
#[cfg(test)]
mod reads;
#[cfg(test)]
mod replays;
#[cfg(test)]
mod roads;
#[cfg(test)]
mod signs;
#[cfg(test)]
mod stages;
#[cfg(test)]
mod threads;
#[cfg(test)]
mod turns;
