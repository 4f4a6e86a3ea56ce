//! - **What it is**: sessions of small cases, with what they write. A library with nothing but tests.
//! - **On what it stands**: `ltm_session` and `ltm_casefile`, and what lies below them. It stands
//!   apart so that none of them is proved a second time for its sake.
//! - **What a call costs**: nothing; there is none to make.
//! - **When to change it here**: when a command of a session or an answer to it changes.
#![tactic(auto)]

#[cfg(test)]
mod cases;
#[cfg(test)]
mod delays;
#[cfg(test)]
mod horizons;
#[cfg(test)]
mod lines;
#[cfg(test)]
mod repairs;
#[cfg(test)]
mod rows;
#[cfg(test)]
mod talking;
