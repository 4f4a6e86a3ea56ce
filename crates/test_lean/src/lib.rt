//! - **What it is**: the parts of a loading without history on cases worked by hand: what stands on a link, how much may
//!   leave it and enter it, which destinations it can carry, and what stands before the first slot. A library with nothing
//!   but tests.
//! - **On what it stands**: `ltm_lean_make`, `ltm_used`, `ltm_totals` and `ltm_standing`. It stands apart so that none of
//!   them is proved a second time for its sake.
//! - **What a call costs**: nothing; there is none to make.
//! - **When to change it here**: when a part of a loading without history is added.
#![tactic(auto)]

#[cfg(test)]
mod first;
#[cfg(test)]
mod places;
#[cfg(test)]
mod standing;
#[cfg(test)]
mod totals;
#[cfg(test)]
mod used;
