//! - **What it is**: the parts of a case and whole cases, with values that were found by hand: amounts, links, demand, split rows, limits, edits
//!   and made cases. A library with nothing but tests.
//! - **On what it stands**: `ltm_scenario`, `ltm_make` and what lies below them. It stands
//!   apart so that none of them is proved a second time for its sake.
//! - **What a call costs**: nothing; there is none to make.
//! - **When to change it here**: when the parts of a case, its rules or its edits change.
#![tactic(auto)]

#[cfg(test)]
mod acts;
#[cfg(test)]
mod amounts;
#[cfg(test)]
mod cases;
#[cfg(test)]
mod changes;
#[cfg(test)]
mod demands;
#[cfg(test)]
mod diagrams;
#[cfg(test)]
mod edits;
#[cfg(test)]
mod horizons;
#[cfg(test)]
mod limits;
#[cfg(test)]
mod made;
#[cfg(test)]
mod networks;
#[cfg(test)]
mod pair_edits;
#[cfg(test)]
mod rules;
#[cfg(test)]
mod splits;
#[cfg(test)]
mod stories;
