//! - **What it is**: good and bad files, with what is read of them or is wrong first: folders, lines, records, the files of a case, scripts,
//!   the lines that are written, and curve files. A library with nothing but tests.
//! - **On what it stands**: `ltm_check_command`, `ltm_report`, `ltm_script` and `ltm_casefile`, and what lies below them. It stands
//!   apart so that none of them is proved a second time for its sake.
//! - **What a call costs**: nothing; there is none to make.
//! - **When to change it here**: when a file or a line that is read or written changes.
#![tactic(auto)]

#[cfg(test)]
mod cases;
#[cfg(test)]
mod curve_files;
#[cfg(test)]
mod delays;
#[cfg(test)]
mod ends;
#[cfg(test)]
mod faults;
#[cfg(test)]
mod folders;
#[cfg(test)]
mod lines;
#[cfg(test)]
mod long;
#[cfg(test)]
mod made_curves;
#[cfg(test)]
mod matrix;
#[cfg(test)]
mod opened;
#[cfg(test)]
mod pieces;
#[cfg(test)]
mod reads;
#[cfg(test)]
mod records;
#[cfg(test)]
mod reports;
#[cfg(test)]
mod scripts;
#[cfg(test)]
mod setup_columns;
