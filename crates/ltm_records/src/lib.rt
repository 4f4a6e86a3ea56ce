//! - **What it is**: the records of a file of fields with commas, one at a time, and the fields of a record, each of its
//!   kind; and the pieces of a text between spaces. A byte order mark at the start is taken off, lines end with LF, CR or CRLF, blank lines are passed over, a field
//!   may stand in double quotes, and the header is a record like the others.
//! - **On what it stands**: `csv`, with its defaults but that a record may have any number of fields, and `ltm_units`.
//! - **What a call costs**: one pass over the record; memory follows the longest record and not the file.
//! - **When to change it here**: when the text of a kind of field changes.
#![tactic(auto)]

mod cutting;
mod fields;
mod records;
mod weights;

pub use cutting::cut;
pub use fields::{has, name_at, text_at, vehicles_at, whole_at, width};
pub use records::Records;
pub use weights::read_weights;
