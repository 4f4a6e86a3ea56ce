//! - **What it is**: a finished loading as a file of its curves, the reading of such a file whatever wrote it, and a check
//!   that counts are the loading of a scenario, which makes no loading of its own.
//! - **On what it stands**: `ltm_records` for the records of a file, and `ltm_inputs` with `ltm_node` for the step of a pair.
//! - **What a call costs**: writing costs a pass over the counts, and memory for those of a few groups; reading a pass over
//!   the text, and memory for the curves; the check the step of each pair up to the first that is wrong.
//! - **When to change it here**: when a record of the file changes, or when a loading is told from other counts in another
//!   way.
#![tactic(auto)]

mod check;
mod counts;
mod cut;
mod due;
mod faults;
mod file;
mod in_32_bits;
mod meets;
mod piece;
mod read;
mod record;
mod rows;
mod start;
mod text;
mod window;
mod write;
mod written;

pub use check::check_curves;
pub use faults::{Checked, CurvesCause, CurvesFault, FileFault};
pub use file::read_curves_from;
pub use in_32_bits::kept_answers_alike;
pub use read::read_curves;
pub use write::write_curves;
pub use written::{is_named, loading_is_told, written_is_read};
