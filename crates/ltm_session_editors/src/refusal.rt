//! Why there is no text.
use crate::fault::EditsFault;
use ltm_casefile::CaseFault;

/// Why editors write nothing of what they do.
#[derive(Clone, Copy, PartialEq, Eq)]
pub enum EditorsRefusal {
    /// There is no case, with its first fault; or memory was not found.
    Case(CaseFault),
    /// The files of edits are not read, with what is wrong first.
    Edits(EditsFault),
}
