//! The pieces that several lines have. Without memory a front of a piece may have been appended, so each line is made in a
//! text of its own and appended at once.
ghost use Rattle.std.specs.Prelude.{◌≡◌, ◌++◌, OnOk};
ghost use Rattle.ltm_report.specs.Pieces.{version_piece, newline};

use ltm_units::{NoMemory, push_number, push_text};

#[tactic(auto, unfolding(crate::specs::Pieces::version_piece))]
pub(crate) fn push_version(into: &mut Vec<u8>, version: u64) -> Result<(), NoMemory>
    ensures { OnOk result (into.new.items ≡ into.old.items ++ version_piece version) }
{
    push_number(into, b"version ", u128::from(version))
}

pub(crate) fn push_newline(into: &mut Vec<u8>) -> Result<(), NoMemory>
    ensures { OnOk result (into.new.items ≡ into.old.items ++ newline) }
{
    push_text(into, b"\n")
}
