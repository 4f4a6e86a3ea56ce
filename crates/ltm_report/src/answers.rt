//! The lines that tell what was done: a batch accepted, a settle. Room for a whole line is taken before its first byte is
//! written, so a caller who has taken it before something is done can tell of it in any case.
ghost use Rattle.std.specs.Prelude.{◌≡◌, ◌++◌, ◌+◌, ◌≤◌, OnOk, OnErr, IsOk, vec_len, vec_capacity};
ghost use Rattle.ltm_report.specs.Answers.{accepted_piece, accepted_line, settled_piece, recomputed_piece, settled_line, answer_room};

use ltm_units::{NoMemory, append, append_number};

/// How many bytes of room [`accepted_text`] and [`settled_text`] need at most.
pub const ANSWER_ROOM: usize = 128;

#[tactic(auto, unfolding(crate::specs::Answers::accepted_piece))]
fn append_accepted(into: &mut Vec<u8>, version: u64)
    requires room { vec_len into.old + 57 ≤ vec_capacity into.old }
    ensures items { into.new.items ≡ into.old.items ++ accepted_piece version }
    ensures len { vec_len into.new ≤ vec_len into.old + 57 }
    ensures capacity { vec_capacity into.old ≤ vec_capacity into.new }
{
    append_number(into, b"accepted version ", u128::from(version));
}

#[tactic(auto, unfolding(crate::specs::Answers::settled_piece))]
fn append_settled(into: &mut Vec<u8>, version: u64)
    requires room { vec_len into.old + 56 ≤ vec_capacity into.old }
    ensures items { into.new.items ≡ into.old.items ++ settled_piece version }
    ensures len { vec_len into.new ≤ vec_len into.old + 56 }
    ensures capacity { vec_capacity into.old ≤ vec_capacity into.new }
{
    append_number(into, b"settled version ", u128::from(version));
}

#[tactic(auto, unfolding(crate::specs::Answers::recomputed_piece))]
fn append_recomputed(into: &mut Vec<u8>, count: u128)
    requires room { vec_len into.old + 52 ≤ vec_capacity into.old }
    ensures items { into.new.items ≡ into.old.items ++ recomputed_piece count }
    ensures len { vec_len into.new ≤ vec_len into.old + 52 }
    ensures capacity { vec_capacity into.old ≤ vec_capacity into.new }
{
    append_number(into, b" recomputed ", count);
}

/// Appends that a batch was accepted, and the number of batches with it, as `accepted version 3`. Where room for
/// [`ANSWER_ROOM`] bytes is there it takes no memory and cannot fail.
#[tactic(auto, unfolding(crate::specs::Answers::accepted_line))]
pub fn accepted_text(version: u64, into: &mut Vec<u8>) -> Result<(), NoMemory>
    ensures ok { OnOk result (into.new.items ≡ into.old.items ++ accepted_line version) }
    ensures err { OnErr result (into.new.items ≡ into.old.items) }
    ensures room { vec_len into.old + answer_room ≤ vec_capacity into.old → IsOk result }
{
    into.reserve(ANSWER_ROOM)?;
    append_accepted(into, version);
    append(into, b"\n");
    Ok(())
}

/// Appends that so many batches are settled, and how many pairs of node and slot were computed anew, as
/// `settled version 3 recomputed 12`. Where room for [`ANSWER_ROOM`] bytes is there it takes no memory and cannot fail.
#[tactic(auto, unfolding(crate::specs::Answers::settled_line))]
pub fn settled_text(version: u64, count: u128, into: &mut Vec<u8>) -> Result<(), NoMemory>
    ensures ok { OnOk result (into.new.items ≡ into.old.items ++ settled_line version count) }
    ensures err { OnErr result (into.new.items ≡ into.old.items) }
    ensures room { vec_len into.old + answer_room ≤ vec_capacity into.old → IsOk result }
{
    into.reserve(ANSWER_ROOM)?;
    append_settled(into, version);
    append_recomputed(into, count);
    append(into, b"\n");
    Ok(())
}
