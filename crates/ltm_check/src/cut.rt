//! Where a text may be cut between two records.
ghost use Rattle.std.specs.Prelude.{◌≡◌, ◌≢◌, ◌<◌, ◌≤◌, ℕ, length, take, slice_index};
ghost use Rattle.ltm_check.specs.Pieces.{CutAtLineEnd, IsUnquoted};

/// The records of a text are those before a line's end, where no quote stands, and those from it on.
pub(crate) fn cut_at_line_end()
    ensures { CutAtLineEnd }
{}

/// How many bytes of a text stand before its first double quote.
fn unquoted_length(text: &[u8]) -> usize
    ensures within { result ≤ length text.now }
    ensures unquoted { (k : ℕ) → k < result → slice_index text.now k ≢ 34 }
{
    for at in 0..text.len() {
        if text[at] == b'"' {
            return at;
        }
    }
    text.len()
}

/// The place of the last line's end before the first quote of a text, and 0 where there is none behind its first byte.
pub(crate) fn cut_of(text: &[u8]) -> usize
    ensures there { 0 < result → result < length text.now }
    ensures line { 0 < result → slice_index text.now result ≡ 10 }
    ensures unquoted { (k : ℕ) → k < result → slice_index text.now k ≢ 34 }
{
    let end = unquoted_length(text);
    for back in 0..end {
        let at = end - 1 - back;
        if text[at] == b'\n' {
            return at;
        }
    }
    0
}
