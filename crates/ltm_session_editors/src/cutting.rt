//! The lines of a text.
ghost use Rattle.std.specs.Prelude.{◌≡◌, ◌≢◌, ◌≤◌, ◌<◌, ◌+◌, ℕ, [], ◌∷◌, length, take, drop, slice_index, nat_lt};
ghost use Rattle.std.specs.List.{list_any};
ghost use Rattle.ltm_io.specs.Script.{lines_of};
ghost use Rattle.ltm_session_editors.specs.Files.{has_many};
ghost use Rattle.ltm_units.specs.Bounds.{longest_file};

use crate::text::Text;

/// The most lines that a file of edits may have.
const MOST_LINES: usize = 10_000;

/// Where the first newline stands; the length of a text without one.
fn newline_at(text: &[u8]) -> usize
    ensures within { result ≤ length text.now }
    ensures before { (k : ℕ) → k < result → slice_index text.now k ≢ 10 }
    ensures found { result < length text.now → slice_index text.now result ≡ 10 }
{
    for (place, byte) in text.iter().enumerate() {
        if *byte == b'\n' {
            return place;
        }
    }
    text.len()
}

/// How many bytes the first line of a text has.
pub(crate) fn line_len(text: &[u8]) -> usize
    ensures within { result ≤ length text.now }
    ensures first { text.now ≢ []
        → lines_of text.now ≡ take result text.now ∷ lines_of (drop (result + 1) text.now) }
{
    newline_at(text)
}

/// How many lines a text has.
fn line_count(text: &[u8]) -> usize
    requires { length text.now ≤ longest_file }
    ensures { result ≡ length (lines_of text.now) }
{
    let mut count: usize = 0;
    let mut at: usize = 0;
    while at < text.len() {
        at += line_len(&text[at..]) + 1;
        count += 1;
    }
    count
}

/// Whether a text has more lines than are read.
fn is_many(text: &Text) -> bool
    ensures { result ≡ has_many text.now }
{
    line_count(text.bytes()) > MOST_LINES
}

/// Whether one of the texts has more lines than are read.
pub(crate) fn are_many(texts: &[Text]) -> bool
    ensures { result ≡ list_any has_many texts.now }
{
    for text in texts {
        if is_many(text) {
            return true;
        }
    }
    false
}
