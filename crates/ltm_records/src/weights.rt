//! The weights that a field tells: one to four names with their weights.
ghost use Rattle.std.specs.Prelude.{◌≡◌, position};
ghost use Rattle.ltm_records.specs.Weights.{is_equals, entry_of, weights_of};

use crate::cutting::cut;
use ltm_units::{Four, Name, read_whole};

fn find_equals(text: &[u8]) -> Option<usize>
    ensures { result ≡ position is_equals text.now }
{
    text.iter().position(|b| *b == b'=')
}

/// The entry that a piece tells.
#[tactic(auto, using(crate::proofs::Pieces::cuts))]
fn read_entry(text: &[u8]) -> Option<(Name, u32)>
    ensures { result ≡ entry_of text.now }
{
    let place = find_equals(text)?;
    let name = Name::read(&text[..place])?;
    let weight = read_whole(&text[place + 1..])?;
    Some((name, weight))
}

/// The weights that a text tells: one to four entries with exactly one space between two, each a name, `=` and a whole
/// number below 2^32, as `b=1 c=0`. They come in the order of the text, and a name may stand twice.
#[tactic(auto, using(crate::proofs::Pieces::steps))]
pub fn read_weights(text: &[u8]) -> Option<Four<(Name, u32)>>
    ensures { result ≡ weights_of text.now }
{
    let (piece, mut rest) = cut(text);
    let mut entries = Four::one(read_entry(piece)?);
    'pieces: while let Some(text) = rest {
        let (piece, behind) = cut(text);
        entries = entries.with(read_entry(piece)?)?;
        rest = behind;
    }
    Some(entries)
}
