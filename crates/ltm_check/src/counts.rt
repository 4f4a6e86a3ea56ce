//! The counts of a record, read into curves.
ghost use Rattle.std.specs.Prelude.{◌≡◌, ◌<◌, ◌+◌, Some, None, IsTrue, IsFalse, List, ℕ};
ghost use Rattle.ltm_curve.specs.Table.{groups_of, destinations_of, slots_of, SameShape};
ghost use Rattle.ltm_check.specs.CountsTold.{count_told, counts_told};
ghost use Rattle.ltm_check.specs.Kept.{PutsCounts};

use ltm_curve::Curves;
use ltm_records::cut;
use ltm_units::read_number;

/// The greatest count that curves hold. No count of a loading is as great.
const GREATEST: u64 = 2_147_483_647;

/// The count that a text tells: 1 to 15 digits with a value of at most 2^48.
fn read_count(text: &[u8]) -> Option<u64>
    ensures { result ≡ count_told text.now }
{
    read_number(text, 15, 281_474_976_710_656)
}

/// Reads one count for each boundary, and puts them into the curves as those of a group and a destination; a count that is
/// too great for curves is put as the greatest that they hold. Whether the text tells so many counts; where it does not,
/// some may have been put. Takes no memory.
pub(crate) fn read_counts(curves: &mut Curves, group: u32, destination: u32, text: &[u8]) -> bool
    requires group { group < groups_of curves.old }
    requires destination { destination < destinations_of curves.old }
    ensures puts { IsTrue result
        → (counts : List ℕ) × (counts_told (slots_of curves.old + 1) text.now ≡ Some counts)
        × PutsCounts curves.old curves.new group destination counts }
    ensures none { IsFalse result → counts_told (slots_of curves.old + 1) text.now ≡ None }
    ensures shape { SameShape curves.new curves.old }
{
    let slots = curves.slots();
    let mut rest = Some(text);
    let mut boundary: u64 = 0;
    'pieces: while let Some(text) = rest {
        if boundary > u64::from(slots) {
            return false;
        }
        let (piece, behind) = cut(text);
        let Some(count) = read_count(piece) else {
            return false;
        };
        curves.set(group, destination, boundary as u32, count.min(GREATEST));
        boundary += 1;
        rest = behind;
    }
    boundary == u64::from(slots) + 1
}
