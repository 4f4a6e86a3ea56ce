//! Of which destinations the first units of some rows are, in the order in which they entered.
//!
//! The units of one slot are mixed evenly, by the nested split; those of different slots are not mixed. All is written
//! over any source of rows, since a group of curves is not the only one.
ghost use Rattle.std.specs.Prelude.{◌≡◌, ℕ, ◌-◌, ◌<◌, ◌≤◌, length, slice_index};
ghost use Rattle.ltm_curve.specs.Counts.{total};
ghost use Rattle.ltm_curve.specs.First.{last_within, first_units, RowsRise};
ghost use Rattle.ltm_curve.specs.FirstLaws.{IsPart};

use crate::curves::Curves;
use crate::group::Group;
use crate::rows::Rows;

/// The first units that entered a group: how many, in thousandths of a vehicle, a boundary by which all of them had entered,
/// and the last one not above it at which no more had.
#[derive(Clone, Copy)]
pub struct FirstUnits {
    pub group: u32,
    pub count: u64,
    pub last: u32,
    pub end: u32,
}

/// Two boundaries round the last one that has at most n units and is not above `last`: found by steps back from `last`
/// that double.
fn bracket<R: Rows>(rows: &R, n: u64, last: u32) -> (u32, u32)
    requires last { last ≤ R.end rows.now }
    requires part { IsPart (R.width rows.now) (R.rows rows.now) n last }
    ensures order { result.0 ≤ result.1 }
    ensures below { result.1 ≤ last }
    ensures within { total (R.width rows.now) (R.rows rows.now) result.0 ≤ n }
    ensures above { (j : ℕ) → result.1 < j → j ≤ last
        → n < total (R.width rows.now) (R.rows rows.now) j }
{
    let mut low = last;
    let mut high = last;
    let mut span = 1u32;
    while low > 0 && rows.total(low) > n {
        high = low - 1;
        low = low.saturating_sub(span);
        span = span.saturating_mul(2);
    }
    (low, high)
}

/// The last boundary from `from` to `to` that has at most n units: found by halving.
fn halve<R: Rows>(rows: &R, n: u64, from: u32, to: u32) -> u32
    requires order { from ≤ to }
    requires last { to ≤ R.end rows.now }
    requires rise { RowsRise (R.width rows.now) (R.rows rows.now) to }
    requires has { total (R.width rows.now) (R.rows rows.now) from ≤ n }
    ensures below { result ≤ to }
    ensures within { total (R.width rows.now) (R.rows rows.now) result ≤ n }
    ensures above { (j : ℕ) → result < j → j ≤ to
        → n < total (R.width rows.now) (R.rows rows.now) j }
{
    let mut low = from;
    let mut high = to;
    while low < high {
        let middle = high - (high - low) / 2;
        if rows.total(middle) <= n {
            low = middle;
        } else {
            high = middle - 1;
        }
    }
    low
}

/// The last boundary, not above `last`, that has at most n units.
fn end_of<R: Rows>(rows: &R, n: u64, last: u32) -> u32
    requires last { last ≤ R.end rows.now }
    requires part { IsPart (R.width rows.now) (R.rows rows.now) n last }
    ensures end { result ≡ last_within (total (R.width rows.now) (R.rows rows.now)) n last }
    ensures below { result ≤ last }
    ensures within { total (R.width rows.now) (R.rows rows.now) result ≤ n }
{
    let (low, high) = bracket(rows, n, last);
    halve(rows, n, low, high)
}

/// Writes what each destination has of the first n units of some rows, among those that entered by boundary `last`, less
/// a number of each destination, as of those that have left: in one pass. Takes no memory. A search over boundaries begins
/// at `last` and takes steps that double, so it is short where the units end near it; with one destination there is none.
pub fn first_less_of<R: Rows>(rows: &R, n: u64, last: u32, less: &[u32], into: &mut [u64])
    requires last { last ≤ R.end rows.now }
    requires part { IsPart (R.width rows.now) (R.rows rows.now) n last }
    requires less { length less.now ≡ R.width rows.now }
    requires room { length into.old ≡ R.width rows.now }
    requires behind { (d : ℕ) → d < R.width rows.now → slice_index less.now d
        ≤ first_units (R.width rows.now) (R.rows rows.now) n last d }
    ensures { (d : ℕ) → d < R.width rows.now → slice_index into.new d
        ≡ first_units (R.width rows.now) (R.rows rows.now) n last d - slice_index less.now d }
{
    if rows.destinations() == 1 {
        into[0] = n - u64::from(less[0]);
        return;
    }
    let end = end_of(rows, n, last);
    first_less_at(rows, n, last, end, less, into);
}

/// The same where the last boundary that has at most n units is known.
#[inline]
fn first_less_at<R: Rows>(rows: &R, n: u64, last: u32, end: u32, less: &[u32], into: &mut [u64])
    requires last { last ≤ R.end rows.now }
    requires part { IsPart (R.width rows.now) (R.rows rows.now) n last }
    requires end { end ≡ last_within (total (R.width rows.now) (R.rows rows.now)) n last }
    requires below { end ≤ last }
    requires within { total (R.width rows.now) (R.rows rows.now) end ≤ n }
    requires less { length less.now ≡ R.width rows.now }
    requires room { length into.old ≡ R.width rows.now }
    requires behind { (d : ℕ) → d < R.width rows.now → slice_index less.now d
        ≤ first_units (R.width rows.now) (R.rows rows.now) n last d }
    ensures { (d : ℕ) → d < R.width rows.now → slice_index into.new d
        ≡ first_units (R.width rows.now) (R.rows rows.now) n last d - slice_index less.now d }
{
    let part = n - rows.total(end);
    if part == 0 {
        rows.write_less(end, less, into);
    } else {
        rows.write_mixed_less(end, part, less, into);
    }
}

/// A 0 for each destination that a case may have.
static NOTHING: [u32; 2_000] = [0; 2_000];

impl Curves {
    ghost use Rattle.ltm_curve.specs.Table.{groups_of, destinations_of, slots_of, counts_of, total_of};
    ghost use Rattle.ltm_curve.specs.FirstOf.{AreFirst};

    /// Writes what each destination has of the first n units of a group, in the order in which they entered: all that
    /// entered by the last boundary at which n were not yet passed, and of the units of the slot after it the part that
    /// is missing, by the nested split. Only what entered by boundary `last` is looked at.
    pub fn first(&self, group: u32, n: u64, last: u32, into: &mut [u64])
        requires group { group < groups_of self.now }
        requires last { last ≤ slots_of self.now }
        requires part { IsPart (destinations_of self.now) (counts_of self.now group) n last }
        requires room { length into.old ≡ destinations_of self.now }
        ensures { (d : ℕ) → d < destinations_of self.now → slice_index into.new d
            ≡ first_units (destinations_of self.now) (counts_of self.now group) n last d }
    {
        let rows = Group {
            curves: self,
            group,
        };
        let destinations = self.destinations() as usize;
        first_less_of(&rows, n, last, &NOTHING[..destinations], into);
    }

    /// The same less the counts of a group at a boundary, in one pass: of the first units that entered a link, say, those
    /// that have not left it. That group has passed no destination's part.
    pub fn first_less(
        &self,
        group: u32,
        n: u64,
        last: u32,
        less: u32,
        boundary: u32,
        into: &mut [u64],
    )
        requires group { group < groups_of self.now }
        requires last { last ≤ slots_of self.now }
        requires part { IsPart (destinations_of self.now) (counts_of self.now group) n last }
        requires less { less < groups_of self.now }
        requires boundary { boundary ≤ slots_of self.now }
        requires behind { (d : ℕ) → d < destinations_of self.now
            → counts_of self.now less d boundary
            ≤ first_units (destinations_of self.now) (counts_of self.now group) n last d }
        requires room { length into.old ≡ destinations_of self.now }
        ensures { (d : ℕ) → d < destinations_of self.now → slice_index into.new d
            ≡ first_units (destinations_of self.now)
            (counts_of self.now group) n last d - counts_of self.now less d boundary }
    {
        let rows = Group {
            curves: self,
            group,
        };
        first_less_of(&rows, n, last, self.row(less, boundary), into);
    }

    /// The same where the boundary at which the units end is known.
    pub fn first_less_from(&self, units: FirstUnits, less: u32, boundary: u32, into: &mut [u64])
        requires units { AreFirst self.now units }
        requires less { less < groups_of self.now }
        requires boundary { boundary ≤ slots_of self.now }
        requires behind { (d : ℕ) → d < destinations_of self.now
            → counts_of self.now less d boundary
            ≤ first_units (destinations_of self.now)
            (counts_of self.now units.group) units.count units.last d }
        requires room { length into.old ≡ destinations_of self.now }
        ensures { (d : ℕ) → d < destinations_of self.now → slice_index into.new d
            ≡ first_units (destinations_of self.now)
            (counts_of self.now units.group) units.count units.last d
            - counts_of self.now less d boundary }
    {
        let FirstUnits {
            group,
            count,
            last,
            end,
        } = units;
        let rows = Group {
            curves: self,
            group,
        };
        first_less_at(&rows, count, last, end, self.row(less, boundary), into);
    }

    /// The same of two destinations, without a loop.
    #[inline]
    pub fn first_less_two(&self, units: FirstUnits, less: u32, boundary: u32, into: &mut [u64])
        requires two { destinations_of self.now ≡ 2 }
        requires units { AreFirst self.now units }
        requires less { less < groups_of self.now }
        requires boundary { boundary ≤ slots_of self.now }
        requires behind { (d : ℕ) → d < destinations_of self.now
            → counts_of self.now less d boundary
            ≤ first_units (destinations_of self.now)
            (counts_of self.now units.group) units.count units.last d }
        requires room { length into.old ≡ destinations_of self.now }
        ensures { (d : ℕ) → d < destinations_of self.now → slice_index into.new d
            ≡ first_units (destinations_of self.now)
            (counts_of self.now units.group) units.count units.last d
            - counts_of self.now less d boundary }
    {
        let FirstUnits {
            group,
            count,
            last,
            end,
        } = units;
        let rows = Group {
            curves: self,
            group,
        };
        let part = count - self.both_total(group, end);
        let gone = self.row(less, boundary);
        rows.write_first_two(count, last, end, part, gone, into);
    }

    /// The greatest boundary not above `last` at which a group has at most n units; 0 where there is none. The totals may
    /// fall, so boundary after boundary is looked at, down from `last`.
    pub fn position(&self, group: u32, n: u64, last: u32) -> u32
        requires group { group < groups_of self.now }
        requires last { last ≤ slots_of self.now }
        ensures position { result ≡ last_within (total_of self.now group) n last }
        ensures below { result ≤ last }
    {
        let mut boundary = last;
        while boundary > 0 && self.total(group, boundary) > n {
            boundary -= 1;
        }
        boundary
    }
}
