//! What those who are produced in a slot would spend, and how many of them are late.
ghost use Rattle.std.specs.Prelude.{◌≡◌, ◌<◌, ◌≤◌, ◌+◌, ◌*◌, ◌^◌, IfSome};
ghost use Rattle.ltm_units.specs.Bounds.{longest_step, most_produced, most_slots};
ghost use Rattle.ltm_gap.specs.Gaps.{share_of, twice_time, twice_left, twice_of};
ghost use Rattle.ltm_gap.specs.Parts.{IsBoth};
ghost use Rattle.ltm_search.specs.Arrivals.{millis_of};
ghost use Rattle.ltm_gap.specs.Steps.{last_moment};

use ltm_units::Millis;

/// Of those who travel to a destination, twice an estimate of the least time that they would spend, in units times
/// milliseconds, and how many of them no route brings there by the end.
#[derive(Clone, Copy)]
pub struct Sum {
    pub twice: u128,
    pub late: u128,
}

/// A slot, and the numbers of all.
#[derive(Clone, Copy)]
pub(crate) struct At {
    pub(crate) step: Millis,
    pub(crate) slots: u32,
    pub(crate) slot: u32,
}

/// Twice the time of those who arrive, from the earliest arrivals of the first and of the last of them.
fn twice_time(at: At, first: Option<Millis>, last: Option<Millis>) -> u64
    requires step { at.step.0 ≤ longest_step }
    requires slots { at.slots ≤ most_slots }
    requires slot { at.slot < at.slots }
    requires first { IfSome first (λ time. time.0 ≤ last_moment) }
    requires last { IfSome last (λ time. time.0 ≤ last_moment) }
    ensures value { result ≡ twice_time at.step.0 at.slot (millis_of first) (millis_of last) }
    ensures small { result ≤ 2 ^ 31 }
{
    let Some(first) = first else {
        return 0;
    };
    let Some(last) = last else {
        return 0;
    };
    let start = u64::from(at.slot) * at.step.0;
    let end = u64::from(at.slot + 1) * at.step.0;
    first.0.saturating_sub(start) + last.0.saturating_sub(end)
}

/// Twice the time until the end.
fn twice_left(at: At) -> u64
    requires step { at.step.0 ≤ longest_step }
    requires slots { at.slots ≤ most_slots }
    requires slot { at.slot < at.slots }
    ensures value { result ≡ twice_left at.step.0 at.slots at.slot }
    ensures small { result ≤ 2 ^ 31 }
{
    2 * (u64::from(at.slots - at.slot) * at.step.0)
}

/// The share of so many units in a part of all, rounded down.
#[tactic(auto, using(crate::proofs::Adding::share_within))]
pub(crate) fn share_of(units: u64, part: u64, all: u64) -> u64
    requires some { 0 < all }
    requires within { part ≤ all }
    ensures value { result ≡ share_of units part all }
    ensures small { result ≤ units }
{
    (u128::from(units) * u128::from(part) / u128::from(all)) as u64
}

impl Sum {
    /// Together with another.
    pub(crate) fn and(self, other: Sum) -> Sum
        requires twice_room { self.twice ≤ 2 ^ 120 }
        requires late_room { self.late ≤ 2 ^ 120 }
        requires other_twice_room { other.twice ≤ 2 ^ 120 }
        requires other_late_room { other.late ≤ 2 ^ 120 }
        ensures { IsBoth self other result }
    {
        Sum {
            twice: self.twice + other.twice,
            late: self.late + other.late,
        }
    }

    /// With so many units more, who are produced in a slot, and of whom some are late.
    pub(crate) fn with(
        self,
        units: u64,
        late: u64,
        at: At,
        first: Option<Millis>,
        last: Option<Millis>,
    ) -> Sum
        requires units { units ≤ most_produced }
        requires late { late ≤ units }
        requires step { at.step.0 ≤ longest_step }
        requires slots { at.slots ≤ most_slots }
        requires slot { at.slot < at.slots }
        requires first { IfSome first (λ time. time.0 ≤ last_moment) }
        requires last { IfSome last (λ time. time.0 ≤ last_moment) }
        requires twice_room { self.twice ≤ 2 ^ 120 }
        requires late_room { self.late ≤ 2 ^ 120 }
        ensures twice { result.twice ≡ self.twice
            + twice_of units late (twice_time at.step.0 at.slot (millis_of first) (millis_of last))
            (twice_left at.step.0 at.slots at.slot) }
        ensures late { result.late ≡ self.late + late }
        ensures small_twice { result.twice ≤ self.twice + 2 ^ 84 }
        ensures small_late { result.late ≤ self.late + 2 ^ 53 }
    {
        let time = twice_time(at, first, last);
        let left = twice_left(at);
        let arriving = u128::from(units - late) * u128::from(time);
        let rest = u128::from(late) * u128::from(left);
        Sum {
            twice: self.twice + (arriving + rest),
            late: self.late + u128::from(late),
        }
    }
}
