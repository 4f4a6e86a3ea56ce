//! The least time of those who travel, to each destination and in all.
ghost use Rattle.std.specs.Prelude.{◌≡◌, ◌<◌, ◌≤◌, ◌^◌, ℕ, length};
ghost use Rattle.ltm_gap.specs.Steps.{sum_at, AreSums};
ghost use Rattle.ltm_units.specs.Bounds.{most_destinations};

use crate::sums::Sum;

/// What those who travel would spend at least, in units times milliseconds, and the units of whom no route brings there by
/// the end.
#[derive(Clone, Copy)]
pub struct Gap {
    pub least: u128,
    pub late: u128,
}

/// The same for each destination.
#[derive(Drop)]
pub struct Gaps {
    sums: Vec<Sum>,
    ghost few: { length sums.items ≤ most_destinations },
    ghost small: { AreSums (2 ^ 34) sums.items },
}

impl Gaps {
    ghost use Rattle.ltm_curve.specs.Counts.{Counts};
    ghost use Rattle.ltm_loading.specs.Setting.{Setting};
    ghost use Rattle.ltm_flows.specs.declared.loading.Loading.{Loading};
    ghost use Rattle.ltm_flows.specs.Shown.{ShowsCounts};
    ghost use Rattle.ltm_gap.specs.Told.{AreGaps, IsGap, IsGapTo};

    /// The sums of all destinations.
    pub(crate) fn new(sums: Vec<Sum>) -> Gaps
        requires few { length sums.items ≤ most_destinations }
        requires small { AreSums (2 ^ 34) sums.items }
        ensures { result.sums ≡ sums }
    {
        Gaps { sums }
    }

    fn sum(&self, destination: u32) -> Sum
        requires { destination < length self.now.sums.items }
        ensures { result ≡ sum_at self.now.sums.items destination }
    {
        self.sums[destination as usize]
    }

    /// Of those who travel to a destination.
    pub fn to(&self, destination: u32) -> Gap
        requires { destination < length self.now.sums.items }
        ensures { (s : Setting) (l : Loading) (version : ℕ) (c : Counts) → AreGaps s l self.now
            → ShowsCounts s version c l → IsGapTo s c destination result }
    {
        let sum = self.sum(destination);
        Gap {
            least: sum.twice / 2,
            late: sum.late,
        }
    }

    /// Of all.
    pub fn all(&self) -> Gap
        ensures { (s : Setting) (l : Loading) (version : ℕ) (c : Counts) → AreGaps s l self.now
            → ShowsCounts s version c l → IsGap s c result }
    {
        let mut least = 0u128;
        let mut late = 0u128;
        for destination in 0..self.sums.len() {
            least += self.sums[destination].twice / 2;
            late += self.sums[destination].late;
        }
        Gap { least, late }
    }
}
