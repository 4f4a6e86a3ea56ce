//! The time that all vehicles spend.
ghost use Rattle.std.specs.Prelude.{◌≡◌, ℕ};
ghost use Rattle.ltm_curve.specs.Counts.{Counts};
ghost use Rattle.ltm_loading.specs.Setting.{Setting};
ghost use Rattle.ltm_flows.specs.Shown.{ShowsCounts};
ghost use Rattle.ltm_times.specs.Times.{time_spent};

use ltm_flows::Loading;

/// The time that all vehicles spend on their way or at their origins, in units times milliseconds.
pub fn time_spent(loading: &Loading) -> u128
    ensures { (s : Setting) (version : ℕ) (c : Counts) → ShowsCounts s version c loading.now
        → result ≡ time_spent s c }
{
    let mut sum = 0u128;
    for slot in 0..loading.slots() {
        let generated = loading.generated(slot + 1).0;
        let arrived = loading.arrived(slot + 1).0;
        sum += u128::from(generated.saturating_sub(arrived));
    }
    sum * u128::from(loading.step().0)
}
