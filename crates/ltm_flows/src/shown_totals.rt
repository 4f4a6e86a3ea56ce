//! The totals of a finished loading.
ghost use Rattle.std.specs.Prelude.{ℕ};
ghost use Rattle.ltm_curve.specs.Counts.{Counts};
ghost use Rattle.ltm_loading.specs.Setting.{Setting};
ghost use Rattle.ltm_flows.specs.Shown.{ShowsCounts};
ghost use Rattle.ltm_flows.specs.InAll.{AreTotals};
ghost use Rattle.ltm_flows.specs.Counted.{SumsUp};

use crate::loading::Loading;
use crate::loading_totals::Totals;

/// What a loading comes to in all at the last boundary.
pub fn totals(loading: &Loading) -> Totals
    ensures counted { SumsUp loading.now result }
    ensures shown { (s : Setting) (version : ℕ) (c : Counts) → ShowsCounts s version c loading.now
        → AreTotals s c s.slots result }
{
    loading.totals()
}
