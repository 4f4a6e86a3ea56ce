//! When vehicles have left a link, and how long they take to pass it.
ghost use Rattle.std.specs.Prelude.{◌≡◌, ◌↔◌, ℕ, ◌<◌, None, option_map};
ghost use Rattle.ltm_curve.specs.Counts.{Counts};
ghost use Rattle.ltm_loading.specs.Setting.{Setting};
ghost use Rattle.ltm_loading.specs.Totals.{entered_link, left_link};
ghost use Rattle.ltm_flows.specs.Shown.{links_of, last_of, ShowsCounts};
ghost use Rattle.ltm_times.specs.Times.{exit_time, travel_time};

use crate::boundaries::moment_of;
use ltm_flows::Loading;
use ltm_loading::down_of;
use ltm_units::{LinkId, Millis, Units};

/// The first millisecond by which so many units have left a link; None where fewer have left it by the end.
pub fn exit_ms(loading: &Loading, link: LinkId, count: Units) -> Option<Millis>
    requires { link.0 < links_of loading.now }
    ensures time { (s : Setting) (version : ℕ) (c : Counts) → ShowsCounts s version c loading.now
        → option_map (λ time. time.0) result
        ≡ exit_time s c link.0 count.0 }
    ensures none { (s : Setting) (version : ℕ) (c : Counts) → ShowsCounts s version c loading.now
        → (result ≡ None)
        ↔ (left_link s c link.0 s.slots < count.0) }
{
    let _links = loading.links();
    moment_of(loading.curves(), down_of(link), count.0, loading.step())
}

/// How many milliseconds a vehicle takes to pass a link that it enters at the beginning of a slot: no less than the
/// free-flow time, and until all have left that entered before. None where these have not left by the end.
pub fn travel(loading: &Loading, link: LinkId, slot: u32) -> Option<Millis>
    requires link { link.0 < links_of loading.now }
    requires slot { slot < last_of loading.now }
    ensures time { (s : Setting) (version : ℕ) (c : Counts) → ShowsCounts s version c loading.now
        → option_map (λ time. time.0) result
        ≡ travel_time s c link.0 slot }
    ensures none { (s : Setting) (version : ℕ) (c : Counts) → ShowsCounts s version c loading.now
        → (result ≡ None)
        ↔ (left_link s c link.0 s.slots
        < entered_link s c link.0 slot) }
{
    let exit = exit_ms(loading, link, loading.entered_by(link, slot))?;
    let start = u64::from(slot) * loading.step().0;
    let passed = exit.0.saturating_sub(start);
    Some(Millis(loading.free(link).0.max(passed)))
}
