//! How much of the parts of a whole passes a limit.
ghost use Rattle.std.specs.Prelude.{◌≡◌, ℕ, ◌<◌, ◌≤◌, length, slice_index};
ghost use Rattle.ltm_curve.specs.Table.{destinations_of};
ghost use Rattle.ltm_loading.specs.Flows.{limited};
ghost use Rattle.ltm_units.specs.Bounds.{most_in_slot};

use ltm_curve::{Curves, Kind};

/// Writes that nothing is sent: to two destinations, without a loop.
#[inline]
pub(crate) fn send_nothing(into: &mut [u64])
    ensures { (d : ℕ) → d < length into.old → slice_index into.new d ≡ 0 }
{
    if into.len() == 2 {
        into[0] = 0;
        into[1] = 0;
    } else {
        into.fill(0);
    }
}

/// The same for curves of a kind: to one destination, without a loop.
#[inline]
pub(crate) fn send_none<K: Kind>(curves: &Curves, into: &mut [u64])
    requires kind { K.fits (destinations_of curves.now) }
    requires room { length into.old ≡ destinations_of curves.now }
    ensures { (d : ℕ) → d < length into.old → slice_index into.new d ≡ 0 }
{
    if K::is_alone(curves) {
        into[0] = 0;
        return;
    }
    send_nothing(into);
}

/// What passes a limit of a part of a whole.
#[inline]
fn within(limit: u64, whole: u64, part: u64) -> u64
    requires limit { limit < whole }
    requires part { part ≤ whole }
    requires small { whole ≤ most_in_slot }
    ensures { result ≡ limited limit whole part }
{
    part * limit / whole
}

/// Brings numbers, each a part of a whole, within a limit of the whole.
#[inline]
pub(crate) fn limit_all(limit: u64, whole: u64, parts: &mut [u64])
    requires parts { (d : ℕ) → d < length parts.old → slice_index parts.old d ≤ whole }
    requires small { whole ≤ most_in_slot }
    ensures { (d : ℕ) → d < length parts.old
        → slice_index parts.new d ≡ limited limit whole (slice_index parts.old d) }
{
    if whole <= limit {
        return;
    }
    limit_each(limit, whole, parts);
}

/// The same where the limit cuts. Kept out of line.
#[inline(never)]
fn limit_each(limit: u64, whole: u64, parts: &mut [u64])
    requires cuts { limit < whole }
    requires parts { (d : ℕ) → d < length parts.old → slice_index parts.old d ≤ whole }
    requires small { whole ≤ most_in_slot }
    ensures { (d : ℕ) → d < length parts.old
        → slice_index parts.new d ≡ limited limit whole (slice_index parts.old d) }
{
    for part in parts.iter_mut() {
        *part = within(limit, whole, *part);
    }
}
