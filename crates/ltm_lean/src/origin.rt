//! What leaves the origin of a node.
ghost use Rattle.std.specs.Prelude.{◌≡◌, ℕ, ◌+◌, ◌-◌, ◌^◌, ◌<◌, min, length, slice_index};
ghost use Rattle.ltm_units.specs.Sums.{sum_below};

use crate::resting::are_zero;

/// Adds to what has left an origin, by place, what left it in a slot, up to the most that 32 bits hold, and tells what left it
/// in all, up to the most that 64 bits hold. Nothing is written where nothing left it, as at each node where no trip begins.
pub(crate) fn add_gone(gone: &mut [u32], moved: &[u64]) -> u64
    requires { length moved.now ≡ length gone.old }
    ensures each { (k : ℕ) → k < length gone.old → slice_index gone.new k ≡ min (2 ^ 32 - 1) (slice_index gone.old k + slice_index moved.now k) }
    ensures all { result ≡ min (2 ^ 64 - 1) (sum_below (length gone.old) (slice_index moved.now)) }
{
    if are_zero(moved) {
        return 0;
    }
    let mut all = 0u64;
    for k in 0..gone.len() {
        let sum = u64::from(gone[k]).saturating_add(moved[k]);
        gone[k] = sum.min(u64::from(u32::MAX)) as u32;
        all = all.saturating_add(moved[k]);
    }
    all
}
