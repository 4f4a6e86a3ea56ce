//! What left a link in a slot and what entered it, from what moved at a node.
ghost use Rattle.std.specs.Prelude.{◌≡◌, ℕ, ◌+◌, ◌≤◌, List, length, slice_index};
ghost use Rattle.ltm_curve.specs.Counts.{Counts, total};
ghost use Rattle.ltm_loading.specs.Setting.{Setting};
ghost use Rattle.ltm_loading.specs.Groups.{up_of, down_of};
ghost use Rattle.ltm_standing.specs.Standing.{width_of};
ghost use Rattle.ltm_standing.specs.Listed.{HasEntered, Stands};
ghost use Rattle.ltm_units.specs.Bounds.{most_destinations};
ghost use Rattle.ltm_units.specs.Sums.{sum_below};
ghost use Rattle.ltm_lean_link.specs.Moved.{IsMovedAt};

use crate::gather::{gather, gather_mail};
use ltm_standing::Standing;

/// Takes away what left a link in a slot, from what left by place in the list of the node where it ends, and tells how much
/// it was. `room` is for the numbers of the link's own list.
pub fn leave_listed(standing: &mut Standing, places: &[u32], moved: &[u64], room: &mut [u32]) -> u32
    requires places { length places.now ≡ width_of standing.old }
    requires room { length room.old ≡ width_of standing.old }
    requires few { length places.now ≤ most_destinations }
    ensures wide { width_of standing.new ≡ width_of standing.old }
    ensures gone { (s : Setting) (c : Counts) (l t : ℕ) (ds us : List ℕ) → IsMovedAt s c l (down_of l) t ds us places.now moved.now
        → total s.destinations (c (down_of l)) (t + 1) ≡ total s.destinations (c (down_of l)) t + result }
    ensures stands { (s : Setting) (c : Counts) (l k t : ℕ) (ds us : List ℕ) → IsMovedAt s c l (down_of l) t ds us places.now moved.now
        → Stands c l ds k t standing.old → Stands c l ds k (t + 1) standing.new }
{
    let gone = gather(moved, places, room);
    standing.leave(room);
    gone
}

/// Writes what entered a link in a slot by place in its list, from what entered by place in the list of the node where it
/// begins, and tells how much it was.
pub fn enter_listed(places: &[u32], moved: &[u64], mail: &mut [u16]) -> u32
    requires same { length places.now ≡ length mail.old }
    requires few { length places.now ≤ most_destinations }
    ensures came { result ≡ sum_below (length mail.old) (slice_index mail.new) }
    ensures entered { (s : Setting) (c : Counts) (l t : ℕ) (ds us : List ℕ) → IsMovedAt s c l (up_of l) t ds us places.now moved.now
        → HasEntered s c l ds t result mail.new }
{
    gather_mail(moved, places, mail)
}
