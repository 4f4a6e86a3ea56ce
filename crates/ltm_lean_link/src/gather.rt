//! Numbers of a node's list, by place in the list of a link.
ghost use Rattle.std.specs.Prelude.{◌≡◌, ℕ, ◌<◌, ◌≤◌, min, length, slice_index};
ghost use Rattle.ltm_units.specs.Bounds.{most_destinations};
ghost use Rattle.ltm_units.specs.Sums.{sum_below};
ghost use Rattle.ltm_lean_link.specs.Moved.{moved_at};

/// The number at a place, at most 65,535; 0 where the place is not there.
#[inline]
fn number_at(moved: &[u64], place: u32) -> u16
    ensures { result ≡ min 65535 (slice_index moved.now place) }
{
    let place = place as usize;
    if place < moved.len() {
        return moved[place].min(65_535) as u16;
    }
    0
}

/// Writes the number at each place, and adds them.
pub(crate) fn gather(moved: &[u64], places: &[u32], into: &mut [u32]) -> u32
    requires same { length places.now ≡ length into.old }
    requires few { length places.now ≤ most_destinations }
    ensures each { (i : ℕ) → i < length into.old → slice_index into.new i ≡ moved_at moved.now places.now i }
    ensures all { result ≡ sum_below (length into.old) (moved_at moved.now places.now) }
{
    let mut all = 0;
    for i in 0..into.len() {
        let number = u32::from(number_at(moved, places[i]));
        into[i] = number;
        all += number;
    }
    all
}

/// The same into numbers of 16 bits.
pub(crate) fn gather_mail(moved: &[u64], places: &[u32], into: &mut [u16]) -> u32
    requires same { length places.now ≡ length into.old }
    requires few { length places.now ≤ most_destinations }
    ensures each { (i : ℕ) → i < length into.old → slice_index into.new i ≡ moved_at moved.now places.now i }
    ensures all { result ≡ sum_below (length into.old) (moved_at moved.now places.now) }
{
    let mut all = 0;
    for i in 0..into.len() {
        let number = number_at(moved, places[i]);
        into[i] = number;
        all += u32::from(number);
    }
    all
}
