//! Where cumulative counts by destination come from.
ghost use Rattle.std.specs.Prelude.{◌≡◌, ℕ, ◌+◌, ◌-◌, ◌^◌, ◌<◌, ◌≤◌, length, sum, slice_index};
ghost use Rattle.ltm_units.specs.Bounds.{most_destinations};
ghost use Rattle.ltm_curve.specs.Counts.{total};
ghost use Rattle.ltm_curve.specs.First.{entries, mixed, RowsRise};

use ltm_units::share_of;

/// Rows of cumulative counts, one for each destination, by boundary: a group of curves, or what an origin has produced.
pub trait Rows {
    ghost rows: { Self → ℕ → ℕ → ℕ };

    ghost width: { Self → ℕ };

    ghost end: { Self → ℕ };

    /// How many destinations there are.
    fn destinations(&self) -> u32
        ensures value { result ≡ width self.now }
        ensures few { result ≤ most_destinations };

    /// The count of a destination at a boundary.
    fn count(&self, destination: u32, boundary: u32) -> u64
        requires destination { destination < width self.now }
        requires boundary { boundary ≤ end self.now }
        ensures { result ≡ rows self.now destination boundary };

    /// The count of all destinations at a boundary.
    fn total(&self, boundary: u32) -> u64
        requires { boundary ≤ end self.now }
        ensures { result ≡ total (width self.now) (rows self.now) boundary };

    /// Writes the counts of all destinations at a boundary, each less a number.
    fn write_less(&self, boundary: u32, less: &[u32], into: &mut [u64])
        requires boundary { boundary ≤ end self.now }
        requires less { length less.now ≡ width self.now }
        requires room { length into.old ≡ width self.now }
        requires behind { (d : ℕ) → d < width self.now
            → slice_index less.now d ≤ rows self.now d boundary }
        ensures { (d : ℕ) → d < width self.now
            → slice_index into.new d ≡ rows self.now d boundary - slice_index less.now d }
    {
        for destination in 0..self.destinations() {
            let place = destination as usize;
            into[place] = self.count(destination, boundary) - u64::from(less[place]);
        }
    }

    /// Writes the counts of all destinations at a slot's start with their shares of a part of the units that enter in the
    /// slot, each less a number.
    fn write_mixed_less(&self, slot: u32, part: u64, less: &[u32], into: &mut [u64])
        requires next { slot + 1 < 2 ^ 32 }
        requires slot { slot < end self.now }
        requires rise { RowsRise (width self.now) (rows self.now) (slot + 1) }
        requires part { part ≤ sum (entries (width self.now) (rows self.now) slot) }
        requires less { length less.now ≡ width self.now }
        requires room { length into.old ≡ width self.now }
        requires behind { (d : ℕ) → d < width self.now
            → slice_index less.now d ≤ mixed (width self.now) (rows self.now) slot part d }
        ensures { (d : ℕ) → d < width self.now → slice_index into.new d
            ≡ mixed (width self.now) (rows self.now) slot part d - slice_index less.now d }
    {
        let mut rest = part;
        let mut whole = self.total(slot + 1) - self.total(slot);
        for destination in 0..self.destinations() {
            let place = destination as usize;
            let before = self.count(destination, slot);
            let entered = self.count(destination, slot + 1) - before;
            let share = share_of(rest, entered, whole);
            rest -= share;
            whole -= entered;
            into[place] = before + share - u64::from(less[place]);
        }
    }
}
