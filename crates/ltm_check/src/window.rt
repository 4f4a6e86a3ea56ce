//! Some groups of curves, whose counts are copied so that those of one record lie side by side.
//!
//! In curves all counts of one boundary lie side by side. A record has one count of each boundary, so its counts lie far
//! apart, and each would be fetched from memory by itself. A window fetches what lies side by side at a boundary once, for
//! all records of its groups, and some boundaries at once, so that it writes whole lines of a cache.
ghost use Rattle.std.specs.Prelude.{ℕ, ◌≡◌, ◌+◌, ◌<◌, ◌≤◌, length, IfOk};
ghost use Rattle.ltm_curve.specs.Table.{groups_of, destinations_of, slots_of, counts_of, IsIn};
ghost use Rattle.ltm_check.specs.Window.{most_at_once, copied_size, stretch, HavePlaces, IsCopied, KeepsCopies, IsNear, AreCopied, AreAllCopied};

use ltm_curve::Curves;
use ltm_units::NoMemory;
use std::alloc::Global;

/// So many counts of a boundary are copied at once, but no fewer than those of a group.
const NEAR: u32 = 256;

/// So many boundaries are copied at once: their counts of one record fill a line of a cache.
const STRETCH: u32 = 16;

/// Curves, and their counts of the groups from `first` on and below `end`.
#[derive(Drop)]
pub(crate) struct Window<'a> {
    curves: &'a Curves,
    at_once: u32,
    first: u32,
    end: u32,
    counts: Vec<u32>,
    ghost some: { 1 ≤ at_once },
    ghost order: { first ≤ end },
    ghost within: { end ≤ groups_of curves.now },
    ghost few: { end ≤ first + at_once },
    ghost long: { length counts.items ≡ copied_size curves.now at_once },
    ghost copied: { first < end → AreAllCopied curves.now first end counts.items },
}

/// How many groups of so many destinations are in a window.
fn groups_at_once(destinations: u32) -> u32
    ensures some { 1 ≤ result }
    ensures few { result ≤ most_at_once }
{
    (NEAR / destinations.max(1)).max(1)
}

/// Copies the counts of a group and a destination at a stretch of boundaries.
fn copy_stretch(
    curves: &Curves,
    first: u32,
    group: u32,
    destination: u32,
    from: u32,
    counts: &mut [u32],
)
    requires order { first ≤ group }
    requires count { IsIn curves.now group destination from }
    requires places { HavePlaces curves.now first (group + 1) (length counts.old) }
    ensures kept { KeepsCopies curves.now first counts.old counts.new }
    ensures copied { (k : ℕ) → IsNear from k → IsIn curves.now group destination k
        → IsCopied curves.now first counts.new group destination k }
{
    let column = (group - first) as usize * curves.destinations() as usize + destination as usize;
    let start = column * (curves.slots() as usize + 1);
    let many = (curves.slots() - from).min(STRETCH - 1) + 1;
    for step in 0..many {
        let boundary = from + step;
        counts[start + boundary as usize] = curves.get(group, destination, boundary) as u32;
    }
}

/// The same of all destinations of a group.
fn copy_group(curves: &Curves, first: u32, group: u32, from: u32, counts: &mut [u32])
    requires order { first ≤ group }
    requires group { group < groups_of curves.now }
    requires boundary { from ≤ slots_of curves.now }
    requires places { HavePlaces curves.now first (group + 1) (length counts.old) }
    ensures kept { KeepsCopies curves.now first counts.old counts.new }
    ensures copied { (d k : ℕ) → IsNear from k → IsIn curves.now group d k
        → IsCopied curves.now first counts.new group d k }
{
    for destination in 0..curves.destinations() {
        copy_stretch(curves, first, group, destination, from, counts);
    }
}

/// The same of all groups of a window.
fn copy_groups(curves: &Curves, first: u32, end: u32, from: u32, counts: &mut [u32])
    requires order { first ≤ end }
    requires groups { end ≤ groups_of curves.now }
    requires boundary { from ≤ slots_of curves.now }
    requires places { HavePlaces curves.now first end (length counts.old) }
    requires before { AreCopied curves.now first end from counts.old }
    ensures long { length counts.new ≡ length counts.old }
    ensures copied { AreCopied curves.now first end (from + stretch) counts.new }
{
    for group in first..end {
        copy_group(curves, first, group, from, counts);
    }
}

/// Copies the counts of groups at all boundaries.
fn copy_all(curves: &Curves, first: u32, end: u32, counts: &mut [u32])
    requires order { first ≤ end }
    requires groups { end ≤ groups_of curves.now }
    requires places { HavePlaces curves.now first end (length counts.old) }
    ensures long { length counts.new ≡ length counts.old }
    ensures copied { AreAllCopied curves.now first end counts.new }
{
    for part in 0..curves.slots() / STRETCH + 1 {
        copy_groups(curves, first, end, part * STRETCH, counts);
    }
}

impl<'a> Window<'a> {
    ghost use Rattle.ltm_check.specs.Seen.{curves_of, IsSeen};

    /// A window on curves that has no group yet, with room for those that it will have.
    pub(crate) fn create(alloc: Global, curves: &'a Curves) -> Result<Window<'a>, NoMemory>
        ensures { IfOk result (λ w. curves_of w ≡ curves.now) }
    {
        let at_once = groups_at_once(curves.destinations());
        let width = at_once as usize * curves.destinations() as usize;
        let size = width * (curves.slots() as usize + 1);
        let counts = vec![in alloc; 0u32; size].map_err(|_| NoMemory)?;
        Ok(Window {
            curves,
            at_once,
            first: 0,
            end: 0,
            counts,
        })
    }

    /// Moves the window to a group and some behind it, where the group is not in it.
    pub(crate) fn move_to(&mut self, group: u32)
        requires { group < groups_of (curves_of self.old) }
        ensures same { curves_of self.new ≡ curves_of self.old }
        ensures seen { IsSeen self.new group }
    {
        if self.first <= group && group < self.end {
            return;
        }
        let end = group.saturating_add(self.at_once).min(self.curves.groups());
        self.first = group;
        self.end = group;
        copy_all(self.curves, group, end, self.counts.as_mut_slice());
        self.end = end;
    }

    /// A count of a group in the window.
    #[inline]
    pub(crate) fn get(&self, group: u32, destination: u32, boundary: u32) -> u64
        requires group { IsSeen self.now group }
        requires destination { destination < destinations_of (curves_of self.now) }
        requires boundary { boundary ≤ slots_of (curves_of self.now) }
        ensures { result ≡ counts_of (curves_of self.now) group destination boundary }
    {
        let destinations = self.curves.destinations() as usize;
        let column = (group - self.first) as usize * destinations + destination as usize;
        u64::from(self.counts[column * (self.curves.slots() as usize + 1) + boundary as usize])
    }

    /// How many slots the curves have.
    pub(crate) fn slots(&self) -> u32
        ensures { result ≡ slots_of (curves_of self.now) }
    {
        self.curves.slots()
    }
}
