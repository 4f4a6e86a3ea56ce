//! Which counts were changed.
ghost use Rattle.std.specs.Prelude.{◌≡◌, ℕ, ◌+◌, ◌-◌, ◌/◌, ◌%◌, ◌==◌, ◌<◌, ◌≤◌, ◌⊎◌, false, IfOk, OnOk, OnErr, MatchOption};
ghost use Rattle.std.specs.Int.{bit_at};
ghost use Rattle.ltm_marks.specs.Marks.{width_of, rows_of, is_marked, SameSize};
ghost use Rattle.ltm_curve.specs.MarkedCount.{marked_count};
ghost use Rattle.ltm_units.specs.Bounds.{most_marked};

use ltm_marks::Marks;
use ltm_units::NoMemory;
use std::alloc::Global;

/// A set of cells, each a group of counts at a boundary: those in which some count was changed. All of them lie between two
/// boundaries, so that what passes over the set need not pass over all boundaries that there are.
#[derive(Drop)]
pub struct Changed {
    marks: Marks,
    count: u64,
    from: u32,
    to: u32,
    ghost some_boundary: { 1 ≤ rows_of marks },
    ghost counted: { count ≡ marked_count marks },
    ghost within: { to ≤ rows_of marks },
    ghost outside: { (g k : ℕ) → g < width_of marks → k < rows_of marks → (k < from) ⊎ (to ≤ k) → is_marked marks g k ≡ false },
}

/// Takes all marks away, where none is but in some rows, the last not included.
fn clear_between(marks: &mut Marks, from: u32, to: u32)
    requires rows { to ≤ rows_of marks.old }
    requires outside { (g k : ℕ) → g < width_of marks.old → k < rows_of marks.old
        → (k < from) ⊎ (to ≤ k) → is_marked marks.old g k ≡ false }
    ensures size { SameSize marks.old marks.new }
    ensures none { (g k : ℕ) → g < width_of marks.old → k < rows_of marks.old
        → is_marked marks.new g k ≡ false }
{
    if from < to {
        marks.clear_rows(from as usize, to as usize);
    }
}

impl Changed {
    ghost use Rattle.ltm_curve.specs.Cells.{cell_groups, cell_slots, cell_room, is_changed, changed_count, IsCell, HasCells, NoneChanged, SameCells, PutsCell, IsNextCell, NoNextCell};

    /// The cells of so many groups and of `slots + 1` boundaries, none of them changed. There is want of memory also where
    /// either is more than a table of marks has.
    pub fn create(alloc: Global, groups: u32, slots: u32) -> Result<Changed, NoMemory>
        ensures shape { IfOk result (λ c. HasCells c groups slots) }
        ensures none { IfOk result NoneChanged }
    {
        if groups > 262_144 || slots >= 262_144 {
            return Err(NoMemory);
        }
        let marks = Marks::create(alloc, groups as usize, slots as usize + 1)?;
        Ok(Changed {
            marks,
            count: 0,
            from: slots + 1,
            to: 0,
        })
    }

    /// Puts a cell into the set, and changes no other.
    pub fn put(&mut self, group: u32, boundary: u32)
        requires { IsCell self.old group boundary }
        ensures { PutsCell self.old self.new group boundary }
    {
        let _width = self.marks.width();
        let _rows = self.marks.rows();
        if !self.has(group, boundary) {
            self.marks.mark(group as usize, boundary as usize);
            self.count += 1;
            self.from = self.from.min(boundary);
            self.to = self.to.max(boundary + 1);
        }
    }

    /// Whether a cell is in the set.
    #[inline]
    pub fn has(&self, group: u32, boundary: u32) -> bool
        requires { IsCell self.now group boundary }
        ensures { result ≡ is_changed self.now group boundary }
    {
        self.marks.is_marked(group as usize, boundary as usize)
    }

    /// How many cells are in the set.
    #[inline]
    pub fn count(&self) -> u64
        ensures { result ≡ changed_count self.now }
    {
        self.count
    }

    /// Takes all cells out of the set.
    pub fn clear(&mut self)
        ensures shape { HasCells self.new (cell_groups self.old) (cell_slots self.old) }
        ensures none { NoneChanged self.new }
    {
        clear_between(&mut self.marks, self.from, self.to);
        self.count = 0;
        self.from = self.marks.rows() as u32;
        self.to = 0;
    }

    /// A boundary below which no cell is in the set.
    pub(crate) fn from(&self) -> u32
        ensures { (g k : ℕ) → k < result → is_changed self.now g k ≡ false }
    {
        let _marks = &self.marks;
        self.from
    }

    /// A boundary from which on no cell is in the set.
    pub(crate) fn to(&self) -> u32
        ensures none { (g k : ℕ) → result ≤ k → is_changed self.now g k ≡ false }
        ensures within { result ≤ cell_slots self.now + 1 }
    {
        let _marks = &self.marks;
        self.to
    }

    /// The first group, not below one, whose cell at a boundary is in the set; none exactly where there is none. Cells are
    /// looked at 64 at a time.
    pub(crate) fn next(&self, group: u32, boundary: u32) -> Option<u32>
        requires { boundary ≤ cell_slots self.now }
        ensures { MatchOption result (NoNextCell self.now group boundary)
            (IsNextCell self.now group boundary) }
    {
        let _width = self.marks.width();
        match self.marks.next_marked(boundary as usize, group as usize) {
            Some(next) => Some(next as u32),
            None => None,
        }
    }

    /// How many groups there are cells for.
    #[inline]
    pub(crate) fn groups(&self) -> usize
        ensures value { result ≡ cell_groups self.now }
        ensures few { result ≤ most_marked }
    {
        self.marks.width()
    }

    /// Which groups have a cell at a boundary in the set, of the 64 beside one: a bit each.
    #[inline]
    pub(crate) fn word(&self, group: u32, boundary: u32) -> u64
        requires group { group < cell_groups self.now }
        requires boundary { boundary ≤ cell_slots self.now }
        ensures { (g : ℕ) → g < cell_groups self.now → g / 64 ≡ group / 64
            → is_changed self.now g boundary ≡ (bit_at result (g % 64) == 1) }
    {
        self.marks.word_with(boundary as usize, group as usize)
    }

    /// Makes room for so many slots. Nothing else that is seen changes; with want of memory nothing at all. There is want
    /// of memory also past the rows that a table of marks has.
    pub fn reserve(&mut self, slots: u32) -> Result<(), NoMemory>
        ensures same { SameCells self.old self.new }
        ensures room { OnOk result (slots ≤ cell_room self.new) }
        ensures no_less { cell_room self.old ≤ cell_room self.new }
        ensures stays { OnErr result (cell_room self.new ≡ cell_room self.old) }
    {
        if slots >= 262_144 {
            return Err(NoMemory);
        }
        self.marks.reserve(slots as usize + 1)
    }

    /// The greatest number of slots for which there is room.
    pub fn room(&self) -> u32
        ensures value { result ≡ cell_room self.now }
        ensures within { cell_slots self.now ≤ result }
    {
        let _marks = &self.marks;
        (self.marks.room() - 1) as u32
    }

    /// Raises the number of slots within the room. No cell at a new boundary is in the set.
    pub fn lengthen(&mut self, slots: u32)
        requires slots { cell_slots self.old ≤ slots }
        requires room { slots ≤ cell_room self.old }
        ensures shape { HasCells self.new (cell_groups self.old) slots }
        ensures room { cell_room self.new ≡ cell_room self.old }
        ensures cells { (g k : ℕ) → is_changed self.new g k ≡ is_changed self.old g k }
        ensures none { (g k : ℕ) → g < cell_groups self.old → cell_slots self.old < k
            → is_changed self.new g k ≡ false }
    {
        self.marks.lengthen(slots as usize + 1);
    }
}
