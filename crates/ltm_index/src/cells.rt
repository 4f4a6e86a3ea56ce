//! The numbers that the index keeps, in one flat table.
ghost use Rattle.std.specs.Prelude.{◌≡◌, ℕ, ◌+◌, ◌*◌, ◌/◌, ◌%◌, ◌<◌, ◌≤◌, length, take, replicate, slice_index_or, ◌++◌, ◌-◌, vec_len, IfOk, OnErr, OnOk};
ghost use Rattle.ltm_index.specs.Sizes.{most_room};
ghost use Rattle.ltm_units.specs.Bounds.{most_links, most_slots};

use ltm_units::NoMemory;
use std::alloc::Global;

/// Four numbers of a link: the first slot in the list of boundary `k`, and of slot `k` the slot after it in its list, the
/// slot before it, and the boundary of that list. Each is 0 where there is none, and else one more.
#[derive(Clone, Copy)]
pub struct Cell {
    pub first: u16,
    pub next: u16,
    pub previous: u16,
    pub entry: u16,
}

/// A cell in which nothing is named.
const EMPTY: Cell = Cell {
    first: 0,
    next: 0,
    previous: 0,
    entry: 0,
};

/// For how many boundaries the cells of a link lie side by side.
const SPAN: u32 = 16;

/// A cell for each link and boundary. The cells of 16 boundaries form a block, in which those of a link lie side by side.
/// So memory is walked in order both by a sweep over the links of a slot and along the slots of a link, and a longer
/// horizon adds blocks at the end.
#[derive(Drop)]
pub struct Cells {
    links: u32,
    room: u32,
    cells: Vec<Cell>,
    ghost few: { links ≤ most_links },
    ghost short: { room ≤ most_room },
    ghost whole: { (room + 1) % 16 ≡ 0 },
    ghost long: { length cells.items ≡ (room + 1) / 16 * links * 16 },
}

/// The greatest horizon for which a whole number of blocks has cells, where it is to be at least so long.
#[inline]
fn whole_room(slots: u32) -> u32
    requires { slots ≤ most_slots }
    ensures enough { slots ≤ result }
    ensures short { result ≤ most_room }
    ensures whole { (result + 1) % 16 ≡ 0 }
{
    slots / SPAN * SPAN + (SPAN - 1)
}

/// How many cells there are for a horizon.
#[inline]
#[tactic(auto, using(crate::proofs::Writes::size_fits))]
fn size(links: u32, room: u32) -> usize
    requires links { links ≤ most_links }
    requires room { room ≤ most_room }
    ensures { result ≡ (room + 1) / 16 * links * 16 }
{
    (room as usize + 1) / SPAN as usize * links as usize * SPAN as usize
}

impl Cells {
    ghost use Rattle.ltm_index.specs.Cells.{place_of, cell_at, empty_cell, PutsCell, SameCells};

    /// Cells in which nothing is named.
    #[tactic(auto, using(crate::proofs::Writes::all_empty))]
    pub fn create(alloc: Global, links: u32, slots: u32) -> Result<Cells, NoMemory>
        requires links { links ≤ most_links }
        requires slots { slots ≤ most_slots }
        ensures links { IfOk result (λ c. c.links ≡ links) }
        ensures room { IfOk result (λ c. slots ≤ c.room) }
        ensures empty { IfOk result (λ c. (l k : ℕ) → cell_at c l k ≡ empty_cell) }
    {
        let room = whole_room(slots);
        let cells = vec![in alloc; EMPTY; size(links, room)].map_err(|_| NoMemory)?;
        Ok(Cells { links, room, cells })
    }

    /// For which horizon there are cells.
    #[inline]
    pub fn room(&self) -> u32
        ensures { result ≡ self.now.room }
    {
        self.room
    }

    /// Adds empty cells for a longer horizon.
    pub fn reserve(&mut self, slots: u32) -> Result<(), NoMemory>
        requires { slots ≤ most_slots }
        ensures cells { SameCells self.old self.new }
        ensures room { OnOk result (slots ≤ self.new.room) }
        ensures no_less { self.old.room ≤ self.new.room }
        ensures stays { OnErr result (self.new.room ≡ self.old.room) }
    {
        if slots <= self.room {
            return Ok(());
        }
        let room = whole_room(slots);
        match self.cells.resize(size(self.links, room), EMPTY) {
            Ok(()) => {
                self.room = room;
                Ok(())
            }
            Err(_) => Err(NoMemory),
        }
    }

    /// Where the cell of a link lies.
    #[inline]
    #[tactic(auto, using(crate::proofs::Writes::place_within, crate::proofs::Writes::size_fits))]
    pub fn place(&self, link: u32, at: u32) -> usize
        requires link { link < self.now.links }
        requires at { at ≤ self.now.room }
        ensures place { result ≡ place_of self.now.links link at }
        ensures within { result < length self.now.cells.items }
    {
        let _cells = &self.cells;
        let (block, place) = (at / SPAN, at % SPAN);
        (block as usize * self.links as usize + link as usize) * SPAN as usize + place as usize
    }

    /// The cell of a link, which lies at this place.
    #[inline]
    #[tactic(auto, unfolding(crate::specs::Cells::cell_at), using(crate::proofs::Writes::place_within))]
    pub fn get_in(&self, link: u32, at: u32, place: usize) -> Cell
        requires link { link < self.now.links }
        requires at { at ≤ self.now.room }
        requires place { place ≡ place_of self.now.links link at }
        ensures { result ≡ cell_at self.now link at }
    {
        let _cells = &self.cells;
        self.cells[place]
    }

    /// The cell of a link.
    #[inline]
    pub fn get(&self, link: u32, at: u32) -> Cell
        requires link { link < self.now.links }
        requires at { at ≤ self.now.room }
        ensures { result ≡ cell_at self.now link at }
    {
        let place = self.place(link, at);
        self.get_in(link, at, place)
    }

    /// Writes the cell of a link, which lies at this place.
    #[inline]
    #[tactic(auto, using(crate::proofs::Writes::place_within))]
    pub fn put_in(&mut self, link: u32, at: u32, place: usize, cell: Cell)
        requires link { link < self.old.links }
        requires at { at ≤ self.old.room }
        requires place { place ≡ place_of self.old.links link at }
        ensures { PutsCell self.old self.new link at cell }
    {
        let _cells = &self.cells;
        self.cells[place] = cell;
    }

    /// Writes the cell of a link.
    #[inline]
    pub fn put(&mut self, link: u32, at: u32, cell: Cell)
        requires link { link < self.old.links }
        requires at { at ≤ self.old.room }
        ensures { PutsCell self.old self.new link at cell }
    {
        let place = self.place(link, at);
        self.put_in(link, at, place, cell);
    }
}
