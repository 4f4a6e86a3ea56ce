//! The index of reads.
ghost use Rattle.std.specs.Prelude.{◌≡◌, ℕ, ◌+◌, ◌*◌, ◌<◌, ◌≤◌, ◌↔◌, IfOk, OnOk, OnErr, IfSome, IsTrue, Some, Contains};
ghost use Rattle.ltm_index.specs.Chains.{pointed_at, first_in, left_after, list_from};
ghost use Rattle.ltm_index.specs.Cells.{IsChained, IsChained-prop, IsEntered, IsUpTo};
ghost use Rattle.ltm_units.specs.Bounds.{most_links, most_slots};

use crate::cells::Cells;
use crate::lists::{put_first, take_out};
use ltm_units::{LinkId, NoMemory};
use std::alloc::Global;

/// For each link and boundary the slots that read there, as a list. A slot stands in at most one list of a link, and the
/// boundary of that list is its entry.
#[derive(Drop)]
pub struct ReadIndex {
    slots: u32,
    cells: Cells,
    ghost within: { slots ≤ cells.room },
    ghost chained: { IsChained cells } by { IsChained-prop cells },
    ghost entered: { IsEntered cells },
    ghost up_to: { IsUpTo cells slots },
}

/// What a pointer names.
#[inline]
#[tactic(auto, using(crate::proofs::Reading::named_some))]
fn slot_named(pointer: u16) -> Option<u32>
    ensures { result ≡ pointed_at pointer }
{
    if pointer == 0 {
        None
    } else {
        Some(u32::from(pointer) - 1)
    }
}

impl ReadIndex {
    ghost use Rattle.ltm_index.specs.Lists.{links_listed, slots_listed, index_room, list_of, entry_of, Places, SameLists, IsEmpty, IsEmptyFrom};

    /// An index of so many links and slots, in which every list is empty. There is one boundary more than slots.
    pub fn create(alloc: Global, links: u32, slots: u32) -> Result<ReadIndex, NoMemory>
        requires links { links ≤ most_links }
        requires slots { slots ≤ most_slots }
        ensures links { IfOk result (λ x. links_listed x ≡ links) }
        ensures slots { IfOk result (λ x. slots_listed x ≡ slots) }
        ensures empty { IfOk result IsEmpty }
    {
        let cells = Cells::create(alloc, links, slots)?;
        Ok(ReadIndex { slots, cells })
    }

    /// Takes a slot out of the list of the link in which it stands, if any, and puts it first in the list of a boundary. Always in
    /// line: an opening places each slot of each link.
    #[inline(always)]
    pub fn place(&mut self, link: LinkId, slot: u32, boundary: u32)
        requires link { link.0 < links_listed self.old }
        requires slot { slot < slots_listed self.old }
        requires boundary { boundary ≤ slots_listed self.old }
        ensures { Places self.old self.new link.0 slot boundary }
    {
        take_out(&mut self.cells, link.0, slot);
        put_first(&mut self.cells, link.0, slot, boundary);
    }

    /// Whether a slot stands in the list of a boundary.
    #[inline]
    pub fn stands_at(&self, link: LinkId, slot: u32, boundary: u32) -> bool
        requires link { link.0 < links_listed self.now }
        requires slot { slot < slots_listed self.now }
        requires boundary { boundary ≤ slots_listed self.now }
        ensures { IsTrue result ↔ entry_of self.now link.0 slot ≡ Some boundary }
    {
        u32::from(self.cells.get(link.0, slot).entry) == boundary + 1
    }

    /// What stands first in the list of a boundary, or after a slot that stands in it: 0 for no slot, else one more.
    #[inline]
    fn pointer_after(&self, link: LinkId, boundary: u32, after: Option<u32>) -> u16
        requires link { link.0 < links_listed self.now }
        requires boundary { boundary ≤ slots_listed self.now }
        requires after { IfSome after (λ slot. Contains (list_of self.now link.0 boundary) slot) }
        ensures { pointed_at result ≡ first_in (left_after (list_of self.now link.0 boundary) after) }
    {
        match after {
            None => self.cells.get(link.0, boundary).first,
            Some(slot) => self.cells.get(link.0, slot).next,
        }
    }

    /// The first slot in the list of a boundary, or the slot that follows another one in it; none where there is no such
    /// slot.
    #[inline]
    pub fn next_reader(&self, link: LinkId, boundary: u32, after: Option<u32>) -> Option<u32>
        requires link { link.0 < links_listed self.now }
        requires boundary { boundary ≤ slots_listed self.now }
        requires after { IfSome after (λ slot. Contains (list_of self.now link.0 boundary) slot) }
        ensures next { result ≡ first_in (left_after (list_of self.now link.0 boundary) after) }
        ensures left { left_after (list_of self.now link.0 boundary) after
            ≡ list_from (list_of self.now link.0 boundary) result }
        ensures stands { IfSome result (λ slot. Contains (list_of self.now link.0 boundary) slot) }
        ensures within { IfSome result (λ slot. slot < slots_listed self.now) }
    {
        slot_named(self.pointer_after(link, boundary, after))
    }

    /// Makes room for a horizon of so many slots, and changes nothing else. With want of memory nothing changes.
    pub fn reserve(&mut self, slots: u32) -> Result<(), NoMemory>
        requires { slots ≤ most_slots }
        ensures same { SameLists self.old self.new }
        ensures slots { slots_listed self.new ≡ slots_listed self.old }
        ensures room { OnOk result (slots ≤ index_room self.new) }
        ensures no_less { index_room self.old ≤ index_room self.new }
        ensures stays { OnErr result (index_room self.new ≡ index_room self.old) }
    {
        self.cells.reserve(slots)
    }

    /// The greatest horizon that fits.
    #[inline]
    pub fn room(&self) -> u32
        ensures room { result ≡ index_room self.now }
        ensures within { slots_listed self.now ≤ result }
    {
        self.cells.room()
    }

    /// Raises the horizon within the room. No slot gets an entry, and the lists of the new boundaries are empty.
    #[inline]
    pub fn lengthen(&mut self, slots: u32)
        requires longer { slots_listed self.old ≤ slots }
        requires fits { slots ≤ index_room self.old }
        ensures same { SameLists self.old self.new }
        ensures new { IsEmptyFrom self.new (slots_listed self.old) }
        ensures slots { slots_listed self.new ≡ slots }
        ensures room { index_room self.new ≡ index_room self.old }
    {
        self.slots = slots;
    }
}
