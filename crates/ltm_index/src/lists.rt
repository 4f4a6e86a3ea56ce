//! Taking a slot out of its list, and putting it first in one.
ghost use Rattle.std.specs.Prelude.{◌≡◌, ℕ, ◌+◌, ◌*◌, ◌<◌, ◌≤◌};
ghost use Rattle.ltm_index.specs.Cells.{entry_at, AreLists, SetsAfter, SetsBefore, TakesOut, PutsFirst};
ghost use Rattle.ltm_index.specs.Sizes.{most_room};

use crate::cells::{Cell, Cells};

/// What names a slot or a boundary: one more.
#[inline]
fn naming(number: u32) -> u16
    requires { number ≤ most_room }
    ensures { result ≡ number + 1 }
{
    (number + 1) as u16
}

/// Lets a pointer of a boundary's list lead on to another one: 0 stands before the list.
#[inline]
fn set_after(cells: &mut Cells, link: u32, boundary: u32, pointer: u16, to: u16)
    requires link { link < cells.old.links }
    requires boundary { boundary ≤ cells.old.room }
    requires pointer { pointer ≤ cells.old.room + 1 }
    ensures { SetsAfter cells.old cells.new link boundary pointer to }
{
    if pointer == 0 {
        let cell = cells.get(link, boundary);
        cells.put(link, boundary, Cell { first: to, ..cell });
    } else {
        let slot = u32::from(pointer) - 1;
        let cell = cells.get(link, slot);
        cells.put(link, slot, Cell { next: to, ..cell });
    }
}

/// Lets the slot that a pointer names, if any, lead back to another one.
#[inline]
fn set_before(cells: &mut Cells, link: u32, pointer: u16, to: u16)
    requires link { link < cells.old.links }
    requires pointer { pointer ≤ cells.old.room + 1 }
    ensures { SetsBefore cells.old cells.new link pointer to }
{
    if pointer > 0 {
        let slot = u32::from(pointer) - 1;
        let cell = cells.get(link, slot);
        cells.put(
            link,
            slot,
            Cell {
                previous: to,
                ..cell
            },
        );
    }
}

/// Takes a slot out of the list of its link in which it stands, if any.
#[inline]
pub fn take_out(cells: &mut Cells, link: u32, slot: u32)
    requires lists { AreLists cells.old }
    requires link { link < cells.old.links }
    requires slot { slot < cells.old.room }
    ensures lists { AreLists cells.new }
    ensures taken { TakesOut cells.old cells.new link slot }
{
    let cell = cells.get(link, slot);
    if cell.entry > 0 {
        let boundary = u32::from(cell.entry) - 1;
        set_after(cells, link, boundary, cell.previous, cell.next);
        set_before(cells, link, cell.next, cell.previous);
        let cell = cells.get(link, slot);
        cells.put(link, slot, Cell { entry: 0, ..cell });
    }
}

/// Puts a slot that stands in no list of its link first in that of a boundary.
#[inline]
pub fn put_first(cells: &mut Cells, link: u32, slot: u32, boundary: u32)
    requires lists { AreLists cells.old }
    requires link { link < cells.old.links }
    requires slot { slot < cells.old.room }
    requires boundary { boundary ≤ cells.old.room }
    requires free { entry_at cells.old link slot ≡ 0 }
    ensures lists { AreLists cells.new }
    ensures put { PutsFirst cells.old cells.new link slot boundary }
{
    let here = cells.place(link, slot);
    let there = cells.place(link, boundary);
    let first = cells.get_in(link, boundary, there).first;
    let pointer = naming(slot);
    set_before(cells, link, first, pointer);
    let cell = cells.get_in(link, slot, here);
    let entered = Cell {
        next: first,
        previous: 0,
        entry: naming(boundary),
        ..cell
    };
    cells.put_in(link, slot, here, entered);
    let cell = cells.get_in(link, boundary, there);
    let led = Cell {
        first: pointer,
        ..cell
    };
    cells.put_in(link, boundary, there, led);
}
