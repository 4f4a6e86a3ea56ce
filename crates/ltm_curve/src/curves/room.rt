//! Room for further slots.
ghost use Rattle.std.specs.Prelude.{◌≡◌, ℕ, ◌+◌, ◌-◌, ◌*◌, ◌<◌, ◌≤◌, ◌++◌, length, replicate, OnOk, OnErr};
ghost use Rattle.std.specs.Vec.{vec_capacity};

use super::{Curves, total_count};
use ltm_units::NoMemory;

/// Makes room for so many numbers in a table. With want of memory nothing changes.
pub(crate) fn reserve_to<T>(table: &mut Vec<T>, size: usize) -> Result<(), NoMemory>
    ensures items { table.new.items ≡ table.old.items }
    ensures room { OnOk result (size ≤ vec_capacity table.new) }
    ensures no_less { vec_capacity table.old ≤ vec_capacity table.new }
{
    let more = size.saturating_sub(table.len());
    table.reserve_exact(more).map_err(|_| NoMemory)
}

/// Puts numbers behind those of a table, for which there is room.
pub(crate) fn fill_to<T: Copy>(table: &mut Vec<T>, number: T, size: usize)
    requires longer { length table.old.items ≤ size }
    requires room { size ≤ vec_capacity table.old }
    ensures items { table.new.items
        ≡ table.old.items ++ replicate (size - length table.old.items) number }
    ensures room { vec_capacity table.old ≤ vec_capacity table.new }
{
    for _place in table.len()..size {
        let _pushed = table.push(number);
    }
}

impl Curves {
    ghost use Rattle.ltm_curve.specs.Table.{groups_of, destinations_of, slots_of, room_of, counts_of, HasShape, SameShape, IsIn};

    /// The greatest number of slots for which there is room.
    pub fn room(&self) -> u32
        ensures value { result ≡ room_of self.now }
        ensures within { slots_of self.now ≤ result }
    {
        self.room
    }

    /// Makes room for so many slots. Nothing else that is seen changes; with want of memory nothing at all.
    pub fn reserve(&mut self, slots: u32) -> Result<(), NoMemory>
        ensures shape { SameShape self.new self.old }
        ensures counts { counts_of self.new ≡ counts_of self.old }
        ensures room { OnOk result (slots ≤ room_of self.new) }
        ensures no_less { room_of self.old ≤ room_of self.new }
        ensures stays { OnErr result (room_of self.new ≡ room_of self.old) }
    {
        if slots <= self.room {
            return Ok(());
        }
        let Some(rows) = (slots as usize + 1).checked_mul(self.groups as usize) else {
            return Err(NoMemory);
        };
        let Some(size) = rows.checked_mul(self.destinations as usize) else {
            return Err(NoMemory);
        };
        reserve_to(&mut self.counts, size)?;
        reserve_to(&mut self.totals, total_count(self.destinations, rows))?;
        self.room = slots;
        Ok(())
    }

    /// Raises the number of slots within the room. Counts at new boundaries are 0.
    pub fn lengthen(&mut self, slots: u32)
        requires slots { slots_of self.old ≤ slots }
        requires room { slots ≤ room_of self.old }
        ensures shape { HasShape self.new (groups_of self.old) (destinations_of self.old) slots }
        ensures room { room_of self.new ≡ room_of self.old }
        ensures kept { (g d k : ℕ) → IsIn self.old g d k
            → counts_of self.new g d k ≡ counts_of self.old g d k }
        ensures empty { (g d k : ℕ) → IsIn self.new g d k → slots_of self.old < k
            → counts_of self.new g d k ≡ 0 }
    {
        let rows = (slots as usize + 1) * self.groups as usize;
        fill_to(&mut self.counts, 0u32, rows * self.destinations as usize);
        fill_to(&mut self.totals, 0u32, total_count(self.destinations, rows));
        self.slots = slots;
    }
}
