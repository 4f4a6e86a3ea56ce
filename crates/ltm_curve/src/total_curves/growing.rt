//! Room of a table of totals for further slots.
ghost use Rattle.std.specs.Prelude.{◌≡◌, ℕ, ◌+◌, ◌*◌, ◌<◌, ◌≤◌, OnOk, OnErr};

use super::{TotalCurves, table_size};
use crate::curves::{fill_to, reserve_to};
use ltm_units::NoMemory;

impl TotalCurves {
    ghost use Rattle.ltm_curve.specs.TotalCurves.{total_groups, total_slots, total_room, total_at, HasTotals, IsTotal};

    /// The greatest number of slots for which there is room.
    pub fn room(&self) -> u32
        ensures value { result ≡ total_room self.now }
        ensures within { total_slots self.now ≤ result }
    {
        self.room
    }

    /// Makes room for so many slots. Nothing else that is seen changes; with want of memory nothing at all.
    pub fn reserve(&mut self, slots: u32) -> Result<(), NoMemory>
        ensures shape { HasTotals self.new (total_groups self.old) (total_slots self.old) }
        ensures totals { total_at self.new ≡ total_at self.old }
        ensures room { OnOk result (slots ≤ total_room self.new) }
        ensures no_less { total_room self.old ≤ total_room self.new }
        ensures stays { OnErr result (total_room self.new ≡ total_room self.old) }
    {
        if slots <= self.room {
            return Ok(());
        }
        reserve_to(&mut self.totals, table_size(self.narrow, slots))?;
        reserve_to(&mut self.last, slots as usize + 1)?;
        self.room = slots;
        Ok(())
    }

    /// Raises the number of slots within the room. Totals at new boundaries are 0.
    pub fn lengthen(&mut self, slots: u32)
        requires slots { total_slots self.old ≤ slots }
        requires room { slots ≤ total_room self.old }
        ensures shape { HasTotals self.new (total_groups self.old) slots }
        ensures room { total_room self.new ≡ total_room self.old }
        ensures kept { (g k : ℕ) → IsTotal self.old g k
            → total_at self.new g k ≡ total_at self.old g k }
        ensures empty { (g k : ℕ) → IsTotal self.new g k → total_slots self.old < k
            → total_at self.new g k ≡ 0 }
    {
        fill_to(&mut self.totals, 0u32, table_size(self.narrow, slots));
        fill_to(&mut self.last, 0u64, slots as usize + 1);
        self.slots = slots;
    }
}
