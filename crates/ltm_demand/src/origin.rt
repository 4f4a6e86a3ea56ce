//! The demand of one origin: its rows, and a table of what they have produced.
ghost use Rattle.std.specs.Prelude.{◌≡◌, ℕ, ◌+◌, ◌<◌, ◌≤◌, [], length, slice_index, All, OnOk, IfOk, IfErr};
ghost use Rattle.std.specs.List.Sorted.{IsStrictlySortedBy};
ghost use Rattle.ltm_demand.specs.Rows.{row_cmp, edited_rows, amount_at, table_destination, IsNoLess};
ghost use Rattle.ltm_demand.specs.Produced.{by_end_to, total};
ghost use Rattle.ltm_demand.specs.Places.{IsAt, IsGap, NeverFall};
ghost use Rattle.ltm_demand.specs.Productions.{no_table, seen, told, IsRoomy, IsReached, IsShifted};
ghost use Rattle.ltm_demand.specs.Origins.{OriginData};
ghost use Rattle.ltm_demand.specs.Kept.{room_in};
ghost use Rattle.ltm_units.specs.Bounds.{most_amount, most_produced};

use crate::DemandRow;
use crate::production::Production;
use crate::rows::{find, put_in, put_over};
use crate::summing::sum_to;
use ltm_units::NoMemory;
use std::alloc::Global;
use std::marker::Model;

/// The row as a table has it: as it is where there is a column for each destination, and else as one to destination 0.
fn seen(row: &DemandRow, tabled: bool) -> DemandRow
    ensures { result ≡ seen tabled row.now }
{
    DemandRow {
        destination: if tabled { row.destination } else { 0 },
        ..*row
    }
}

/// The rows of one origin in the order of their keys, and what they have produced.
///
/// Where it is not tabled, its table has a column for all destinations alone, and one more that says the same.
#[derive(Drop)]
pub struct Origin {
    rows: Vec<DemandRow>,
    table: Production,
}

impl Model for Origin {
    ghost use Rattle.std.specs.Prelude.{vec_capacity};
    ghost use Rattle.ltm_demand.specs.Origins.{OriginData};

    ghost Value = { OriginData };

    ghost view = { λ o. record { rows = o.rows.items; places = vec_capacity o.rows; table = o.table } };
}

impl Origin {
    pub fn new(alloc: Global) -> Origin
        ensures rows { result.rows ≡ [] }
        ensures table { result.table ≡ no_table }
    {
        Origin {
            rows: Vec::new(alloc),
            table: Production::new(alloc),
        }
    }

    /// The rows in the order of their keys.
    #[inline]
    pub fn rows(&self) -> &[DemandRow]
        ensures rows { result.now ≡ self.now.rows }
        ensures places { length self.now.rows ≤ self.now.places }
    {
        &self.rows
    }

    /// The place of the row with this key, or the place where it would go.
    pub fn find(&self, row: &DemandRow) -> Result<usize, usize>
        requires { IsStrictlySortedBy row_cmp self.now.rows }
        ensures found { IfOk result (IsAt self.now.rows row.now) }
        ensures absent { IfErr result (IsGap self.now.rows row.now) }
    {
        find(&self.rows, row)
    }

    /// The units for a destination by the end of a slot, of a table with a column for each.
    #[inline]
    pub fn by_end(&self, destination: u32, slot: u32) -> u64
        ensures { result ≡ told self.now.table (destination + 1) slot }
    {
        self.table.get(destination as usize + 1, slot)
    }

    /// The units for a destination by the end of a slot, from its rows. They are looked for at the place `near` first, which
    /// becomes the place behind them; it changes no answer.
    #[inline]
    pub fn sum_to(&self, destination: u32, slot: u32, near: &mut usize) -> u64
        requires order { NeverFall self.now.rows }
        requires each { All (λ row. (row.from < row.to) × (row.amount.0 ≤ most_amount)) self.now.rows }
        requires small { total self.now.rows ≤ most_produced }
        ensures { result ≡ by_end_to self.now.rows destination slot }
    {
        sum_to(&self.rows, destination, slot, near)
    }

    /// The units for all destinations together by the end of a slot.
    #[inline]
    pub fn all_by_end(&self, slot: u32) -> u64
        ensures { result ≡ told self.now.table 0 slot }
    {
        self.table.get(0, slot)
    }

    /// The units for each destination by the end of a slot; for those past the end they are 0.
    #[inline]
    pub fn row_by_end(&self, slot: u32) -> &[u64]
        ensures { (d : ℕ) → slice_index result.now d ≡ told self.now.table (d + 1) slot }
    {
        self.table.row(slot)
    }

    /// Sees to it that one more row with the row's destination and end finds a place. No row changes.
    pub fn make_room(&mut self, row: &DemandRow, tabled: bool) -> Result<(), NoMemory>
        ensures rows { self.new.rows ≡ self.old.rows }
        ensures same { (c t : ℕ) → told self.new.table c t ≡ told self.old.table c t }
        ensures vacant { OnOk result (length self.new.rows < self.new.places) }
        ensures destination { OnOk result (table_destination tabled row.now < self.new.table.destinations) }
        ensures end { OnOk result (row.now.to ≤ self.new.table.slots) }
        ensures places { IsNoLess (room_in self.old) (room_in self.new) }
    {
        self.rows.reserve(1)?;
        self.table.reach(seen(row, tabled).destination, row.to)
    }

    /// Writes over the row at the place, or takes it out where the amount is 0; the amount that stood there.
    pub fn replace(&mut self, place: usize, row: &DemandRow, tabled: bool) -> u64
        requires at { IsAt self.old.rows row.now place }
        requires was { amount_at self.old.rows row.now ≤ most_amount }
        requires now { row.now.amount.0 ≤ most_amount }
        requires slots { row.now.from < row.now.to }
        requires reached { IsReached self.old.table (seen tabled row.now) }
        requires roomy { IsRoomy self.old.table (seen tabled row.now) (amount_at self.old.rows row.now) }
        ensures rows { self.new.rows ≡ edited_rows self.old.rows row.now }
        ensures was { result ≡ amount_at self.old.rows row.now }
        ensures vacant { row.now.amount.0 ≡ 0 → length self.new.rows < self.new.places }
        ensures shifted { IsShifted self.old.table self.new.table (seen tabled row.now) result }
        ensures places { IsNoLess (room_in self.old) (room_in self.new) }
    {
        let was = put_over(&mut self.rows, place, row);
        self.table.put_amount(&seen(row, tabled), was);
        was
    }

    /// Puts a new row into its place, for which there is room.
    pub fn fill(&mut self, place: usize, row: &DemandRow, tabled: bool)
        requires gap { IsGap self.old.rows row.now place }
        requires some { 0 < row.now.amount.0 }
        requires now { row.now.amount.0 ≤ most_amount }
        requires slots { row.now.from < row.now.to }
        requires vacant { length self.old.rows < self.old.places }
        requires reached { IsReached self.old.table (seen tabled row.now) }
        requires roomy { IsRoomy self.old.table (seen tabled row.now) 0 }
        ensures rows { self.new.rows ≡ edited_rows self.old.rows row.now }
        ensures shifted { IsShifted self.old.table self.new.table (seen tabled row.now) 0 }
        ensures places { IsNoLess (room_in self.old) (room_in self.new) }
    {
        put_in(&mut self.rows, place, row);
        self.table.put_amount(&seen(row, tabled), 0);
    }

    /// The same rows and the same table.
    pub fn try_copy(&self) -> Result<Origin, NoMemory>
        ensures rows { IfOk result (λ copy. copy.rows ≡ self.now.rows) }
        ensures table { IfOk result (λ copy. copy.table ≡ self.now.table) }
    {
        let rows = Vec::from_slice(*self.rows.allocator(), self.rows.as_slice())?;
        let table = self.table.try_copy()?;
        Ok(Origin { rows, table })
    }
}
