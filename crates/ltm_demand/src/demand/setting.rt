//! Setting a row of demand, and undoing it.
ghost use Rattle.std.specs.Prelude.{◌≡◌, ◌≢◌, true, ℕ, ◌+◌, ◌<◌, ◌≤◌, length, OnErr, OnOk, IfErr, IfOk, Ok, Err, vec_len};
ghost use Rattle.ltm_demand.specs.Rows.{row_if_any};
ghost use Rattle.ltm_demand.specs.Origins.{rows_of, origin_at, IsAlike};
ghost use Rattle.ltm_units.specs.Bounds.{most_amount};

use crate::demand::{Demand, origin_of};
use crate::origin::Origin;
use crate::{DemandFault, DemandRow};
use ltm_units::{NoMemory, Units};

/// Sees to it that there are more than `place` origins. No row and no room changes.
fn make_origins(origins: &mut Vec<Origin>, place: u32) -> Result<(), NoMemory>
    ensures alike { (o : ℕ)
        → IsAlike (origin_at origins.old.items o) (origin_at origins.new.items o) }
    ensures places { (o : ℕ)
        → (origin_at origins.old.items o).places ≤ (origin_at origins.new.items o).places }
    ensures rows { rows_of origins.new.items ≡ rows_of origins.old.items }
    ensures ok { OnOk result (place < vec_len origins.new) }
{
    let alloc = *origins.allocator();
    'room: while origins.len() <= place as usize {
        origins.push(Origin::new(alloc))?;
    }
    Ok(())
}

impl Demand {
    ghost use Rattle.ltm_demand.specs.Rows.{with_row, with_amount, amount_at, has_slots, own_rows, has_place, CanRestore, KeepsRoom};
    ghost use Rattle.ltm_demand.specs.Places.{IsAt, IsGap};

    /// Whether the slots of a row are some, and within the horizon.
    fn is_within(&self, row: &DemandRow) -> bool
        ensures { result ≡ has_slots self.now.demand.slots row.now }
    {
        row.from < row.to && row.to <= self.slots
    }

    /// The place of the row with this key among those of its origin, or the place where it would go.
    fn place(&self, row: &DemandRow) -> Result<usize, usize>
        ensures found { IfOk result (IsAt
            (own_rows self.now.demand.rows row.now.origin.0) row.now) }
        ensures absent { IfErr result (IsGap
            (own_rows self.now.demand.rows row.now.origin.0) row.now) }
    {
        match origin_of(&self.origins, row.origin.0) {
            Some(origin) => origin.find(row),
            None => Err(0),
        }
    }

    /// Writes over the row at the place, or takes it out where the amount is 0; the amount that stood there.
    fn replace(&mut self, place: usize, row: &DemandRow) -> u64
        requires at { IsAt (own_rows self.old.demand.rows row.now.origin.0) row.now place }
        requires slots { has_slots self.old.demand.slots row.now ≡ true }
        requires small { row.now.amount.0 ≤ most_amount }
        ensures done { with_row self.old.demand row.now ≡ Ok self.new.demand }
        ensures was { result ≡ amount_at self.old.demand.rows row.now }
        ensures back { with_row self.new.demand (with_amount row.now result) ≡ Ok self.old.demand }
        ensures undo { CanRestore self.new (with_amount row.now result) }
        ensures room { KeepsRoom self.old self.new }
        ensures tabled { self.new.tabled ≡ self.old.tabled }
    {
        let origin = &mut self.origins[row.origin.0 as usize];
        let was = origin.replace(place, row, self.tabled);
        self.count -= taken_out(row);
        was
    }

    /// Puts a new row into its place, for which there is room.
    fn fill(&mut self, place: usize, row: &DemandRow)
        requires gap { IsGap (own_rows self.old.demand.rows row.now.origin.0) row.now place }
        requires slots { has_slots self.old.demand.slots row.now ≡ true }
        requires small { row.now.amount.0 ≤ most_amount }
        requires some { 0 < row.now.amount.0 }
        requires few { length self.old.demand.rows < self.old.demand.most_rows }
        requires vacant { has_place self.old row.now ≡ true }
        ensures done { with_row self.old.demand row.now ≡ Ok self.new.demand }
        ensures back { with_row self.new.demand (with_amount row.now 0) ≡ Ok self.old.demand }
        ensures undo { CanRestore self.new (with_amount row.now 0) }
        ensures room { KeepsRoom self.old self.new }
        ensures tabled { self.new.tabled ≡ self.old.tabled }
    {
        let origin = &mut self.origins[row.origin.0 as usize];
        origin.fill(place, row, self.tabled);
        self.count += 1;
    }

    /// A row of amount 0 where none has its key: nothing is to be done.
    fn leave(&self, place: usize, row: &DemandRow)
        requires gap { IsGap (own_rows self.now.demand.rows row.now.origin.0) row.now place }
        requires slots { has_slots self.now.demand.slots row.now ≡ true }
        requires none { row.now.amount.0 ≡ 0 }
        ensures done { with_row self.now.demand row.now ≡ Ok self.now.demand }
        ensures was { amount_at self.now.demand.rows row.now ≡ 0 }
        ensures back { with_row self.now.demand (with_amount row.now 0) ≡ Ok self.now.demand }
        ensures undo { CanRestore self.now (with_amount row.now 0) }
    {
        let _ = &self.origins;
    }

    /// Sees to it that one more row finds a place.
    fn make_room(&mut self, row: &DemandRow) -> Result<(), NoMemory>
        ensures demand { self.new.demand ≡ self.old.demand }
        ensures ok { OnOk result (has_place self.new row.now ≡ true) }
        ensures room { KeepsRoom self.old self.new }
        ensures tabled { self.new.tabled ≡ self.old.tabled }
    {
        make_origins(&mut self.origins, row.origin.0)?;
        let origin = &mut self.origins[row.origin.0 as usize];
        origin.make_room(row, self.tabled)
    }

    /// Sets a row whose key does not stand yet.
    fn add(&mut self, place: usize, row: &DemandRow) -> Result<(), DemandFault>
        requires gap { IsGap (own_rows self.old.demand.rows row.now.origin.0) row.now place }
        requires slots { has_slots self.old.demand.slots row.now ≡ true }
        requires small { row.now.amount.0 ≤ most_amount }
        requires some { 0 < row.now.amount.0 }
        ensures done { OnOk result (with_row self.old.demand row.now ≡ Ok self.new.demand) }
        ensures back { OnOk result (with_row self.new.demand (with_amount row.now 0)
            ≡ Ok self.old.demand) }
        ensures undo { OnOk result (CanRestore self.new (with_amount row.now 0)) }
        ensures err { OnErr result (self.new.demand ≡ self.old.demand) }
        ensures cause { IfErr result (λ e. e ≢ DemandFault.NoMemory
            → with_row self.old.demand row.now ≡ Err e) }
        ensures was { amount_at self.old.demand.rows row.now ≡ 0 }
        ensures room { KeepsRoom self.old self.new }
        ensures tabled { self.new.tabled ≡ self.old.tabled }
    {
        if self.count >= self.most_rows as usize {
            return Err(DemandFault::TooManyRows);
        }
        self.make_room(row)?;
        self.fill(place, row);
        Ok(())
    }

    /// Sets a row, and tells the amount that stood at its key, 0 where none did.
    ///
    /// The row replaces the one with its key; an amount of 0 takes that row out. `restore` of the row with the amount
    /// that is told makes the change undone, without memory. The amount is at most 1,000,000,000 units.
    #[tactic(auto, using(crate::proofs::Restoring::with_row_bad))]
    pub fn change(&mut self, row: DemandRow) -> Result<Units, DemandFault>
        requires { row.amount.0 ≤ most_amount }

        ensures ok { OnOk result (with_row self.old.demand row ≡ Ok self.new.demand) }
        ensures was { IfOk result (λ was. was.0 ≡ amount_at self.old.demand.rows row) }

        // A refusal changes no row, and has the first cause, or no memory.
        ensures err { OnErr result (self.new.demand ≡ self.old.demand) }
        ensures cause { IfErr result (λ e. e ≢ DemandFault.NoMemory
            → with_row self.old.demand row ≡ Err e) }
        ensures memory { result ≡ Err DemandFault.NoMemory
            → (amount_at self.old.demand.rows row ≡ 0) × (0 < row.amount.0) }

        // What was there can be restored, and that gives the old rows back.
        ensures back { IfOk result (λ was. with_row self.new.demand (with_amount row was.0)
            ≡ Ok self.old.demand) }
        ensures undo { IfOk result (λ was. CanRestore self.new (with_amount row was.0)) }
        ensures room { KeepsRoom self.old self.new }
        ensures tabled { self.new.tabled ≡ self.old.tabled }
    {
        if !self.is_within(&row) {
            return Err(DemandFault::BadSlots);
        }
        match self.place(&row) {
            Ok(place) => return Ok(Units(self.replace(place, &row))),
            Err(place) => {
                if row.amount.0 == 0 {
                    self.leave(place, &row);
                    return Ok(Units(0));
                }
                self.add(place, &row)?;
                return Ok(Units(0));
            }
        }
    }

    /// Sets a row. It replaces the one with its key; an amount of 0 takes that row out.
    ///
    /// The amount is at most 1,000,000,000 units.
    pub fn set(&mut self, row: DemandRow) -> Result<(), DemandFault>
        requires { row.amount.0 ≤ most_amount }

        ensures ok { OnOk result (with_row self.old.demand row ≡ Ok self.new.demand) }

        // A refusal changes no row, and has the first cause, or no memory.
        ensures err { OnErr result (self.new.demand ≡ self.old.demand) }
        ensures cause { IfErr result (λ e. e ≢ DemandFault.NoMemory
            → with_row self.old.demand row ≡ Err e) }
        ensures memory { result ≡ Err DemandFault.NoMemory
            → (amount_at self.old.demand.rows row ≡ 0) × (0 < row.amount.0) }
        ensures room { KeepsRoom self.old self.new }
        ensures tabled { self.new.tabled ≡ self.old.tabled }
    {
        match self.change(row) {
            Ok(_) => return Ok(()),
            Err(fault) => return Err(fault),
        }
    }

    /// Sets a row without memory, as one that a change has just replaced.
    ///
    /// There is room for such a row: see `change`.
    pub fn restore(&mut self, row: DemandRow)
        requires { CanRestore self.old row }
        ensures done { with_row self.old.demand row ≡ Ok self.new.demand }
        ensures room { KeepsRoom self.old self.new }
        ensures tabled { self.new.tabled ≡ self.old.tabled }
    {
        match self.place(&row) {
            Ok(place) => {
                let _ = self.replace(place, &row);
                return;
            }
            Err(place) => {
                if row.amount.0 == 0 {
                    self.leave(place, &row);
                    return;
                }
                self.fill(place, &row);
            }
        }
    }
}

/// How many rows are taken out where this one is set over another: one where its amount is 0.
fn taken_out(row: &DemandRow) -> usize
    ensures { result + length (row_if_any row.now) ≡ 1 }
{
    if row.amount.0 == 0 { 1 } else { 0 }
}
