//! What an origin has produced by the end of each slot.
//!
//! A slot's numbers lie side by side: first that of all destinations together, then one for each destination. A table
//! reaches at least to the greatest end of the origin's rows; by then all of them have produced everything, so a later
//! slot reads the last, and a longer horizon changes no table.
ghost use Rattle.std.specs.Prelude.{◌≡◌, ℕ, ◌+◌, ◌-◌, ◌*◌, ◌<◌, ◌≤◌, ◌^◌, min, length, vec_len, slice_index, OnOk, IfOk, IsTrue, ◌↔◌};
ghost use Rattle.ltm_demand.specs.Productions.{ProductionData, no_table, told, IsRoomy, IsReached, IsShifted};
ghost use Rattle.ltm_units.specs.Bounds.{most_amount};

use crate::DemandRow;
use crate::shifting::shift;
use ltm_units::NoMemory;
use std::alloc::Global;
use std::marker::Model;

/// The numbers of one origin: as many slots as it reaches, each with a number more than it has destinations.
#[derive(Drop)]
pub struct Production {
    destinations: usize,
    slots: usize,
    units: Vec<u64>,
}

impl Model for Production {
    ghost use Rattle.std.specs.Prelude.{◌≡◌, ◌≤◌, ◌+◌, ◌*◌, ◌^◌, vec_len};
    ghost use Rattle.ltm_demand.specs.Productions.{ProductionData};

    ghost Value = { ProductionData };

    ghost view = { λ t. record { destinations = t.destinations; slots = t.slots; units = t.units.items } };

    ghost invariant = { λ t. (vec_len t.units ≡ t.slots * (t.destinations + 1)) × (t.destinations ≤ 2 ^ 33) × (t.slots ≤ 2 ^ 33) };
}

/// As many as are needed, and at least a quarter more than there are where there are too few.
fn grown(have: usize, need: usize) -> usize
    requires have { have ≤ 2 ^ 33 }
    requires need { need ≤ 2 ^ 32 }
    ensures enough { need ≤ result }
    ensures no_fewer { have ≤ result }
    ensures small { result ≤ 2 ^ 33 }
{
    if need <= have {
        return have;
    }
    need.max(have + have / 4)
}

impl Production {
    pub fn new(alloc: Global) -> Production
        ensures { result ≡ no_table }
    {
        Production {
            destinations: 0,
            slots: 0,
            units: Vec::new(alloc),
        }
    }

    /// Where the numbers of a slot begin.
    #[inline]
    fn start(&self, slot: usize) -> usize
        requires { 0 < self.now.slots }
        ensures place { result ≡ min slot (self.now.slots - 1) * (self.now.destinations + 1) }
        ensures within { result + (self.now.destinations + 1) ≤ length self.now.units }
    {
        slot.min(self.slots - 1) * (self.destinations + 1)
    }

    /// The number of a column by the end of a slot.
    #[inline]
    pub fn get(&self, column: usize, slot: u32) -> u64
        ensures { result ≡ told self.now column slot }
    {
        if self.slots == 0 {
            return 0;
        }
        if column > self.destinations {
            return 0;
        }
        self.units[self.start(slot as usize) + column]
    }

    /// The numbers of a slot, of all destinations together first.
    #[inline]
    fn whole_row(&self, slot: usize) -> &[u64]
        ensures row { (column : ℕ) → slice_index result.now column ≡ told self.now column slot }
        ensures few { length result.now ≤ self.now.destinations + 1 }
    {
        if self.slots == 0 {
            return &[];
        }
        let start = self.start(slot);
        &self.units[start..start + (self.destinations + 1)]
    }

    /// The numbers of the destinations by the end of a slot; those past its end are 0.
    #[inline]
    pub fn row(&self, slot: u32) -> &[u64]
        ensures { (d : ℕ) → slice_index result.now d ≡ told self.now (d + 1) slot }
    {
        match self.whole_row(slot as usize).split_first() {
            Some((_all, each)) => each,
            None => &[],
        }
    }

    /// Puts the numbers of a slot behind others, and zeros behind them up to a width.
    fn add_row(&self, slot: usize, width: usize, units: &mut Vec<u64>) -> Result<(), NoMemory>
        requires width { self.now.destinations + 1 ≤ width }
        requires small { width ≤ 2 ^ 34 }
        ensures len { OnOk result (vec_len units.new ≡ vec_len units.old + width) }
        ensures front { OnOk result ((k : ℕ) → k < vec_len units.old
            → slice_index units.new.items k ≡ slice_index units.old.items k) }
        ensures row { OnOk result ((c : ℕ) → c < width
            → slice_index units.new.items (vec_len units.old + c) ≡ told self.now c slot) }
    {
        let end = units.len() + width;
        units.extend_from_slice(self.whole_row(slot))?;
        units.resize(end, 0)?;
        Ok(())
    }

    /// The same numbers over more destinations and slots.
    fn spread(&self, destinations: usize, slots: usize) -> Result<Vec<u64>, NoMemory>
        requires more { self.now.destinations ≤ destinations }
        requires small { destinations ≤ 2 ^ 33 }
        requires short { slots ≤ 2 ^ 33 }
        ensures len { IfOk result (λ units. vec_len units ≡ slots * (destinations + 1)) }
        ensures told { IfOk result (λ units. (c t : ℕ) → c ≤ destinations → t < slots
            → slice_index units.items (t * (destinations + 1) + c) ≡ told self.now c t) }
    {
        let Some(count) = slots.checked_mul(destinations + 1) else {
            return Err(NoMemory);
        };
        let mut units = Vec::with_capacity(*self.units.allocator(), count)?;
        for slot in 0..slots {
            self.add_row(slot, destinations + 1, &mut units)?;
        }
        Ok(units)
    }

    /// Whether the table has a place for the destination in each slot below `to`.
    fn reaches(&self, destination: u32, to: u32) -> bool
        ensures { IsTrue result ↔ ((destination < self.now.destinations) × (to ≤ self.now.slots)) }
    {
        (destination as usize) < self.destinations && to as usize <= self.slots
    }

    /// Sees to it that the table has a place for the destination in each slot below `to`, and says what it said.
    pub fn reach(&mut self, destination: u32, to: u32) -> Result<(), NoMemory>
        ensures same { (c t : ℕ) → told self.new c t ≡ told self.old c t }
        ensures destination { OnOk result (destination < self.new.destinations) }
        ensures end { OnOk result (to ≤ self.new.slots) }
        ensures no_fewer { self.old.destinations ≤ self.new.destinations }
        ensures no_shorter { self.old.slots ≤ self.new.slots }
    {
        if self.reaches(destination, to) {
            return Ok(());
        }
        let destinations = grown(self.destinations, destination as usize + 1);
        let slots = grown(self.slots, to as usize);
        let units = self.spread(destinations, slots)?;
        *self = Production {
            destinations,
            slots,
            units,
        };
        Ok(())
    }

    /// Puts the amount of a row in place of another.
    pub fn put_amount(&mut self, row: &DemandRow, was: u64)
        requires was { was ≤ most_amount }
        requires now { row.now.amount.0 ≤ most_amount }
        requires slots { row.now.from < row.now.to }
        requires reached { IsReached self.old row.now }
        requires roomy { IsRoomy self.old row.now was }
        ensures { IsShifted self.old self.new row.now was }
    {
        shift(&mut self.units, self.destinations + 1, self.slots, row, was);
    }

    pub fn try_copy(&self) -> Result<Production, NoMemory>
        ensures { IfOk result (λ copy. copy ≡ self.now) }
    {
        let units = Vec::from_slice(*self.units.allocator(), self.units.as_slice())?;
        Ok(Production {
            destinations: self.destinations,
            slots: self.slots,
            units,
        })
    }
}
