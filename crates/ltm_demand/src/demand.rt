//! The demand of a case.
ghost use Rattle.std.specs.Prelude.{◌≡◌, ℕ, ◌+◌, ◌-◌, ◌<◌, ◌≤◌, [], ◌==◌, true, false, length, slice_index, is_some, IfOk, IfSome, None, Ok};
ghost use Rattle.std.specs.List.{list_any};
ghost use Rattle.ltm_demand.specs.Origins.{rows_of, origin_at, no_origin};
ghost use Rattle.ltm_units.specs.Bounds as bounds;

mod setting;

use crate::DemandRow;
use crate::all_rows::DemandRows;
use crate::origin::Origin;
use ltm_units::{NoMemory, NodeId, Units};
use std::alloc::Global;
use std::marker::Model;

/// The most rows of a demand that is not told how many it takes.
pub const DEFAULT_DEMAND_ROWS: u32 = 10_000;

/// The demand of a case: rows, one for each key and at most as many as it was made for, and what each origin has produced.
///
/// The rows lie in a list for each origin, beside its table, and origins by node number. Contracts see the horizon, the most
/// rows and all rows in the order of their keys, and beside them whether there is a table of each destination, and what can be
/// set without memory. They do not see the tables.
pub struct Demand {
    slots: u32,
    most_rows: u32,
    // Whether an origin's table has a column for each destination.
    tabled: bool,
    count: usize,
    // By node number, up to the last that has had a row.
    origins: Vec<Origin>,
}

// By hand, so that letting go of a demand is one call, and not its parts one by one wherever that may happen.
impl Drop for Demand {
    fn drop(self) {
        let Demand {
            slots: _slots,
            most_rows: _most_rows,
            tabled: _tabled,
            count: _count,
            origins: _origins,
        } = self;
    }
}

impl Model for Demand {
    ghost use Rattle.ltm_demand.specs.Rows.{DemandState};
    ghost use Rattle.ltm_demand.specs.Origins.{rows_of};
    ghost use Rattle.ltm_demand.specs.Kept.{IsKept, room_of};

    ghost Value = { DemandState };

    ghost view = { λ d. record { demand = record { slots = d.slots; most_rows = d.most_rows; rows = rows_of d.origins.items }; tabled = d.tabled; room = room_of d.origins.items } };

    ghost invariant = { λ d. IsKept d.slots d.most_rows d.tabled d.count d.origins.items };
}

/// The origin at a place, where one has been made.
#[inline]
fn origin_of(origins: &[Origin], place: u32) -> Option<&Origin>
    ensures some { IfSome result (λ origin. origin.now ≡ origin_at origins.now place) }
    ensures none { result ≡ None → origin_at origins.now place ≡ no_origin }
{
    origins.get(place as usize)
}

impl Demand {
    ghost use Rattle.ltm_demand.specs.Rows.{DemandState};
    ghost use Rattle.ltm_demand.specs.Produced.{by_end, origin_by_end, total, has};
    ghost use Rattle.ltm_demand.specs.Kept.{AreDemandRows};

    /// No row, over this many slots, and at most 10,000 rows from then on.
    pub fn new(alloc: Global, slots: u32) -> Demand
        ensures demand { result.demand ≡ record { slots = slots; most_rows = bounds.default_demand_rows; rows = [] } }
        ensures tabled { result.tabled ≡ true }
    {
        Demand::of_most(alloc, slots, DEFAULT_DEMAND_ROWS)
    }

    /// No row, over this many slots, and at most so many rows from then on.
    pub fn of_most(alloc: Global, slots: u32, most_rows: u32) -> Demand
        requires { most_rows ≤ bounds.most_rows }
        ensures demand { result.demand ≡ record { slots = slots; most_rows = most_rows; rows = [] } }
        ensures tabled { result.tabled ≡ true }
    {
        Demand::empty(alloc, slots, most_rows, true)
    }

    /// The same without a table of each destination: for cases that keep no history. It takes no more memory than its rows
    /// and two numbers for each slot of an origin.
    pub fn of_rows(alloc: Global, slots: u32, most_rows: u32) -> Demand
        requires { most_rows ≤ bounds.most_rows }
        ensures demand { result.demand ≡ record { slots = slots; most_rows = most_rows; rows = [] } }
        ensures tabled { result.tabled ≡ false }
    {
        Demand::empty(alloc, slots, most_rows, false)
    }

    /// No row, with a table of each destination or without one.
    fn empty(alloc: Global, slots: u32, most_rows: u32, tabled: bool) -> Demand
        requires { most_rows ≤ bounds.most_rows }
        ensures demand { result.demand ≡ record { slots = slots; most_rows = most_rows; rows = [] } }
        ensures tabled { result.tabled ≡ tabled }
    {
        Demand {
            slots,
            most_rows,
            tabled,
            count: 0,
            origins: Vec::new(alloc),
        }
    }

    /// How many rows there are.
    pub fn row_count(&self) -> usize
        ensures count { result ≡ length self.now.demand.rows }
        ensures kept { AreDemandRows self.now.demand.slots self.now.demand.most_rows
            self.now.demand.rows }
    {
        self.count
    }

    /// What the rows from an origin to a destination have produced by the end of a slot.
    ///
    /// A row has produced nothing before its first slot, everything from its last slot on, and between them its amount
    /// in proportion to its slots, floored.
    #[inline]
    pub fn by_end(&self, origin: NodeId, destination: u32, slot: u32) -> Units
        ensures { result.0 ≡ by_end self.now.demand.rows origin.0 destination slot }
    {
        let mut near = 0;
        self.by_end_near(origin, destination, slot, &mut near)
    }

    /// The same, for calls one after another in the order of their destinations.
    ///
    /// Where there is no table of each destination, the origin's rows to this one are looked for at the place `near` among its
    /// rows first, and found by a search where they do not begin there; `near` becomes the place behind them, where those to
    /// the next destination begin. The answer is the same whatever it says; begin with 0.
    #[inline]
    pub fn by_end_near(
        &self,
        origin: NodeId,
        destination: u32,
        slot: u32,
        near: &mut usize,
    ) -> Units
        ensures { result.0 ≡ by_end self.now.demand.rows origin.0 destination slot }
    {
        match origin_of(&self.origins, origin.0) {
            Some(origin) => {
                if self.tabled {
                    return Units(origin.by_end(destination, slot));
                }
                Units(origin.sum_to(destination, slot, near))
            }
            None => Units(0),
        }
    }

    /// What the rows from an origin have produced for all destinations together by the end of a slot.
    #[inline]
    pub fn origin_by_end(&self, origin: NodeId, slot: u32) -> Units
        ensures { result.0 ≡ origin_by_end self.now.demand.rows origin.0 slot }
    {
        match origin_of(&self.origins, origin.0) {
            Some(origin) => Units(origin.all_by_end(slot)),
            None => Units(0),
        }
    }

    /// What the rows from an origin have produced for each destination by the end of a slot, in thousandths of a vehicle:
    /// a number for each destination, and 0 for those past the end. `None` where there is no table of each destination.
    #[inline]
    pub fn row_by_end(&self, origin: NodeId, slot: u32) -> Option<&[u64]>
        ensures tabled { is_some result ≡ self.now.tabled }
        ensures row { IfSome result (λ row. (d : ℕ)
            → slice_index row.now d ≡ by_end self.now.demand.rows origin.0 d slot) }
    {
        if !self.tabled {
            return None;
        }
        match origin_of(&self.origins, origin.0) {
            Some(origin) => Some(origin.row_by_end(slot)),
            None => Some(&[]),
        }
    }

    /// The units of all rows.
    pub fn total(&self) -> Units
        ensures { result.0 ≡ total self.now.demand.rows }
    {
        let mut sum = 0;
        let mut rows = self.rows();
        'rows: while let Some(row) = rows.next() {
            sum += row.amount.0;
        }
        Units(sum)
    }

    /// Whether some row stands from the origin to the destination.
    pub fn has(&self, origin: NodeId, destination: u32) -> bool
        ensures { result ≡ has self.now.demand.rows origin.0 destination }
    {
        match origin_of(&self.origins, origin.0) {
            Some(origin) => leads_to(origin.rows(), destination),
            None => false,
        }
    }

    /// Raises the horizon, at most to 10,000 slots. No row changes.
    pub fn lengthen(&mut self, slots: u32)
        requires { self.old.demand.slots ≤ slots }
        ensures { self.new
            ≡ record self.old { demand = record self.old.demand { slots = slots } } }
    {
        self.slots = slots;
    }

    /// Lowers the horizon, as to undo a `lengthen`, to no less than any row's end. No row changes.
    pub fn shorten(&mut self, fewer: u32)
        requires { AreDemandRows fewer self.old.demand.most_rows self.old.demand.rows }
        ensures { self.new
            ≡ record self.old { demand = record self.old.demand { slots = fewer } } }
    {
        self.slots = fewer;
    }

    /// The slots of the horizon.
    pub fn slots(&self) -> u32
        ensures { result ≡ self.now.demand.slots }
    {
        self.slots
    }

    /// The rows in the order of their keys: by origin, then destination, then first slot, then end.
    pub fn rows(&self) -> DemandRows<'_>
        ensures all { result ≡ self.now.demand.rows }
        ensures kept { AreDemandRows self.now.demand.slots self.now.demand.most_rows
            self.now.demand.rows }
    {
        DemandRows::of(&self.origins)
    }

    /// A demand with the same horizon, rows and most rows, and with tables of each destination where this has them.
    pub fn try_copy(&self) -> Result<Demand, NoMemory>
        ensures demand { IfOk result (λ copy. copy.demand ≡ self.now.demand) }
        ensures tabled { IfOk result (λ copy. copy.tabled ≡ self.now.tabled) }
    {
        let mut origins = Vec::with_capacity(*self.origins.allocator(), self.origins.len())?;
        for origin in &self.origins {
            origins.push(origin.try_copy()?)?;
        }
        Ok(Demand {
            slots: self.slots,
            most_rows: self.most_rows,
            tabled: self.tabled,
            count: self.count,
            origins,
        })
    }
}

/// Whether some row leads to the destination.
fn leads_to(rows: &[DemandRow], destination: u32) -> bool
    ensures { result ≡ list_any (λ row. row.destination == destination) rows.now }
{
    rows.iter().any(|row| row.destination == destination)
}
