//! Going over the rows of a demand.
ghost use Rattle.std.specs.Prelude.{◌≡◌, List};
ghost use Rattle.std.specs.Iterator.{YieldsFirstBy, item_count};

use crate::DemandRow;
use crate::origin::Origin;
use std::marker::Model;

/// The rows of a demand in the order of their keys, seen as the list of those that are left.
#[derive(Drop)]
pub struct DemandRows<'a> {
    // What is left of the rows of an origin.
    rows: &'a [DemandRow],
    // The origins that are left.
    origins: &'a [Origin],
}

impl<'a> Model for DemandRows<'a> {
    ghost use Rattle.std.specs.Prelude.{List};
    ghost use Rattle.ltm_demand.specs.declared.row.DemandRow.{DemandRow};
    ghost use Rattle.ltm_demand.specs.RowsLeft.{rows_left};

    ghost Value = { List DemandRow };

    ghost view = { λ r. rows_left r.rows.now r.origins.now };
}

impl<'a> DemandRows<'a> {
    ghost use Rattle.ltm_demand.specs.Origins.{rows_of};

    /// All rows of the origins.
    pub(crate) fn of(origins: &'a [Origin]) -> DemandRows<'a>
        ensures { result ≡ rows_of origins.now }
    {
        DemandRows { rows: &[], origins }
    }
}

impl<'a> Iterator for DemandRows<'a> {
    type Item = DemandRow;

    ghost next_gives = { YieldsFirstBy (λ row. row) (λ rest. rest) };

    ghost remaining = { item_count (λ rest. rest) };

    fn next(&mut self) -> Option<DemandRow> {
        'lists: loop {
            if let Some((row, rest)) = self.rows.split_first() {
                self.rows = rest;
                return Some(*row);
            }
            if let Some((origin, rest)) = self.origins.split_first() {
                self.rows = origin.rows();
                self.origins = rest;
            } else {
                return None;
            }
        }
    }
}
