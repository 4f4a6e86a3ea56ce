//! The rows of an edit of all splits of a node and a destination.
ghost use Rattle.std.specs.Prelude.{◌≡◌, IfOk};
ghost use Rattle.serde_json.specs.View.{view, items_view};
ghost use Rattle.ltm_script.specs.Rows.{row_of, rows_of, rows_in};

use crate::members::read_whole;
use crate::weights::read_weights;
use ltm_scenario::{SplitRows, Weights};
use ltm_units::{Name, NoMemory};
use serde_json::Value;
use std::alloc::Global;

/// A pair of a slot and weights. `filler` stands in the places that the weights leave.
fn read_row(value: &Value, filler: Name) -> Option<(u32, Weights)>
    ensures { result ≡ row_of (view value.now) }
{
    let (slot, behind) = value.as_array()?.split_first()?;
    let (weights, others) = behind.split_first()?;
    if let Some(_) = others.split_first() {
        return None;
    }
    let from = read_whole(slot)?;
    let weights = read_weights(weights, filler)?;
    Some((from, weights))
}

/// The values as rows.
fn read_rows(alloc: Global, values: &[Value], filler: Name) -> Result<Option<SplitRows>, NoMemory>
    ensures { IfOk result (λ rows. rows ≡ rows_of (items_view values.now)) }
{
    let mut rows = Vec::new(alloc);
    let mut left = values;
    'rows: while let Some((value, rest)) = left.split_first() {
        let Some(row) = read_row(value, filler) else {
            return Ok(None);
        };
        rows.push(row)?;
        left = rest;
    }
    Ok(Some(SplitRows::of(rows)))
}

/// The rows of an edit, one or more.
pub(crate) fn find_rows(
    alloc: Global,
    value: &Value,
    filler: Name,
) -> Result<Option<SplitRows>, NoMemory>
    ensures { IfOk result (λ rows. rows ≡ rows_in (view value.now)) }
{
    let Some(found) = value.get("rows") else {
        return Ok(None);
    };
    let Some(values) = found.as_array() else {
        return Ok(None);
    };
    if values.is_empty() {
        return Ok(None);
    }
    read_rows(alloc, values.as_slice(), filler)
}
