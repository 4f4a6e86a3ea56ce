//! The edits of a command.
ghost use Rattle.std.specs.Prelude.{◌≡◌, ◌≤◌, Some, IfSome, IfOk, OnErr, length};
ghost use Rattle.serde_json.specs.View.{view, items_view};
ghost use Rattle.ltm_scenario.specs.Edits.{amount_of, HaveAmounts};
ghost use Rattle.ltm_script.specs.Edits.{demand_of, limit_of, split_of, splits_of, diagram_of, exit_of, horizon_of, edit_of, edits_from};
ghost use Rattle.ltm_script.specs.Gives.{Gives};
ghost use Rattle.ltm_units.specs.Bounds.{most_amount};

use crate::CommandFault;
use crate::members::{find_amount, find_name, find_text, find_whole};
use crate::rows::find_rows;
use crate::weights::find_weights;
use ltm_diagram::Diagram;
use ltm_scenario::Edit;
use ltm_units::NoMemory;
use serde_json::Value;
use std::alloc::Global;

#[tactic(auto, unfolding(crate::specs::Edits::demand_of))]
fn read_demand(value: &Value) -> Option<Edit>
    ensures edit { result ≡ demand_of (view value.now) }
    ensures small { IfSome result (λ edit. amount_of edit ≤ most_amount) }
{
    let origin = find_name(value, "origin")?;
    let destination = find_name(value, "destination")?;
    let from = find_whole(value, "from")?;
    let to = find_whole(value, "to")?;
    let amount = find_amount(value, "vehicles")?;
    Some(Edit::Demand {
        origin,
        destination,
        from,
        to,
        amount,
    })
}

#[tactic(auto, unfolding(crate::specs::Edits::limit_of))]
fn read_limit(value: &Value) -> Option<Edit>
    ensures edit { result ≡ limit_of (view value.now) }
    ensures small { IfSome result (λ edit. amount_of edit ≤ most_amount) }
{
    let link = find_name(value, "link")?;
    let from = find_whole(value, "from")?;
    let to = find_whole(value, "to")?;
    let amount = find_amount(value, "vehicles")?;
    Some(Edit::Limit {
        link,
        from,
        to,
        amount,
    })
}

#[tactic(auto, unfolding(crate::specs::Edits::exit_of))]
fn read_exit(value: &Value) -> Option<Edit>
    ensures edit { result ≡ exit_of (view value.now) }
    ensures small { IfSome result (λ edit. amount_of edit ≤ most_amount) }
{
    let link = find_name(value, "link")?;
    let from = find_whole(value, "from")?;
    let to = find_whole(value, "to")?;
    let amount = find_amount(value, "vehicles")?;
    Some(Edit::Exit {
        link,
        from,
        to,
        amount,
    })
}

#[tactic(auto, unfolding(crate::specs::Edits::split_of))]
fn read_split(value: &Value) -> Option<Edit>
    ensures edit { result ≡ split_of (view value.now) }
    ensures small { IfSome result (λ edit. amount_of edit ≤ most_amount) }
{
    let node = find_name(value, "node")?;
    let destination = find_name(value, "destination")?;
    let from = find_whole(value, "from")?;
    let weights = find_weights(value, node)?;
    Some(Edit::Split {
        node,
        destination,
        from,
        weights,
    })
}

#[tactic(auto, unfolding(crate::specs::Edits::splits_of))]
fn read_splits(alloc: Global, value: &Value) -> Result<Option<Edit>, NoMemory>
    ensures edit { IfOk result (λ edit. edit ≡ splits_of (view value.now)) }
    ensures small { IfOk result (λ edit. IfSome edit (λ e. amount_of e ≤ most_amount)) }
{
    let Some(node) = find_name(value, "node") else {
        return Ok(None);
    };
    let Some(destination) = find_name(value, "destination") else {
        return Ok(None);
    };
    let Some(rows) = find_rows(alloc, value, node)? else {
        return Ok(None);
    };
    Ok(Some(Edit::Splits {
        node,
        destination,
        rows,
    }))
}

#[tactic(auto, unfolding(crate::specs::Edits::diagram_of))]
fn read_diagram(value: &Value) -> Option<Edit>
    ensures edit { result ≡ diagram_of (view value.now) }
    ensures small { IfSome result (λ edit. amount_of edit ≤ most_amount) }
{
    let link = find_name(value, "link")?;
    let length_m = find_whole(value, "length_m")?;
    let free_kmh = find_whole(value, "free_kmh")?;
    let wave_kmh = find_whole(value, "wave_kmh")?;
    let jam_per_km = find_whole(value, "jam_per_km")?;
    let diagram = Diagram {
        length_m,
        free_kmh,
        wave_kmh,
        jam_per_km,
    };
    Some(Edit::Diagram { link, diagram })
}

#[tactic(auto, unfolding(crate::specs::Edits::horizon_of))]
fn read_horizon(value: &Value) -> Option<Edit>
    ensures edit { result ≡ horizon_of (view value.now) }
    ensures small { IfSome result (λ edit. amount_of edit ≤ most_amount) }
{
    let slots = find_whole(value, "slots")?;
    Some(Edit::Horizon { slots })
}

/// The edit that a value is, by its kind.
fn read_edit(alloc: Global, value: &Value) -> Result<Option<Edit>, NoMemory>
    ensures edit { IfOk result (λ edit. edit ≡ edit_of (view value.now)) }
    ensures small { IfOk result (λ edit. IfSome edit (λ e. amount_of e ≤ most_amount)) }
{
    let Some(kind) = find_text(value, "kind") else {
        return Ok(None);
    };
    match kind {
        "demand" => Ok(read_demand(value)),
        "limit" => Ok(read_limit(value)),
        "split" => Ok(read_split(value)),
        "splits" => read_splits(alloc, value),
        "diagram" => Ok(read_diagram(value)),
        "exit" => Ok(read_exit(value)),
        "horizon" => Ok(read_horizon(value)),
        _ => Ok(None),
    }
}

/// The edits that the values are, or the place of the first that is none, counted from 1.
pub(crate) fn read_edits(alloc: Global, values: &[Value]) -> Result<Vec<Edit>, CommandFault>
    requires { length values.now ≤ 32 }
    ensures edits { Gives result (λ edits. edits.items) (edits_from 1 (items_view values.now)) }
    ensures amounts { IfOk result (λ edits. HaveAmounts edits.items) }
{
    let mut edits = Vec::new(alloc);
    let mut place: u32 = 1;
    for value in values {
        match read_edit(alloc, value) {
            Err(_) => return Err(CommandFault::NoMemory),
            Ok(None) => return Err(CommandFault::NotCommand(place)),
            Ok(Some(edit)) => {
                if edits.push(edit).is_err() {
                    return Err(CommandFault::NoMemory);
                }
            }
        }
        place += 1;
    }
    Ok(edits)
}
