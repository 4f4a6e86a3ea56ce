//! The weights of a split.
ghost use Rattle.std.specs.Prelude.{◌≡◌, option_and_then};
ghost use Rattle.serde_json.specs.View.{view, members_view};
ghost use Rattle.ltm_scenario.specs.Weights.{as_weights};
ghost use Rattle.ltm_script.specs.Weights.{weight_of, weights_of, weights_from, weights_in};

use crate::members::read_whole;
use ltm_scenario::Weights;
use ltm_units::{Four, Name};
use serde_json::{Map, Value};

/// The most weights of a split.
const MOST_WEIGHTS: usize = 4;

/// A member as a weight.
fn read_weight(name: &str, value: &Value) -> Option<(Name, u32)>
    ensures { result ≡ weight_of name.now (view value.now) }
{
    let name = Name::read(name.as_bytes())?;
    let weight = read_whole(value)?;
    Some((name, weight))
}

/// The members as weights. `filler` stands in the places that they leave.
#[tactic(auto, using(crate::proofs::Named::too_many))]
fn read_members(members: &Map<String, Value>, filler: Name) -> Option<Weights>
    ensures { result ≡ option_and_then as_weights (weights_of (members_view members.now.entries)) }
{
    if members.len() > MOST_WEIGHTS {
        return None;
    }
    let mut places = [(filler, 0u32); MOST_WEIGHTS];
    let mut count: usize = 0;
    for (name, value) in members {
        places[count] = read_weight(name.as_str(), value)?;
        count += 1;
    }
    Weights::of(Four::of(&places[..count])?)
}

/// The weights that the members of an object are.
pub(crate) fn read_weights(value: &Value, filler: Name) -> Option<Weights>
    ensures { result ≡ weights_from (view value.now) }
{
    match value.as_object() {
        Some(members) => read_members(members, filler),
        None => None,
    }
}

/// The weights of an edit.
pub(crate) fn find_weights(value: &Value, filler: Name) -> Option<Weights>
    ensures { result ≡ weights_in (view value.now) }
{
    match value.get("weights") {
        Some(found) => read_weights(found, filler),
        None => None,
    }
}
