//! The pairs whose inputs an edit may change.
ghost use Rattle.std.specs.Prelude.{◌≡◌, ◌<◌, ◌+◌, ◌++◌, All, length};
ghost use Rattle.ltm_network.specs.Network.{tail_of, head_of};
ghost use Rattle.ltm_setting.specs.Setting.{setting_of};
ghost use Rattle.ltm_pairs.specs.Adding.{IsFrom};
ghost use Rattle.ltm_pairs.specs.Touched.{of_node, of_end, touched_by, new_slots};
ghost use Rattle.ltm_setting.specs.Places.{IsBoundary};

use crate::spread::Spread;
use ltm_scenario::{Edit, Scenario};
use ltm_setting::slot_count;
use ltm_units::{Name, Reach};

/// Adds slots of the node of that name.
fn add_node(scenario: &Scenario, name: &Name, from: u32, to: u32, into: &mut Spread)
    requires room { length into.old.reaches < 16 }
    requires slots { IsBoundary scenario.now to }
    ensures reaches { into.new
        ≡ record into.old {
          reaches = into.old.reaches
              ++ of_node scenario.now.network name.now from to;
        } }
    ensures there { All (IsFrom (setting_of scenario.now) 0) into.old.reaches
        → All (IsFrom (setting_of scenario.now) 0) into.new.reaches }
{
    if let Some(node) = scenario.network().find_node(name) {
        into.push(Reach { node, from, to });
    }
}

/// Adds slots of the tail of the link of that name.
fn add_tail(scenario: &Scenario, name: &Name, from: u32, to: u32, into: &mut Spread)
    requires room { length into.old.reaches < 16 }
    requires slots { IsBoundary scenario.now to }
    ensures reaches { into.new
        ≡ record into.old {
          reaches = into.old.reaches
              ++ of_end scenario.now.network (tail_of scenario.now.network) name.now from to;
        } }
    ensures there { All (IsFrom (setting_of scenario.now) 0) into.old.reaches
        → All (IsFrom (setting_of scenario.now) 0) into.new.reaches }
{
    let network = scenario.network();
    if let Some(link) = network.find_link(name) {
        let node = network.tail(link);
        into.push(Reach { node, from, to });
    }
}

/// Adds slots of the head of the link of that name.
fn add_head(scenario: &Scenario, name: &Name, from: u32, to: u32, into: &mut Spread)
    requires room { length into.old.reaches < 16 }
    requires slots { IsBoundary scenario.now to }
    ensures reaches { into.new
        ≡ record into.old {
          reaches = into.old.reaches
              ++ of_end scenario.now.network (head_of scenario.now.network) name.now from to;
        } }
    ensures there { All (IsFrom (setting_of scenario.now) 0) into.old.reaches
        → All (IsFrom (setting_of scenario.now) 0) into.new.reaches }
{
    let network = scenario.network();
    if let Some(link) = network.find_link(name) {
        let node = network.head(link);
        into.push(Reach { node, from, to });
    }
}

/// The reaches of an edit. They replace what `into` held.
///
/// | edit | reaches |
/// |---|---|
/// | demand | its origin, from its first slot to the horizon |
/// | entry limit | the tail of the link, in the slots named |
/// | exit limit | the head of the link, in the slots named |
/// | weights | their node, from their first slot to the horizon |
/// | all weights of a node for a destination | the node, in every slot |
/// | diagram | the tail of the link, and then the head, in every slot |
/// | horizon | none; `all_new` has the slots from the present horizon to the longer one |
///
/// A name that the scenario does not have has no reach, and such an edit is refused. A pair outside of the reaches reads
/// the same numbers once the edit is accepted, whatever the counts are; `batch_touches_readers` says so of a whole batch,
/// and `added_slots_are_new` that the batch adds the slots that are told, and no others. Takes no memory.
#[tactic(auto, unfolding(ltm_setting::specs::Setting::setting_of))]
pub fn touched(scenario: &Scenario, edit: &Edit, into: &mut Spread)
    ensures reaches { into.new.reaches ≡ touched_by scenario.now edit.now }
    ensures there { All (IsFrom (setting_of scenario.now) 0) into.new.reaches }
    ensures all_new { into.new.all_new ≡ new_slots scenario.now edit.now }
{
    let slots = slot_count(scenario);
    into.clear();
    match edit {
        Edit::Demand { origin, from, .. } => add_node(scenario, origin, *from, slots, into),
        Edit::Limit { link, from, to, .. } => {
            add_tail(scenario, link, *from, (*to).min(slots), into)
        }
        Edit::Split { node, from, .. } => add_node(scenario, node, *from, slots, into),
        Edit::Splits { node, .. } => add_node(scenario, node, 0, slots, into),
        Edit::Diagram { link, .. } => {
            add_tail(scenario, link, 0, slots, into);
            add_head(scenario, link, 0, slots, into);
        }
        Edit::Exit { link, from, to, .. } => {
            add_head(scenario, link, *from, (*to).min(slots), into)
        }
        Edit::Horizon { slots: more } => into.add_slots(slots, *more),
    }
}
