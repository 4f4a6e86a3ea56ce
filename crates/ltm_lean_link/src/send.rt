//! What a link sends of the destinations of a node's list.
ghost use Rattle.std.specs.Prelude.{◌≡◌, ℕ, ◌-◌, ◌<◌, ◌≤◌, List, length, slice_index, OnOk};
ghost use Rattle.ltm_curve.specs.Counts.{Counts};
ghost use Rattle.ltm_loading.specs.Setting.{Setting};
ghost use Rattle.ltm_setting.specs.Setting.{setting_of};
ghost use Rattle.ltm_setting.specs.Places.{IsLink, IsSlot};
ghost use Rattle.ltm_standing.specs.Standing.{width_of};
ghost use Rattle.ltm_standing.specs.Listed.{Ascends, IsListed, Stands};
ghost use Rattle.ltm_totals.specs.Totals.{total_links, total_slots};
ghost use Rattle.ltm_units.specs.Sums.{sum_below};
ghost use Rattle.ltm_lean_node.specs.Places.{ArePlaces, AreApart};
ghost use Rattle.ltm_lean_link.specs.Moved.{HasCome, IsLinkAt, IsSent};

use ltm_lean_node::scatter;
use ltm_scenario::Scenario;
use ltm_setting::exit_limit;
use ltm_standing::Standing;
use ltm_totals::{Totals, may_leave};
use ltm_units::{LinkId, NoMemory};

/// Takes in what entered a link in the slot before a slot, in all and by place in its list. Before the first slot there is
/// nothing to take in.
pub fn take_in_last(
    standing: &mut Standing,
    slot: u32,
    came: u32,
    mail: &[u16],
) -> Result<(), NoMemory>
    requires mail { length mail.now ≡ width_of standing.old }
    requires came { 0 < came → came ≡ sum_below (width_of standing.old) (slice_index mail.now) }
    ensures wide { width_of standing.new ≡ width_of standing.old }
    ensures ok { OnOk result ((s : Setting) (c : Counts) (l : ℕ) (ds : List ℕ) → IsListed s c l ds → slot ≤ s.slots
        → HasCome s c l ds slot came mail.now → Stands c l ds (slot - 1) slot standing.old
        → Stands c l ds slot slot standing.new) }
{
    if slot == 0 {
        return Ok(());
    }
    standing.take_in(came, mail)?;
    Ok(())
}

/// Writes what a link sends in a slot by place in the list of the node where it ends, from its own list by the place that each
/// destination has there: 0 for the others. `room` is for the numbers of its own list.
pub fn send_listed(
    scenario: &Scenario,
    entered: &Totals,
    left: &Totals,
    link: LinkId,
    slot: u32,
    standing: &mut Standing,
    places: &[u32],
    room: &mut [u32],
    into: &mut [u64],
)
    requires link { IsLink scenario.now link.0 }
    requires slot { IsSlot scenario.now slot }
    requires entered { link.0 < total_links entered.now }
    requires left { link.0 < total_links left.now }
    requires last_entered { slot ≤ total_slots entered.now }
    requires last_left { slot ≤ total_slots left.now }
    requires places { length places.now ≡ width_of standing.old }
    requires room { length room.old ≡ width_of standing.old }
    requires apart { AreApart places.now (length into.old) }
    ensures wide { width_of standing.new ≡ width_of standing.old }
    ensures sends { (c : Counts) (ds us : List ℕ) → IsLinkAt (setting_of scenario.now) c link.0 slot ds entered.now left.now standing.old
        → Ascends 0 (setting_of scenario.now).destinations us → ArePlaces ds us places.now → length us ≡ length into.old
        → IsSent (setting_of scenario.now) c link.0 slot us into.new }
    ensures stands { (c : Counts) (ds : List ℕ) → IsLinkAt (setting_of scenario.now) c link.0 slot ds entered.now left.now standing.old
        → Stands c link.0 ds slot slot standing.new }
{
    let may = may_leave(scenario, entered, left, link, slot);
    let limit = exit_limit(scenario, link, slot);
    standing.send(may.goal, may.gone, limit, room);
    scatter(room, places, into);
}
