//! The pairs that a batch touches become active, and those of new slots.
ghost use Rattle.std.specs.Prelude.{◌≡◌, nat_le, All};
ghost use Rattle.ltm_setting.specs.Setting.{setting_of};
ghost use Rattle.ltm_frontier.specs.Frontier.{Activates};
ghost use Rattle.ltm_pairs.specs.Adding.{IsFrom};
ghost use Rattle.ltm_pairs.specs.Touched.{is_touched};
ghost use Rattle.ltm_rows.specs.Rows.{HasRows};
ghost use Rattle.ltm_working.specs.Batches.{in_reaches, UnweighsAll};
ghost use Rattle.ltm_working.specs.Scenarios.{HasPairsOf};

use ltm_frontier::Frontier;
use ltm_pairs::{Spread, touched};
use ltm_rows::KeptRows;
use ltm_scenario::{Edit, Scenario};
use ltm_setting::{node_count, slot_count};
use ltm_units::{NodeId, Reach};

/// Marks the pairs of reaches. Their weights are to be read again.
fn mark_reaches(
    scenario: &Scenario,
    frontier: &mut Frontier,
    kept: &mut KeptRows,
    reaches: &[Reach],
)
    requires pairs { HasPairsOf scenario.now frontier.old }
    requires rows { HasRows (setting_of scenario.now) (setting_of scenario.now).slots kept.old }
    requires there { All (IsFrom (setting_of scenario.now) 0) reaches.now }
    ensures marks { Activates frontier.old frontier.new (in_reaches reaches.now) }
    ensures weights { UnweighsAll kept.old kept.new (in_reaches reaches.now) }
{
    for reach in reaches {
        frontier.mark_range(*reach);
        kept.unweigh(
            reach.node.0 as usize,
            reach.from as usize,
            reach.to as usize,
        );
    }
}

/// Marks the pairs that edits touch. Their weights are to be read again.
pub(crate) fn mark_touched(
    scenario: &Scenario,
    frontier: &mut Frontier,
    kept: &mut KeptRows,
    edits: &[Edit],
)
    requires pairs { HasPairsOf scenario.now frontier.old }
    requires rows { HasRows (setting_of scenario.now) (setting_of scenario.now).slots kept.old }
    ensures marks { Activates frontier.old frontier.new (is_touched scenario.now edits.now) }
    ensures weights { UnweighsAll kept.old kept.new (is_touched scenario.now edits.now) }
{
    let mut spread = Spread::new();
    for edit in edits {
        touched(scenario, edit, &mut spread);
        mark_reaches(scenario, frontier, kept, spread.reaches());
    }
}

/// Marks the pairs of a slot and of all later ones.
pub(crate) fn mark_from(scenario: &Scenario, frontier: &mut Frontier, from: u32)
    requires { HasPairsOf scenario.now frontier.old }
    ensures { Activates frontier.old frontier.new (λ u t. nat_le from t) }
{
    let to = slot_count(scenario);
    for node in 0..node_count(scenario) {
        frontier.mark_range(Reach {
            node: NodeId(node),
            from,
            to,
        });
    }
}
