//! A claimed pair is committed.
ghost use Rattle.std.specs.Prelude.{◌≡◌, ◌||◌, ℕ, Some};
ghost use Rattle.ltm_setting.specs.Setting.{setting_of};
ghost use Rattle.ltm_repair.specs.Moves.{Commits};
ghost use Rattle.ltm_working.specs.Committing.{readers, rewritten};
ghost use Rattle.ltm_setting.specs.Places.{node_shape};
ghost use Rattle.ltm_working.specs.Scenarios.{IsReadyFor, changed_for, desk_for};

use crate::renewal::Renewal;
use crate::step_form::StepForm;
use crate::table::Table;
use ltm_loading::{counts_by_place, inputs_by_place, outputs_small, uncounted_in_range};
use ltm_node::{Solved, no_arrivals, same_shape};
use ltm_pairs::readers_wake;
use ltm_scenario::Scenario;
use ltm_setting::{is_setting, slot_count};
use ltm_units::Pair;

impl Table {
    /// Sets the counts of a claimed pair to the step of its inputs and keeps these. The readers of what changed become
    /// active, exactly those, and the cells with another count are noted. Takes no memory.
    pub fn commit(&mut self, scenario: &Scenario, pair: Pair, solved: &Solved)
        requires ready { IsReadyFor scenario.now self.old }
        requires claimed { (desk_for scenario.now self.old).claimed
            pair.node.0 pair.slot ≡ Some solved.now.inputs.row }
        requires shape { solved.now.inputs.shape ≡ node_shape scenario.now pair.node.0 }
        ensures ready { IsReadyFor scenario.now self.new }
        ensures desk { Commits (setting_of scenario.now)
            (desk_for scenario.now self.old) pair.node.0 pair.slot solved.now.inputs.row
            (readers (setting_of scenario.now) (desk_for scenario.now self.old)
            (desk_for scenario.now self.new) pair.node.0 pair.slot)
            (desk_for scenario.now self.new) }
        ensures changed { (g k : ℕ) → changed_for scenario.now self.new g k
            ≡ (changed_for scenario.now self.old g k
            || rewritten (setting_of scenario.now) (desk_for scenario.now self.old)
            (desk_for scenario.now self.new) g k) }
    {
        is_setting(scenario);
        inputs_by_place();
        counts_by_place();
        outputs_small();
        uncounted_in_range();
        same_shape();
        no_arrivals();
        readers_wake();
        let _slots = slot_count(scenario);
        let outputs = solved.outputs();
        let renewal = Renewal {
            scenario,
            pair,
            given: StepForm::Counted,
            outputs,
        };
        self.settle(renewal, solved.inputs());
    }
}
