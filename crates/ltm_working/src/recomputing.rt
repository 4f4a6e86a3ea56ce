//! A pair is found, and its counts are set, in one call.
ghost use Rattle.std.specs.Prelude.{◌≡◌, ◌≤◌};
ghost use Rattle.ltm_curve.specs.Table.{counts_of};
ghost use Rattle.ltm_loading.specs.Pairs.{pair_row};
ghost use Rattle.ltm_repair.specs.Answers.{DropsAtFront};
ghost use Rattle.ltm_setting.specs.Setting.{setting_of};
ghost use Rattle.ltm_working.specs.Searching.{IsFound};
ghost use Rattle.ltm_working.specs.Recomputing.{RecomputesInTable, Recomputes};
ghost use Rattle.ltm_working.specs.Scenarios.{IsReadyFor, changed_for, desk_for};
ghost use Rattle.ltm_units.specs.Bounds.{widest_row};

use crate::found::Found;
use crate::renewal::Renewal;
use crate::step_form::StepForm;
use crate::table::Table;
use ltm_loading::{counts_by_place, outputs_small, step_by_moves};
use ltm_node::{NodeInputs, NodeOutputs, no_arrivals, same_shape, write_moves};
use ltm_pairs::readers_wake;
use ltm_scenario::Scenario;
use ltm_setting::{is_setting, slot_count};
use ltm_units::Pair;

impl Table {
    ghost use Rattle.ltm_working.specs.Desks.{curves_of};

    /// Makes the step of a pair that was found, which tells what moves, sets its counts to those of the slot's beginning and
    /// what moves, and keeps its inputs. The pair is marked as claimed meanwhile, and its inputs are not written beside the
    /// claim.
    fn set_found(
        &mut self,
        scenario: &Scenario,
        pair: Pair,
        inputs: &NodeInputs,
        moves: &mut NodeOutputs,
    )
        requires ready { IsReadyFor scenario.now self.old }
        requires found { IsFound (setting_of scenario.now) self.old pair.node.0 pair.slot inputs.now }
        requires room { widest_row ≤ moves.old.room }
        ensures ready { IsReadyFor scenario.now self.new }
        ensures sets { (before : Table)
            → DropsAtFront (setting_of scenario.now) (desk_for scenario.now before)
            (desk_for scenario.now self.old)
            → changed_for scenario.now self.old
            ≡ changed_for scenario.now before
            → RecomputesInTable (setting_of scenario.now) before pair.node.0 pair.slot
            (pair_row (setting_of scenario.now)
            (counts_of (curves_of self.old)) pair.node.0 pair.slot) self.new }
        ensures room { moves.new.room ≡ moves.old.room }
    {
        is_setting(scenario);
        counts_by_place();
        outputs_small();
        step_by_moves();
        same_shape();
        no_arrivals();
        readers_wake();
        let _slots = slot_count(scenario);
        self.frontier.claim_mark(pair);
        write_moves(inputs, moves);
        let renewal = Renewal {
            scenario,
            pair,
            given: StepForm::Moved,
            outputs: moves,
        };
        self.settle(renewal, inputs);
    }

    /// Claims a pair as `claim` does, makes its step and commits it, in one call: no claim is written and compared again.
    /// There is room for the widest row in both buffers. Takes no memory.
    pub fn recompute(
        &mut self,
        scenario: &Scenario,
        inputs: &mut NodeInputs,
        outputs: &mut NodeOutputs,
    ) -> Found
        requires ready { IsReadyFor scenario.now self.old }
        requires inputs { widest_row ≤ inputs.old.room }
        requires outputs { widest_row ≤ outputs.old.room }
        ensures ready { IsReadyFor scenario.now self.new }
        ensures recomputes { Recomputes (setting_of scenario.now) self.old result self.new }
        ensures inputs { inputs.new.room ≡ inputs.old.room }
        ensures outputs { outputs.new.room ≡ outputs.old.room }
    {
        match self.find(scenario, inputs) {
            Found::Work(pair) => {
                self.set_found(scenario, pair, inputs, outputs);
                return Found::Work(pair);
            }
            Found::Wait => return Found::Wait,
            Found::Rest => return Found::Rest,
        }
    }
}
