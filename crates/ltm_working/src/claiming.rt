//! The search for a pair to be worked on.
//!
//! Pairs are claimed slot by slot, from the front on: what a pair of the front slot reads is final. A pair that is active
//! and reads what is kept of it is dropped on the way.
ghost use Rattle.std.specs.Prelude.{◌≡◌, ◌↔◌, ◌<◌, ◌≤◌, ℕ, IsTrue, IsFalse, MatchOption, true};
ghost use Rattle.ltm_curve.specs.Table.{counts_of};
ghost use Rattle.ltm_node.specs.Solvable.{IsSolvable};
ghost use Rattle.ltm_node.specs.Uncounted.{uncounted};
ghost use Rattle.ltm_loading.specs.Uncounted.{IsUncountedPair};
ghost use Rattle.ltm_setting.specs.Setting.{setting_of};
ghost use Rattle.ltm_inputs.specs.Reads.{ReadsFlows};
ghost use Rattle.ltm_frontier.specs.Frontier.{is_active};
ghost use Rattle.ltm_repair.specs.Answers.{HasClaimAt, IsNoneClaimed};
ghost use Rattle.ltm_repair.specs.Desk.{IsSettled};
ghost use Rattle.ltm_repair.specs.Moves.{TakesClaim};
ghost use Rattle.ltm_repair.specs.Index.{IsPlaced};
ghost use Rattle.ltm_working.specs.Searching.{AnswersSearch, FitsFound, IsFound, Finds, answer_of};
ghost use Rattle.ltm_setting.specs.Places.{IsBoundary, IsNode, IsSlot, node_shape};
ghost use Rattle.ltm_working.specs.Scenarios.{IsReadyFor, changed_for, desk_for};
ghost use Rattle.ltm_units.specs.Bounds.{widest_row};

use crate::found::Found;
use crate::places::place_again;
use crate::table::Table;
use ltm_inputs::{count_in, flows_of, weigh, weigh_as};
use ltm_loading::uncounted_in_range;
use ltm_node::NodeInputs;
use ltm_rows::parts_of;
use ltm_scenario::Scenario;
use ltm_setting::{is_setting, node_count, slot_count};
use ltm_units::{NodeId, Pair};

impl Table {
    ghost use Rattle.ltm_working.specs.Desks.{curves_of, place_of};
    ghost use Rattle.ltm_working.specs.Dropping.{IsReadyAt, IsReread, DropsOne, DropsAt, IsPlacedWork, NoneActive, SameWorkAs};

    /// Whether a pair is settled, where what it reads of its links stands in the inputs; if it is not, its weights stand there
    /// then, too. Those that are kept are not read again where they are known to be the scenario's.
    #[inline]
    fn is_settled(&self, scenario: &Scenario, pair: Pair, inputs: &mut NodeInputs) -> bool
        requires ready { IsReadyFor scenario.now self.now }
        requires node { IsNode scenario.now pair.node.0 }
        requires slot { IsSlot scenario.now pair.slot }
        requires flows { ReadsFlows (setting_of scenario.now) (counts_of (curves_of self.now))
            pair.node.0 pair.slot inputs.old }
        ensures settled { IsTrue result ↔ IsSettled (setting_of scenario.now)
            (desk_for scenario.now self.now) pair.node.0 pair.slot }
        ensures inputs { IsFalse result → IsUncountedPair (setting_of scenario.now)
            (counts_of (curves_of self.now)) pair.node.0 pair.slot (uncounted inputs.new) }
        ensures room { inputs.new.room ≡ inputs.old.room }
    {
        let (node, slot) = (pair.node.0 as usize, pair.slot as usize);
        if !self.kept.is_weighed(node, slot) {
            weigh(scenario, pair, inputs);
            return self.kept.keeps(node, slot, parts_of(inputs));
        }
        if self.kept.keeps_amounts(node, slot, parts_of(inputs)) {
            return true;
        }
        weigh_as(self.kept.weights(node, slot), inputs);
        false
    }

    /// Reads the inputs of an active pair at the front but for its counts, and places its positions; whether the inputs are
    /// the kept ones. If they are, the weights among them are not told.
    fn reread(&mut self, scenario: &Scenario, pair: Pair, inputs: &mut NodeInputs) -> bool
        requires ready { IsReadyAt (setting_of scenario.now) self.old pair.slot }
        requires node { IsNode scenario.now pair.node.0 }
        requires slot { IsSlot scenario.now pair.slot }
        requires active { is_active self.old.frontier pair.node.0 pair.slot ≡ true }
        requires room { widest_row ≤ inputs.old.room }
        ensures ready { IsReadyFor scenario.now self.new }
        ensures desk { desk_for scenario.now self.new
            ≡ desk_for scenario.now self.old }
        ensures same { self.new ≡ record self.old { index = self.new.index } }
        ensures read { IsReread (setting_of scenario.now) self.new
            pair.node.0 pair.slot result inputs.new }
        ensures room { inputs.new.room ≡ inputs.old.room }
    {
        is_setting(scenario);
        uncounted_in_range();
        let mut positions = [0u32; 4];
        flows_of(scenario, &self.curves, pair, inputs, &mut positions);
        let settled = self.is_settled(scenario, pair, inputs);
        place_again(scenario, &self.curves, pair, &positions, &mut self.index);
        settled
    }

    /// Drops an active pair that is settled and placed.
    fn drop_settled(&mut self, scenario: &Scenario, pair: Pair)
        requires ready { IsReadyAt (setting_of scenario.now) self.old pair.slot }
        requires node { IsNode scenario.now pair.node.0 }
        requires slot { IsSlot scenario.now pair.slot }
        requires active { is_active self.old.frontier pair.node.0 pair.slot ≡ true }
        requires settled { IsSettled (setting_of scenario.now)
            (desk_for scenario.now self.old) pair.node.0 pair.slot }
        requires placed { IsPlaced (setting_of scenario.now)
            (desk_for scenario.now self.old)
            (place_of self.old.index) pair.node.0 pair.slot }
        ensures ready { IsReadyFor scenario.now self.new }
        ensures drops { DropsOne (setting_of scenario.now)
            (desk_for scenario.now self.old) pair.node.0 pair.slot
            (desk_for scenario.now self.new) }
        ensures same { SameWorkAs self.old self.new }
    {
        self.frontier.unmark(pair);
    }

    /// The first active pair of a slot whose inputs differ from the kept ones, with its inputs but for the counts. Settled
    /// pairs before it are dropped; where there is none, all active pairs of the slot.
    #[inline(always)]
    fn find_at(&mut self, scenario: &Scenario, slot: u32, inputs: &mut NodeInputs) -> Option<NodeId>
        requires ready { IsReadyAt (setting_of scenario.now) self.old slot }
        requires slot { IsSlot scenario.now slot }
        requires room { widest_row ≤ inputs.old.room }
        ensures ready { IsReadyFor scenario.now self.new }
        ensures drops { DropsAt (setting_of scenario.now)
            (desk_for scenario.now self.old) slot
            (desk_for scenario.now self.new) }
        ensures found { MatchOption result
            (NoneActive (desk_for scenario.now self.new) slot
            (setting_of scenario.now).nodes)
            (λ node. IsPlacedWork (setting_of scenario.now) self.new node.0 slot inputs.new) }
        ensures same { SameWorkAs self.old self.new }
        ensures room { inputs.new.room ≡ inputs.old.room }
    {
        is_setting(scenario);
        let nodes = node_count(scenario);
        let mut from = NodeId(0);
        while from.0 < nodes {
            let Some(node) = self.frontier.next_active(slot, from) else {
                return None;
            };
            let pair = Pair { node, slot };
            if !self.reread(scenario, pair, inputs) {
                return Some(node);
            }
            self.drop_settled(scenario, pair);
            from = NodeId(node.0 + 1);
        }
        None
    }

    /// Claims a pair that was found, whose counts are written into its inputs.
    fn take(&mut self, scenario: &Scenario, pair: Pair, inputs: &mut NodeInputs)
        requires ready { IsReadyFor scenario.now self.old }
        requires found { IsFound (setting_of scenario.now) self.old pair.node.0 pair.slot inputs.old }
        ensures ready { IsReadyFor scenario.now self.new }
        ensures takes { TakesClaim (setting_of scenario.now)
            (desk_for scenario.now self.old) pair.node.0 pair.slot inputs.new.row
            (desk_for scenario.now self.new) }
        ensures changed { changed_for scenario.now self.new
            ≡ changed_for scenario.now self.old }
        ensures shape { inputs.new.shape ≡ node_shape scenario.now pair.node.0 }
        ensures solvable { IsSolvable inputs.new }
        ensures room { inputs.new.room ≡ inputs.old.room }
    {
        is_setting(scenario);
        count_in(scenario, &self.curves, pair, inputs);
        self.claims.put(pair.node.0 as usize, inputs.row());
        self.frontier.claim_mark(pair);
    }

    /// The first pair to be worked on at the slot of the claims that are out, if there is one yet. Kept out of line.
    #[inline(never)]
    fn find_beside(&mut self, scenario: &Scenario, slot: u32, inputs: &mut NodeInputs) -> Found
        requires ready { IsReadyFor scenario.now self.old }
        requires out { HasClaimAt (setting_of scenario.now)
            (desk_for scenario.now self.old) slot }
        requires room { widest_row ≤ inputs.old.room }
        ensures ready { IsReadyFor scenario.now self.new }
        ensures finds { Finds (setting_of scenario.now)
            (desk_for scenario.now self.old) result inputs.new self.new }
        ensures same { SameWorkAs self.old self.new }
        ensures room { inputs.new.room ≡ inputs.old.room }
    {
        match self.find_at(scenario, slot, inputs) {
            Some(node) => return Found::Work(Pair { node, slot }),
            None => return Found::Wait,
        }
    }

    /// The first pair to be worked on, from a slot on before which every pair is idle, where none is claimed.
    #[inline(always)]
    fn find_first(&mut self, scenario: &Scenario, front: u32, inputs: &mut NodeInputs) -> Found
        requires ready { IsReadyAt (setting_of scenario.now) self.old front }
        requires front { IsBoundary scenario.now front }
        requires none { IsNoneClaimed (setting_of scenario.now)
            (desk_for scenario.now self.old) }
        requires room { widest_row ≤ inputs.old.room }
        ensures ready { IsReadyFor scenario.now self.new }
        ensures finds { Finds (setting_of scenario.now)
            (desk_for scenario.now self.old) result inputs.new self.new }
        ensures same { SameWorkAs self.old self.new }
        ensures room { inputs.new.room ≡ inputs.old.room }
    {
        for slot in front..slot_count(scenario) {
            if let Some(node) = self.find_at(scenario, slot, inputs) {
                return Found::Work(Pair { node, slot });
            }
        }
        Found::Rest
    }

    /// The least slot of a pair that is active or claimed, or the horizon. It is not sought below that slot again until a
    /// pair there becomes active.
    fn front(&mut self, scenario: &Scenario) -> u32
        requires { IsReadyFor scenario.now self.old }
        ensures ready { IsReadyAt (setting_of scenario.now) self.new result }
        ensures within { IsBoundary scenario.now result }
        ensures claims { (v : ℕ)
            → HasClaimAt (setting_of scenario.now) (desk_for scenario.now self.new) v
            → v ≡ result }
        ensures desk { desk_for scenario.now self.new
            ≡ desk_for scenario.now self.old }
        ensures same { SameWorkAs self.old self.new }
    {
        match self.frontier.advance() {
            Some(slot) => return slot,
            None => return slot_count(scenario),
        }
    }

    /// A pair of the front slot whose inputs differ from the kept ones, wherever it is. Kept out of line.
    #[inline(never)]
    fn find_far(&mut self, scenario: &Scenario, inputs: &mut NodeInputs) -> Found
        requires ready { IsReadyFor scenario.now self.old }
        requires room { widest_row ≤ inputs.old.room }
        ensures ready { IsReadyFor scenario.now self.new }
        ensures finds { Finds (setting_of scenario.now)
            (desk_for scenario.now self.old) result inputs.new self.new }
        ensures changed { changed_for scenario.now self.new
            ≡ changed_for scenario.now self.old }
        ensures room { inputs.new.room ≡ inputs.old.room }
    {
        let front = self.front(scenario);
        if self.frontier.claimed() > 0 {
            return self.find_beside(scenario, front, inputs);
        }
        self.find_first(scenario, front, inputs)
    }

    /// A pair of the front slot whose inputs differ from the kept ones, with its inputs but for the counts, for which there is
    /// room for the widest row. Settled pairs that it passes are dropped; while claims are out, at their slot alone. The pair that
    /// is nearest at the front is looked at first, and others are sought only if it is not to be worked on.
    #[inline(always)]
    pub(crate) fn find(&mut self, scenario: &Scenario, inputs: &mut NodeInputs) -> Found
        requires ready { IsReadyFor scenario.now self.old }
        requires room { widest_row ≤ inputs.old.room }
        ensures ready { IsReadyFor scenario.now self.new }
        ensures finds { Finds (setting_of scenario.now)
            (desk_for scenario.now self.old) result inputs.new self.new }
        ensures changed { changed_for scenario.now self.new
            ≡ changed_for scenario.now self.old }
        ensures room { inputs.new.room ≡ inputs.old.room }
    {
        is_setting(scenario);
        let Some(pair) = self.frontier.advance_near() else {
            return self.find_far(scenario, inputs);
        };
        if !self.reread(scenario, pair, inputs) {
            return Found::Work(pair);
        }
        self.drop_settled(scenario, pair);
        self.find_far(scenario, inputs)
    }

    /// Claims a pair of the front slot whose inputs differ from the kept ones, and writes its inputs, for which there is
    /// room for the widest row. Settled pairs that it passes are dropped; while claims are out, at their slot alone.
    pub fn claim(&mut self, scenario: &Scenario, inputs: &mut NodeInputs) -> Found
        requires ready { IsReadyFor scenario.now self.old }
        requires room { widest_row ≤ inputs.old.room }
        ensures ready { IsReadyFor scenario.now self.new }
        ensures answer { (ticket : ℕ)
            → AnswersSearch (setting_of scenario.now) (desk_for scenario.now self.old)
            (answer_of ticket result inputs.new.row) (desk_for scenario.now self.new) }
        ensures fits { FitsFound (setting_of scenario.now) result inputs.new }
        ensures room { inputs.new.room ≡ inputs.old.room }
        ensures changed { changed_for scenario.now self.new
            ≡ changed_for scenario.now self.old }
    {
        match self.find(scenario, inputs) {
            Found::Work(pair) => {
                self.take(scenario, pair, inputs);
                return Found::Work(pair);
            }
            Found::Wait => return Found::Wait,
            Found::Rest => return Found::Rest,
        }
    }
}
