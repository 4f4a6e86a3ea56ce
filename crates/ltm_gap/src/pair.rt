//! Searches from the two ends of a slot, and what they give of those who are produced in it.
ghost use Rattle.std.specs.Prelude.{◌≡◌, ◌<◌, ◌≤◌, ◌+◌, ◌*◌, ◌^◌, ℕ, length, OnOk, IfOk, false};
ghost use Rattle.ltm_setting.specs.Setting.{setting_of};
ghost use Rattle.ltm_setting.specs.Places.{IsDestination, IsNode, IsSlot};
ghost use Rattle.ltm_flows.specs.Origins.{produced_in_all};
ghost use Rattle.ltm_gap.specs.Parts.{AddsOwned};
ghost use Rattle.ltm_gap.specs.Told.{Suits};
ghost use Rattle.ltm_gap.specs.Steps.{IsAt, IsPair, IsFound, IsIdle, IsCut, AreSums, IsMore, AddsSlot, AddsSlots};
ghost use Rattle.ltm_units.specs.Bounds.{most_produced, most_slots};

use crate::cutting::{Cut, Made, cut_slot};
use crate::search::find;
use crate::slot::{at_slot, place_of, units_in};
use crate::sums::{Sum, share_of};
use ltm_flows::Loading;
use ltm_scenario::Scenario;
use ltm_search::Search;
use ltm_setting::{destination_count, is_setting, node_count, produced_total, slot_count};
use ltm_units::{NoMemory, NodeId};
use std::alloc::Global;
use std::mem;

/// A search from the start of a slot, one from its end, and one for what lies between. The first may be known, as the last of
/// the slot before.
#[derive(Drop)]
pub struct Pair {
    first: Search,
    last: Search,
    within: Search,
    known: bool,
}

impl Pair {
    pub(crate) fn create(alloc: Global, scenario: &Scenario) -> Result<Pair, NoMemory>
        ensures { IfOk result (IsIdle (setting_of scenario.now)) }
    {
        let first = Search::create(alloc, node_count(scenario))?;
        let last = Search::create(alloc, node_count(scenario))?;
        let within = Search::create(alloc, node_count(scenario))?;
        Ok(Pair {
            first,
            last,
            within,
            known: false,
        })
    }

    /// Sees to it that the first search was made from the start of a slot.
    fn find_first(
        &mut self,
        scenario: &Scenario,
        loading: &Loading,
        origin: NodeId,
        slot: u32,
    ) -> Result<(), NoMemory>
        requires suits { Suits (setting_of scenario.now) loading.now }
        requires origin { IsNode scenario.now origin.0 }
        requires slot { IsSlot scenario.now slot }
        requires pair { IsPair (setting_of scenario.now) loading.now origin.0 slot self.old }
        ensures first { OnOk result (IsAt (setting_of scenario.now) loading.now origin.0 slot
            self.new.first) }
        ensures last { OnOk result (self.new.last ≡ self.old.last) }
        ensures within { OnOk result (self.new.within ≡ self.old.within) }
    {
        if self.known {
            return Ok(());
        }
        let number = produced_total(scenario, origin, slot);
        find(&mut self.first, scenario, loading, origin, slot, number)
    }

    /// How many of those who are produced in a slot come to a node by the end.
    fn cut_at(
        &mut self,
        scenario: &Scenario,
        loading: &Loading,
        made: Made,
        node: NodeId,
    ) -> Result<Cut, NoMemory>
        requires suits { Suits (setting_of scenario.now) loading.now }
        requires origin { IsNode scenario.now made.origin.0 }
        requires slot { IsSlot scenario.now made.slot }
        requires node { IsNode scenario.now node.0 }
        requires before { made.before
            ≡ produced_in_all (setting_of scenario.now) made.origin.0 made.slot }
        requires after { made.after
            ≡ produced_in_all (setting_of scenario.now) made.origin.0 (made.slot + 1) }
        requires some { made.before < made.after }
        requires few { made.after ≤ most_produced }
        requires pair { IsFound (setting_of scenario.now) loading.now made.origin.0 made.slot self.old }
        ensures pair { OnOk result (IsFound (setting_of scenario.now) loading.now made.origin.0 made.slot
            self.new) }
        ensures cut { IfOk result (IsCut (setting_of scenario.now) loading.now made.origin.0 made.slot
            node.0) }
    {
        let ends = (self.first.arrival(node), self.last.arrival(node));
        cut_slot(&mut self.within, scenario, loading, made, node, ends)
    }

    /// A sum with those who are produced at an origin for a destination in a slot, once it is known how many arrive.
    fn sum_with(
        &self,
        scenario: &Scenario,
        loading: &Loading,
        made: Made,
        destination: u32,
        cut: Cut,
        sum: Sum,
    ) -> Sum
        requires destination { IsDestination scenario.now destination }
        requires slot { IsSlot scenario.now made.slot }
        requires before { made.before
            ≡ produced_in_all (setting_of scenario.now) made.origin.0 made.slot }
        requires after { made.after
            ≡ produced_in_all (setting_of scenario.now) made.origin.0 (made.slot + 1) }
        requires some { made.before < made.after }
        requires pair { IsFound (setting_of scenario.now) loading.now made.origin.0 made.slot self.now }
        requires cut { IsCut (setting_of scenario.now) loading.now made.origin.0 made.slot
            ((setting_of scenario.now).place destination) cut }
        requires twice_room { sum.twice ≤ 2 ^ 120 }
        requires late_room { sum.late ≤ 2 ^ 120 }
        ensures { IsMore (setting_of scenario.now) loading.now made.origin.0 made.slot destination sum
            result }
    {
        let at = at_slot(scenario, made.slot);
        let units = units_in(scenario, made.origin, destination, made.slot);
        let all = made.after - made.before;
        let late = share_of(units, all - cut.arriving, all);
        let first = self.first.arrival(place_of(scenario, destination));
        sum.with(units, late, at, first, cut.last)
    }

    /// A sum with those who are produced at an origin for a destination in a slot. Where there are none, nothing is looked for.
    fn add_to(
        &mut self,
        scenario: &Scenario,
        loading: &Loading,
        made: Made,
        destination: u32,
        sum: Sum,
    ) -> Result<Sum, NoMemory>
        requires suits { Suits (setting_of scenario.now) loading.now }
        requires origin { IsNode scenario.now made.origin.0 }
        requires slot { IsSlot scenario.now made.slot }
        requires destination { IsDestination scenario.now destination }
        requires before { made.before
            ≡ produced_in_all (setting_of scenario.now) made.origin.0 made.slot }
        requires after { made.after
            ≡ produced_in_all (setting_of scenario.now) made.origin.0 (made.slot + 1) }
        requires some { made.before < made.after }
        requires few { made.after ≤ most_produced }
        requires pair { IsFound (setting_of scenario.now) loading.now made.origin.0 made.slot self.old }
        requires twice_room { sum.twice ≤ 2 ^ 120 }
        requires late_room { sum.late ≤ 2 ^ 120 }
        ensures pair { OnOk result (IsFound (setting_of scenario.now) loading.now made.origin.0 made.slot
            self.new) }
        ensures sum { IfOk result (IsMore (setting_of scenario.now) loading.now made.origin.0 made.slot
            destination sum) }
    {
        if units_in(scenario, made.origin, destination, made.slot) == 0 {
            return Ok(sum);
        }
        let cut = self.cut_at(scenario, loading, made, place_of(scenario, destination))?;
        Ok(self.sum_with(scenario, loading, made, destination, cut, sum))
    }

    /// Adds those who are produced at an origin in a slot.
    fn add_units(
        &mut self,
        scenario: &Scenario,
        loading: &Loading,
        made: Made,
        sums: &mut Vec<Sum>,
    ) -> Result<(), NoMemory>
        requires suits { Suits (setting_of scenario.now) loading.now }
        requires origin { IsNode scenario.now made.origin.0 }
        requires slot { IsSlot scenario.now made.slot }
        requires before { made.before
            ≡ produced_in_all (setting_of scenario.now) made.origin.0 made.slot }
        requires after { made.after
            ≡ produced_in_all (setting_of scenario.now) made.origin.0 (made.slot + 1) }
        requires some { made.before < made.after }
        requires few { made.after ≤ most_produced }
        requires pair { IsFound (setting_of scenario.now) loading.now made.origin.0 made.slot self.old }
        requires count { length sums.old.items ≡ (setting_of scenario.now).destinations }
        requires room { AreSums (2 ^ 31) sums.old.items }
        ensures pair { OnOk result (IsFound (setting_of scenario.now) loading.now made.origin.0 made.slot
            self.new) }
        ensures count { OnOk result (length sums.new.items ≡ length sums.old.items) }
        ensures adds { OnOk result (AddsSlot (setting_of scenario.now) loading.now made.origin.0 made.slot
            sums.old.items sums.new.items) }
        ensures small { OnOk result ((parts : ℕ) → AreSums parts sums.old.items → AreSums (parts + 1) sums.new.items) }
    {
        for destination in 0..destination_count(scenario) {
            let sum = sums[destination as usize];
            sums[destination as usize] = self.add_to(scenario, loading, made, destination, sum)?;
        }
        Ok(())
    }

    /// Finds the arrivals from both ends of a slot, and adds those who are produced in it.
    fn add_found(
        &mut self,
        scenario: &Scenario,
        loading: &Loading,
        made: Made,
        sums: &mut Vec<Sum>,
    ) -> Result<(), NoMemory>
        requires suits { Suits (setting_of scenario.now) loading.now }
        requires origin { IsNode scenario.now made.origin.0 }
        requires slot { IsSlot scenario.now made.slot }
        requires before { made.before
            ≡ produced_in_all (setting_of scenario.now) made.origin.0 made.slot }
        requires after { made.after
            ≡ produced_in_all (setting_of scenario.now) made.origin.0 (made.slot + 1) }
        requires some { made.before < made.after }
        requires few { made.after ≤ most_produced }
        requires pair { IsPair (setting_of scenario.now) loading.now made.origin.0 made.slot self.old }
        requires count { length sums.old.items ≡ (setting_of scenario.now).destinations }
        requires room { AreSums (2 ^ 31) sums.old.items }
        ensures pair { OnOk result (IsPair (setting_of scenario.now) loading.now made.origin.0
            (made.slot + 1) self.new) }
        ensures count { OnOk result (length sums.new.items ≡ length sums.old.items) }
        ensures adds { OnOk result (AddsSlot (setting_of scenario.now) loading.now made.origin.0 made.slot
            sums.old.items sums.new.items) }
        ensures small { OnOk result ((parts : ℕ) → AreSums parts sums.old.items → AreSums (parts + 1) sums.new.items) }
    {
        self.find_first(scenario, loading, made.origin, made.slot)?;
        find(
            &mut self.last,
            scenario,
            loading,
            made.origin,
            made.slot + 1,
            made.after,
        )?;
        self.add_units(scenario, loading, made, sums)?;
        mem::swap(&mut self.first, &mut self.last);
        self.known = true;
        Ok(())
    }

    /// Adds those who are produced at an origin in a slot. Where there are none, nothing is looked for.
    fn add_slot(
        &mut self,
        scenario: &Scenario,
        loading: &Loading,
        origin: NodeId,
        slot: u32,
        sums: &mut Vec<Sum>,
    ) -> Result<(), NoMemory>
        requires suits { Suits (setting_of scenario.now) loading.now }
        requires origin { IsNode scenario.now origin.0 }
        requires slot { IsSlot scenario.now slot }
        requires pair { IsPair (setting_of scenario.now) loading.now origin.0 slot self.old }
        requires count { length sums.old.items ≡ (setting_of scenario.now).destinations }
        requires room { AreSums (2 ^ 31) sums.old.items }
        ensures pair { OnOk result (IsPair (setting_of scenario.now) loading.now origin.0 (slot + 1)
            self.new) }
        ensures count { OnOk result (length sums.new.items ≡ length sums.old.items) }
        ensures adds { OnOk result (AddsSlot (setting_of scenario.now) loading.now origin.0 slot
            sums.old.items sums.new.items) }
        ensures small { OnOk result ((parts : ℕ) → AreSums parts sums.old.items → AreSums (parts + 1) sums.new.items) }
    {
        is_setting(scenario);
        let before = produced_total(scenario, origin, slot);
        let after = produced_total(scenario, origin, slot + 1);
        if after <= before {
            self.known = false;
            return Ok(());
        }
        let made = Made {
            origin,
            slot,
            before,
            after,
        };
        self.add_found(scenario, loading, made, sums)
    }

    /// Adds those who are produced at an origin.
    fn add_origin(
        &mut self,
        scenario: &Scenario,
        loading: &Loading,
        origin: NodeId,
        sums: &mut Vec<Sum>,
    ) -> Result<(), NoMemory>
        requires suits { Suits (setting_of scenario.now) loading.now }
        requires origin { IsNode scenario.now origin.0 }
        requires pair { IsIdle (setting_of scenario.now) self.old }
        requires count { length sums.old.items ≡ (setting_of scenario.now).destinations }
        requires room { AreSums (2 ^ 30) sums.old.items }
        ensures pair { OnOk result (IsIdle (setting_of scenario.now) self.new) }
        ensures count { OnOk result (length sums.new.items ≡ length sums.old.items) }
        ensures adds { OnOk result (AddsSlots (setting_of scenario.now) loading.now origin.0
            (setting_of scenario.now).slots sums.old.items sums.new.items) }
        ensures small { OnOk result ((parts : ℕ) → AreSums parts sums.old.items
            → AreSums (parts + most_slots) sums.new.items) }
    {
        self.known = false;
        for slot in 0..slot_count(scenario) {
            self.add_slot(scenario, loading, origin, slot, sums)?;
        }
        Ok(())
    }

    /// Adds those who are produced at an origin, where it belongs to a part.
    pub(crate) fn add_owned(
        &mut self,
        scenario: &Scenario,
        loading: &Loading,
        owners: &[usize],
        part: usize,
        origin: NodeId,
        sums: &mut Vec<Sum>,
    ) -> Result<(), NoMemory>
        requires suits { Suits (setting_of scenario.now) loading.now }
        requires owners { length owners.now ≡ (setting_of scenario.now).nodes }
        requires origin { IsNode scenario.now origin.0 }
        requires pair { IsIdle (setting_of scenario.now) self.old }
        requires count { length sums.old.items ≡ (setting_of scenario.now).destinations }
        requires room { AreSums (2 ^ 30) sums.old.items }
        ensures pair { OnOk result (IsIdle (setting_of scenario.now) self.new) }
        ensures count { OnOk result (length sums.new.items ≡ length sums.old.items) }
        ensures adds { OnOk result (AddsOwned (setting_of scenario.now) loading.now owners.now part
            origin.0 sums.old.items sums.new.items) }
        ensures small { OnOk result ((parts : ℕ) → AreSums parts sums.old.items
            → AreSums (parts + most_slots) sums.new.items) }
    {
        if owners[origin.0 as usize] != part {
            return Ok(());
        }
        self.add_origin(scenario, loading, origin, sums)
    }
}
