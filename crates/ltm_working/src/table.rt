//! The working table of a repair, and what each call makes of its desk.
ghost use Rattle.std.specs.Prelude.{◌≡◌, ◌≢◌, ◌↔◌, ◌<◌, ◌≤◌, ℕ, IfOk, OnOk, IsTrue, Some, None, false};
ghost use Rattle.ltm_curve.specs.Table.{counts_of};
ghost use Rattle.ltm_curve.specs.Cells.{is_changed, cell_slots, HasCells};
ghost use Rattle.ltm_frontier.specs.Frontier.{slots_in};
ghost use Rattle.ltm_index.specs.Lists.{slots_listed};
ghost use Rattle.ltm_loading.specs.Setting.{Setting};
ghost use Rattle.ltm_loading.specs.Groups.{groups};
ghost use Rattle.ltm_scenario.specs.Data.{ScenarioData};
ghost use Rattle.ltm_setting.specs.Setting.{setting_of};
ghost use Rattle.ltm_loading.specs.Shaped.{IsShaped};
ghost use Rattle.ltm_repair.specs.Counting.{claims_out};
ghost use Rattle.ltm_repair.specs.Desk.{IsAtRest};
ghost use Rattle.ltm_repair.specs.Moves.{GivesBack};
ghost use Rattle.ltm_working.specs.Cells.{count_cells};
ghost use Rattle.ltm_working.specs.Scenarios.{IsReadyFor, changed_for, desk_for};
ghost use Rattle.ltm_units.specs.Bounds.{most_slots};

use crate::batches::{mark_from, mark_touched};
use crate::opening::Opening;
use crate::room::wide_room;
use ltm_curve::{Changed, Curves};
use ltm_frontier::Frontier;
use ltm_pairs::ReadIndex;
use ltm_rows::{ClaimRows, KeptRows};
use ltm_scenario::{Edit, Scenario};
use ltm_setting::{group_count, is_setting, node_count, slot_count};
use ltm_units::{NoMemory, Pair};
use std::alloc::Global;

/// The greatest count of numbers that the inputs of a pair are: room for them serves every claim.
pub const WIDEST: u32 = 36_010;

/// What a repair works on: the counts, the inputs that are kept of each pair without its counts, the active and the
/// claimed pairs with the inputs of the claims, for each link and boundary the slots that read there, and the cells that
/// commits have changed.
pub struct Table {
    pub(crate) curves: Curves,
    pub(crate) kept: KeptRows,
    pub(crate) frontier: Frontier,
    pub(crate) claims: ClaimRows,
    pub(crate) index: ReadIndex,
    pub(crate) changed: Changed,
}

// By hand, so that letting go of a table is one call, and not its parts one by one wherever that may happen.
impl Drop for Table {
    fn drop(self) {
        let Table {
            curves: _curves,
            kept: _kept,
            frontier: _frontier,
            claims: _claims,
            index: _index,
            changed: _changed,
        } = self;
    }
}

impl Table {
    ghost use Rattle.ltm_working.specs.Desks.{desk_at, changed_at, curves_of, cells_of};
    ghost use Rattle.ltm_working.specs.Ready.{FitsTable, IsReady, IsOpened};
    ghost use Rattle.ltm_working.specs.Growing.{horizon_of, at_horizon, TableHasRoom, TableSeenAs, Lengthens};
    ghost use Rattle.ltm_rows.specs.Rows.{slots_kept};
    ghost use Rattle.ltm_working.specs.Batches.{LeadsTo, TakesIn};

    /// The table of the loading of a scenario, at rest.
    pub fn create(alloc: Global, scenario: &Scenario) -> Result<Table, NoMemory>
        ensures { IfOk result (IsOpened (setting_of scenario.now)) }
    {
        is_setting(scenario);
        let nodes = node_count(scenario);
        let slots = slot_count(scenario);
        let Opening {
            curves,
            kept,
            index,
            ..
        } = Opening::load(alloc, scenario)?;
        let frontier = Frontier::create(alloc, nodes, slots)?;
        let claims = ClaimRows::create(alloc, scenario)?;
        let changed = Changed::create(alloc, group_count(scenario), slots)?;
        Ok(Table {
            curves,
            kept,
            frontier,
            claims,
            index,
            changed,
        })
    }

    /// The working counts.
    #[inline]
    pub fn curves(&self) -> &Curves
        ensures curves { result.now ≡ curves_of self.now }
        ensures counts { (s : Setting) → (desk_at s self.now).counts ≡ counts_of result.now }
        ensures shape { (s : Setting) → IsReady s self.now → IsShaped s result.now }
    {
        &self.curves
    }

    /// The cells in which a commit has changed some count since they were last cleared.
    #[inline]
    pub fn cells(&self) -> &Changed
        ensures cells { result.now ≡ cells_of self.now }
        ensures shape { (s : Setting) → IsReady s self.now
            → HasCells result.now (groups s) s.slots }
        ensures changed { (s : Setting) (g k : ℕ) → g < groups s → k ≤ s.slots
            → is_changed result.now g k ≡ changed_at s self.now g k }
    {
        &self.changed
    }

    /// How many cells these are.
    #[inline]
    pub fn changed(&self) -> u64
        ensures { (s : Setting) → IsReady s self.now
            → result ≡ count_cells s (changed_at s self.now) }
    {
        self.changed.count()
    }

    /// Clears the changed cells.
    pub fn clear_changed(&mut self)
        ensures ready { (s : Setting) → IsReady s self.old → IsReady s self.new }
        ensures desk { (s : Setting) → desk_at s self.new ≡ desk_at s self.old }
        ensures none { (s : Setting) (g k : ℕ) → changed_at s self.new g k ≡ false }
    {
        self.changed.clear();
    }

    /// How many pairs are claimed.
    #[inline]
    pub fn claimed(&self) -> u32
        ensures { (s : Setting) → IsReady s self.now
            → result ≡ claims_out s.nodes s.slots (desk_at s self.now) }
    {
        self.frontier.claimed()
    }

    /// Whether no pair is active or claimed.
    pub fn is_at_rest(&self, scenario: &Scenario) -> bool
        requires { IsReadyFor scenario.now self.now }
        ensures { IsTrue result
            ↔ IsAtRest (setting_of scenario.now) (desk_for scenario.now self.now) }
    {
        match self.frontier.front() {
            None => return true,
            Some(_) => return false,
        }
    }

    /// Whether the pair is active. It may be any pair.
    pub fn is_active(&self, scenario: &Scenario, pair: Pair) -> bool
        requires { IsReadyFor scenario.now self.now }
        ensures { result ≡ (desk_for scenario.now self.now).active pair.node.0 pair.slot }
    {
        if pair.node.0 >= node_count(scenario) {
            return false;
        }
        if pair.slot >= slot_count(scenario) {
            return false;
        }
        self.frontier.is_active(pair)
    }

    /// Whether the pair is claimed with these inputs. It may be any pair.
    pub fn holds(&self, scenario: &Scenario, pair: Pair, row: &[u64]) -> bool
        requires { IsReadyFor scenario.now self.now }
        ensures { IsTrue result
            ↔ ((desk_for scenario.now self.now).claimed pair.node.0 pair.slot
            ≡ Some row.now) }
    {
        if pair.node.0 >= node_count(scenario) {
            return false;
        }
        if pair.slot >= slot_count(scenario) {
            return false;
        }
        if !self.frontier.is_claimed(pair) {
            return false;
        }
        self.claims.is_still_row(pair.node.0 as usize, row)
    }

    /// Makes a claimed pair active again.
    pub fn give_back(&mut self, scenario: &Scenario, pair: Pair)
        requires ready { IsReadyFor scenario.now self.old }
        requires claimed { (desk_for scenario.now self.old).claimed pair.node.0 pair.slot ≢ None }
        ensures ready { IsReadyFor scenario.now self.new }
        ensures desk { GivesBack (desk_for scenario.now self.old) pair.node.0 pair.slot
            (desk_for scenario.now self.new) }
        ensures changed { changed_for scenario.now self.new
            ≡ changed_for scenario.now self.old }
    {
        self.frontier.release(pair);
        self.frontier.mark(pair);
    }

    /// Makes room for so many slots, and for more where `wide_room` says so. Nothing else that is seen changes, also with want
    /// of memory.
    pub fn reserve(&mut self, slots: u32) -> Result<(), NoMemory>
        requires { slots ≤ most_slots }
        ensures seen { TableSeenAs self.old self.new }
        ensures room { OnOk result (TableHasRoom self.new slots) }
    {
        let room = wide_room(self.curves.room(), slots);
        let curves = self.curves.reserve(room);
        let kept = self.kept.reserve(room as usize);
        let frontier = self.frontier.reserve(room);
        let index = self.index.reserve(room);
        let changed = self.changed.reserve(room);
        match (curves, kept, frontier, index, changed) {
            (Ok(()), Ok(()), Ok(()), Ok(()), Ok(())) => return Ok(()),
            _ => return Err(NoMemory),
        }
    }

    /// Raises the horizon within the room.
    fn lengthen(&mut self, slots: u32)
        requires curves { horizon_of self.old ≤ slots }
        requires kept { slots_kept self.old.kept ≤ slots }
        requires pairs { slots_in self.old.frontier ≤ slots }
        requires lists { slots_listed self.old.index ≤ slots }
        requires cells { cell_slots self.old.changed ≤ slots }
        requires room { TableHasRoom self.old slots }
        ensures { Lengthens self.old self.new slots }
    {
        self.curves.lengthen(slots);
        self.kept.lengthen(slots as usize);
        self.frontier.lengthen(slots);
        self.index.lengthen(slots);
        self.changed.lengthen(slots);
    }

    /// Takes an accepted batch in: claims are void, what was active or claimed or is touched is active, and so are the pairs
    /// of slots by which the horizon is longer. The scenario is the one after the batch, for whose horizon there is room.
    pub fn take_in(&mut self, scenario: &Scenario, edits: &[Edit])
        requires fits { FitsTable (at_horizon (setting_of scenario.now)
            (horizon_of self.old)) self.old }
        requires longer { horizon_of self.old ≤ (setting_of scenario.now).slots }
        requires room { TableHasRoom self.old (setting_of scenario.now).slots }
        ensures { (before : ScenarioData) → LeadsTo before scenario.now edits.now
            → IsReadyFor before self.old
            → TakesIn before scenario.now edits.now self.old self.new }
    {
        is_setting(scenario);
        let before = self.curves.slots();
        self.lengthen(slot_count(scenario));
        self.frontier.void_all();
        mark_touched(scenario, &mut self.frontier, &mut self.kept, edits);
        mark_from(scenario, &mut self.frontier, before);
    }
}
