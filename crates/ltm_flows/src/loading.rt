//! A finished loading, as others read it.
ghost use Rattle.std.specs.Prelude.{◌≡◌, ◌≤◌, ◌<◌, ◌+◌, ◌*◌, ℕ, length, IfOk, OnOk};
ghost use Rattle.ltm_curve.specs.Cells.{HasCells};
ghost use Rattle.ltm_curve.specs.Counts.{Counts};
ghost use Rattle.ltm_curve.specs.Table.{counts_of};
ghost use Rattle.ltm_curve.specs.TotalCurves.{total_groups, total_slots, total_at, HasTotals};
ghost use Rattle.ltm_loading.specs.Setting.{Setting, IsSetting};
ghost use Rattle.ltm_loading.specs.Groups.{groups};
ghost use Rattle.ltm_loading.specs.Loading.{IsLoading};
ghost use Rattle.ltm_flows.specs.Arrivals.{AreMovedTotals};
ghost use Rattle.ltm_setting.specs.Setting.{setting_of};
ghost use Rattle.ltm_setting.specs.Places.{IsShapedFor, all_groups};
ghost use Rattle.ltm_units.specs.Bounds.{longest_step, most_links, most_nodes, most_slots};

mod reading;

use crate::arrivals::write_arrivals;
use crate::production::Production;
use crate::tables::{free_times, production, write_free_times};
use ltm_curve::{Changed, Curves, TotalCurves};
use ltm_loading::{never_fall, totals_small};
use ltm_scenario::Scenario;
use ltm_setting::{is_setting, link_count, little_is_produced, node_count, step};
use ltm_units::{LinkId, Millis, NoMemory, NodeId};
use std::alloc::Global;

/// A finished loading with its version, the totals of its groups by boundary, the free-flow times of its links and what
/// each of its origins has produced. Counts by destination are not kept.
///
/// It stands on its own: the scenario may change once the loading is made. What origins have produced takes 8 bytes for each
/// node and boundary.
pub struct Loading {
    version: u64,
    step: Millis,
    links: u32,
    nodes: u32,
    free: Vec<Millis>,
    production: Production,
    curves: TotalCurves,
    ghost some_step: { 1 ≤ step.0 },
    ghost short_step: { step.0 ≤ longest_step },
    ghost few_links: { links ≤ most_links },
    ghost few_nodes: { nodes ≤ most_nodes },
    ghost groups: { total_groups curves ≡ 2 * links + nodes + 1 },
    ghost times: { length free.items ≡ links },
    ghost few_slots: { total_slots curves ≤ most_slots },
    ghost origins: { production.nodes ≡ nodes },
    ghost amounts: { total_slots curves ≤ production.room },
    ghost rises: { (g k : ℕ) → g < total_groups curves → k < total_slots curves → total_at curves g k ≤ total_at curves g (k + 1) },
}

// By hand, so that letting go of a loading is one call, and not its parts one by one wherever that may happen.
impl Drop for Loading {
    fn drop(self) {
        let Loading {
            version: _version,
            step: _step,
            links: _links,
            nodes: _nodes,
            free: _free,
            production: _production,
            curves: _curves,
        } = self;
    }
}

impl Loading {
    ghost use Rattle.ltm_flows.specs.Shown.{
      version_of,
      step_of,
      links_of,
      nodes_of,
      curves_of,
      last_of,
      free_of,
      loading_room,
      ShowsCounts,
      Shows,
      Fits,
      AgreesOutside,
      HasProduction,
      SameButProduction,
      RenewsProduction,
      SameLoading,
    };

    /// The loading of a scenario, from its finished curves, of which the totals are kept.
    pub fn create(
        alloc: Global,
        scenario: &Scenario,
        curves: &Curves,
        version: u64,
    ) -> Result<Loading, NoMemory>
        requires shape { IsShapedFor scenario.now curves.now }
        requires loading { IsLoading (setting_of scenario.now) (counts_of curves.now) }
        ensures { IfOk result (ShowsCounts (setting_of scenario.now) version
            (counts_of curves.now)) }
    {
        totals_small();
        never_fall();
        is_setting(scenario);
        little_is_produced(scenario);
        let free = free_times(alloc, scenario)?;
        let production = production(alloc, scenario)?;
        let curves = TotalCurves::of(alloc, curves)?;
        Ok(Loading {
            version,
            step: step(scenario),
            links: link_count(scenario),
            nodes: node_count(scenario),
            free,
            production,
            curves,
        })
    }

    /// The loading of a scenario, from the totals of its links and origins by boundary. What has arrived is what has left the
    /// origins and is on no link: the last group is written here.
    pub fn of_totals(
        alloc: Global,
        scenario: &Scenario,
        curves: TotalCurves,
        version: u64,
    ) -> Result<Loading, NoMemory>
        requires shape { HasTotals curves (all_groups scenario.now)
            (setting_of scenario.now).slots }
        requires moved { AreMovedTotals (setting_of scenario.now) (total_at curves) }
        ensures { IfOk result (Shows (setting_of scenario.now) version) }
    {
        never_fall();
        is_setting(scenario);
        little_is_produced(scenario);
        let mut curves = curves;
        write_arrivals(scenario, &mut curves);
        let free = free_times(alloc, scenario)?;
        let production = production(alloc, scenario)?;
        Ok(Loading {
            version,
            step: step(scenario),
            links: link_count(scenario),
            nodes: node_count(scenario),
            free,
            production,
            curves,
        })
    }

    /// The greatest number of slots for which there is room.
    #[inline]
    pub fn room(&self) -> u32
        ensures value { result ≡ loading_room self.now }
        ensures within { last_of self.now ≤ result }
    {
        self.curves.room().min(self.production.room())
    }

    /// Makes room for so many slots. Nothing else that is seen changes.
    pub fn reserve(&mut self, slots: u32) -> Result<(), NoMemory>
        ensures same { SameLoading self.old self.new }
        ensures shows { (s : Setting) (version : ℕ) (c : Counts) → ShowsCounts s version c self.old
            → ShowsCounts s version c self.new }
        ensures room { OnOk result (slots ≤ loading_room self.new) }
        ensures no_less { loading_room self.old ≤ loading_room self.new }
    {
        self.curves.reserve(slots)?;
        self.production.reserve(slots)
    }

    /// Writes what the origin of a node produces in another scenario, by each boundary behind one. Takes no memory.
    pub fn renew_production(&mut self, scenario: &Scenario, node: NodeId, behind: u32)
        requires node { node.0 < nodes_of self.old }
        ensures same { SameButProduction self.old self.new }
        ensures renews { RenewsProduction
            (setting_of scenario.now) node.0 behind self.old self.new }
    {
        let last = self.curves.slots();
        if behind < last {
            self.production
                .renew_node(scenario, node, behind + 1, last + 1);
        }
    }

    /// Becomes the loading of another scenario with as many links, nodes and destinations and no fewer slots, for which
    /// there is room, from its finished curves, of which the changed cells alone are copied: outside them the totals are
    /// the same, and at later boundaries 0. What its origins produce by the boundaries that it had stands already; behind
    /// them it is written. Takes no memory.
    pub fn refresh(&mut self, scenario: &Scenario, curves: &Curves, changed: &Changed, version: u64)
        requires fits { Fits (setting_of scenario.now) self.old }
        requires shape { IsShapedFor scenario.now curves.now }
        requires loading { IsLoading (setting_of scenario.now) (counts_of curves.now) }
        requires cells { HasCells changed.now (all_groups scenario.now)
            (setting_of scenario.now).slots }
        requires outside { AgreesOutside self.old curves.now changed.now }
        requires produced { HasProduction (setting_of scenario.now) self.old }
        ensures { ShowsCounts (setting_of scenario.now) version (counts_of curves.now) self.new }
    {
        totals_small();
        never_fall();
        is_setting(scenario);
        little_is_produced(scenario);
        write_free_times(scenario, &mut self.free);
        self.production
            .renew(scenario, self.curves.slots() + 1, curves.slots() + 1);
        self.curves.lengthen(curves.slots());
        self.curves.copy_changed(curves, changed);
        self.step = step(scenario);
        self.version = version;
    }

    /// The version that it is the loading of.
    pub fn version(&self) -> u64
        ensures { result ≡ version_of self.now }
    {
        self.version
    }

    /// The totals of its groups by boundary, of which none falls.
    pub fn curves(&self) -> &TotalCurves
        ensures value { result.now ≡ curves_of self.now }
        ensures groups { total_groups (curves_of self.now)
            ≡ 2 * links_of self.now + nodes_of self.now + 1 }
        ensures rises { (g k : ℕ) → g < total_groups (curves_of self.now) → k < last_of self.now
            → total_at (curves_of self.now) g k ≤ total_at (curves_of self.now) g (k + 1) }
    {
        &self.curves
    }

    /// The length of a slot, 1 to 60,000 ms.
    pub fn step(&self) -> Millis
        ensures value { result.0 ≡ step_of self.now }
        ensures some { 1 ≤ result.0 }
        ensures small { result.0 ≤ longest_step }
    {
        self.step
    }

    /// How many slots there are; the last boundary has the same number.
    pub fn slots(&self) -> u32
        ensures { result ≡ last_of self.now }
    {
        self.curves.slots()
    }

    /// How many links there are.
    pub fn links(&self) -> u32
        ensures value { result ≡ links_of self.now }
        ensures few { result ≤ most_links }
    {
        self.links
    }

    /// How many nodes there are.
    pub fn nodes(&self) -> u32
        ensures { result ≡ nodes_of self.now }
    {
        self.nodes
    }

    /// The free-flow time of a link.
    pub fn free(&self, link: LinkId) -> Millis
        requires { link.0 < links_of self.now }
        ensures { result.0 ≡ free_of self.now link.0 }
    {
        self.free[link.0 as usize]
    }
}
