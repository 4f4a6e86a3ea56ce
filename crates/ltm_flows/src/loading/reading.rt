//! What a finished loading tells of origins, links and all together, at a boundary or at the last one.
ghost use Rattle.std.specs.Prelude.{◌≡◌, ◌≤◌, ◌<◌, ℕ};
ghost use Rattle.ltm_curve.specs.Counts.{Counts};
ghost use Rattle.ltm_curve.specs.Totals.{most_total};
ghost use Rattle.ltm_loading.specs.Setting.{Setting};
ghost use Rattle.ltm_loading.specs.Totals.{arrived, entered_link, left_link};
ghost use Rattle.ltm_flows.specs.Origins.{produced_in_all, departed_from};
ghost use Rattle.ltm_units.specs.Bounds.{most_produced};

use super::Loading;
use crate::loading_totals::Totals;
use crate::sums::sum_up;
use ltm_loading::{arr_behind, dep_behind, down_of, up_of};
use ltm_units::{LinkId, NodeId, Units};

impl Loading {
    ghost use Rattle.ltm_flows.specs.Shown.{links_of, nodes_of, last_of, produced_of, generated_of, ShowsCounts};
    ghost use Rattle.ltm_flows.specs.InAll.{AreTotals};
    ghost use Rattle.ltm_flows.specs.Counted.{arrived_of, entered_of, left_of, departed_by, entered_by, left_by, SumsUp};

    /// What the origin of a node has produced by a boundary, in thousandths of a vehicle; of a node that is no origin it
    /// is 0.
    pub fn produced(&self, node: NodeId, boundary: u32) -> Units
        requires node { node.0 < nodes_of self.now }
        requires boundary { boundary ≤ last_of self.now }
        ensures counted { result.0 ≡ produced_of self.now node.0 boundary }
        ensures small { result.0 ≤ most_produced }
        ensures shown { (s : Setting) (version : ℕ) (c : Counts) → ShowsCounts s version c self.now
            → result.0 ≡ produced_in_all s node.0 boundary }
    {
        Units(self.production.produced(node, boundary))
    }

    /// What all origins have produced by a boundary.
    pub fn generated(&self, boundary: u32) -> Units
        requires { boundary ≤ last_of self.now }
        ensures { result.0 ≡ generated_of self.now boundary }
    {
        Units(self.production.all(boundary))
    }

    /// What has arrived at its destination by a boundary.
    pub fn arrived(&self, boundary: u32) -> Units
        requires { boundary ≤ last_of self.now }
        ensures counted { result.0 ≡ arrived_of self.now boundary }
        ensures shown { (s : Setting) (version : ℕ) (c : Counts) → ShowsCounts s version c self.now
            → result.0 ≡ arrived s c boundary }
    {
        let group = arr_behind(self.links, self.nodes);
        Units(self.curves.total(group, boundary))
    }

    /// What has entered a link by the last boundary.
    pub fn entered(&self, link: LinkId) -> Units
        requires { link.0 < links_of self.now }
        ensures counted { result.0 ≡ entered_of self.now link.0 }
        ensures shown { (s : Setting) (version : ℕ) (c : Counts) → ShowsCounts s version c self.now
            → result.0 ≡ entered_link s c link.0 s.slots }
    {
        Units(self.curves.total(up_of(link), self.curves.slots()))
    }

    /// What has left a link by the last boundary.
    pub fn left(&self, link: LinkId) -> Units
        requires { link.0 < links_of self.now }
        ensures counted { result.0 ≡ left_of self.now link.0 }
        ensures shown { (s : Setting) (version : ℕ) (c : Counts) → ShowsCounts s version c self.now
            → result.0 ≡ left_link s c link.0 s.slots }
    {
        Units(self.curves.total(down_of(link), self.curves.slots()))
    }

    /// What has left the origin of a node by a boundary.
    pub fn departed(&self, node: NodeId, boundary: u32) -> Units
        requires node { node.0 < nodes_of self.now }
        requires boundary { boundary ≤ last_of self.now }
        ensures counted { result.0 ≡ departed_by self.now node.0 boundary }
        ensures small { result.0 ≤ most_total }
        ensures shown { (s : Setting) (version : ℕ) (c : Counts) → ShowsCounts s version c self.now
            → result.0 ≡ departed_from s c node.0 boundary }
    {
        Units(self.curves.total(dep_behind(self.links, node), boundary))
    }

    /// What has entered a link by a boundary.
    pub fn entered_by(&self, link: LinkId, boundary: u32) -> Units
        requires link { link.0 < links_of self.now }
        requires boundary { boundary ≤ last_of self.now }
        ensures counted { result.0 ≡ entered_by self.now link.0 boundary }
        ensures small { result.0 ≤ most_total }
        ensures shown { (s : Setting) (version : ℕ) (c : Counts) → ShowsCounts s version c self.now
            → result.0 ≡ entered_link s c link.0 boundary }
    {
        Units(self.curves.total(up_of(link), boundary))
    }

    /// What has left a link by a boundary.
    pub fn left_by(&self, link: LinkId, boundary: u32) -> Units
        requires link { link.0 < links_of self.now }
        requires boundary { boundary ≤ last_of self.now }
        ensures counted { result.0 ≡ left_by self.now link.0 boundary }
        ensures small { result.0 ≤ most_total }
        ensures shown { (s : Setting) (version : ℕ) (c : Counts) → ShowsCounts s version c self.now
            → result.0 ≡ left_link s c link.0 boundary }
    {
        Units(self.curves.total(down_of(link), boundary))
    }

    /// What the loading comes to in all at the last boundary.
    pub fn totals(&self) -> Totals
        ensures counted { SumsUp self.now result }
        ensures shown { (s : Setting) (version : ℕ) (c : Counts) → ShowsCounts s version c self.now
            → AreTotals s c s.slots result }
    {
        let last = self.slots();
        let generated = self.generated(last).0;
        sum_up(&self.curves, self.links, self.nodes, last, generated)
    }
}
