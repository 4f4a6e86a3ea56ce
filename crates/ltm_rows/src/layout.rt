//! Where rows lie in a flat table.
ghost use Rattle.std.specs.Prelude.{◌≡◌, ℕ, ◌+◌, ◌-◌, ◌*◌, ◌<◌, ◌≤◌, length, slice_index, IfOk};
ghost use Rattle.ltm_inputs.specs.Setting.{IsSetting};
ghost use Rattle.ltm_setting.specs.Setting.{setting_of};
ghost use Rattle.ltm_rows.specs.Starts.{row_width, AreStarts};
ghost use Rattle.ltm_setting.specs.Places.{IsNode};
ghost use Rattle.ltm_rows.specs.Sizes.{widest_slot};
ghost use Rattle.ltm_units.specs.Bounds.{most_slots, widest_row};

use ltm_inputs::shape_of;
use ltm_scenario::Scenario;
use ltm_setting::{is_setting, node_count};
use ltm_units::{NoMemory, NodeId};
use std::alloc::Global;

/// What a row holds of the inputs of a pair.
#[derive(Clone, Copy)]
pub enum Part {
    /// All numbers.
    All,
    /// What the arms send, the supplies and the capacities.
    Amounts,
    /// The weights.
    Weights,
}

/// Where the rows of pairs of node and slot lie in a flat table. All rows of one slot lie side by side, so that a repair
/// walks through memory in order and further slots can be added at the end.
#[derive(Drop)]
pub struct Layout {
    starts: Vec<usize>,
    ghost some: { 0 < length starts.items },
    ghost few: { slice_index starts.items (length starts.items - 1) ≤ widest_slot },
    ghost rising: { (u w : ℕ) → u ≤ w → w < length starts.items → slice_index starts.items u ≤ slice_index starts.items w },
}

/// Where the rows of a node begin within a slot, for each node, and how many numbers the rows of a slot are.
fn starts_of(alloc: Global, scenario: &Scenario, part: Part) -> Result<Vec<usize>, NoMemory>
    ensures { IfOk result (λ starts. AreStarts (setting_of scenario.now) part
        (setting_of scenario.now).nodes starts.items) }
{
    is_setting(scenario);
    let mut starts = Vec::new(alloc);
    let mut total = 0usize;
    starts.push(total)?;
    for node in 0..node_count(scenario) {
        total += width_of(scenario, NodeId(node), part);
        starts.push(total)?;
    }
    Ok(starts)
}

/// How many numbers a part of the inputs of a node is.
fn width_of(scenario: &Scenario, node: NodeId, part: Part) -> usize
    requires setting { IsSetting (setting_of scenario.now) }
    requires node { IsNode scenario.now node.0 }
    ensures width { result ≡ row_width (setting_of scenario.now) part node.0 }
    ensures small { result ≤ widest_row }
{
    let shape = shape_of(scenario, node);
    match part {
        Part::All => return shape.width(),
        Part::Amounts => {
            return shape.counts_begin() + (shape.weights_begin() - shape.supplies_begin());
        }
        Part::Weights => return shape.width() - shape.weights_begin(),
    }
}

impl Layout {
    ghost use Rattle.ltm_rows.specs.Layouts.{slot_width, nodes_in, width_in, start_in, LiesAs};

    /// A row of each node for a part of its inputs.
    pub fn create(alloc: Global, scenario: &Scenario, part: Part) -> Result<Layout, NoMemory>
        ensures { IfOk result (LiesAs (setting_of scenario.now) part) }
    {
        let _nodes = node_count(scenario);
        let starts = starts_of(alloc, scenario, part)?;
        Ok(Layout { starts })
    }

    /// How many numbers the rows of a slot have in all.
    #[inline]
    pub fn slot_width(&self) -> usize
        ensures value { result ≡ slot_width self.now }
        ensures small { result ≤ widest_slot }
    {
        self.starts[self.starts.len() - 1]
    }

    /// Where the row of a pair begins, and where it ends.
    #[inline]
    pub fn bounds(&self, node: usize, slot: usize) -> (usize, usize)
        requires node { node < nodes_in self.now }
        requires slot { slot < most_slots }
        ensures start { result.0 ≡ start_in self.now node slot }
        ensures end { result.1 ≡ start_in self.now node slot + width_in self.now node }
    {
        let slot_begin = slot * self.slot_width();
        (
            slot_begin + self.starts[node],
            slot_begin + self.starts[node + 1],
        )
    }
}
