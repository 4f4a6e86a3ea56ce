//! At which pairs of node and slot split rows begin.
ghost use Rattle.std.specs.Prelude.{◌≡◌, ◌||◌, ℕ, ◌<◌, IfOk};
ghost use Rattle.ltm_marks.specs.Marks.{width_of, rows_of, is_marked};
ghost use Rattle.ltm_setting.specs.Setting.{setting_of};
ghost use Rattle.ltm_rows.specs.Begins.{key_begins, row_begins};

use ltm_marks::Marks;
use ltm_scenario::Scenario;
use ltm_setting::{node_count, slot_count};
use ltm_splits::SplitKey;
use ltm_units::NoMemory;
use std::alloc::Global;

/// A mark for each pair of node and slot at whose slot some split row of the node begins. Between marks the weights of a node
/// stay as they are.
#[derive(Drop)]
pub struct Begins {
    marks: Marks,
}

/// Marks the pair at which a row begins, if its slot is one.
#[inline]
fn mark_begin(marks: &mut Marks, key: SplitKey)
    requires { key.node.0 < width_of marks.old }
    ensures width { width_of marks.new ≡ width_of marks.old }
    ensures rows { rows_of marks.new ≡ rows_of marks.old }
    ensures marks { (u t : ℕ) → u < width_of marks.old → t < rows_of marks.old
        → is_marked marks.new u t
        ≡ (key_begins key u t || is_marked marks.old u t) }
{
    let slot = key.from as usize;
    if slot < marks.rows() {
        marks.mark(key.node.0 as usize, slot);
    }
}

/// Marks the pairs at which rows of a scenario begin.
fn mark_all(marks: &mut Marks, scenario: &Scenario)
    requires nodes { width_of marks.old ≡ (setting_of scenario.now).nodes }
    ensures width { width_of marks.new ≡ width_of marks.old }
    ensures rows { rows_of marks.new ≡ rows_of marks.old }
    ensures marks { (u t : ℕ) → u < width_of marks.old → t < rows_of marks.old
        → is_marked marks.new u t
        ≡ (row_begins scenario.now.splits u t || is_marked marks.old u t) }
{
    let _setup = scenario.setup();
    let mut rows = scenario.splits().rows();
    'rows: while let Some((key, _weights)) = rows.next() {
        mark_begin(marks, key);
    }
}

impl Begins {
    ghost use Rattle.ltm_rows.specs.Begins.{nodes_begun, slots_begun, begins_at, TellsBegins};

    /// Those of a scenario.
    pub fn of(alloc: Global, scenario: &Scenario) -> Result<Begins, NoMemory>
        ensures tells { IfOk result (TellsBegins (setting_of scenario.now)) }
        ensures exact { IfOk result (λ b. (u t : ℕ) → u < nodes_begun b → t < slots_begun b
            → begins_at b u t ≡ row_begins scenario.now.splits u t) }
    {
        let nodes = node_count(scenario);
        let slots = slot_count(scenario);
        let mut marks = Marks::create(alloc, nodes as usize, slots as usize)?;
        mark_all(&mut marks, scenario);
        Ok(Begins { marks })
    }

    /// Whether a row of a node begins at a slot.
    #[inline]
    pub fn at(&self, node: usize, slot: usize) -> bool
        requires node { node < nodes_begun self.now }
        requires slot { slot < slots_begun self.now }
        ensures { result ≡ begins_at self.now node slot }
    {
        self.marks.is_marked(node, slot)
    }
}
