//! What origins have produced by each boundary.
//!
//! The amounts of a boundary lie side by side, so that a longer horizon appends: that of each node, and behind them that of
//! all nodes together, which is kept at what the others come to. The words of `specs/Production.antt` say so.
ghost use Rattle.std.specs.Prelude.{◌≡◌, ℕ, ◌+◌, ◌-◌, ◌*◌, ◌%◌, ◌^◌, ◌<◌, ◌≤◌, ◌++◌, length, replicate, IfOk, OnOk, OnErr};
ghost use Rattle.ltm_units.specs.Sums.{sum_below};
ghost use Rattle.ltm_flows.specs.Amounts.{amount_at, AreAmounts};
ghost use Rattle.ltm_setting.specs.Setting.{setting_of};
ghost use Rattle.ltm_units.specs.Bounds.{most_nodes, most_produced};

use ltm_scenario::Scenario;
use ltm_setting::{is_setting, produced_total, slot_count};
use ltm_units::{NoMemory, NodeId};
use std::alloc::Global;

/// What the origin of each node has produced by each boundary up to a last one for which there is room, of all
/// destinations together, and what all of them have, in thousandths of a vehicle. It takes 8 bytes for each boundary and
/// node, and 8 more for each boundary.
#[derive(Drop)]
pub struct Production {
    nodes: u32,
    room: u32,
    amounts: Vec<u64>,
    ghost few: { nodes ≤ most_nodes },
    ghost are: { AreAmounts nodes room amounts.items },
}

/// How many amounts there are of so many nodes.
fn table_size(nodes: u32, room: u32) -> usize
    requires { nodes ≤ most_nodes }
    ensures { result ≡ (room + 1) * (nodes + 1) }
{
    (room as usize + 1) * (nodes as usize + 1)
}

/// So many amounts, all 0.
fn zeros(alloc: Global, many: usize) -> Result<Vec<u64>, NoMemory>
    ensures { IfOk result (λ amounts. amounts.items ≡ replicate many 0) }
{
    vec![in alloc; 0u64; many].map_err(|_| NoMemory)
}

/// Puts zeros behind amounts, up to so many.
fn add_zeros(amounts: &mut Vec<u64>, many: usize) -> Result<(), NoMemory>
    requires { length amounts.old.items ≤ many }
    ensures ok { OnOk result (amounts.new.items
        ≡ amounts.old.items ++ replicate (many - length amounts.old.items) 0) }
    ensures err { OnErr result (amounts.new.items ≡ amounts.old.items) }
{
    amounts.resize(many, 0).map_err(|_| NoMemory)
}

impl Production {
    ghost use Rattle.ltm_flows.specs.Production.{
      produced_in,
      all_produced,
      SameSizes,
      SetsAmount,
      RenewsNode,
      RenewsNodes,
      ProducesNothing,
      ProducedByFirst,
    };

    /// Nothing, by the boundaries up to so many.
    pub fn none(alloc: Global, nodes: u32, room: u32) -> Result<Production, NoMemory>
        requires { nodes ≤ most_nodes }
        ensures nodes { IfOk result (λ p. p.nodes ≡ nodes) }
        ensures room { IfOk result (λ p. p.room ≡ room) }
        ensures nothing { IfOk result ProducesNothing }
    {
        let amounts = zeros(alloc, table_size(nodes, room))?;
        Ok(Production {
            nodes,
            room,
            amounts,
        })
    }

    /// The last boundary for which there is room.
    #[inline]
    pub fn room(&self) -> u32
        ensures { result ≡ self.now.room }
    {
        self.room
    }

    /// Where the amount in a column at a boundary lies.
    #[inline]
    fn place(&self, column: u32, boundary: u32) -> usize
        requires column { column ≤ self.now.nodes }
        requires boundary { boundary ≤ self.now.room }
        ensures place { result ≡ boundary * (self.now.nodes + 1) + column }
        ensures within { result < length self.now.amounts.items }
    {
        let _amounts = &self.amounts;
        boundary as usize * (self.nodes as usize + 1) + column as usize
    }

    /// What the origin of a node has produced by a boundary.
    #[inline]
    pub fn produced(&self, node: NodeId, boundary: u32) -> u64
        requires node { node.0 < self.now.nodes }
        requires boundary { boundary ≤ self.now.room }
        ensures value { result ≡ produced_in self.now node.0 boundary }
        ensures small { result ≤ most_produced }
    {
        self.amounts[self.place(node.0, boundary)]
    }

    /// What all origins have produced by a boundary, as 64 bits hold it: all of it where they are those of a scenario.
    #[inline]
    pub fn all(&self, boundary: u32) -> u64
        requires { boundary ≤ self.now.room }
        ensures value { result ≡ all_produced self.now boundary }
        ensures sum { result ≡ sum_below self.now.nodes (λ n. produced_in self.now n boundary) % 2 ^ 64 }
    {
        self.amounts[self.place(self.nodes, boundary)]
    }

    /// Makes room for boundaries up to so many. What stands stays.
    pub fn reserve(&mut self, room: u32) -> Result<(), NoMemory>
        ensures nodes { self.new.nodes ≡ self.old.nodes }
        ensures same { (n k : ℕ) → n ≤ self.old.nodes → k ≤ self.old.room
            → amount_at self.new.amounts.items self.old.nodes n k
            ≡ amount_at self.old.amounts.items self.old.nodes n k }
        ensures room { OnOk result (room ≤ self.new.room) }
        ensures no_less { self.old.room ≤ self.new.room }
    {
        if room <= self.room {
            return Ok(());
        }
        add_zeros(&mut self.amounts, table_size(self.nodes, room))?;
        self.room = room;
        Ok(())
    }

    /// Sets the amount of a node and boundary, and with it that of all nodes.
    fn set(&mut self, node: NodeId, boundary: u32, amount: u64)
        requires node { node.0 < self.old.nodes }
        requires boundary { boundary ≤ self.old.room }
        requires small { amount ≤ most_produced }
        ensures { SetsAmount self.old self.new node.0 boundary amount }
    {
        let one = self.place(node.0, boundary);
        let all = self.place(self.nodes, boundary);
        let others = self.amounts[all].wrapping_sub(self.amounts[one]);
        self.amounts[one] = amount;
        self.amounts[all] = others.wrapping_add(amount);
    }

    /// Writes what the origin of a node has produced by each boundary from one up to, and without, another.
    pub fn renew_node(&mut self, scenario: &Scenario, node: NodeId, from: u32, end: u32)
        requires node { node.0 < self.old.nodes }
        requires order { from ≤ end }
        requires end { end ≤ self.old.room + 1 }
        ensures { RenewsNode (setting_of scenario.now) node.0 from end self.old self.new }
    {
        for boundary in from..end {
            let amount = produced_total(scenario, node, boundary);
            self.set(node, boundary, amount);
        }
    }

    /// Writes what the origin of each node has produced by each boundary of a scenario, where nothing is produced yet. A node
    /// that has produced nothing by the last one is asked once.
    pub fn fill(&mut self, scenario: &Scenario)
        requires nodes { self.old.nodes ≡ (setting_of scenario.now).nodes }
        requires room { (setting_of scenario.now).slots ≤ self.old.room }
        requires nothing { ProducesNothing self.old }
        ensures { ProducedByFirst (setting_of scenario.now) self.old.nodes self.old self.new }
    {
        is_setting(scenario);
        let last = slot_count(scenario);
        for node in 0..self.nodes {
            if produced_total(scenario, NodeId(node), last) > 0 {
                self.renew_node(scenario, NodeId(node), 0, last + 1);
            }
        }
    }

    /// Writes what the origin of each node has produced by a boundary.
    fn renew_boundary(&mut self, scenario: &Scenario, boundary: u32)
        requires { boundary ≤ self.old.room }
        ensures { RenewsNodes (setting_of scenario.now) self.old.nodes boundary (boundary
            + 1) self.old self.new }
    {
        for node in 0..self.nodes {
            let amount = produced_total(scenario, NodeId(node), boundary);
            self.set(NodeId(node), boundary, amount);
        }
    }

    /// Writes what the origin of each node has produced by each boundary from one up to, and without, another.
    pub fn renew(&mut self, scenario: &Scenario, from: u32, end: u32)
        requires order { from ≤ end }
        requires end { end ≤ self.old.room + 1 }
        ensures { RenewsNodes (setting_of scenario.now) self.old.nodes from end self.old self.new }
    {
        for boundary in from..end {
            self.renew_boundary(scenario, boundary);
        }
    }
}
