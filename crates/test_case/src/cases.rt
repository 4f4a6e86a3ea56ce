//! Small cases. What a call asks of a scenario is looked at as the case is made, and none is made where that is not so.
ghost use Rattle.std.specs.Prelude.{◌≡◌, ◌<◌, IsTrue, length};
ghost use Rattle.ltm_network.specs.Network.{out_links};
ghost use Rattle.ltm_network.specs.Names.{number_of};
ghost use Rattle.ltm_splits.specs.Rows.{key_of};
ghost use Rattle.ltm_scenario.specs.Build.{HasNoSplitAt};
ghost use Rattle.ltm_scenario.specs.IsScenario.{IsDemandOf, IsSplitOf};

use ltm_demand::DemandRow;
use ltm_diagram::Diagram;
use ltm_scenario::{Scenario, Setup};
use ltm_units::{LinkId, Millis, Name, NodeId, Units};

/// A case. Its slots are of a second, and its origins let out a vehicle in each; the links are those of `diagram`.
#[derive(Clone, Copy)]
pub enum Case {
    /// Link `a` from `n1` to `n2`, the one destination, over so many slots; a vehicle sets out in the first two.
    Road(u32),
    /// The road over four slots, without its split row.
    UnsplitRoad,
    /// The road over ten thousand slots, with a demand row for each in place of that of the vehicle.
    FullRoad,
    /// A copy of the road over four slots, made once its exit is closed in slots 1 and 2.
    ClosedCopy,
    /// Four slots, three links, and the destinations `n3` and `n2`.
    ///
    /// ```text
    ///              n2
    ///         a  ↗    ↘  b          demand from n1 to n3, split rows for n3: all over a at n1, over b at n2
    ///          n1  →  n3
    ///              c
    /// ```
    ThreeLinks,
    /// The three links, of a case of at most three split rows.
    FewRows,
    /// A thousand links in a row over so many slots, `l0000` from `n0000` to `n0001` and so on, that end at the one destination
    /// `n1000`; without rows.
    Corridor(u32),
}

pub fn name(text: &str) -> Option<Name> {
    Name::read(text.as_bytes())
}

/// A letter and four digits.
fn numbered(letter: u8, number: u32) -> Option<Name> {
    let text = [
        letter,
        b'0' + (number / 1000 % 10) as u8,
        b'0' + (number / 100 % 10) as u8,
        b'0' + (number / 10 % 10) as u8,
        b'0' + (number % 10) as u8,
    ];
    Name::read(&text)
}

/// 20 m, 36 and 18 km/h, 150 vehicles per km.
pub fn diagram() -> Diagram {
    Diagram {
        length_m: 20,
        free_kmh: 36,
        wave_kmh: 18,
        jam_per_km: 150,
    }
}

/// The setup of a case.
pub fn setup_of(case: Case) -> Setup {
    let slots = match case {
        Case::Road(slots) => slots,
        Case::FullRoad => 10_000,
        Case::Corridor(slots) => slots,
        Case::UnsplitRoad | Case::ClosedCopy | Case::ThreeLinks | Case::FewRows => 4,
    };
    let setup = Setup::of(Millis(1000), slots, Units(1000));
    match case {
        Case::FewRows => Setup {
            most_split_rows: 3,
            ..setup
        },
        _ => setup,
    }
}

/// Whether a link may start at the node of that name.
fn is_free(scenario: &Scenario, tail: &Name) -> bool
    ensures { IsTrue result → HasNoSplitAt scenario.now (number_of scenario.now.network.nodes tail.now) }
{
    let _ = tail;
    scenario.splits().row_count() == 0
}

fn add_link(scenario: &mut Scenario, link: Name, tail: Name, head: Name) -> Option<()> {
    if !is_free(scenario, &tail) {
        return None;
    }
    match scenario.add_link(link, tail, head, diagram()) {
        Ok(_) => Some(()),
        Err(_) => None,
    }
}

fn link(scenario: &mut Scenario, link: &str, tail: &str, head: &str) -> Option<()> {
    add_link(scenario, name(link)?, name(tail)?, name(head)?)
}

/// Makes the node of that number a destination.
fn end_at(scenario: &mut Scenario, node: u32) -> Option<()> {
    if node >= scenario.network().nodes() {
        return None;
    }
    match scenario.add_destination(NodeId(node)) {
        Ok(_) => Some(()),
        Err(_) => None,
    }
}

fn out_count(scenario: &Scenario, node: NodeId) -> usize
    requires { node.0 < length scenario.now.network.nodes }
    ensures { result ≡ length (out_links scenario.now.network node.0) }
{
    scenario.network().out_links(node).len()
}

/// Whether a demand row may be set.
fn is_demand(scenario: &Scenario, row: &DemandRow) -> bool
    ensures { IsTrue result → IsDemandOf scenario.now row.now }
{
    if row.origin.0 >= scenario.network().nodes() {
        return false;
    }
    if row.destination as usize >= scenario.destinations().len() {
        return false;
    }
    if out_count(scenario, row.origin) == 0 {
        return false;
    }
    row.origin.0 != scenario.destination_node(row.destination).0
}

/// Whether a split row may be set.
fn is_split(scenario: &Scenario, node: NodeId, destination: u32, from: u32, weights: &[u32]) -> bool
    ensures { IsTrue result → IsSplitOf scenario.now (key_of node.0 destination from, weights.now) }
{
    if node.0 >= scenario.network().nodes() {
        return false;
    }
    if destination as usize >= scenario.destinations().len() {
        return false;
    }
    if weights.len() != out_count(scenario, node) {
        return false;
    }
    node.0 != scenario.destination_node(destination).0
}

/// One vehicle over the first two slots, from the node of that number.
pub fn demand(scenario: &mut Scenario, origin: u32, destination: u32) -> Option<()> {
    let row = DemandRow {
        origin: NodeId(origin),
        destination,
        from: 0,
        to: 2,
        amount: Units(1000),
    };
    set_demand(scenario, row)
}

fn set_demand(scenario: &mut Scenario, row: DemandRow) -> Option<()> {
    if row.amount.0 > 1_000_000_000 || !is_demand(scenario, &row) {
        return None;
    }
    scenario.set_demand(row).ok()
}

/// A split row at the node of that number.
pub fn split(
    scenario: &mut Scenario,
    node: u32,
    destination: u32,
    from: u32,
    weights: &[u32],
) -> Option<()> {
    if !is_split(scenario, NodeId(node), destination, from, weights) {
        return None;
    }
    scenario
        .set_split(NodeId(node), destination, from, weights)
        .ok()
}

/// Sets the exit limit of the only link in slots 1 and 2.
fn close_exit(scenario: &mut Scenario) -> Option<()> {
    if scenario.network().links() != 1 {
        return None;
    }
    scenario.set_exit(LinkId(0), 1, 3, Units(0)).ok()
}

fn bare_road(scenario: &mut Scenario) -> Option<()> {
    link(scenario, "a", "n1", "n2")?;
    end_at(scenario, 1)
}

fn unsplit_road(scenario: &mut Scenario) -> Option<()> {
    bare_road(scenario)?;
    demand(scenario, 0, 0)
}

fn road(scenario: &mut Scenario) -> Option<()> {
    unsplit_road(scenario)?;
    split(scenario, 0, 0, 0, &[1])
}

fn closed_road(scenario: &mut Scenario) -> Option<()> {
    road(scenario)?;
    close_exit(scenario)
}

fn full_road(scenario: &mut Scenario) -> Option<()> {
    bare_road(scenario)?;
    split(scenario, 0, 0, 0, &[1])?;
    for slot in 0..10_000 {
        let row = DemandRow {
            origin: NodeId(0),
            destination: 0,
            from: slot,
            to: slot + 1,
            amount: Units(1),
        };
        set_demand(scenario, row)?;
    }
    Some(())
}

fn three_links(scenario: &mut Scenario) -> Option<()> {
    link(scenario, "a", "n1", "n2")?;
    link(scenario, "b", "n2", "n3")?;
    link(scenario, "c", "n1", "n3")?;
    end_at(scenario, 2)?;
    end_at(scenario, 1)?;
    split(scenario, 0, 0, 0, &[1, 0])?;
    split(scenario, 1, 0, 0, &[1])?;
    demand(scenario, 0, 0)
}

fn corridor(scenario: &mut Scenario) -> Option<()> {
    for k in 0..1000 {
        let tail = numbered(b'n', k)?;
        let head = numbered(b'n', k + 1)?;
        add_link(scenario, numbered(b'l', k)?, tail, head)?;
    }
    end_at(scenario, 1000)
}

/// A split row at each node of the corridor but the last.
pub fn split_all(scenario: &mut Scenario) -> Option<()> {
    for node in 0..1000 {
        split(scenario, node, 0, 0, &[1])?;
    }
    Some(())
}

/// Puts a case into a scenario of its setup.
pub fn fill(scenario: &mut Scenario, case: Case) -> Option<()> {
    match case {
        Case::Road(_) => road(scenario),
        Case::UnsplitRoad => unsplit_road(scenario),
        Case::FullRoad => full_road(scenario),
        Case::ClosedCopy => closed_road(scenario),
        Case::ThreeLinks | Case::FewRows => three_links(scenario),
        Case::Corridor(_) => corridor(scenario),
    }
}
