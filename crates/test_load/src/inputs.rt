//! What a node reads in a slot.
ghost use Rattle.std.specs.Prelude.{◌≡◌, ◌≤◌, []};
ghost use Rattle.ltm_curve.specs.Table.{IsEmpty};

use ltm_curve::Curves;
use ltm_demand::DemandRow;
use ltm_diagram::Diagram;
use ltm_inputs::{inputs_of, shape_of, widest};
use ltm_node::NodeInputs;
use ltm_scenario::{Scenario, Setup};
use ltm_setting::{destination_count, group_count, in_links, node_count, slot_count};
use ltm_units::{Millis, Name, NodeId, Pair, Units};
use std::alloc::Global;
use std::process::Abort;

fn named(rt: &impl Abort, text: &str) -> Name {
    let Some(name) = Name::read(text.as_bytes()) else {
        panic!(rt; "no name");
    };
    name
}

// A link of 100 m that takes 10 s and holds 10 vehicles, of which 1,200 pass in an hour.
fn add_link(rt: &impl Abort, scenario: &mut Scenario, name: &str, tail: &str, head: &str)
    requires { scenario.old.splits ≡ [] }
    ensures { scenario.new.splits ≡ [] }
{
    let diagram = Diagram {
        length_m: 100,
        free_kmh: 36,
        wave_kmh: 18,
        jam_per_km: 100,
    };
    let added = scenario.add_link(named(rt, name), named(rt, tail), named(rt, head), diagram);
    assert!(rt; added.is_ok());
}

fn add_destination(rt: &impl Abort, scenario: &mut Scenario, node: u32) {
    assert!(rt; node < scenario.network().nodes());
    assert!(rt; scenario.add_destination(NodeId(node)).is_ok());
}

fn add_demand(rt: &impl Abort, scenario: &mut Scenario, row: DemandRow) {
    assert!(rt; row.amount.0 <= 1_000_000_000);
    assert!(rt; row.origin.0 < scenario.network().nodes());
    assert!(rt; !scenario.network().out_links(row.origin).is_empty());
    assert!(rt; (row.destination as usize) < scenario.destinations().len());
    assert!(rt; scenario.destination_node(row.destination) != row.origin);
    assert!(rt; scenario.set_demand(row).is_ok());
}

fn add_split(
    rt: &impl Abort,
    scenario: &mut Scenario,
    node: NodeId,
    destination: u32,
    weights: &[u32],
) {
    assert!(rt; node.0 < scenario.network().nodes());
    assert!(rt; (destination as usize) < scenario.destinations().len());
    assert!(rt; scenario.destination_node(destination) != node);
    assert!(rt; scenario.network().out_links(node).len() == weights.len());
    assert!(rt; scenario.set_split(node, destination, 0, weights).is_ok());
}

// A links to B, which links to C; of 600 units that start at B within three slots for C, 200 start in each.
fn corridor(rt: &impl Abort, alloc: Global) -> Scenario {
    let setup = Setup::of(Millis(1000), 3, Units(500));
    let Ok(mut scenario) = Scenario::create(alloc, setup) else {
        panic!(rt; "no scenario");
    };
    add_link(rt, &mut scenario, "in", "A", "B");
    add_link(rt, &mut scenario, "out", "B", "C");
    add_destination(rt, &mut scenario, 2);
    add_destination(rt, &mut scenario, 1);
    let row = DemandRow {
        origin: NodeId(1),
        destination: 0,
        from: 0,
        to: 3,
        amount: Units(600),
    };
    add_demand(rt, &mut scenario, row);
    add_split(rt, &mut scenario, NodeId(1), 0, &[7]);
    scenario
}

// What a node reads in the first slot.
fn read_first(
    rt: &impl Abort,
    scenario: &Scenario,
    curves: &Curves,
    node: NodeId,
    into: &mut NodeInputs,
)
    requires empty { IsEmpty curves.now }
    requires room { 100 ≤ into.old.room }
    ensures { into.new.room ≡ into.old.room }
{
    assert!(rt; node.0 < node_count(scenario));
    assert!(rt; curves.groups() == group_count(scenario));
    assert!(rt; curves.destinations() == destination_count(scenario));
    assert!(rt; curves.slots() == slot_count(scenario));
    assert!(rt; shape_of(scenario, node).width() <= 100);
    assert!(rt; in_links(scenario, node).len() <= 4);
    let mut positions = [0u32; 4];
    inputs_of(
        scenario,
        curves,
        Pair { node, slot: 0 },
        into,
        &mut positions,
    );
}

// What two nodes read in the first slot of an empty network.
fn read_two(rt: &impl Abort, scenario: &Scenario, curves: &Curves, inputs: &mut NodeInputs)
    requires empty { IsEmpty curves.now }
    requires room { 100 ≤ inputs.old.room }
{
    read_first(rt, scenario, curves, NodeId(1), inputs);
    // two arms send, nothing has been counted yet, one out-link takes, and the weights of two destinations
    assert!(rt; inputs.same(&[0, 0, 200, 0, 0, 0, 0, 0, 0, 0, 0, 333, 333, 500, 7, 0]));
    // a node where all ends
    read_first(rt, scenario, curves, NodeId(2), inputs);
    assert!(rt; inputs.same(&[0, 0, 0, 0, 0, 333]));
}

fn read_of(rt: &impl Abort, alloc: Global, scenario: &Scenario, curves: &Curves)
    requires { IsEmpty curves.now }
{
    match NodeInputs::create(alloc, 100) {
        Ok(mut inputs) => read_two(rt, scenario, curves, &mut inputs),
        Err(_) => panic!(rt; "no memory"),
    }
}

fn read_empty(rt: &impl Abort, alloc: Global, scenario: &Scenario) {
    assert_eq!(rt; widest(scenario), 16);
    match Curves::create(alloc, 8, 2, 3) {
        Ok(curves) => read_of(rt, alloc, scenario, &curves),
        Err(_) => panic!(rt; "no memory"),
    }
}

#[test]
fn reads_what_a_node_reads(rt: HostRuntime) {
    let scenario = corridor(&rt, rt.alloc());
    read_empty(&rt, rt.alloc(), &scenario);
}
