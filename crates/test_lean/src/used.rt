//! Which destinations each link can carry.
ghost use Rattle.std.specs.Prelude.{◌≡◌, []};

use ltm_demand::DemandRow;
use ltm_diagram::Diagram;
use ltm_scenario::{Scenario, Setup};
use ltm_units::{Millis, Name, NodeId, Units};
use ltm_used::{Used, node_destinations, used_destinations};
use std::alloc::Global;
use std::process::Abort;

fn named(rt: &impl Abort, text: &str) -> Name {
    let Some(name) = Name::read(text.as_bytes()) else {
        panic!(rt; "no name");
    };
    name
}

fn add_link(rt: &impl Abort, scenario: &mut Scenario, name: &str, tail: &str, head: &str)
    requires { scenario.old.splits ≡ [] }
    ensures { scenario.new.splits ≡ [] }
{
    let diagram = Diagram {
        length_m: 100,
        free_kmh: 36,
        wave_kmh: 18,
        jam_per_km: 100,
    };
    let added = scenario.add_link(named(rt, name), named(rt, tail), named(rt, head), diagram);
    assert!(rt; added.is_ok());
}

fn add_destination(rt: &impl Abort, scenario: &mut Scenario, node: u32) {
    assert!(rt; node < scenario.network().nodes());
    assert!(rt; scenario.add_destination(NodeId(node)).is_ok());
}

// Units that start at the first node in slot 0.
pub(crate) fn add_demand(rt: &impl Abort, scenario: &mut Scenario, destination: u32) {
    let origin = NodeId(0);
    assert!(rt; origin.0 < scenario.network().nodes());
    assert!(rt; !scenario.network().out_links(origin).is_empty());
    assert!(rt; (destination as usize) < scenario.destinations().len());
    assert!(rt; scenario.destination_node(destination) != origin);
    let row = DemandRow {
        origin,
        destination,
        from: 0,
        to: 1,
        amount: Units(500),
    };
    assert!(rt; scenario.set_demand(row).is_ok());
}

fn add_split(
    rt: &impl Abort,
    scenario: &mut Scenario,
    node: u32,
    destination: u32,
    from: u32,
    weights: &[u32],
) {
    assert!(rt; node < scenario.network().nodes());
    assert!(rt; (destination as usize) < scenario.destinations().len());
    assert!(rt; scenario.destination_node(destination) != NodeId(node));
    assert!(rt; scenario.network().out_links(NodeId(node)).len() == weights.len());
    assert!(rt;
        scenario
            .set_split(NodeId(node), destination, from, weights)
            .is_ok()
    );
}

// From A by a to B, from there by b to C or by c to D, and from D by d to C. C and D are destinations.
pub(crate) fn fork(rt: &impl Abort, alloc: Global) -> Scenario {
    let setup = Setup::of(Millis(1000), 3, Units(500));
    let Ok(mut scenario) = Scenario::create(alloc, setup) else {
        panic!(rt; "no scenario");
    };
    add_link(rt, &mut scenario, "a", "A", "B");
    add_link(rt, &mut scenario, "b", "B", "C");
    add_link(rt, &mut scenario, "c", "B", "D");
    add_link(rt, &mut scenario, "d", "D", "C");
    add_destination(rt, &mut scenario, 2);
    add_destination(rt, &mut scenario, 3);
    add_split(rt, &mut scenario, 0, 0, 0, &[1]);
    add_split(rt, &mut scenario, 0, 1, 0, &[1]);
    add_split(rt, &mut scenario, 1, 0, 0, &[1, 0]);
    add_split(rt, &mut scenario, 1, 1, 0, &[0, 1]);
    add_split(rt, &mut scenario, 3, 0, 0, &[1]);
    scenario
}

fn is_on(used: &Used, link: usize, want: &[u32]) -> bool {
    link < used.links() && used.on(link) == want
}

fn check(rt: &impl Abort, alloc: Global, scenario: &Scenario, want: [&[u32]; 4]) {
    let Ok(used) = used_destinations(alloc, scenario) else {
        panic!(rt; "no memory");
    };
    assert_eq!(rt; used.links(), 4);
    assert!(rt; is_on(&used, 0, want[0]));
    assert!(rt; is_on(&used, 1, want[1]));
    assert!(rt; is_on(&used, 2, want[2]));
    assert!(rt; is_on(&used, 3, want[3]));
}

// The same of nodes.
fn check_nodes(rt: &impl Abort, alloc: Global, scenario: &Scenario, want: [&[u32]; 4]) {
    let Ok(used) = used_destinations(alloc, scenario) else {
        panic!(rt; "no memory");
    };
    let Ok(lists) = node_destinations(alloc, scenario, &used) else {
        panic!(rt; "no memory");
    };
    assert_eq!(rt; lists.links(), 4);
    assert!(rt; is_on(&lists, 0, want[0]));
    assert!(rt; is_on(&lists, 1, want[1]));
    assert!(rt; is_on(&lists, 2, want[2]));
    assert!(rt; is_on(&lists, 3, want[3]));
}

// Without demand none; then those with demand, where weights lead; a weight in a later slot opens a way more.
#[test]
fn lists_what_demand_can_reach(rt: HostRuntime) {
    let mut scenario = fork(&rt, rt.alloc());
    check(&rt, rt.alloc(), &scenario, [&[], &[], &[], &[]]);
    add_demand(&rt, &mut scenario, 0);
    check(&rt, rt.alloc(), &scenario, [&[0], &[0], &[], &[]]);
    add_demand(&rt, &mut scenario, 1);
    check(&rt, rt.alloc(), &scenario, [&[0, 1], &[0], &[1], &[]]);
    check_nodes(&rt, rt.alloc(), &scenario, [&[0, 1], &[0, 1], &[0], &[1]]);
    add_split(&rt, &mut scenario, 1, 0, 2, &[1, 1]);
    check(&rt, rt.alloc(), &scenario, [&[0, 1], &[0], &[0, 1], &[0]]);
}
