//! Least routes of a case from files: from `n1` to `n3` over `n2`, by `a` and `b`, or by `c`; both take four seconds. No way
//! leads back.
ghost use Rattle.std.specs.Prelude.{◌<◌, ◌≡◌, length};
ghost use Rattle.ltm_routes.specs.Potentials.{IsSmall};

use ltm_casefile::read_roads;
use ltm_io::MemFolder;
use ltm_routes::{Routes, verify};
use ltm_scenario::Scenario;
use ltm_units::{LinkId, Millis, NoMemory, NodeId};
use std::alloc::Global;
use std::process::Abort;
use std::test::Fail;

fn files(alloc: Global) -> Result<MemFolder, NoMemory> {
    MemFolder::of_case(
        alloc,
        &[],
        "step_ms,slots,origin_capacity\n1000,4,1\n",
        "link,from,to,length_m,free_kmh,wave_kmh,jam_per_km\na,n1,n2,20,36,18,150\nb,n2,n3,20,36,18,150\nc,n1,n3,40,36,18,150\n",
        "origin,destination,from_slot,to_slot,vehicles\nn1,n3,0,2,1\nn1,n2,0,2,1\n",
        "",
    )
}

/// The roads of the case: three nodes, three links, two destinations.
fn roads(rt: &impl Abort, alloc: Global) -> Scenario
    ensures nodes { length result.network.nodes ≡ 3 }
    ensures links { length result.network.links ≡ 3 }
    ensures destinations { length result.destinations ≡ 2 }
{
    let mut folder = files(alloc).expect(rt, "memory");
    let roads = read_roads(alloc, &mut folder).ok().expect(rt, "roads");
    assert!(rt; roads.network().nodes() == 3);
    assert!(rt; roads.network().links() == 3);
    assert!(rt; roads.destinations().len() == 2);
    roads
}

/// A time in milliseconds, or none.
fn potential(time: Option<u32>) -> Option<Millis>
    ensures { IsSmall result }
{
    match time {
        Some(time) => Some(Millis(u64::from(time))),
        None => None,
    }
}

/// Whether these are verified as the least times from the three nodes.
#[tactic(auto, using(crate::proofs::Three::three_small))]
fn verifies(scenario: &Scenario, destination: u32, times: [Option<u32>; 3]) -> bool
    requires nodes { length scenario.now.network.nodes ≡ 3 }
    requires destination { destination < length scenario.now.destinations }
{
    let potentials = [
        potential(times[0]),
        potential(times[1]),
        potential(times[2]),
    ];
    verify(scenario, destination, &potentials)
}

/// The routes to a destination have these times, and begin with these links.
fn expect_routes<R: Abort + AllocGlobal>(
    rt: &R,
    scenario: &Scenario,
    destination: u32,
    times: [Option<u32>; 3],
    begins: [bool; 3],
) -> Result<(), Fail>
    requires nodes { length scenario.now.network.nodes ≡ 3 }
    requires links { length scenario.now.network.links ≡ 3 }
    requires destination { destination < length scenario.now.destinations }
{
    let routes = Routes::to(rt.alloc(), scenario, destination)?;
    for place in 0..3u32 {
        let time = potential(times[place as usize]);
        assert!(rt; routes.potential(NodeId(place)) == time, "node {place}");
        assert!(rt;
            routes.on_route(LinkId(place)) == begins[place as usize],
            "link {place}"
        );
    }
    Ok(())
}

/// Equal routes share, a node without a way has no potential, and only the least times are verified.
#[test]
fn finds_and_verifies_least_routes(rt: HostRuntime) -> Result<(), Fail> {
    let roads = roads(&rt, rt.alloc());
    let least = [Some(4000), Some(2000), Some(0)];
    expect_routes(&rt, &roads, 0, least, [true, true, true])?;
    assert!(rt; verifies(&roads, 0, least));
    assert!(rt; !verifies(&roads, 0, [Some(3999), Some(2000), Some(0)]));
    assert!(rt; !verifies(&roads, 0, [None, Some(2000), Some(0)]));
    let least = [Some(2000), Some(0), None];
    expect_routes(&rt, &roads, 1, least, [true, false, false])?;
    assert!(rt; verifies(&roads, 1, least));
    assert!(rt; !verifies(&roads, 1, [Some(1999), Some(0), None]));
    assert!(rt; !verifies(&roads, 1, [Some(2001), Some(0), None]));
    Ok(())
}
