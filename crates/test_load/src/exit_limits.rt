//! What a link sends below its exit limit.
ghost use Rattle.ltm_curve.specs.Table.{counts_of};
ghost use Rattle.ltm_flows.specs.Loading.{IsLoading};
ghost use Rattle.ltm_setting.specs.Setting.{setting_of};
ghost use Rattle.ltm_setting.specs.Places.{IsShapedFor};

use crate::cases::scenario_of;
use crate::loadings::accept;
use ltm_curve::Curves;
use ltm_flows::{cold, inputs_of, shape_of};
use ltm_io::MemFolder;
use ltm_node::NodeInputs;
use ltm_scenario::{Edit, Scenario};
use ltm_setting::{in_links, node_count, slot_count};
use ltm_units::{Name, NoMemory, NodeId, Pair, Units};
use std::alloc::Global;
use std::process::Abort;

/// Of five units that enter `a` in slot 0, three end at its head and two go on; slot 2 is the first in which they may leave.
fn five_units(alloc: Global) -> Result<MemFolder, NoMemory> {
    MemFolder::of_case(
        alloc,
        &[],
        "step_ms,slots,origin_capacity\n1000,4,1\n",
        "link,from,to,length_m,free_kmh,wave_kmh,jam_per_km\na,n1,n2,20,36,18,150\nb,n2,n3,20,36,18,150\n",
        "origin,destination,from_slot,to_slot,vehicles\nn1,n2,0,1,0.003\nn1,n3,0,1,0.002\n",
        "node,destination,from_slot,weights\nn1,n2,0,a=1\nn1,n3,0,a=1\nn2,n3,0,b=1\n",
    )
}

/// The five units, where no more than so many leave `a` in slot 2.
fn limited(rt: &impl Abort, alloc: Global, limit: u64) -> Scenario {
    let mut folder = five_units(alloc).expect(rt, "memory");
    let mut scenario = scenario_of(alloc, &mut folder).expect(rt, "a case");
    let exit = Edit::Exit {
        link: Name::read(b"a").expect(rt, "a name"),
        from: 2,
        to: 3,
        amount: Units(limit),
    };
    assert!(rt; accept(rt, alloc, &mut scenario, &[exit]).is_ok());
    scenario
}

/// What a node reads in a slot of a finished loading.
fn read_at(
    rt: &impl Abort,
    alloc: Global,
    scenario: &Scenario,
    curves: &Curves,
    pair: Pair,
) -> NodeInputs
    requires shape { IsShapedFor scenario.now curves.now }
    requires loading { IsLoading (setting_of scenario.now) (counts_of curves.now) }
{
    let mut inputs = NodeInputs::create(alloc, 100).expect(rt, "memory");
    assert!(rt; pair.node.0 < node_count(scenario));
    assert!(rt; pair.slot < slot_count(scenario));
    assert!(rt; shape_of(scenario, pair.node).width() <= 100);
    let _links = in_links(scenario, pair.node);
    let mut positions = [0u32; 4];
    inputs_of(scenario, curves, pair, &mut inputs, &mut positions);
    inputs
}

/// What `a` sends in slot 2 below a limit.
fn expect_sent(rt: &impl Abort, alloc: Global, limit: u64, ends: u64, goes_on: u64) {
    let scenario = limited(rt, alloc, limit);
    let curves = cold(alloc, &scenario).expect(rt, "memory");
    let pair = Pair {
        node: NodeId(1),
        slot: 2,
    };
    let inputs = read_at(rt, alloc, &scenario, &curves, pair);
    // what `a` and an origin send, nothing counted yet, the room of `b`, the capacities, and the weight of `b`
    let row = [
        ends, goes_on, 0, 0, 0, 0, 0, 0, 0, 0, 0, 500, 500, 1000, 0, 1,
    ];
    assert!(rt; inputs.same(&row), "a limit of {limit}");
}

#[test]
fn limits_round_down(rt: HostRuntime) {
    expect_sent(&rt, rt.alloc(), 6, 3, 2);
    expect_sent(&rt, rt.alloc(), 5, 3, 2);
    expect_sent(&rt, rt.alloc(), 4, 2, 1);
    expect_sent(&rt, rt.alloc(), 1, 0, 0);
}
