//! One road whose entry is closed for a slot, repaired pair by pair.
//!
//! Link `a` leads from `n1` to `n2`, in 4 slots of 1000 ms. Its free-flow time is 2 slots, its wave time 4, its capacity 500
//! units a slot. `n1` sends 500 units for `n2` in each of the slots 0 and 1. Its entry is then closed in slot 0.
ghost use Rattle.std.specs.Prelude.{◌≡◌};
ghost use Rattle.ltm_scenario.specs.Edits.{HaveAmounts, horizon_after};
ghost use Rattle.ltm_scenario.specs.Valid.{IsValid};
ghost use Rattle.ltm_working.specs.Scenarios.{IsReadyFor};

use ltm_casefile::read_case;
use ltm_io::MemFolder;
use ltm_node::{NodeInputs, NodeOutputs, solve};
use ltm_pairs::batch_touches_readers;
use ltm_scenario::{Batch, Edit, Scenario};
use ltm_units::{Name, NoMemory, NodeId, Pair, Steps, Units};
use ltm_working::{Found, Table, WIDEST, tables_fit};
use std::alloc::Global;
use std::process::Abort;

/// The four files of the road.
fn files(alloc: Global) -> Result<MemFolder, NoMemory> {
    MemFolder::of_case(
        alloc,
        &[],
        "step_ms,slots,origin_capacity\n1000,4,1\n",
        "link,from,to,length_m,free_kmh,wave_kmh,jam_per_km\na,n1,n2,20,36,18,150\n",
        "origin,destination,from_slot,to_slot,vehicles\nn1,n2,0,2,1\n",
        "node,destination,from_slot,weights\nn1,n2,0,a=1\n",
    )
}

/// The road, open.
fn road(rt: &impl Abort, alloc: Global) -> Scenario {
    let mut folder = files(alloc).expect(rt, "memory");
    read_case(alloc, &mut folder).ok().expect(rt, "a case")
}

/// No unit enters `a` in slot 0.
fn closure(rt: &impl Abort) -> Edit {
    Edit::Limit {
        link: Name::read(b"a").expect(rt, "a name"),
        from: 0,
        to: 1,
        amount: Units(0),
    }
}

/// Gives the scenario and its table a batch that leaves the horizon; whether it is accepted.
fn take_in(scenario: &mut Scenario, table: &mut Table, batch: &Batch) -> bool
    requires ready { IsReadyFor scenario.old table.old }
    requires valid { IsValid scenario.old }
    requires amounts { HaveAmounts batch.now }
    requires horizon { horizon_after scenario.old.setup.slots batch.now ≡ scenario.old.setup.slots }
    ensures { IsReadyFor scenario.new table.new }
{
    batch_touches_readers();
    tables_fit();
    let _setup = scenario.setup();
    match scenario.accept(batch) {
        Ok(()) => {
            table.take_in(scenario, batch.edits());
            return true;
        }
        Err(_) => return false,
    }
}

/// Gives the scenario and its table the closure.
fn close(rt: &impl Abort, alloc: Global, scenario: &mut Scenario, table: &mut Table)
    requires { IsReadyFor scenario.old table.old }
    ensures { IsReadyFor scenario.new table.new }
{
    let batch = Batch::of(alloc, &[closure(rt)]).expect(rt, "a batch");
    let slots = scenario.setup().slots;
    assert!(rt; batch.has_amounts());
    assert!(rt; batch.horizon(slots) == slots);
    assert!(rt; scenario.check().is_ok());
    assert!(rt; take_in(scenario, table, &batch));
}

/// Claims a pair, makes its node step and commits it; none where nothing is left to do.
fn repair_one(
    rt: &impl Abort,
    alloc: Global,
    scenario: &Scenario,
    table: &mut Table,
) -> Option<Pair>
    requires { IsReadyFor scenario.now table.old }
    ensures { IsReadyFor scenario.now table.new }
{
    let mut inputs = NodeInputs::create(alloc, WIDEST).expect(rt, "memory");
    let outputs = NodeOutputs::create(alloc, WIDEST).expect(rt, "memory");
    match table.claim(scenario, &mut inputs) {
        Found::Work(pair) => {
            let mut steps = Steps::new();
            let solved = solve(inputs, outputs, &mut steps);
            table.commit(scenario, pair, &solved);
            return Some(pair);
        }
        Found::Wait => return None,
        Found::Rest => return None,
    }
}

/// Whether each slot of a node is active.
fn active(scenario: &Scenario, table: &Table, node: u32) -> [bool; 4]
    requires { IsReadyFor scenario.now table.now }
{
    let mut slots = [false; 4];
    for slot in 0..4u32 {
        let node = NodeId(node);
        slots[slot as usize] = table.is_active(scenario, Pair { node, slot });
    }
    slots
}

#[test]
fn a_commit_wakes_its_readers(rt: HostRuntime) {
    let mut scenario = road(&rt, rt.alloc());
    let mut table = Table::create(rt.alloc(), &scenario).expect(&rt, "memory");
    assert!(rt; table.is_at_rest(&scenario));
    close(&rt, rt.alloc(), &mut scenario, &mut table);
    assert_eq!(rt; active(&scenario, &table, 0), [true, false, false, false]);
    assert_eq!(rt; active(&scenario, &table, 1), [false; 4]);

    // 500 units fewer have entered by boundary 1. Where the units end that n2 may send in slot 3 is at boundary 3.
    let first = repair_one(&rt, rt.alloc(), &scenario, &mut table).expect(&rt, "a pair");
    assert!(rt; first.node.0 == 0 && first.slot == 0);
    assert_eq!(rt; active(&scenario, &table, 0), [false, true, false, false]);
    assert_eq!(rt; active(&scenario, &table, 1), [false, true, true, false]);
    assert!(rt; table.changed() == 2);
}
