//! Which pairs read what an edit or a commit changes.
ghost use Rattle.std.specs.Prelude.{◌≡◌, []};

use ltm_diagram::{Delay, Diagram};
use ltm_pairs::{ArmSet, Spread, dependents, readers_ago, touched};
use ltm_scenario::{Edit, Scenario, Setup, SplitRows, Weights};
use ltm_units::{Four, Millis, Name, NodeId, Pair, Reach, Units};
use std::alloc::Global;
use std::process::Abort;

fn named(rt: &impl Abort, text: &str) -> Name {
    let Some(name) = Name::read(text.as_bytes()) else {
        panic!(rt; "no name");
    };
    name
}

// A free-flow time of 2000 ms and a wave time of 4500 ms.
fn road() -> Diagram {
    Diagram {
        length_m: 25,
        free_kmh: 45,
        wave_kmh: 20,
        jam_per_km: 150,
    }
}

// Link a from n1 to n2, then b from n2 to n3. The nodes are 0, 1 and 2.
fn add_links(rt: &impl Abort, scenario: &mut Scenario)
    requires { scenario.old.splits ≡ [] }
{
    let a = scenario.add_link(named(rt, "a"), named(rt, "n1"), named(rt, "n2"), road());
    assert!(rt; a.is_ok());
    let b = scenario.add_link(named(rt, "b"), named(rt, "n2"), named(rt, "n3"), road());
    assert!(rt; b.is_ok());
}

// The two links over 12 slots of 1000 ms.
fn corridor(rt: &impl Abort, alloc: Global) -> Option<Scenario> {
    let setup = Setup::of(Millis(1000), 12, Units(1000));
    let mut scenario = Scenario::create(alloc, setup).ok()?;
    add_links(rt, &mut scenario);
    Some(scenario)
}

fn reach(node: u32, from: u32, to: u32) -> Reach {
    Reach {
        node: NodeId(node),
        from,
        to,
    }
}

fn demand(rt: &impl Abort, from: u32, to: u32) -> Edit {
    Edit::Demand {
        origin: named(rt, "n1"),
        destination: named(rt, "n3"),
        from,
        to,
        amount: Units(1000),
    }
}

fn limit(rt: &impl Abort, link: &str, from: u32, to: u32) -> Edit {
    Edit::Limit {
        link: named(rt, link),
        from,
        to,
        amount: Units(0),
    }
}

fn exit(rt: &impl Abort, link: &str, from: u32, to: u32) -> Edit {
    Edit::Exit {
        link: named(rt, link),
        from,
        to,
        amount: Units(0),
    }
}

fn split(rt: &impl Abort, from: u32) -> Edit {
    let Some(weights) = Weights::of(Four::one((named(rt, "b"), 1))) else {
        panic!(rt; "no weights");
    };
    Edit::Split {
        node: named(rt, "n2"),
        destination: named(rt, "n3"),
        from,
        weights,
    }
}

// Whatever the rows are.
fn splits(rt: &impl Abort, alloc: Global) -> Edit {
    Edit::Splits {
        node: named(rt, "n2"),
        destination: named(rt, "n3"),
        rows: SplitRows::of(Vec::new(alloc)),
    }
}

fn new_diagram(rt: &impl Abort, link: &str) -> Edit {
    Edit::Diagram {
        link: named(rt, link),
        diagram: road(),
    }
}

/// The first two reaches of a spread, how many it has, and the slots that are new.
fn reaches_of(spread: &Spread) -> ([Option<Reach>; 2], usize, Option<(u32, u32)>) {
    let reaches = spread.reaches();
    let first = [reaches.first().copied(), reaches.get(1).copied()];
    (first, reaches.len(), spread.all_new)
}

// One spread for all edits: each call replaces what it held. The first and the second reach, where there is one.
fn reaches_of_edits(rt: &impl Abort, alloc: Global, scenario: &Scenario, spread: &mut Spread) {
    let cases = [
        (demand(rt, 2, 5), [Some(reach(0, 2, 12)), None]),
        (limit(rt, "a", 3, 7), [Some(reach(0, 3, 7)), None]),
        (limit(rt, "b", 0, 12), [Some(reach(1, 0, 12)), None]),
        (exit(rt, "a", 0, 4), [Some(reach(1, 0, 4)), None]),
        (exit(rt, "b", 1, 20), [Some(reach(2, 1, 12)), None]),
        (split(rt, 4), [Some(reach(1, 4, 12)), None]),
        (splits(rt, alloc), [Some(reach(1, 0, 12)), None]),
        (
            new_diagram(rt, "b"),
            [Some(reach(1, 0, 12)), Some(reach(2, 0, 12))],
        ),
        (limit(rt, "c", 0, 12), [None, None]),
    ];
    for (edit, want) in cases {
        touched(scenario, &edit, spread);
        let (reaches, count, all_new) = reaches_of(spread);
        assert_eq!(rt; reaches, want);
        assert!(rt; count <= 2 && all_new.is_none());
    }
}

// A longer horizon has no reach, and tells its slots until the next call.
fn slots_of_a_longer_horizon(rt: &impl Abort, scenario: &Scenario, spread: &mut Spread) {
    touched(scenario, &Edit::Horizon { slots: 20 }, spread);
    let longer = ([None, None], 0, Some((12, 20)));
    assert_eq!(rt; reaches_of(spread), longer);
    touched(scenario, &exit(rt, "b", 1, 20), spread);
    let exit = ([Some(reach(2, 1, 12)), None], 1, None);
    assert_eq!(rt; reaches_of(spread), exit);
}

/// The first three reaches of a spread.
fn three_of(spread: &Spread) -> [Option<Reach>; 3] {
    let reaches = spread.reaches();
    [
        reaches.first().copied(),
        reaches.get(1).copied(),
        reaches.get(2).copied(),
    ]
}

// Node n2 in slot 3: its next slot; slots of n1, where 4500 ms later reads boundary 4; and n3 from slot 4 on.
fn reaches_of_commits(rt: &impl Abort, scenario: &Scenario, spread: &mut Spread) {
    let [own, tail, head] = [reach(1, 4, 5), reach(0, 7, 9), reach(2, 4, 12)];
    let cases = [
        (0, 0, 3, [Some(own), None, None]),
        (1, 0, 3, [Some(own), Some(tail), None]),
        (2, 0, 3, [Some(own), None, None]),
        (3, 1, 3, [Some(own), Some(tail), Some(head)]),
        (0, 1, 3, [Some(own), Some(head), None]),
        (1, 1, 12, [None, None, None]),
    ];
    for (arms, outs, slot, want) in cases {
        let pair = Pair {
            node: NodeId(1),
            slot,
        };
        let changed = ArmSet {
            arms,
            outs,
            sinks: 0,
        };
        dependents(scenario, pair, changed, spread);
        assert_eq!(rt; three_of(spread), want);
    }
}

// All three ask one corridor and one spread, so that each is let go in one place.
#[test]
fn reaches_of_edits_and_commits(rt: HostRuntime) {
    let mut spread = Spread::new();
    match corridor(&rt, rt.alloc()) {
        Some(scenario) => {
            reaches_of_edits(&rt, rt.alloc(), &scenario, &mut spread);
            slots_of_a_longer_horizon(&rt, &scenario, &mut spread);
            reaches_of_commits(&rt, &scenario, &mut spread);
        }
        None => panic!(rt; "no scenario"),
    }
}

// Slots of 1000 ms. Of 2000 ms one slot reads a boundary, and of 2500 ms two; the horizon cuts them.
#[test]
fn slots_that_read_a_boundary(rt: HostRuntime) {
    let cases = [
        (1, 2000, 12, 2, 3),
        (1, 2500, 12, 2, 4),
        (1, 1000, 12, 1, 2),
        (3, 1500, 12, 3, 5),
        (3, 1500, 4, 3, 4),
        (11, 4000, 12, 14, 12),
    ];
    for (boundary, time, slots, from, to) in cases {
        let delay = Delay::of(Millis(time), Millis(1000));
        let read = readers_ago(NodeId(0), boundary, delay, slots);
        assert_eq!(rt; read, reach(0, from, to), "boundary {boundary}, {time} ms");
    }
}
