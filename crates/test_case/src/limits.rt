//! Limits by link and slot, as they are set and put back, and over a longer horizon.
ghost use Rattle.std.specs.Prelude.{◌≡◌};

use ltm_limits::SlotLimits;
use std::alloc::Global;

/// A limit; none beyond the links or the slots.
fn limit(table: &SlotLimits, link: u32, slot: u32) -> Option<u16> {
    if link >= table.links() || slot >= table.slots() {
        return None;
    }
    Some(table.limit(link, slot))
}

/// The limits of a link in the first four slots.
fn limits(table: &SlotLimits, link: u32) -> [Option<u16>; 4] {
    [
        limit(table, link, 0),
        limit(table, link, 1),
        limit(table, link, 2),
        limit(table, link, 3),
    ]
}

/// The links, the slots, and the limits of three links.
type Facts = (u32, u32, [[Option<u16>; 4]; 3]);

fn told(table: &SlotLimits) -> Facts {
    let limits = [limits(table, 0), limits(table, 1), limits(table, 2)];
    (table.links(), table.slots(), limits)
}

/// What is told of a table with a link more.
fn told_wider(table: &SlotLimits) -> Option<Facts> {
    if table.links() >= 4000 {
        return None;
    }
    match table.with_link() {
        Ok(wider) => Some(told(&wider)),
        Err(_) => None,
    }
}

/// Sets limits of a link within its slots. Whether they are set.
fn set(table: &mut SlotLimits, link: u32, from: u32, to: u32, limit: u16) -> bool
    ensures { table.new.slots ≡ table.old.slots }
{
    if link >= table.links() || from > to || to > table.slots() {
        return false;
    }
    table.set(link, from, to, limit).is_ok()
}

/// Limits of link 1 are set in slots 2 and 3, and what stood in 1 and 2 is put back. Whether both is done.
fn put_back(table: &mut SlotLimits, was: &mut Vec<u16>) -> bool {
    let done = set(table, 1, 2, 4, 7);
    if table.links() != 2 || table.slots() != 4 || was.len() != 2 || table.reach(3).is_err() {
        return false;
    }
    table.exchange(1, 1, was);
    done
}

/// Limits of link 1 are set in slots 1 and 2, then in 2 and 3, and what stood in 1 and 2 is put back. What is told of a table
/// with a link more after the first, what stood there, and whether the others are done.
fn set_and_put_back(table: &mut SlotLimits) -> Option<(Option<Facts>, bool, bool)> {
    if table.links() != 2 || table.slots() != 4 {
        return None;
    }
    match table.set(1, 1, 3, 250) {
        Ok(mut was) => {
            let wider = told_wider(table);
            let were = was.as_slice() == [32_000, 32_000].as_slice();
            Some((wider, were, put_back(table, &mut was)))
        }
        Err(_) => None,
    }
}

/// What is set in new slots is gone once the horizon was lowered again. The limits of link 1 from slot 3 on, in six slots,
/// with a limit set in the new ones, and in six slots once more.
fn longer_and_back(table: &mut SlotLimits) -> Option<[[Option<u16>; 4]; 3]> {
    if table.links() != 2 || table.slots() != 4 {
        return None;
    }
    table.lengthen(6);
    let first = last_limits(table);
    let _ = set(table, 1, 4, 6, 5);
    let then = last_limits(table);
    table.shorten(4);
    table.lengthen(6);
    Some([first, then, last_limits(table)])
}

/// The limits of link 1 from slot 3 on.
fn last_limits(table: &SlotLimits) -> [Option<u16>; 4] {
    [
        limit(table, 1, 3),
        limit(table, 1, 4),
        limit(table, 1, 5),
        limit(table, 1, 6),
    ]
}

/// What is told of a copy, and of its longer horizon.
fn told_of_copy(table: &SlotLimits) -> Option<(Facts, Option<[[Option<u16>; 4]; 3]>)> {
    match table.try_copy() {
        Ok(mut copy) => {
            let told = told(&copy);
            Some((told, longer_and_back(&mut copy)))
        }
        Err(_) => None,
    }
}

/// What is told as limits are set in a table of two links and four slots, and of its copy.
#[derive(Clone, Copy)]
struct Answers {
    set: Option<(Option<Facts>, bool, bool)>,
    copy: Option<(Facts, Option<[[Option<u16>; 4]; 3]>)>,
}

/// What is told of a table with a second link.
fn told_of_two(one: &SlotLimits) -> Option<Answers> {
    if one.links() != 1 {
        return None;
    }
    match one.with_link() {
        Ok(mut table) => {
            let set = set_and_put_back(&mut table);
            let copy = told_of_copy(&table);
            Some(Answers { set, copy })
        }
        Err(_) => None,
    }
}

fn told_of_one(alloc: Global) -> Option<Answers> {
    match SlotLimits::new(alloc, 4).with_link() {
        Ok(one) => told_of_two(&one),
        Err(_) => None,
    }
}

const NEVER: [Option<u16>; 4] = [Some(32_000); 4];

#[test]
fn limits_set_and_put_back(rt: HostRuntime) {
    let Some(told) = told_of_one(rt.alloc()) else {
        panic!(rt; "no table");
    };
    let set = [Some(32_000), Some(250), Some(250), Some(32_000)];
    let wider = Some((3, 4, [NEVER, set, NEVER]));
    assert!(rt; told.set == Some((wider, true, true)));
    let back = [Some(32_000), Some(32_000), Some(32_000), Some(7)];
    let longer = [
        [Some(7), Some(32_000), Some(32_000), None],
        [Some(7), Some(5), Some(5), None],
        [Some(7), Some(32_000), Some(32_000), None],
    ];
    let copy = (2, 4, [NEVER, back, [None; 4]]);
    assert!(rt; told.copy == Some((copy, Some(longer))));
}
