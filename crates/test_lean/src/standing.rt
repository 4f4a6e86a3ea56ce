//! What stands on a link of two destinations.
ghost use Rattle.std.specs.Prelude.{◌≡◌, ◌+◌, ◌≤◌};
ghost use Rattle.ltm_standing.specs.Standing.{width_of};
ghost use Rattle.ltm_units.specs.Bounds.{most_in_slot};

use ltm_standing::Standing;
use std::process::Abort;

// What entered in a slot.
fn take_in(rt: &impl Abort, standing: &mut Standing, mail: [u16; 2])
    requires { width_of standing.old ≡ 2 }
    ensures { width_of standing.new ≡ 2 }
{
    let came = u32::from(mail[0]) + u32::from(mail[1]);
    assert!(rt; standing.take_in(came, &mail).is_ok());
}

// What a link sends of which so many units may have left by the slot's end, so many have, and so many may leave.
fn sends(rt: &impl Abort, standing: &mut Standing, units: [u64; 3], want: [u32; 2])
    requires wide { width_of standing.old ≡ 2 }
    ensures wide { width_of standing.new ≡ 2 }
{
    let [goal, gone, limit] = units;
    assert!(rt; goal <= 100 && gone <= 100);
    let mut sent = [0; 2];
    standing.send(goal, gone, limit, &mut sent);
    assert!(rt; sent == want);
}

fn leave(standing: &mut Standing, left: [u32; 2])
    requires { width_of standing.old ≡ 2 }
    ensures { width_of standing.new ≡ 2 }
{
    standing.leave(&left);
}

// Of 3 and 2 units that enter together, then none, then 4 of the second: what is sent where 4 of all may have left, within an exit
// limit of 2, where one of each has left, and where another limit keeps all.
#[test]
fn sends_what_entered_first(rt: HostRuntime) {
    let Ok(mut standing) = Standing::create(rt.alloc(), 2) else {
        panic!(rt; "no memory");
    };
    sends(&rt, &mut standing, [0, 0, 10], [0, 0]);
    take_in(&rt, &mut standing, [3, 2]);
    sends(&rt, &mut standing, [4, 0, 10], [2, 2]);
    sends(&rt, &mut standing, [4, 0, 2], [1, 1]);
    leave(&mut standing, [1, 1]);
    take_in(&rt, &mut standing, [0, 0]);
    sends(&rt, &mut standing, [5, 2, 10], [2, 1]);
    leave(&mut standing, [2, 1]);
    take_in(&rt, &mut standing, [0, 4]);
    sends(&rt, &mut standing, [7, 5, 10], [0, 2]);
    sends(&rt, &mut standing, [7, 5, 0], [0, 0]);
}
