//! Counts, totals and times of small curves.
ghost use Rattle.ltm_curve.specs.Table.{HasShape, IsEmpty};

use ltm_curve::Curves;
use ltm_units::Millis;
use std::alloc::Global;
use std::process::Abort;

// A group with two destinations: 0 and 0, then 300 and 100, then 300 and 500.
fn set_and_ask(rt: &impl Abort, curves: &mut Curves)
    requires shape { HasShape curves.old 2 2 2 }
    requires empty { IsEmpty curves.old }
    ensures { HasShape curves.new 2 2 2 }
{
    curves.set(1, 0, 1, 300);
    curves.set(1, 1, 1, 100);
    curves.set(1, 0, 2, 300);
    curves.set(1, 1, 2, 500);
    assert_eq!(rt; curves.get(1, 0, 0), 0);
    assert_eq!(rt; curves.get(1, 1, 2), 500);
    assert_eq!(rt; curves.total(0, 2), 0);
}

// The totals 0, 400 and 800 of its second group, at some times.
fn ask_times(rt: &impl Abort, curves: &Curves)
    requires { HasShape curves.now 2 2 2 }
{
    let first = curves.total(1, 0);
    let second = curves.total(1, 1);
    let third = curves.total(1, 2);
    assert!(rt; first == 0 && second == 400 && third == 800);
    let step = Millis(1000);
    let told = [
        curves.at(1, -500, step),
        curves.at(1, 0, step),
        curves.at(1, 333, step),
        curves.at(1, 1000, step),
        curves.at(1, 1500, step),
        curves.at(1, 2000, step),
        curves.at(1, 1250, step),
    ];
    assert_eq!(rt; told, [0, 0, 133, 400, 600, 800, 500]);
}

#[test]
fn counts_and_times(rt: HostRuntime) {
    match Curves::create(rt.alloc(), 2, 2, 2) {
        Ok(mut curves) => {
            set_and_ask(&rt, &mut curves);
            ask_times(&rt, &curves);
        }
        Err(_) => panic!(rt; "no memory"),
    }
}

// The totals 0, 400 and 1000 some time before the end of a slot of a second: 1000, 1250, 2000 and 2001 ms before that of
// slot 1, and 1000, 1333 and 2001 ms before that of slot 2.
fn ask_between_boundaries(rt: &impl Abort, curves: &mut Curves)
    requires { HasShape curves.old 1 2 2 }
{
    curves.set(0, 0, 1, 300);
    curves.set(0, 1, 1, 100);
    curves.set(0, 0, 2, 300);
    curves.set(0, 1, 2, 700);
    let first = curves.total(0, 0);
    let second = curves.total(0, 1);
    let third = curves.total(0, 2);
    assert!(rt; first == 0 && second == 400 && third == 1000);
    let step = Millis(1000);
    let told = [
        curves.at(0, 2000 - 1000, step),
        curves.at(0, 2000 - 1250, step),
        curves.at(0, 2000 - 2000, step),
        curves.at(0, 2000 - 2001, step),
        curves.at(0, 3000 - 1000, step),
        curves.at(0, 3000 - 1333, step),
        curves.at(0, 3000 - 2001, step),
    ];
    assert_eq!(rt; told, [400, 300, 0, 0, 1000, 800, 399]);
}

#[test]
fn totals_between_boundaries(rt: HostRuntime) {
    match Curves::create(rt.alloc(), 1, 2, 2) {
        Ok(mut curves) => ask_between_boundaries(&rt, &mut curves),
        Err(_) => panic!(rt; "no memory"),
    }
}

// What two destinations have of the first n units by boundary 2, where the counts at the three boundaries do not fall.
fn first_of_two(rt: &impl Abort, curves: &Curves, n: u64) -> [u64; 2] {
    assert!(rt; curves.groups() == 1);
    assert!(rt; curves.destinations() == 2);
    assert!(rt; curves.slots() == 2);
    assert!(rt; curves.get(0, 0, 0) <= curves.get(0, 0, 1));
    assert!(rt; curves.get(0, 0, 1) <= curves.get(0, 0, 2));
    assert!(rt; curves.get(0, 1, 0) <= curves.get(0, 1, 1));
    assert!(rt; curves.get(0, 1, 1) <= curves.get(0, 1, 2));
    assert!(rt; curves.total(0, 0) == 0);
    assert!(rt; n <= curves.total(0, 2));
    let mut into = [0; 2];
    curves.first(0, n, 2, &mut into);
    into
}

// The same counts: of the first 400 units 300 and 100, and after them the second destination alone.
fn ask_first(rt: &impl Abort, curves: &mut Curves)
    requires { HasShape curves.old 1 2 2 }
    ensures { HasShape curves.new 1 2 2 }
{
    curves.set(0, 0, 1, 300);
    curves.set(0, 1, 1, 100);
    curves.set(0, 0, 2, 300);
    curves.set(0, 1, 2, 500);
    let told = [
        first_of_two(rt, curves, 200),
        first_of_two(rt, curves, 400),
        first_of_two(rt, curves, 500),
        first_of_two(rt, curves, 800),
    ];
    assert_eq!(rt; told, [[150, 50], [300, 100], [300, 200], [300, 500]]);
}

// The same of a copy, where units end, and the second boundary once it is carried on.
fn ask_copy(rt: &impl Abort, copy: &mut Curves, curves: &Curves)
    requires copy { HasShape copy.old 1 2 2 }
    requires curves { HasShape curves.now 1 2 2 }
{
    copy.copy_from(curves);
    assert_eq!(rt; first_of_two(rt, copy, 500), [300, 200]);
    let ends = [
        copy.position(0, 0, 2),
        copy.position(0, 399, 2),
        copy.position(0, 400, 2),
        copy.position(0, 799, 2),
        copy.position(0, 800, 2),
    ];
    assert_eq!(rt; ends, [0, 0, 1, 1, 2]);
    copy.carry(1);
    assert_eq!(rt; [copy.get(0, 0, 2), copy.get(0, 1, 2)], [300, 100]);
    assert_eq!(rt; copy.total(0, 2), 400);
}

fn first_and_copy(rt: &impl Abort, alloc: Global, curves: &mut Curves)
    requires { HasShape curves.old 1 2 2 }
{
    ask_first(rt, curves);
    match Curves::create(alloc, 1, 2, 2) {
        Ok(mut copy) => ask_copy(rt, &mut copy, curves),
        Err(_) => panic!(rt; "no memory"),
    }
}

#[test]
fn first_units_and_copies(rt: HostRuntime) {
    match Curves::create(rt.alloc(), 1, 2, 2) {
        Ok(mut curves) => first_and_copy(&rt, rt.alloc(), &mut curves),
        Err(_) => panic!(rt; "no memory"),
    }
}

// 2^31 - 1 units for each of 256 destinations, which come to more than 32 bits hold, and then none for the last of them.
fn ask_wide(rt: &impl Abort, curves: &mut Curves)
    requires shape { HasShape curves.old 1 256 1 }
    requires empty { IsEmpty curves.old }
{
    curves.set_row(0, 1, &[2_147_483_647; 256]);
    assert_eq!(rt; curves.total(0, 1), 549_755_813_632);
    curves.set(0, 255, 1, 0);
    assert_eq!(rt; curves.total(0, 1), 547_608_329_985);
    assert_eq!(rt; curves.get(0, 254, 1), 2_147_483_647);
}

#[test]
fn totals_of_many_destinations(rt: HostRuntime) {
    match Curves::create(rt.alloc(), 1, 256, 1) {
        Ok(mut curves) => ask_wide(&rt, &mut curves),
        Err(_) => panic!(rt; "no memory"),
    }
}
