//! Counts of a pair are set where they differ from those that stand, and the cells that change are noted.
//!
//! They are given as they are, or as what has moved since the slot's beginning: then they are those of the slot's beginning
//! and what has moved, which are nowhere written but where they are set. Of one and two numbers, as with so many
//! destinations, they are made without a loop, and of others they are written as they are compared.
ghost use Rattle.std.specs.Prelude.{◌≡◌, ◌==◌, ◌&&◌, ◌+◌, ◌<◌, ◌≤◌, ◌^◌, ℕ, length, slice_index, None};
ghost use Rattle.ltm_curve.specs.Table.{counts_of};
ghost use Rattle.ltm_curve.specs.Cells.{HasCells};
ghost use Rattle.ltm_loading.specs.Groups.{arr_of, groups};
ghost use Rattle.ltm_setting.specs.Setting.{setting_of};
ghost use Rattle.ltm_flows.specs.Applying.{SetsSink};
ghost use Rattle.ltm_frontier.specs.Frontier.{is_pair};
ghost use Rattle.ltm_working.specs.declared.step_form.StepForm.TheVariants.{Counted, Moved};
ghost use Rattle.ltm_working.specs.Counted.{counted_number, counted_arrivals};
ghost use Rattle.ltm_working.specs.Waking.{sink_differs, PutsCells};
ghost use Rattle.ltm_working.specs.Rewriting.{FitsRow, RenewsRow};
ghost use Rattle.ltm_setting.specs.Places.{IsShapedFor, IsSlot, all_groups};

use crate::step_form::StepForm;
use ltm_curve::{Changed, Curves};
use ltm_rows::same_numbers;
use ltm_scenario::Scenario;
use ltm_setting::{arr_of, destination_at};
use ltm_units::Pair;

/// Sets the counts of a group at a slot's end, and no others; whether some count was another one. If so the cell is noted as
/// changed, and else nothing is written: of the groups of a pair that is worked on again about half have the counts that
/// they had.
#[inline]
fn renew_row(
    curves: &mut Curves,
    changed: &mut Changed,
    group: u32,
    slot: u32,
    counts: &[u64],
) -> bool
    requires { FitsRow Counted curves.old changed.old group slot counts.now }
    ensures { RenewsRow Counted curves.old changed.old group slot counts.now result curves.new
        changed.new }
{
    let boundary = slot + 1;
    if same_numbers(curves.row(group, boundary), counts) {
        return false;
    }
    curves.set_row(group, boundary, counts);
    changed.put(group, boundary);
    true
}

/// The same, for counts that are given. Kept out of line, so that counts that are made of moves are set in line.
#[inline(never)]
fn renew_counts(
    curves: &mut Curves,
    changed: &mut Changed,
    group: u32,
    slot: u32,
    counts: &[u64],
) -> bool
    requires { FitsRow Counted curves.old changed.old group slot counts.now }
    ensures { RenewsRow Counted curves.old changed.old group slot counts.now result curves.new
        changed.new }
{
    renew_row(curves, changed, group, slot, counts)
}

/// Sets the counts of a group at a slot's end to those of its beginning and what has moved, for three destinations or more;
/// whether some count was another one. Kept out of line.
#[inline(never)]
fn renew_many(
    curves: &mut Curves,
    changed: &mut Changed,
    group: u32,
    slot: u32,
    moves: &[u64],
) -> bool
    requires row { FitsRow Moved curves.old changed.old group slot moves.now }
    requires several { 3 ≤ length moves.now }
    ensures { RenewsRow Moved curves.old changed.old group slot moves.now result curves.new
        changed.new }
{
    if !curves.move_row(group, slot, moves) {
        return false;
    }
    changed.put(group, slot + 1);
    true
}

/// The same for two destinations, without a loop. Kept out of line.
#[inline(never)]
fn renew_two(
    curves: &mut Curves,
    changed: &mut Changed,
    group: u32,
    slot: u32,
    moves: &[u64],
) -> bool
    requires row { FitsRow Moved curves.old changed.old group slot moves.now }
    requires two { length moves.now ≡ 2 }
    ensures { RenewsRow Moved curves.old changed.old group slot moves.now result curves.new
        changed.new }
{
    let before = curves.row(group, slot);
    let first = u64::from(before[0]) + moves[0];
    let second = u64::from(before[1]) + moves[1];
    renew_row(curves, changed, group, slot, &[first, second])
}

/// The same for one destination. Kept out of line.
#[inline(never)]
fn renew_one(
    curves: &mut Curves,
    changed: &mut Changed,
    group: u32,
    slot: u32,
    moves: &[u64],
) -> bool
    requires row { FitsRow Moved curves.old changed.old group slot moves.now }
    requires one { length moves.now ≡ 1 }
    ensures { RenewsRow Moved curves.old changed.old group slot moves.now result curves.new
        changed.new }
{
    let before = curves.row(group, slot);
    let only = u64::from(before[0]) + moves[0];
    renew_row(curves, changed, group, slot, &[only])
}

/// The same for any number of destinations. In line, so that what fits the number is called at once.
#[inline(always)]
fn renew_moves(
    curves: &mut Curves,
    changed: &mut Changed,
    group: u32,
    slot: u32,
    moves: &[u64],
) -> bool
    requires { FitsRow Moved curves.old changed.old group slot moves.now }
    ensures { RenewsRow Moved curves.old changed.old group slot moves.now result curves.new
        changed.new }
{
    if moves.len() > 2 {
        return renew_many(curves, changed, group, slot, moves);
    }
    if moves.len() == 2 {
        return renew_two(curves, changed, group, slot, moves);
    }
    if moves.len() == 1 {
        return renew_one(curves, changed, group, slot, moves);
    }
    false
}

/// Sets the counts of a group at a slot's end, and no others; whether some count was another one. If so the cell is noted as
/// changed.
#[inline(always)]
pub(crate) fn renew(
    curves: &mut Curves,
    changed: &mut Changed,
    group: u32,
    slot: u32,
    given: StepForm,
    numbers: &[u64],
) -> bool
    requires { FitsRow given curves.old changed.old group slot numbers.now }
    ensures { RenewsRow given curves.old changed.old group slot numbers.now result curves.new
        changed.new }
{
    match given {
        StepForm::Counted => return renew_counts(curves, changed, group, slot, numbers),
        StepForm::Moved => return renew_moves(curves, changed, group, slot, numbers),
    }
}

/// A count at a slot's end, which was another at its beginning.
#[inline]
fn count_of(given: StepForm, before: u64, number: u64) -> u64
    requires { counted_number given before number < 2 ^ 64 }
    ensures { result ≡ counted_number given before number }
{
    match given {
        StepForm::Counted => number,
        StepForm::Moved => before + number,
    }
}

/// Sets what has arrived at a node by a slot's end, where it is a destination; whether it was another number. If so the cell
/// is noted as changed.
pub(crate) fn renew_sink(
    scenario: &Scenario,
    curves: &mut Curves,
    changed: &mut Changed,
    pair: Pair,
    given: StepForm,
    arrived: u64,
) -> bool
    requires slot { IsSlot scenario.now pair.slot }
    requires shape { IsShapedFor scenario.now curves.old }
    requires small { counted_arrivals given (setting_of scenario.now) (counts_of curves.old)
        pair.node.0 pair.slot arrived < 2 ^ 31 }
    requires no_sink { (setting_of scenario.now).own pair.node.0 ≡ None → arrived ≡ 0 }
    requires cells { HasCells changed.old (all_groups scenario.now)
        (setting_of scenario.now).slots }
    ensures value { result ≡ sink_differs (setting_of scenario.now) (counts_of curves.old)
        ((setting_of scenario.now).own pair.node.0) (pair.slot + 1)
        (counted_arrivals given (setting_of scenario.now) (counts_of curves.old)
        pair.node.0 pair.slot arrived) }
    ensures shape { IsShapedFor scenario.now curves.new }
    ensures sets { SetsSink (setting_of scenario.now) pair.node.0 (pair.slot + 1)
        (counted_arrivals given (setting_of scenario.now) (counts_of curves.old)
        pair.node.0 pair.slot arrived) (counts_of curves.old) (counts_of curves.new) }
    ensures cells { PutsCells changed.old changed.new
        (λ g k. result && is_pair (arr_of (setting_of scenario.now)) (pair.slot + 1) g k) }
{
    let Some(destination) = destination_at(scenario, pair.node) else {
        return false;
    };
    let group = arr_of(scenario);
    let boundary = pair.slot + 1;
    let before = curves.get(group, destination, pair.slot);
    let count = count_of(given, before, arrived);
    if curves.get(group, destination, boundary) == count {
        return false;
    }
    curves.set(group, destination, boundary, count);
    changed.put(group, boundary);
    true
}
