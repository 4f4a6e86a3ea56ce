//! A story: what is done with a scenario, one thing after another, and what is answered.
use crate::acts::{Act, Told, done};
use crate::cases::{Case, fill, setup_of};
use ltm_scenario::Scenario;
use std::alloc::Global;
use std::process::Abort;

/// The place, counted from 1, of the first thing that is answered otherwise; none where all is answered so.
fn otherwise(alloc: Global, scenario: &mut Scenario, story: &[(Act, Told)]) -> Option<usize> {
    for (place, (act, told)) in story.iter().enumerate() {
        if done(alloc, scenario, *act) != *told {
            return Some(place.saturating_add(1));
        }
    }
    None
}

/// The same of a copy; place 0 where there is none.
fn otherwise_of_copy(alloc: Global, scenario: &Scenario, story: &[(Act, Told)]) -> Option<usize> {
    match scenario.try_copy() {
        Ok(mut copy) => otherwise(alloc, &mut copy, story),
        Err(_) => Some(0),
    }
}

/// The same of an empty scenario, once the case is put into it.
fn otherwise_filled(
    alloc: Global,
    scenario: &mut Scenario,
    case: Case,
    story: &[(Act, Told)],
) -> Option<usize> {
    if fill(scenario, case).is_none() {
        return Some(0);
    }
    match case {
        Case::ClosedCopy => otherwise_of_copy(alloc, scenario, story),
        _ => otherwise(alloc, scenario, story),
    }
}

fn otherwise_of(alloc: Global, case: Case, story: &[(Act, Told)]) -> Option<usize> {
    match Scenario::create(alloc, setup_of(case)) {
        Ok(mut scenario) => otherwise_filled(alloc, &mut scenario, case, story),
        Err(_) => Some(0),
    }
}

/// Whether a scenario of the case answers as the story says.
pub fn tell(rt: &impl Abort, alloc: Global, case: Case, story: &[(Act, Told)]) {
    let otherwise = otherwise_of(alloc, case, story);
    assert_eq!(rt; otherwise, None);
}
