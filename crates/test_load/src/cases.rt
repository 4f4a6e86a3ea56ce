//! Cases of four files, and their loadings.
use ltm_casefile::read_case;
use ltm_flows::{Loading, cold};
use ltm_io::MemFolder;
use ltm_lean_load::load_lean;
use ltm_lean_threads::{load_in_threads, load_on_processors};
use ltm_scenario::Scenario;
use std::alloc::Global;
use std::process::Abort;
use std::thread::Threads;

/// The scenario of a folder.
pub fn scenario_of(alloc: Global, folder: &mut MemFolder) -> Option<Scenario> {
    read_case(alloc, folder).ok()
}

/// The loading of a scenario, under version 1.
pub fn loading_of<R: Abort + AllocGlobal>(rt: &R, scenario: &Scenario) -> Loading {
    let Ok(curves) = cold(rt.alloc(), scenario) else {
        panic!(rt; "no memory");
    };
    match Loading::create(rt.alloc(), scenario, &curves, 1) {
        Ok(loading) => loading,
        Err(_) => panic!(rt; "no memory"),
    }
}

/// The same loading, made of what stands on the links.
pub fn lean_loading_of<R: Abort + AllocGlobal>(rt: &R, scenario: &Scenario) -> Loading {
    match load_lean(rt.alloc(), scenario, 1) {
        Ok(loading) => loading,
        Err(_) => panic!(rt; "no memory"),
    }
}

/// The same, its nodes shared out over so many threads; over those that pay, where it is 0.
pub fn threaded_loading_of<R: Abort + AllocGlobal + Threads + Sync>(
    rt: &R,
    scenario: &Scenario,
    threads: usize,
) -> Loading {
    let made = match threads {
        0 => load_on_processors(rt, rt.alloc(), scenario, 1),
        _ => load_in_threads(rt, rt.alloc(), scenario, 1, threads),
    };
    match made {
        Ok(loading) => loading,
        Err(_) => panic!(rt; "no memory"),
    }
}
