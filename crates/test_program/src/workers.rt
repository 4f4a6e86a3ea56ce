//! Sessions beside workers whose output is one text, or one of two, whatever the order in which threads run.
use crate::cases::{USAGE, folder_of, hour, one_road};
use ltm_command::Status;
use ltm_io::{MemFolder, SureSink, SureSource};
use ltm_program::run;
use ltm_units::NoMemory;
use ltm_workers::PlainGate;
use std::alloc::{AllocError, Global};
use std::sync::Wait;
use std::test::Fail;
use std::thread::Threads;

fn words_of(alloc: Global, workers: &str) -> Result<Vec<String>, AllocError> {
    let mut words = Vec::new(alloc);
    words.push(String::from_str(alloc, "session")?)?;
    words.push(String::from_str(alloc, workers)?)?;
    Ok(words)
}

/// Serves a script beside so many workers: the status, and what was written.
fn serve<R: Threads + Wait + Sync + AllocGlobal>(
    rt: &R,
    workers: &str,
    folder: &mut MemFolder,
    script: &str,
) -> Result<(Status, SureSink), Fail> {
    let alloc = rt.alloc();
    let words = words_of(alloc, workers)?;
    let mut input = SureSource::create(alloc, script.as_bytes(), 100)?;
    let mut output = SureSink::create(alloc, 1000)?;
    let status = run(
        rt,
        alloc,
        words.as_slice(),
        folder,
        &mut input,
        &mut output,
        &PlainGate,
    );
    Ok((status, output))
}

/// Five batches of one edit, each settled.
const EDITS: &str =
    "{\"do\":\"edit\",\"edits\":[{\"kind\":\"limit\",\"link\":\"f1\",\"from\":98,\"to\":142,\"vehicles\":\"0\"}]}\n{\"do\":\"settle\"}\n{\"do\":\"totals\"}\n\
    {\"do\":\"edit\",\"edits\":[{\"kind\":\"demand\",\"origin\":\"g0\",\"destination\":\"g4\",\"from\":300,\"to\":330,\"vehicles\":\"396\"}]}\n{\"do\":\"settle\"}\n{\"do\":\"totals\"}\n\
    {\"do\":\"edit\",\"edits\":[{\"kind\":\"split\",\"node\":\"g2\",\"destination\":\"g4\",\"from\":159,\"weights\":{\"f3\":2}}]}\n{\"do\":\"settle\"}\n{\"do\":\"totals\"}\n\
    {\"do\":\"edit\",\"edits\":[{\"kind\":\"diagram\",\"link\":\"f4\",\"length_m\":550,\"free_kmh\":120,\"wave_kmh\":20,\"jam_per_km\":293}]}\n{\"do\":\"settle\"}\n{\"do\":\"totals\"}\n\
    {\"do\":\"edit\",\"edits\":[{\"kind\":\"limit\",\"link\":\"f1\",\"from\":17,\"to\":55,\"vehicles\":\"5.356\"}]}\n{\"do\":\"settle\"}\n{\"do\":\"totals\"}\n";

/// What is answered, as another engine found it.
const ANSWERS: &str =
    "accepted version 1\nsettled version 1 recomputed 1300\nversion 1 generated 4320.000 arrived 4204.418 on_links 85.712 waiting 29.870\n\
    accepted version 2\nsettled version 2 recomputed 0\nversion 2 generated 4356.000 arrived 4204.418 on_links 85.712 waiting 65.870\n\
    accepted version 3\nsettled version 3 recomputed 201\nversion 3 generated 4356.000 arrived 4204.418 on_links 85.712 waiting 65.870\n\
    accepted version 4\nsettled version 4 recomputed 1302\nversion 4 generated 4356.000 arrived 4132.229 on_links 96.317 waiting 127.454\n\
    accepted version 5\nsettled version 5 recomputed 1705\nversion 5 generated 4356.000 arrived 3974.703 on_links 96.317 waiting 284.980\n";

// Each edit is settled before anything is asked, so that the text depends on no order.
#[test]
fn settled_edits_have_one_output(rt: HostRuntime) -> Result<(), Fail> {
    let mut folder = folder_of(rt.alloc(), hour(), &[])?;
    for workers in ["0", "2"] {
        let (status, output) = serve(&rt, workers, &mut folder, EDITS)?;
        assert!(rt; status == Status::Ok);
        assert!(rt;
            output.written() == ANSWERS.as_bytes(),
            "beside {workers} workers"
        );
    }
    Ok(())
}

/// A closure at the entry of the road in the first slot, and the totals before it is settled and after.
const ASKED_BETWEEN: &str =
    "{\"do\":\"edit\",\"edits\":[{\"kind\":\"limit\",\"link\":\"a\",\"from\":0,\"to\":1,\"vehicles\":\"0\"}]}\n{\"do\":\"totals\"}\n{\"do\":\"settle\"}\n{\"do\":\"totals\"}\n";

const OLDER_SHOWN: &str =
    "accepted version 1\nversion 0 generated 1.000 arrived 1.000 on_links 0.000 waiting 0.000\nsettled version 1 recomputed 5\nversion 1 generated 1.000 arrived 0.500 on_links 0.500 waiting 0.000\n";

const NEWER_SHOWN: &str =
    "accepted version 1\nversion 1 generated 1.000 arrived 0.500 on_links 0.500 waiting 0.000\nsettled version 1 recomputed 5\nversion 1 generated 1.000 arrived 0.500 on_links 0.500 waiting 0.000\n";

// Before the settle the loading of no batch or of the one batch is reported, as far as the workers have come.
#[test]
fn a_finished_loading_is_reported(rt: HostRuntime) -> Result<(), Fail> {
    let mut folder = one_road(rt.alloc())?;
    for workers in ["1", "2", "64"] {
        let (status, output) = serve(&rt, workers, &mut folder, ASKED_BETWEEN)?;
        let written = output.written();
        let is_older = written == OLDER_SHOWN.as_bytes();
        let is_newer = written == NEWER_SHOWN.as_bytes();
        assert!(rt; status == Status::Ok);
        assert!(rt; is_older || is_newer, "beside {workers} workers");
    }
    Ok(())
}

#[test]
fn more_than_64_workers_are_not_asked_for(rt: HostRuntime) -> Result<(), Fail> {
    let mut folder = one_road(rt.alloc())?;
    let (status, output) = serve(&rt, "65", &mut folder, ASKED_BETWEEN)?;
    assert!(rt; status == Status::Usage);
    assert!(rt; output.written() == USAGE.as_bytes());
    Ok(())
}
