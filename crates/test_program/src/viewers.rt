//! Viewers at a session of the one road. Values by hand.
use crate::cases::{USAGE, one_road};
use ltm_command::Status;
use ltm_io::{SureSink, SureSource};
use ltm_program::run;
use ltm_workers::PlainGate;
use std::alloc::{AllocError, Global};
use std::sync::Wait;
use std::test::Fail;
use std::thread::Threads;

fn words_of(alloc: Global, viewers: &str) -> Result<Vec<String>, AllocError> {
    let mut words = Vec::new(alloc);
    words.push(String::from_str(alloc, "view")?)?;
    words.push(String::from_str(alloc, viewers)?)?;
    Ok(words)
}

/// Serves a script while so many viewers look on: the status, and what was written.
fn view<R: Threads + Wait + Sync + AllocGlobal>(
    rt: &R,
    viewers: &str,
    script: &str,
) -> Result<(Status, SureSink), Fail> {
    let alloc = rt.alloc();
    let words = words_of(alloc, viewers)?;
    let mut folder = one_road(alloc)?;
    let mut input = SureSource::create(alloc, script.as_bytes(), 100)?;
    let mut output = SureSink::create(alloc, 1000)?;
    let status = run(
        rt,
        alloc,
        words.as_slice(),
        &mut folder,
        &mut input,
        &mut output,
        &PlainGate,
    );
    Ok((status, output))
}

/// The entry of the road is closed in slot 0, and that is settled; an edit after it is not.
const CLOSED: &str =
    "{\"do\":\"edit\",\"edits\":[{\"kind\":\"limit\",\"link\":\"a\",\"from\":0,\"to\":1,\"vehicles\":\"0\"}]}\n{\"do\":\"settle\"}\n{\"do\":\"totals\"}\n";

const UNSETTLED: &str =
    "{\"do\":\"edit\",\"edits\":[{\"kind\":\"limit\",\"link\":\"a\",\"from\":0,\"to\":1,\"vehicles\":\"0\"}]}\n";

const VIEWED: &str =
    "accepted version 1\nsettled version 1 recomputed 5\nversion 1 generated 1.000 arrived 0.500 on_links 0.500 waiting 0.000\n\
    viewer 1 version 1 generated 1.000 arrived 0.500 on_links 0.500 waiting 0.000\nviewer 2 version 1 generated 1.000 arrived 0.500 on_links 0.500 waiting 0.000\n";

// Where nothing is settled the opening loading is told.
#[test]
fn each_viewer_tells_what_was_settled_last(rt: HostRuntime) -> Result<(), Fail> {
    let cases = [
        ("2", CLOSED, Status::Ok, VIEWED),
        (
            "1",
            UNSETTLED,
            Status::Ok,
            "accepted version 1\nviewer 1 version 0 generated 1.000 arrived 1.000 on_links 0.000 waiting 0.000\n",
        ),
        ("0", CLOSED, Status::Usage, USAGE),
        ("3", CLOSED, Status::Usage, USAGE),
        ("01", CLOSED, Status::Usage, USAGE),
    ];
    for (viewers, script, status, text) in cases {
        let (got, output) = view(&rt, viewers, script)?;
        assert!(rt; got == status, "with {viewers} viewers");
        assert!(rt;
            output.written() == text.as_bytes(),
            "with {viewers} viewers"
        );
    }
    Ok(())
}
