//! Lines that are no commands, edits that are refused, and lines that are too long.
use crate::cases::{Case, expect_answers, expect_served};
use ltm_session::SessionEnd;

#[test]
fn edits_are_refused_with_their_cause(rt: HostRuntime) {
    let script =
        "{\"do\":\"edit\",\"edits\":[{\"kind\":\"demand\",\"origin\":\"n2\",\"destination\":\"n1\",\"from\":0,\"to\":1,\"vehicles\":\"1\"}]}\n\
        {\"do\":\"edit\",\"edits\":[{\"kind\":\"split\",\"node\":\"n1\",\"destination\":\"n2\",\"from\":0,\"weights\":{\"a\":0}}]}\n\
        {\"do\":\"edit\",\"edits\":[{\"kind\":\"limit\",\"link\":\"a\",\"from\":2,\"to\":2,\"vehicles\":\"1\"}]}\n\
        {\"do\":\"edit\",\"edits\":[{\"kind\":\"demand\",\"origin\":\"n1\",\"destination\":\"n2\",\"from\":0,\"to\":5,\"vehicles\":\"1\"}]}\n\
        {\"do\":\"edit\",\"edits\":[{\"kind\":\"diagram\",\"link\":\"a\",\"length_m\":20,\"free_kmh\":36,\"wave_kmh\":0,\"jam_per_km\":150}]}\n\
        {\"do\":\"link\",\"link\":\"z\"}\n";
    let output = "refused edit 1 UnknownDestination\n\
        refused edit 1 ZeroWeight\n\
        refused edit 1 BadSlots\n\
        refused edit 1 BadSlots\n\
        refused edit 1 Zero wave_kmh\n\
        refused link UnknownName\n";
    expect_answers(&rt, rt.alloc(), Case::OneRoad, script, output);
}

// The last line is cut in the middle and has no newline.
#[test]
fn what_is_no_command_is_refused(rt: HostRuntime) {
    let script = b"{\"do\":\"edit\",\"edits\":[]}\n\
        {\"do\":\"edit\",\"edits\":[{\"kind\":\"limit\",\"link\":\"a\",\"from\":0,\"to\":1,\"vehicles\":0}]}\n\
        {\"do\":\"link\",\"link\":\"\xff\"}\n\
        {\"do\":\"tot";
    let output = "refused command NotCommand 0\n\
        refused command NotCommand 1\n\
        refused command NotJson\n\
        refused command NotJson\n";
    let _outcome = expect_served(
        &rt,
        rt.alloc(),
        Case::OneRoad,
        script,
        output,
        SessionEnd::Ended,
    );
}

#[test]
fn deep_line_is_no_json(rt: HostRuntime) {
    let mut script = vec![in rt.alloc(); b'['; 400].expect(&rt, "memory");
    for place in 200..400 {
        script[place] = b']';
    }
    let output = "refused command NotJson\n";
    let _outcome = expect_served(
        &rt,
        rt.alloc(),
        Case::OneRoad,
        &script,
        output,
        SessionEnd::Ended,
    );
}
