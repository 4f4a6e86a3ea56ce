//! What no clause says: how `serde_json` reads a line, and that commands are found at all.
use ltm_scenario::Edit;
use ltm_script::{Command, CommandFault, read_command};
use ltm_units::{Name, Units};
use std::alloc::Global;

const NO_JSON: Option<CommandFault> = Some(CommandFault::NotJson);

const NO_COMMAND: Option<CommandFault> = Some(CommandFault::NotCommand(0));

const NO_FIRST: Option<CommandFault> = Some(CommandFault::NotCommand(1));

const NO_SECOND: Option<CommandFault> = Some(CommandFault::NotCommand(2));

/// Why a line is no command; none where it is one.
fn fault_of(alloc: Global, line: &[u8]) -> Option<CommandFault> {
    read_command(alloc, line).err()
}

#[test]
fn a_line_that_is_no_command_says_why(rt: HostRuntime) {
    let table = [
        ("", NO_JSON),
        ("{'do':'totals'}", NO_JSON),
        (r#"{"do":"totals"}{"do":"totals"}"#, NO_JSON),
        (r#"{"do":"totals","n":1e400}"#, NO_JSON),
        ("null", NO_COMMAND),
        (r#"["do","totals"]"#, NO_COMMAND),
        (r#"{"Do":"totals"}"#, NO_COMMAND),
        (r#"{"do":"totals "}"#, NO_COMMAND),
        (r#" { "d\u006f" : "to\u0074als" , "n" : [1.5] } "#, None),
        (r#"{"do":"link","do":"totals"}"#, None),
        (r#"{"do":"totals","do":"link"}"#, NO_COMMAND),
        (r#"{"do":"settle"}"#, None),
        (r#"{"do":"link","link":"a"}"#, None),
        (r#"{"do":"link","link":"a b"}"#, NO_COMMAND),
        (r#"{"do":"time","link":"a","slot":4294967295}"#, None),
        (r#"{"do":"time","link":"a","slot":4294967296}"#, NO_COMMAND),
        (r#"{"do":"time","link":"a","slot":1.0}"#, NO_COMMAND),
        (r#"{"do":"time","link":"a","slot":-0}"#, NO_COMMAND),
        (r#"{"do":"edit","edits":[]}"#, NO_COMMAND),
        (r#"{"do":"edit","edits":{}}"#, NO_COMMAND),
    ];
    for (line, fault) in table {
        assert!(rt; fault_of(rt.alloc(), line.as_bytes()) == fault, "{line}");
    }
    // A byte that is no UTF-8.
    let line = b"{\"do\":\"tot\xffals\"}";
    assert!(rt; fault_of(rt.alloc(), line) == NO_JSON);
}

/// Why a line with these edits is no command; none where it is one.
fn fault_of_edits(alloc: Global, edits: &str) -> Option<CommandFault> {
    match format!(in alloc; "{{\"do\":\"edit\",\"edits\":[{edits}]}}") {
        Ok(line) => fault_of(alloc, line.as_bytes()),
        Err(_) => Some(CommandFault::NoMemory),
    }
}

#[test]
fn an_edit_that_is_none_is_told_by_its_place(rt: HostRuntime) {
    let table = [
        (
            r#"{"kind":"limit","link":"a","from":0,"to":1,"vehicles":"0"}"#,
            None,
        ),
        (
            r#"{"kind":"limit","link":"a","from":0,"to":1,"vehicles":0}"#,
            NO_FIRST,
        ),
        (
            r#"{"kind":"limit","link":"a","from":0,"to":1,"vehicles":"1000000.001"}"#,
            NO_FIRST,
        ),
        (
            r#"{"kind":"limit","link":"a","from":0,"to":1,"vehicles":"0"},{}"#,
            NO_SECOND,
        ),
        (
            r#"{"kind":"split","node":"n","destination":"m","from":0,"weights":{}}"#,
            NO_FIRST,
        ),
        (
            r#"{"kind":"split","node":"n","destination":"m","from":0,"weights":{"a":1,"b":1,"c":1,"d":1,"e":1}}"#,
            NO_FIRST,
        ),
        (
            r#"{"kind":"split","node":"n","destination":"m","from":0,"weights":{"a":1,"b":1,"c":1,"a":0,"d":1}}"#,
            None,
        ),
        (
            r#"{"kind":"split","node":"n","destination":"m","from":0,"weights":{"a":-1}}"#,
            NO_FIRST,
        ),
        (
            r#"{"kind":"diagram","link":"a","length_m":20,"free_kmh":36,"wave_kmh":36}"#,
            NO_FIRST,
        ),
        (
            r#"{"kind":"diagram","link":"a","length_m":20,"free_kmh":36,"wave_kmh":36,"jam_per_km":0}"#,
            None,
        ),
        (r#"{"kind":"horizon","slots":4}"#, None),
        (r#"{"kind":"horizon","slots":"4"}"#, NO_FIRST),
    ];
    for (edits, fault) in table {
        assert!(rt; fault_of_edits(rt.alloc(), edits) == fault, "{edits}");
    }
}

/// Why a line of that many lists in one another, at most 200, is no command; none where it is one.
fn fault_of_lists(alloc: Global, lists: usize) -> Option<CommandFault> {
    let mut text = [b']'; 400];
    for place in 0..200 {
        text[place] = b'[';
    }
    let lists = lists.min(200);
    fault_of(alloc, &text[200 - lists..200 + lists])
}

#[test]
fn a_deep_value_is_no_json(rt: HostRuntime) {
    for (lists, fault) in [(127, NO_COMMAND), (128, NO_JSON), (200, NO_JSON)] {
        assert!(rt; fault_of_lists(rt.alloc(), lists) == fault, "{lists}");
    }
}

/// The link, the slots and the amount of the first edit of a command; none where it is no exit.
fn exit_of(command: &Command) -> Option<(Name, u32, u32, Units)> {
    let Command::Edit(batch) = command else {
        return None;
    };
    match batch.edits().first() {
        Some(
            Edit::Exit {
                link,
                from,
                to,
                amount,
            },
        ) => Some((*link, *from, *to, *amount)),
        _ => None,
    }
}

fn exit_in(alloc: Global, line: &[u8]) -> Option<(Name, u32, u32, Units)> {
    match read_command(alloc, line) {
        Ok(command) => exit_of(&command),
        Err(_) => None,
    }
}

#[test]
fn an_exit_is_read_with_its_members(rt: HostRuntime) {
    let line =
        r#"{"do":"edit","edits":[{"kind":"exit","link":"a","from":0,"to":4,"vehicles":"0.250"}]}"#;
    let Some((link, from, to, amount)) = exit_in(rt.alloc(), line.as_bytes()) else {
        panic!(rt; "no exit");
    };
    let slots_and_amount = (from, to, amount) == (0, 4, Units(250));
    assert!(rt; Name::read(b"a") == Some(link) && slots_and_amount);
}
