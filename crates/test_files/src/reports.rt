//! Lines as they are written.
ghost use Rattle.std.specs.Prelude.{◌<◌, IfSome};
ghost use Rattle.ltm_flows.specs.Shown.{links_of};
ghost use Rattle.ltm_scenario.specs.Valid.{IsValid};

use ltm_casefile::{CaseCause, CaseFault, File, read_case};
use ltm_diagram::{DiagramFault, Field};
use ltm_flows::{Loading, Totals, cold};
use ltm_io::MemFolder;
use ltm_network::NetworkFault;
use ltm_report::{
    accepted_text, bad_slots_text, case_fault_text, command_fault_text, edit_fault_text, link_text,
    load_link_text, long_script_text, route_row_text, route_time_text, settled_text, size_text,
    splits_header_text, time_text, too_long_text, too_many_text, totals_line_text, totals_text,
    unknown_name_text, work_text,
};
use ltm_scenario::{EditCause, EditFault, Scenario};
use ltm_script::CommandFault;
use ltm_units::{LinkId, Millis, Name, NoMemory, Units};
use std::alloc::Global;

/// The lines of the one road, at version 12 and 3.
const ROAD_LINES: &str =
    "version 12 generated 5.000 arrived 4.000 on_links 0.999 waiting 0.001\nversion 3 generated 1.000 arrived 0.500 on_links 0.500 waiting 0.000\nlink a-1 in 1.000 out 0.500\nversion 3 link a-1 in 1.000 out 0.500\n";

// One road of 20 m over three slots of a second, with half a vehicle in each of the first two: it takes two slots.
fn files(alloc: Global) -> Result<MemFolder, NoMemory> {
    MemFolder::of_case(
        alloc,
        &[],
        "step_ms,slots,origin_capacity\n1000,3,1\n",
        "link,from,to,length_m,free_kmh,wave_kmh,jam_per_km\na-1,n1,n2,20,36,18,150\n",
        "origin,destination,from_slot,to_slot,vehicles\nn1,n2,0,2,1\n",
        "node,destination,from_slot,weights\nn1,n2,0,a-1=1\n",
    )
}

fn scenario(alloc: Global) -> Option<Scenario>
    ensures { IfSome result IsValid }
{
    let mut folder = files(alloc).ok()?;
    read_case(alloc, &mut folder).ok()
}

/// The loading of a scenario, shown at version 3.
fn loading(alloc: Global, scenario: &Scenario) -> Option<Loading>
    requires { IsValid scenario.now }
{
    match cold(alloc, scenario) {
        Ok(curves) => Loading::create(alloc, scenario, &curves, 3).ok(),
        Err(_) => None,
    }
}

/// Writes lines of a loading that has a link.
fn write_lines(
    alloc: Global,
    loading: &Loading,
    name: &Name,
    into: &mut Vec<u8>,
) -> Result<(), NoMemory>
    requires { 0 < links_of loading.now }
{
    let totals = Totals {
        generated: Units(5_000),
        arrived: Units(4_000),
        on_links: Units(999),
        waiting: Units(1),
    };
    totals_line_text(alloc, 12, totals, into)?;
    totals_text(alloc, loading, into)?;
    load_link_text(alloc, loading, name, LinkId(0), into)?;
    link_text(alloc, loading, name, LinkId(0), into)
}

/// Whether a loading is told in these lines.
fn are_lines(alloc: Global, loading: &Loading, name: &Name, want: &str) -> bool {
    if loading.links() == 0 {
        return false;
    }
    let mut text: Vec<u8> = Vec::new(alloc);
    let wrote = write_lines(alloc, loading, name, &mut text).is_ok();
    wrote && text.as_slice() == want.as_bytes()
}

/// Whether the loading of a scenario is.
fn is_loading_told(alloc: Global, scenario: &Scenario, name: &Name, want: &str) -> bool
    requires { IsValid scenario.now }
{
    match loading(alloc, scenario) {
        Some(loading) => are_lines(alloc, &loading, name, want),
        None => false,
    }
}

/// Whether the loading of the one road is.
fn is_road_told(alloc: Global, name: &Name, want: &str) -> bool {
    match scenario(alloc) {
        Some(scenario) => is_loading_told(alloc, &scenario, name, want),
        None => false,
    }
}

#[test]
fn writes_lines_of_a_loading(rt: HostRuntime) {
    let Some(name) = Name::read(b"a-1") else {
        panic!(rt; "no name");
    };
    assert!(rt; is_road_told(rt.alloc(), &name, ROAD_LINES));
}

/// Whether a fault of a case is told so.
fn is_refused(alloc: Global, file: File, row: u32, cause: CaseCause, want: &str) -> bool {
    let mut text: Vec<u8> = Vec::new(alloc);
    let fault = CaseFault::Bad { file, row, cause };
    let wrote = case_fault_text(alloc, &fault, &mut text).is_ok();
    wrote && text.as_slice() == want.as_bytes()
}

/// Whether a file that is too long is told so.
fn is_too_long(alloc: Global, file: File, want: &str) -> bool {
    let mut text: Vec<u8> = Vec::new(alloc);
    let wrote = too_long_text(alloc, file, &mut text).is_ok();
    wrote && text.as_slice() == want.as_bytes()
}

#[test]
fn refuses_cases(rt: HostRuntime) {
    let (Some(node), Some(destination)) = (Name::read(b"n1"), Name::read(b"n2")) else {
        panic!(rt; "no names");
    };
    let times = DiagramFault::StepTooLong {
        free_ms: 2000,
        wave_ms: 4000,
    };
    let cases = [
        (
            File::Setup,
            1,
            CaseCause::Header,
            "bad case setup row 1 Header\n",
        ),
        (
            File::Demand,
            7,
            CaseCause::Field(5),
            "bad case demand row 7 Field 5\n",
        ),
        (
            File::Setup,
            2,
            CaseCause::Range(2),
            "bad case setup row 2 Range 2\n",
        ),
        (
            File::Signals,
            2,
            CaseCause::Unknown(1),
            "bad case signals row 2 Unknown 1\n",
        ),
        (
            File::Limits,
            3,
            CaseCause::BadSlots,
            "bad case limits row 3 BadSlots\n",
        ),
        (
            File::Profile,
            2,
            CaseCause::Range(3),
            "bad case profile row 2 Range 3\n",
        ),
        (
            File::Links,
            3,
            CaseCause::Network(NetworkFault::TwiceNamed),
            "bad case links row 3 TwiceNamed\n",
        ),
        (
            File::Links,
            2,
            CaseCause::Diagram(DiagramFault::Over(Field::Wave)),
            "bad case links row 2 Over wave_kmh\n",
        ),
        (
            File::Links,
            2,
            CaseCause::Diagram(times),
            "bad case links row 2 StepTooLong 2000 4000\n",
        ),
        (
            File::Splits,
            2,
            CaseCause::TooManyDestinations,
            "bad case splits row 2 TooManyDestinations\n",
        ),
        (
            File::Whole,
            0,
            CaseCause::NoSplit { node, destination },
            "bad case whole row 0 NoSplit n1 n2\n",
        ),
        (
            File::Whole,
            0,
            CaseCause::CellsOver(54_000_001),
            "bad case whole row 0 CellsOver 54000001\n",
        ),
    ];
    for (file, row, cause, want) in cases {
        assert!(rt; is_refused(rt.alloc(), file, row, cause, want), "at {want}");
    }
    assert!(rt; is_too_long(rt.alloc(), File::Setup, "too long setup\n"));
}

fn refused(
    alloc: Global,
    place: u32,
    cause: EditCause,
    into: &mut Vec<u8>,
) -> Result<(), NoMemory> {
    edit_fault_text(alloc, &EditFault { place, cause }, into)
}

/// Writes the answers to lines of a script.
fn write_answers(alloc: Global, text: &mut Vec<u8>) -> Result<(), NoMemory> {
    accepted_text(1, text)?;
    settled_text(1, 5, text)?;
    refused(alloc, 1, EditCause::BadSlots, text)?;
    refused(alloc, 1, EditCause::CellsOver(180_056_004), text)?;
    let zero = DiagramFault::Zero(Field::Length);
    refused(alloc, 2, EditCause::Diagram(zero), text)?;
    command_fault_text(alloc, CommandFault::NotJson, text)?;
    command_fault_text(alloc, CommandFault::NotCommand(2), text)
}

/// Writes further answers.
fn write_more_answers(alloc: Global, name: &Name, text: &mut Vec<u8>) -> Result<(), NoMemory> {
    unknown_name_text(b"link", text)?;
    unknown_name_text(b"time", text)?;
    bad_slots_text(b"time", text)?;
    time_text(alloc, 1, name, 3, Some(Millis(2000)), text)?;
    time_text(alloc, 0, name, 0, None, text)?;
    long_script_text(alloc, 3, text)?;
    too_many_text(text)
}

fn are_answers(alloc: Global, name: &Name, want: &str) -> bool {
    let mut text: Vec<u8> = Vec::new(alloc);
    let wrote = write_answers(alloc, &mut text).is_ok()
        && write_more_answers(alloc, name, &mut text).is_ok();
    wrote && text.as_slice() == want.as_bytes()
}

#[test]
fn answers_lines_of_a_script(rt: HostRuntime) {
    let Some(name) = Name::read(b"a") else {
        panic!(rt; "no name");
    };
    let want =
        "accepted version 1\nsettled version 1 recomputed 5\nrefused edit 1 BadSlots\nrefused edit 1 CellsOver 180056004\nrefused edit 2 Zero length_m\nrefused command NotJson\nrefused command NotCommand 2\nrefused link UnknownName\nrefused time UnknownName\nrefused time BadSlots\nversion 1 link a slot 3 time 2000\nversion 0 link a slot 0 time none\ntoo long line 3\ntoo many commands\n";
    assert!(rt; are_answers(rt.alloc(), &name, want));
}

/// Writes the lines of a made case and of routes: two nodes, and two links at the first.
fn write_routes(alloc: Global, names: &[Name; 4], text: &mut Vec<u8>) -> Result<(), NoMemory> {
    size_text(alloc, 400, 1520, 24_000, text)?;
    work_text(alloc, 232, 232, 3_969_740_000, text)?;
    splits_header_text(text)?;
    let all = &names[..];
    route_row_text(alloc, &names[0], &names[1], &all[2..4], text)?;
    route_row_text(alloc, &names[0], &names[1], &all[2..3], text)?;
    route_time_text(alloc, &names[0], &names[1], Millis(2000), text)
}

fn are_routes(alloc: Global, names: &[Name; 4], want: &str) -> bool {
    let mut text: Vec<u8> = Vec::new(alloc);
    let wrote = write_routes(alloc, names, &mut text).is_ok();
    wrote && text.as_slice() == want.as_bytes()
}

fn four_names() -> Option<[Name; 4]> {
    Some([
        Name::read(b"n1")?,
        Name::read(b"n2")?,
        Name::read(b"a")?,
        Name::read(b"c")?,
    ])
}

#[test]
fn tells_made_cases_and_routes(rt: HostRuntime) {
    let Some(names) = four_names() else {
        panic!(rt; "no names");
    };
    let want =
        "case nodes 400 links 1520 pairs 24000\nrecomputed 232 solved 232 spent 3969740000\nnode,destination,from_slot,weights\nn1,n2,0,a=1 c=1\nn1,n2,0,a=1\nfrom n1 to n2 time 2000\n";
    assert!(rt; are_routes(rt.alloc(), &names, want));
}
