//! The record of the setup.
ghost use Rattle.std.specs.Prelude.{◌≡◌, ◌≤◌, [], Ok, Err, IfOk, IfErr, nat_lt, if◌then◌else◌};
ghost use Rattle.ltm_units.specs.Bounds.{longest_file, most_kept_rows};
ghost use Rattle.csv.specs.Records.{fields_of};
ghost use Rattle.ltm_records.specs.Left.{records_of};
ghost use Rattle.ltm_casefile.specs.Faults.{Says};
ghost use Rattle.ltm_casefile.specs.Columns.{columns_of};
ghost use Rattle.ltm_casefile.specs.Setup.{number_if, setup_record, flags_checked, rules_checked, most_splits, after_flags, in_range, opened, setup_read, only_row, setup_of, longest_beside};
ghost use Rattle.ltm_casefile.specs.Folder.{longest_large_file};

use crate::columns::{Columns, is_setup_header};
use crate::faults::{CaseCause, CaseFault, File};
use crate::fetch::{LONGEST_FILE, LONGEST_LARGE_FILE};
use crate::fields::{check_width, read_amount, read_number};
use csv::ByteRecord;
use ltm_demand::DEFAULT_DEMAND_ROWS;
use ltm_network::DEFAULT_LINKS;
use ltm_records::Records;
use ltm_scenario::{DEFAULT_CELLS, DEFAULT_DESTINATIONS, Scenario, Setup, SetupFault};
use ltm_splits::DEFAULT_SPLIT_ROWS;
use ltm_units::{Millis, NoMemory};
use std::alloc::Global;

/// The most rows of a case with history.
const MOST_KEPT_ROWS: u32 = 500_000;

/// The most split rows of a case without history whose nodes take their routes.
const MOST_ROUTED_ROWS: u32 = 160_000_000;

/// What the record of the setup says.
#[derive(Clone, Copy)]
pub struct SetupRecord {
    pub setup: Setup,
    /// 1 where a file of signals comes with the case.
    pub signals: u32,
    /// 1 where a file of entry limits comes with the case.
    pub limits: u32,
    /// 1 where turns are floored whole.
    pub moves: u32,
    /// 1 where what is left over of capacities is carried.
    pub carry: u32,
    /// 0 where no history is kept.
    pub history: u32,
    /// 1 where nodes without a split row take their routes.
    pub routes: u32,
}

/// What the setup asks for: files of limits, and routes.
#[derive(Clone, Copy)]
pub struct Asked {
    /// The exit limits.
    pub signals: bool,
    /// The entry limits.
    pub limits: bool,
    /// For each node without a split row for a destination its routes.
    pub routes: bool,
}

/// A scenario without links, and what the setup asks for.
#[derive(Drop)]
pub struct Opened {
    pub scenario: Scenario,
    pub asked: Asked,
}

fn read_if(there: bool, absent: u32, row: &ByteRecord, field: u32) -> Result<u32, CaseCause>
    requires { 1 ≤ field }
    ensures { result ≡ number_if there absent (fields_of row.now) field }
{
    if there {
        read_number(row, field)
    } else {
        Ok(absent)
    }
}

/// How many split rows there may be: where nodes without one take their routes, one for each node and destination.
fn most_splits(routes: u32, history: bool, rows: u32) -> u32
    ensures { result ≡ most_splits routes history rows }
{
    if routes != 1 {
        return rows;
    }
    if history {
        MOST_KEPT_ROWS
    } else {
        MOST_ROUTED_ROWS
    }
}

#[tactic(auto, unfolding(crate::specs::Setup::setup_record))]
fn read_record(columns: Columns, row: &ByteRecord) -> Result<SetupRecord, CaseCause>
    ensures { result ≡ setup_record columns (fields_of row.now) }
{
    check_width(row, columns.width())?;
    let step = read_number(row, 1)?;
    let slots = read_number(row, 2)?;
    let origin_capacity = read_amount(row, 3)?;
    let signals = read_if(columns.signals, 0, row, 4)?;
    let limits = read_if(columns.limits, 0, row, columns.limits_field())?;
    let most_cells = read_if(columns.cells, DEFAULT_CELLS, row, columns.cells_field())?;
    let rows = columns.rows_field();
    let most_demand_rows = read_if(columns.rows, DEFAULT_DEMAND_ROWS, row, rows)?;
    let split_rows = read_if(columns.rows, DEFAULT_SPLIT_ROWS, row, rows)?;
    let most_links = read_if(columns.links, DEFAULT_LINKS, row, columns.links_field())?;
    let destinations = columns.destinations_field();
    let most_destinations = read_if(
        columns.destinations,
        DEFAULT_DESTINATIONS,
        row,
        destinations,
    )?;
    let moves = read_if(columns.moves, 0, row, columns.moves_field())?;
    let carry = read_if(columns.carry, 0, row, columns.carry_field())?;
    let history = read_if(columns.history, 1, row, columns.history_field())?;
    let routes = read_if(columns.routes, 0, row, columns.routes_field())?;
    let setup = Setup {
        step: Millis(u64::from(step)),
        slots,
        origin_capacity,
        most_cells,
        most_demand_rows,
        most_split_rows: most_splits(routes, history != 0, split_rows),
        most_links,
        most_destinations,
        by_turn: moves == 1,
        carry: carry == 1,
        history: history != 0,
    };
    Ok(SetupRecord {
        setup,
        signals,
        limits,
        moves,
        carry,
        history,
        routes,
    })
}

fn check_flags(columns: Columns, said: &SetupRecord) -> Result<(), CaseCause>
    ensures { result ≡ flags_checked columns said.now }
{
    if said.signals > 1 {
        return Err(CaseCause::Range(4));
    }
    if said.limits > 1 {
        return Err(CaseCause::Range(columns.limits_field()));
    }
    Ok(())
}

fn check_rules(columns: Columns, said: &SetupRecord) -> Result<(), CaseCause>
    ensures { result ≡ rules_checked columns said.now }
{
    if said.moves > 1 {
        return Err(CaseCause::Range(columns.moves_field()));
    }
    if said.carry > 1 {
        return Err(CaseCause::Range(columns.carry_field()));
    }
    if said.history > 1 {
        return Err(CaseCause::Range(columns.history_field()));
    }
    if said.routes > 1 {
        return Err(CaseCause::Range(columns.routes_field()));
    }
    Ok(())
}

/// The first field that is out of its limits where a field behind signals and limits is.
fn after_flags(columns: Columns, said: &SetupRecord, field: u32) -> CaseCause
    ensures { after_flags columns said.now field ≡ Err result }
{
    match check_flags(columns, said) {
        Ok(()) => CaseCause::Range(field),
        Err(cause) => cause,
    }
}

/// The field that is out of its limits where the setup has this fault.
fn cause_of(columns: Columns, said: &SetupRecord, fault: SetupFault) -> CaseCause
    ensures { in_range columns said.now (Err fault) ≡ Err result }
{
    match fault {
        SetupFault::Range(field) => CaseCause::Range(field),
        SetupFault::MostCells => after_flags(columns, said, columns.cells_field()),
        SetupFault::MostRows => after_flags(columns, said, columns.rows_field()),
        SetupFault::MostLinks => after_flags(columns, said, columns.links_field()),
        SetupFault::MostDestinations => after_flags(columns, said, columns.destinations_field()),
    }
}

fn open(alloc: Global, columns: Columns, said: &SetupRecord) -> Result<Opened, CaseCause>
    ensures ok { IfOk result (λ o. opened columns said.now ≡ Ok o) }
    ensures empty { IfOk result (λ o. o.scenario.splits ≡ []) }
    ensures cause { IfErr result (λ e. opened columns said.now ≡ Err e) }
{
    let scenario = match Scenario::create(alloc, said.setup) {
        Ok(scenario) => scenario,
        Err(fault) => return Err(cause_of(columns, said, fault)),
    };
    match check_flags(columns, said) {
        Ok(()) => {}
        Err(cause) => return Err(cause),
    }
    match check_rules(columns, said) {
        Ok(()) => {}
        Err(cause) => return Err(cause),
    }
    let asked = Asked {
        signals: said.signals == 1,
        limits: said.limits == 1,
        routes: said.routes == 1,
    };
    Ok(Opened { scenario, asked })
}

/// The scenario of a setup without links, from a record below a header with these columns.
fn open_row(alloc: Global, columns: Columns, row: &ByteRecord) -> Result<Opened, CaseCause>
    ensures ok { IfOk result (λ o. setup_read columns (fields_of row.now) ≡ Ok o) }
    ensures empty { IfOk result (λ o. o.scenario.splits ≡ []) }
    ensures cause { IfErr result (λ e. setup_read columns (fields_of row.now) ≡ Err e) }
{
    let said = read_record(columns, row)?;
    open(alloc, columns, &said)
}

fn bad(row: u32, cause: CaseCause) -> CaseFault
    ensures { result ≡ CaseFault.Bad File.Setup row cause }
{
    CaseFault::Bad {
        file: File::Setup,
        row,
        cause,
    }
}

/// What the one record below a header with these columns says.
fn open_only_row(
    alloc: Global,
    columns: Columns,
    records: &mut Records,
    row: &mut ByteRecord,
) -> Result<Opened, CaseFault>
    ensures ok { IfOk result (λ o. only_row columns records.old ≡ Ok o) }
    ensures empty { IfOk result (λ o. o.scenario.splits ≡ []) }
    ensures fault { IfErr result (Says (only_row columns records.old)) }
{
    if !records.next(row)? {
        return Err(bad(2, CaseCause::Rows));
    }
    let opened = match open_row(alloc, columns, row) {
        Ok(opened) => opened,
        Err(cause) => return Err(bad(2, cause)),
    };
    if records.next(row)? {
        return Err(bad(3, CaseCause::Rows));
    }
    Ok(opened)
}

/// The most bytes of the files of demand and of splits of such a setup.
fn longest_of(setup: &Setup) -> u64
    ensures { result ≡ (if nat_lt most_kept_rows setup.now.most_demand_rows then longest_large_file else longest_file) }
{
    if setup.most_demand_rows > MOST_KEPT_ROWS {
        LONGEST_LARGE_FILE
    } else {
        LONGEST_FILE
    }
}

/// The scenario of a setup without links, and which files of limits come with the case.
#[tactic(auto, unfolding(crate::specs::Setup::setup_of))]
pub fn open_setup(alloc: Global, text: &[u8]) -> Result<Opened, CaseFault>
    ensures ok { IfOk result (λ o. setup_of (records_of text.now) ≡ Ok o) }
    ensures empty { IfOk result (λ o. o.scenario.splits ≡ []) }
    ensures fault { IfErr result (Says (setup_of (records_of text.now))) }
{
    let mut records = Records::of(alloc, text);
    let mut row = ByteRecord::new(alloc);
    if !records.next(&mut row)? || !is_setup_header(&row) {
        return Err(bad(1, CaseCause::Header));
    }
    let columns = Columns::of(&row);
    open_only_row(alloc, columns, &mut records, &mut row)
}

/// The most bytes of the files of demand and of splits beside a setup: more where it asks for more rows than a case with history
/// may have.
#[tactic(auto, unfolding(crate::specs::Setup::longest_beside), using(crate::proofs::Memory::beside_bad))]
pub fn longest_beside(alloc: Global, text: &[u8]) -> Result<u64, NoMemory>
    ensures most { IfOk result (λ most. most ≡ longest_beside text.now) }
    ensures small { IfOk result (λ most. most ≤ longest_large_file) }
{
    match open_setup(alloc, text) {
        Ok(opened) => Ok(longest_of(opened.scenario.setup())),
        Err(CaseFault::NoMemory) => Err(NoMemory),
        Err(_) => Ok(LONGEST_FILE),
    }
}
