//! The files with any number of records: each adds to the scenario, up to the first that is not taken.
ghost use Rattle.std.specs.Prelude.{◌≡◌, ◌≤◌, [], length, Ok, Err, OnOk, IfErr};
ghost use Rattle.csv.specs.Records.{fields_of};
ghost use Rattle.ltm_records.specs.Left.{records_of};
ghost use Rattle.ltm_casefile.specs.Causes.{Tells};
ghost use Rattle.ltm_casefile.specs.Faults.{Says};
ghost use Rattle.ltm_casefile.specs.Tables.{file_of, heads, row_added, rows_added, table_added, with_file_if};
ghost use Rattle.ltm_casefile.specs.Folder.{longest_large_file};

use crate::demand::{add_demand, is_demand_header};
use crate::faults::{CaseCause, CaseFault, File, RecordFault};
use crate::links::{add_link, is_links_header};
use crate::side_limits::{add_limit, is_limits_header};
use crate::splits::{add_split, is_splits_header};
use crate::texts::FileText;
use csv::ByteRecord;
use ltm_records::Records;
use ltm_scenario::{Scenario, Side};
use std::alloc::Global;

/// A file with any number of records.
#[derive(Clone, Copy, Debug, PartialEq, Eq)]
pub enum Table {
    Links,
    Demand,
    Splits,
    /// Exit limits.
    Signals,
    /// Entry limits.
    Limits,
}

impl Table {
    fn file(self) -> File
        ensures { result ≡ file_of self }
    {
        match self {
            Table::Links => File::Links,
            Table::Demand => File::Demand,
            Table::Splits => File::Splits,
            Table::Signals => File::Signals,
            Table::Limits => File::Limits,
        }
    }

    fn heads(self, row: &ByteRecord) -> bool
        ensures { result ≡ heads self (fields_of row.now) }
    {
        match self {
            Table::Links => is_links_header(row),
            Table::Demand => is_demand_header(row),
            Table::Splits => is_splits_header(row),
            Table::Signals => is_limits_header(row),
            Table::Limits => is_limits_header(row),
        }
    }

    fn add_row(self, scenario: &mut Scenario, row: &ByteRecord) -> Result<(), RecordFault>
        requires { self ≡ Table.Links → scenario.old.splits ≡ [] }
        ensures ok { OnOk result (row_added self scenario.old (fields_of row.now)
            ≡ Ok scenario.new) }
        ensures cause { IfErr result (Tells (row_added self scenario.old (fields_of row.now))) }
        ensures splits { self ≡ Table.Links → scenario.new.splits ≡ [] }
    {
        match self {
            Table::Links => return add_link(scenario, row),
            Table::Demand => return add_demand(scenario, row),
            Table::Splits => return add_split(scenario, row),
            Table::Signals => return add_limit(scenario, Side::Exit, row),
            Table::Limits => return add_limit(scenario, Side::Entry, row),
        }
    }

    /// Adds the records that are left, the first of which is in row 2.
    fn add_rows(
        self,
        scenario: &mut Scenario,
        records: &mut Records,
        row: &mut ByteRecord,
    ) -> Result<(), CaseFault>
        requires unsplit { self ≡ Table.Links → scenario.old.splits ≡ [] }
        requires few { length records.old ≤ longest_large_file }
        ensures ok { OnOk result (rows_added self 2 scenario.old records.old ≡ Ok scenario.new) }
        ensures fault { IfErr result (Says (rows_added self 2 scenario.old records.old)) }
    {
        let mut number = 2;
        'rows: while records.next(row)? {
            match self.add_row(scenario, row) {
                Ok(()) => {}
                Err(RecordFault::NoMemory) => return Err(CaseFault::NoMemory),
                Err(RecordFault::Cause(cause)) => return Err(CaseFault::Bad {
                    file: self.file(),
                    row: number,
                    cause,
                }),
            }
            number += 1;
        }
        Ok(())
    }

    /// Adds the records of a file to the scenario, which has no split rows before the links are added.
    #[tactic(auto, unfolding(crate::specs::Tables::table_added))]
    pub fn add_to(
        self,
        alloc: Global,
        scenario: &mut Scenario,
        text: &FileText,
    ) -> Result<(), CaseFault>
        requires { self ≡ Table.Links → scenario.old.splits ≡ [] }
        ensures ok { OnOk result (table_added self scenario.old (records_of text.now)
            ≡ Ok scenario.new) }
        ensures fault { IfErr result (Says (table_added self scenario.old (records_of text.now))) }
    {
        let mut records = Records::of(alloc, text.bytes());
        let mut row = ByteRecord::new(alloc);
        if !records.next(&mut row)? || !self.heads(&row) {
            return Err(CaseFault::Bad {
                file: self.file(),
                row: 1,
                cause: CaseCause::Header,
            });
        }
        self.add_rows(scenario, &mut records, &mut row)
    }

    /// Adds the records of a file that is there.
    pub fn add_if(
        self,
        alloc: Global,
        scenario: &mut Scenario,
        text: &Option<FileText>,
    ) -> Result<(), CaseFault>
        requires { self ≡ Table.Links → scenario.old.splits ≡ [] }
        ensures ok { OnOk result (with_file_if self scenario.old text.now ≡ Ok scenario.new) }
        ensures fault { IfErr result (Says (with_file_if self scenario.old text.now)) }
    {
        match text {
            Some(text) => return self.add_to(alloc, scenario, text),
            None => return Ok(()),
        }
    }
}
