//! The lines that refuse a case.
ghost use Rattle.std.specs.Prelude.{◌≡◌, ◌++◌, OnOk, OnErr};
ghost use Rattle.ltm_report.specs.CaseFaults.{file_word, place_piece, bad_case_line, too_long_line, no_history_line, case_fault_line, IsBad};

use crate::causes::push_cause;
use crate::pieces::push_newline;
use ltm_casefile::{CaseCause, CaseFault, File};
use ltm_units::{NoMemory, push_number, push_text};
use std::alloc::Global;

#[tactic(auto, unfolding(crate::specs::CaseFaults::file_word))]
fn word_of_file(file: File) -> &'static [u8]
    ensures { result.now ≡ file_word file }
{
    match file {
        File::Setup => b"setup",
        File::Links => b"links",
        File::Demand => b"demand",
        File::Splits => b"splits",
        File::Signals => b"signals",
        File::Limits => b"limits",
        File::Profile => b"profile",
        File::Whole => b"whole",
    }
}

#[tactic(auto, unfolding(crate::specs::CaseFaults::place_piece))]
fn push_place(into: &mut Vec<u8>, file: File, row: u32) -> Result<(), NoMemory>
    ensures { OnOk result (into.new.items ≡ into.old.items ++ place_piece file row) }
{
    push_text(into, b"bad case ")?;
    push_text(into, word_of_file(file))?;
    push_number(into, b" row ", u128::from(row))
}

#[tactic(auto, unfolding(crate::specs::CaseFaults::bad_case_line))]
fn push_bad_case(
    into: &mut Vec<u8>,
    file: File,
    row: u32,
    cause: &CaseCause,
) -> Result<(), NoMemory>
    ensures { OnOk result (into.new.items ≡ into.old.items ++ bad_case_line file row cause.now) }
{
    push_place(into, file, row)?;
    push_text(into, b" ")?;
    push_cause(into, cause)?;
    push_newline(into)
}

/// Appends the first fault of a case, as `bad case links row 3 TwiceNamed`.
pub fn case_fault_text(alloc: Global, fault: &CaseFault, into: &mut Vec<u8>) -> Result<(), NoMemory>
    requires { IsBad fault.now }
    ensures ok { OnOk result (into.new.items ≡ into.old.items ++ case_fault_line fault.now) }
    ensures err { OnErr result (into.new.items ≡ into.old.items) }
{
    let CaseFault::Bad { file, row, cause } = fault else {
        unreachable!()
    };
    let mut line = Vec::new(alloc);
    push_bad_case(&mut line, *file, *row, cause)?;
    push_text(into, line.as_slice())
}

/// Appends that a file has more bytes than are read, as `too long setup`.
#[tactic(auto, unfolding(crate::specs::CaseFaults::too_long_line))]
pub fn too_long_text(alloc: Global, file: File, into: &mut Vec<u8>) -> Result<(), NoMemory>
    ensures ok { OnOk result (into.new.items ≡ into.old.items ++ too_long_line file) }
    ensures err { OnErr result (into.new.items ≡ into.old.items) }
{
    let mut line = Vec::new(alloc);
    push_text(&mut line, b"too long ")?;
    push_text(&mut line, word_of_file(file))?;
    push_newline(&mut line)?;
    push_text(into, line.as_slice())
}

/// Appends that the case keeps no history, which the command needs, as `no history`.
#[tactic(auto, unfolding(crate::specs::CaseFaults::no_history_line))]
pub fn no_history_text(alloc: Global, into: &mut Vec<u8>) -> Result<(), NoMemory>
    ensures ok { OnOk result (into.new.items ≡ into.old.items ++ no_history_line) }
    ensures err { OnErr result (into.new.items ≡ into.old.items) }
{
    let mut line = Vec::new(alloc);
    push_text(&mut line, b"no history")?;
    push_newline(&mut line)?;
    push_text(into, line.as_slice())
}
