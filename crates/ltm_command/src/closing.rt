//! The texts that end a run: a whole text, or a line that refuses the files.
ghost use Rattle.std.specs.Prelude.{◌≡◌, ◌≤◌, ◌⊎◌, List, ℕ};
ghost use Rattle.ltm_io.specs.Faults.{Rose};
ghost use Rattle.ltm_io.specs.Sink.{appended, AppendsFront};
ghost use Rattle.ltm_report.specs.CaseFaults.{bad_case_line, too_long_line, no_history_line};

use crate::status::Status;
use ltm_casefile::{CaseCause, CaseFault, File};
use ltm_io::{Sink, SinkError, write_all_known};
use ltm_report::{case_fault_text, no_history_text, too_long_text};
use std::alloc::Global;

/// Writes a whole text, and says how the program ends where that went well.
pub fn write_text<W: Sink>(output: &mut W, text: &[u8], well: Status) -> Status
    ensures answers { (result ≡ well)
        ⊎ ((result ≡ Status.WriteFault) ⊎ (result ≡ Status.NoMemory)) }
    ensures wrote { (well ≡ Status.WriteFault → ⊥) → (well ≡ Status.NoMemory → ⊥) → result ≡ well
        → W.written output.new ≡ appended text.now (W.written output.old) }
    ensures front { AppendsFront (W.written output.old) (W.written output.new) text.now }
    ensures cause { (well ≡ Status.WriteFault → ⊥) → result ≡ Status.WriteFault
        → Rose (W.faults output.old) (W.faults output.new) }
    ensures later { W.faults output.old ≤ W.faults output.new }
{
    match write_all_known(output, text) {
        Ok(()) => well,
        Err(SinkError::WriteFault) => Status::WriteFault,
        Err(SinkError::NoMemory) => Status::NoMemory,
    }
}

/// Says that a file has more bytes than are read.
pub fn refuse_length<W: Sink>(alloc: Global, file: File, output: &mut W) -> Status
    ensures answers { (result ≡ Status.TooLong)
        ⊎ ((result ≡ Status.WriteFault) ⊎ (result ≡ Status.NoMemory)) }
    ensures wrote { result ≡ Status.TooLong
        → W.written output.new ≡ appended (too_long_line file) (W.written output.old) }
    ensures front { (W.written output.new ≡ W.written output.old)
        ⊎ AppendsFront (W.written output.old) (W.written output.new) (too_long_line file) }
    ensures cause { result ≡ Status.WriteFault → Rose (W.faults output.old) (W.faults output.new) }
{
    let mut line = Vec::new(alloc);
    match too_long_text(alloc, file, &mut line) {
        Ok(()) => write_text(output, line.as_slice(), Status::TooLong),
        Err(_) => Status::NoMemory,
    }
}

/// Says what is wrong with the case.
pub fn refuse_case<W: Sink>(
    alloc: Global,
    file: File,
    row: u32,
    cause: CaseCause,
    output: &mut W,
) -> Status
    ensures answers { (result ≡ Status.BadCase)
        ⊎ ((result ≡ Status.WriteFault) ⊎ (result ≡ Status.NoMemory)) }
    ensures wrote { result ≡ Status.BadCase
        → W.written output.new ≡ appended (bad_case_line file row cause) (W.written output.old) }
    ensures front { (W.written output.new ≡ W.written output.old)
        ⊎ AppendsFront (W.written output.old) (W.written output.new)
        (bad_case_line file row cause) }
    ensures cause { result ≡ Status.WriteFault → Rose (W.faults output.old) (W.faults output.new) }
{
    let fault = CaseFault::Bad { file, row, cause };
    let mut line = Vec::new(alloc);
    match case_fault_text(alloc, &fault, &mut line) {
        Ok(()) => write_text(output, line.as_slice(), Status::BadCase),
        Err(_) => Status::NoMemory,
    }
}

/// Says that the case keeps no history.
pub fn refuse_history<W: Sink>(alloc: Global, output: &mut W) -> Status
    ensures answers { (result ≡ Status.NoHistory)
        ⊎ ((result ≡ Status.WriteFault) ⊎ (result ≡ Status.NoMemory)) }
    ensures wrote { result ≡ Status.NoHistory
        → W.written output.new ≡ appended no_history_line (W.written output.old) }
    ensures front { (W.written output.new ≡ W.written output.old)
        ⊎ AppendsFront (W.written output.old) (W.written output.new) no_history_line }
    ensures cause { result ≡ Status.WriteFault → Rose (W.faults output.old) (W.faults output.new) }
{
    let mut line = Vec::new(alloc);
    match no_history_text(alloc, &mut line) {
        Ok(()) => write_text(output, line.as_slice(), Status::NoHistory),
        Err(_) => Status::NoMemory,
    }
}
