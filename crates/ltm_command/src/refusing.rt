//! The lines that end a run in which no text was made.
ghost use Rattle.std.specs.Prelude.{◌≡◌, ◌⊎◌};
ghost use Rattle.ltm_io.specs.Faults.{Rose};
ghost use Rattle.ltm_io.specs.Sink.{appended, AppendsFront};
ghost use Rattle.ltm_casefile.specs.declared.faults.CaseFault.{CaseFault};
ghost use Rattle.ltm_check_command.specs.declared.refusal.Refusal.{Refusal};
ghost use Rattle.ltm_check_command.specs.Lines.{bad_curves_line, no_start_line, no_step_line, long_curves_line};
ghost use Rattle.ltm_command.specs.Program.{IsWhole, IsTold, IsMissing, words_of, refusal_status};

use crate::closing::{refuse_case, refuse_history, refuse_length, write_text};
use crate::status::Status;
use ltm_casefile::CaseFault;
use ltm_check::CurvesCause;
use ltm_check_command::{Refusal, bad_curves_text, long_curves_text, no_start_text, no_step_text};
use ltm_io::Sink;
use ltm_units::Name;
use std::alloc::Global;

/// Says that the curve file has more bytes than are read.
fn refuse_long<W: Sink>(alloc: Global, output: &mut W) -> Status
    ensures answers { (result ≡ Status.TooLong)
        ⊎ ((result ≡ Status.WriteFault) ⊎ (result ≡ Status.NoMemory)) }
    ensures wrote { result ≡ Status.TooLong
        → W.written output.new ≡ appended long_curves_line (W.written output.old) }
    ensures front { (W.written output.new ≡ W.written output.old)
        ⊎ AppendsFront (W.written output.old) (W.written output.new) long_curves_line }
    ensures cause { result ≡ Status.WriteFault → Rose (W.faults output.old) (W.faults output.new) }
{
    match long_curves_text(alloc) {
        Ok(line) => write_text(output, line.as_slice(), Status::TooLong),
        Err(_) => Status::NoMemory,
    }
}

/// Says what is wrong with the curve file.
fn refuse_bad<W: Sink>(alloc: Global, row: u32, cause: CurvesCause, output: &mut W) -> Status
    ensures answers { (result ≡ Status.BadCurves)
        ⊎ ((result ≡ Status.WriteFault) ⊎ (result ≡ Status.NoMemory)) }
    ensures wrote { result ≡ Status.BadCurves
        → W.written output.new ≡ appended (bad_curves_line row cause) (W.written output.old) }
    ensures front { (W.written output.new ≡ W.written output.old)
        ⊎ AppendsFront (W.written output.old) (W.written output.new) (bad_curves_line row cause) }
    ensures cause { result ≡ Status.WriteFault → Rose (W.faults output.old) (W.faults output.new) }
{
    match bad_curves_text(alloc, row, cause) {
        Ok(line) => write_text(output, line.as_slice(), Status::BadCurves),
        Err(_) => Status::NoMemory,
    }
}

/// Says that the curves do not start as a loading does.
fn refuse_start<W: Sink>(alloc: Global, output: &mut W) -> Status
    ensures answers { (result ≡ Status.NotLoading)
        ⊎ ((result ≡ Status.WriteFault) ⊎ (result ≡ Status.NoMemory)) }
    ensures wrote { result ≡ Status.NotLoading
        → W.written output.new ≡ appended no_start_line (W.written output.old) }
    ensures front { (W.written output.new ≡ W.written output.old)
        ⊎ AppendsFront (W.written output.old) (W.written output.new) no_start_line }
    ensures cause { result ≡ Status.WriteFault → Rose (W.faults output.old) (W.faults output.new) }
{
    match no_start_text(alloc) {
        Ok(line) => write_text(output, line.as_slice(), Status::NotLoading),
        Err(_) => Status::NoMemory,
    }
}

/// Says at which node and slot the curves are not the loading.
fn refuse_step<W: Sink>(alloc: Global, node: Name, slot: u32, output: &mut W) -> Status
    ensures answers { (result ≡ Status.NotLoading)
        ⊎ ((result ≡ Status.WriteFault) ⊎ (result ≡ Status.NoMemory)) }
    ensures wrote { result ≡ Status.NotLoading
        → W.written output.new ≡ appended (no_step_line node slot) (W.written output.old) }
    ensures front { (W.written output.new ≡ W.written output.old)
        ⊎ AppendsFront (W.written output.old) (W.written output.new) (no_step_line node slot) }
    ensures cause { result ≡ Status.WriteFault → Rose (W.faults output.old) (W.faults output.new) }
{
    match no_step_text(alloc, &node, slot) {
        Ok(line) => write_text(output, line.as_slice(), Status::NotLoading),
        Err(_) => Status::NoMemory,
    }
}

/// Says what is wrong with the case, where something is; writes nothing where a file was not given or memory not found.
pub fn refuse_fault<W: Sink>(alloc: Global, fault: CaseFault, output: &mut W) -> Status
    ensures whole { IsWhole result
        → IsTold (Refusal.Case fault) × (result ≡ refusal_status (Refusal.Case fault))
        × (W.written output.new ≡ appended (words_of (Refusal.Case fault)) (W.written output.old)) }
    ensures front { (W.written output.new ≡ W.written output.old)
        ⊎ (IsTold (Refusal.Case fault)
        × AppendsFront (W.written output.old) (W.written output.new)
        (words_of (Refusal.Case fault))) }
    ensures folder_fault { result ≡ Status.FolderFault
        → IsMissing (Refusal.Case fault) × (W.written output.new ≡ W.written output.old) }
    ensures cause { result ≡ Status.WriteFault
        → IsTold (Refusal.Case fault) × Rose (W.faults output.old) (W.faults output.new) }
{
    match fault {
        CaseFault::Folder(_) => Status::FolderFault,
        CaseFault::TooLong(file) => refuse_length(alloc, file, output),
        CaseFault::Bad { file, row, cause } => refuse_case(alloc, file, row, cause, output),
        CaseFault::NoHistory => refuse_history(alloc, output),
        CaseFault::NoMemory => Status::NoMemory,
    }
}

/// Says why there is no text, where that lies in the files; writes nothing where a file was not given or memory not found.
pub fn refuse<W: Sink>(alloc: Global, refusal: Refusal, output: &mut W) -> Status
    ensures whole { IsWhole result → IsTold refusal × (result ≡ refusal_status refusal)
        × (W.written output.new ≡ appended (words_of refusal) (W.written output.old)) }
    ensures front { (W.written output.new ≡ W.written output.old)
        ⊎ (IsTold refusal
        × AppendsFront (W.written output.old) (W.written output.new) (words_of refusal)) }
    ensures folder_fault { result ≡ Status.FolderFault
        → IsMissing refusal × (W.written output.new ≡ W.written output.old) }
    ensures cause { result ≡ Status.WriteFault
        → IsTold refusal × Rose (W.faults output.old) (W.faults output.new) }
{
    match refusal {
        Refusal::Case(fault) => refuse_fault(alloc, fault, output),
        Refusal::NoCurves => Status::FolderFault,
        Refusal::LongCurves => refuse_long(alloc, output),
        Refusal::BadCurves { row, cause } => refuse_bad(alloc, row, cause, output),
        Refusal::NoStart => refuse_start(alloc, output),
        Refusal::NoStep { node, slot } => refuse_step(alloc, node, slot, output),
    }
}
