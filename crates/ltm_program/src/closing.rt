//! The lines that close a session.
ghost use Rattle.std.specs.Prelude.{◌≡◌, ◌≤◌, ◌⊎◌};
ghost use Rattle.ltm_io.specs.Faults.{Rose};
ghost use Rattle.ltm_io.specs.Sink.{appended, AppendsFront};
ghost use Rattle.ltm_session.specs.declared.ends.SessionEnd.{SessionEnd};
ghost use Rattle.ltm_command.specs.Program.{IsWhole};
ghost use Rattle.ltm_program.specs.Sessions.{closing_of, status_of_end};

use ltm_command::{Status, write_text};
use ltm_io::Sink;
use ltm_report::{long_script_text, too_many_text};
use ltm_session::SessionEnd;
use std::alloc::Global;

/// Says that a line of the script has more bytes than are read.
fn close_long<W: Sink>(alloc: Global, number: u32, output: &mut W) -> Status
    ensures answers { (result ≡ Status.TooLong)
        ⊎ ((result ≡ Status.WriteFault) ⊎ (result ≡ Status.NoMemory)) }
    ensures wrote { result ≡ Status.TooLong
        → W.written output.new
        ≡ appended (closing_of (SessionEnd.LineTooLong number)) (W.written output.old) }
    ensures front { (W.written output.new ≡ W.written output.old)
        ⊎ AppendsFront (W.written output.old) (W.written output.new)
        (closing_of (SessionEnd.LineTooLong number)) }
    ensures cause { result ≡ Status.WriteFault → Rose (W.faults output.old) (W.faults output.new) }
    ensures later { W.faults output.old ≤ W.faults output.new }
{
    let mut line = Vec::new(alloc);
    match long_script_text(alloc, number, &mut line) {
        Ok(()) => write_text(output, line.as_slice(), Status::TooLong),
        Err(_) => Status::NoMemory,
    }
}

/// Says that the script has more lines than are answered.
pub(crate) fn close_many<W: Sink>(alloc: Global, output: &mut W) -> Status
    ensures answers { (result ≡ Status.TooManyCommands)
        ⊎ ((result ≡ Status.WriteFault) ⊎ (result ≡ Status.NoMemory)) }
    ensures wrote { result ≡ Status.TooManyCommands
        → W.written output.new
        ≡ appended (closing_of SessionEnd.TooManyCommands) (W.written output.old) }
    ensures front { (W.written output.new ≡ W.written output.old)
        ⊎ AppendsFront (W.written output.old) (W.written output.new)
        (closing_of SessionEnd.TooManyCommands) }
    ensures cause { result ≡ Status.WriteFault → Rose (W.faults output.old) (W.faults output.new) }
    ensures later { W.faults output.old ≤ W.faults output.new }
{
    let mut line = Vec::new(alloc);
    match too_many_text(&mut line) {
        Ok(()) => write_text(output, line.as_slice(), Status::TooManyCommands),
        Err(_) => Status::NoMemory,
    }
}

/// Writes the line that closes a session, where there is one, and says how the program ends.
pub(crate) fn close<W: Sink>(alloc: Global, end: SessionEnd, output: &mut W) -> Status
    ensures answers { (result ≡ status_of_end end)
        ⊎ ((result ≡ Status.WriteFault) ⊎ (result ≡ Status.NoMemory)) }
    ensures wrote { IsWhole result
        → W.written output.new ≡ appended (closing_of end) (W.written output.old) }
    ensures front { (W.written output.new ≡ W.written output.old)
        ⊎ AppendsFront (W.written output.old) (W.written output.new) (closing_of end) }
    ensures cause { result ≡ Status.WriteFault
        → (end ≡ SessionEnd.WriteFault) ⊎ Rose (W.faults output.old) (W.faults output.new) }
    ensures later { W.faults output.old ≤ W.faults output.new }
    ensures plain { result ≡ Status.Ok → end ≡ SessionEnd.Ended }
    ensures read_fault { result ≡ Status.ReadFault → end ≡ SessionEnd.ReadFault }
{
    match end {
        SessionEnd::Ended => Status::Ok,
        SessionEnd::ReadFault => Status::ReadFault,
        SessionEnd::WriteFault => Status::WriteFault,
        SessionEnd::LineTooLong(number) => close_long(alloc, number, output),
        SessionEnd::TooManyCommands => close_many(alloc, output),
        SessionEnd::NoMemory => Status::NoMemory,
    }
}
