//! Standard output, or another writer.
ghost use Rattle.std.specs.Prelude.{◌≡◌, ◌≢◌, ◌<◌, ◌≤◌, length, take, None, Err, IfOk, OnErr, IsErrOf};
ghost use Rattle.ltm_io.specs.Faults.{Rose, raised};
ghost use Rattle.std.specs.Io.KnownBytes.{Appends, Keeps};

use crate::{Sink, SinkError};
use std::io::{ErrorKind, Write};

/// A sink over a writer. It tells nothing of what was written.
#[derive(Drop)]
pub struct RealOutput<W: Write + Drop> {
    writer: W,
    faults: u64,
}

impl<W: Write + Drop> RealOutput<W> {
    ghost use Rattle.ltm_io.specs.RealOutput.{faults_of, writer_of};

    /// A sink over the writer, with no fault counted.
    pub fn new(writer: W) -> RealOutput<W>
        ensures writer { writer_of result ≡ writer }
        ensures faults { faults_of result ≡ 0 }
    {
        RealOutput { writer, faults: 0 }
    }
}

impl<W: Write + Drop> Sink for RealOutput<W> {
    ghost use Rattle.ltm_io.specs.RealOutput.{faults_of, writer_of};

    ghost written = { λ _. None };

    ghost faults = { faults_of };

    /// As the trait says. The count rises by one exactly where the answer is a fault.
    fn write(&mut self, piece: &[u8]) -> Result<usize, SinkError>
        // What the trait promises. The clauses on what is told say nothing here.
        ensures count { IfOk result (λ n. n ≤ length piece.now) }
        ensures some { IfOk result (λ n. 0 < length piece.now → 0 < n) }
        ensures later { faults_of self.old ≤ faults_of self.new }
        ensures cause { IsErrOf result SinkError.WriteFault
            → Rose (faults_of self.old) (faults_of self.new) }

        // What becomes of the writer, where it tells what it holds.
        ensures passes { IfOk result (λ n. Appends (W.contents (writer_of self.old))
            (W.contents (writer_of self.new)) (take n piece.now)) }
        ensures passes_none { OnErr result
            (Keeps (W.contents (writer_of self.old)) (W.contents (writer_of self.new))) }

        // The exact count.
        ensures counts { IsErrOf result SinkError.WriteFault
            → faults_of self.new ≡ raised (faults_of self.old) }
        ensures stays { result ≢ Err SinkError.WriteFault
            → faults_of self.new ≡ faults_of self.old }
    {
        let answer = write_some(&mut self.writer, piece);
        if answer == Err(SinkError::WriteFault) {
            self.faults = self.faults.saturating_add(1);
        }
        answer
    }
}

// One write, tried again where a signal interrupts it.
fn write_some<W: Write>(writer: &mut W, piece: &[u8]) -> Result<usize, SinkError>
    ensures count { IfOk result (λ n. n ≤ length piece.now) }
    ensures some { IfOk result (λ n. 0 < length piece.now → 0 < n) }
    ensures passes { IfOk result
        (λ n. Appends (W.contents writer.old) (W.contents writer.new) (take n piece.now)) }
    ensures passes_none { OnErr result (Keeps (W.contents writer.old) (W.contents writer.new)) }
{
    for _ in 0..u64::MAX {
        match writer.write(piece) {
            Ok(taken) if taken > 0 || piece.is_empty() => return Ok(taken),
            Ok(_) => break,
            Err(e) => match e.kind() {
                ErrorKind::Interrupted => {}
                ErrorKind::OutOfMemory => return Err(SinkError::NoMemory),
                _ => break,
            },
        }
    }
    Err(SinkError::WriteFault)
}
