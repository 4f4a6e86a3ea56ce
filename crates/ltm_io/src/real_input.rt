//! Standard input, or another reader.
ghost use Rattle.std.specs.Prelude.{◌≡◌, ◌<◌, ◌≤◌, [], length, take, None, IfOk, OnErr, OnOk};
ghost use Rattle.ltm_io.specs.Faults.{Rose, raised};
ghost use Rattle.std.specs.Io.KnownBytes.{Consumes, IsAtEnd, Keeps};

use crate::{ReadFault, Source};
use std::io::{ErrorKind, Read};

/// A source over a reader. It tells nothing of what is left.
#[derive(Drop)]
pub struct RealInput<R: Read + Drop> {
    reader: R,
    faults: u64,
}

impl<R: Read + Drop> RealInput<R> {
    ghost use Rattle.ltm_io.specs.RealInput.{faults_of, reader_of};

    /// A source over the reader, with no fault counted.
    pub fn new(reader: R) -> RealInput<R>
        ensures reader { reader_of result ≡ reader }
        ensures faults { faults_of result ≡ 0 }
    {
        RealInput { reader, faults: 0 }
    }
}

impl<R: Read + Drop> Source for RealInput<R> {
    ghost use Rattle.ltm_io.specs.RealInput.{faults_of, reader_of};

    ghost left = { λ _. None };

    ghost faults = { faults_of };

    /// As the trait says. The count rises by one exactly where the answer is a fault.
    fn read(&mut self, into: &mut [u8]) -> Result<usize, ReadFault>
        // What the trait promises. The clauses on what is told say nothing here.
        ensures count { IfOk result (λ n. n ≤ length into.new) }
        ensures later { faults_of self.old ≤ faults_of self.new }
        ensures cause { OnErr result (Rose (faults_of self.old) (faults_of self.new)) }

        // What becomes of the reader, where it tells what it has left.
        ensures passes { IfOk result (λ n. Consumes (R.remaining (reader_of self.old))
            (R.remaining (reader_of self.new)) (take n into.new)) }
        ensures passes_end { IfOk result
            (λ n. n ≡ 0 → 0 < length into.new → IsAtEnd (R.remaining (reader_of self.new))) }
        ensures passes_none { OnErr result
            (Keeps (R.remaining (reader_of self.old)) (R.remaining (reader_of self.new))) }

        // The exact count.
        ensures counts { OnErr result (faults_of self.new ≡ raised (faults_of self.old)) }
        ensures stays { OnOk result (faults_of self.new ≡ faults_of self.old) }
    {
        match read_some(&mut self.reader, into) {
            Ok(taken) => Ok(taken),
            Err(fault) => {
                self.faults = self.faults.saturating_add(1);
                Err(fault)
            }
        }
    }
}

// One read, tried again where a signal interrupts it.
fn read_some<R: Read>(reader: &mut R, into: &mut [u8]) -> Result<usize, ReadFault>
    ensures count { IfOk result (λ n. n ≤ length into.new) }
    ensures passes { IfOk result
        (λ n. Consumes (R.remaining reader.old) (R.remaining reader.new) (take n into.new)) }
    ensures passes_end { IfOk result
        (λ n. n ≡ 0 → 0 < length into.new → IsAtEnd (R.remaining reader.new)) }
    ensures passes_none { OnErr result (Keeps (R.remaining reader.old) (R.remaining reader.new)) }
{
    for _ in 0..u64::MAX {
        match reader.read(into) {
            Ok(taken) => return Ok(taken),
            Err(e) => match e.kind() {
                ErrorKind::Interrupted => {}
                _ => break,
            },
        }
    }
    Err(ReadFault)
}
