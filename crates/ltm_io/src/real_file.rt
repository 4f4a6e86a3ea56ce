//! An open file.
ghost use Rattle.std.specs.Prelude.{◌≡◌, ◌↔◌, ◌<◌, ◌≤◌, IsTrue, length, None, IfOk, OnErr, OnOk};
ghost use Rattle.ltm_io.specs.Faults.{Rose, raised};

use crate::{ReadFault, RealInput, Source};
use std::io::Read;

/// An open file. It tells nothing of what is left.
pub struct RealFile<R: Read + Drop> {
    input: RealInput<R>,
    faults: u64,
}

// By hand, so that letting go of a file is one call, and not its parts one by one wherever that may happen.
impl<R: Read + Drop> Drop for RealFile<R> {
    fn drop(self) {
        let RealFile {
            input: _input,
            faults: _faults,
        } = self;
    }
}

impl<R: Read + Drop> RealFile<R> {
    ghost use Rattle.ltm_io.specs.RealFile.{faults_of};

    /// The file that this reader reads, with no fault counted.
    pub(crate) fn new(reader: R) -> RealFile<R>
        ensures { faults_of result ≡ 0 }
    {
        RealFile {
            input: RealInput::new(reader),
            faults: 0,
        }
    }

    /// Whether a read failed.
    pub(crate) fn has_failed(&self) -> bool
        ensures { IsTrue result ↔ (0 < faults_of self.now) }
    {
        self.faults > 0
    }
}

impl<R: Read + Drop> Source for RealFile<R> {
    ghost use Rattle.ltm_io.specs.RealFile.{faults_of};

    ghost left = { λ _. None };

    ghost faults = { faults_of };

    /// As the trait says. The count rises by one exactly where the answer is a fault.
    fn read(&mut self, into: &mut [u8]) -> Result<usize, ReadFault>
        // What the trait promises. The clauses on what is told say nothing here.
        ensures count { IfOk result (λ n. n ≤ length into.new) }
        ensures later { faults_of self.old ≤ faults_of self.new }
        ensures cause { OnErr result (Rose (faults_of self.old) (faults_of self.new)) }

        // The exact count.
        ensures counts { OnErr result (faults_of self.new ≡ raised (faults_of self.old)) }
        ensures stays { OnOk result (faults_of self.new ≡ faults_of self.old) }
    {
        match self.input.read(into) {
            Ok(count) => Ok(count),
            Err(fault) => {
                self.faults = self.faults.saturating_add(1);
                Err(fault)
            }
        }
    }
}
