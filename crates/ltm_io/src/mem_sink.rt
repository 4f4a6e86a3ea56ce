//! A sink in memory that can be made to fail.
ghost use Rattle.std.specs.Prelude.{◌≡◌, ◌↔◌, ℕ, ◌<◌, ◌≤◌, [], length, min, take, Some, IfOk, OnErr, IsErrOf, IsTrue, if◌then◌else◌};
ghost use Rattle.ltm_io.specs.Faults.{Rose, raised};
ghost use Rattle.ltm_io.specs.Sink.{appended};

use crate::{Sink, SinkError};
use ltm_units::NoMemory;
use std::alloc::Global;

/// A sink in memory, whose writes of a chosen list fail, and which takes at most a piece of some
/// size at a time.
#[derive(Drop)]
pub struct MemSink {
    bytes: Vec<u8>,
    piece: u32,
    faults: u64,
    calls: u64,
    failing: Vec<u64>,
    ghost takes: { 0 < piece },
}

impl MemSink {
    ghost use Rattle.ltm_io.specs.MemSink.{written_to, piece_of, faults_of, calls_of, failing_of};

    /// A sink with nothing written and no fault, which takes at most `piece` bytes at a time. The
    /// writes whose numbers, counted from 1, are in `failing` are to fail.
    pub fn create(alloc: Global, piece: u32, failing: &[u64]) -> Result<MemSink, NoMemory>
        requires { 0 < piece }
        ensures written { IfOk result (λ sink. written_to sink ≡ []) }
        ensures piece { IfOk result (λ sink. piece_of sink ≡ piece) }
        ensures faults { IfOk result (λ sink. faults_of sink ≡ 0) }
        ensures calls { IfOk result (λ sink. calls_of sink ≡ 0) }
        ensures failing { IfOk result (λ sink. failing_of sink ≡ failing.now) }
    {
        let failing = Vec::from_slice(alloc, failing)?;
        Ok(MemSink {
            bytes: Vec::new(alloc),
            piece,
            faults: 0,
            calls: 0,
            failing,
        })
    }

    /// The bytes written.
    pub fn written(&self) -> &[u8]
        ensures { result.now ≡ written_to self.now }
    {
        self.bytes.as_slice()
    }
}

impl Sink for MemSink {
    ghost use Rattle.ltm_io.specs.MemSink.{written_to, piece_of, faults_of, calls_of, failing_of, fails_next};

    ghost written = { λ sink. Some (written_to sink) };

    ghost faults = { faults_of };

    /// As the trait says. The write fails, and the count rises by one, exactly where its number is
    /// one of the list.
    fn write(&mut self, piece: &[u8]) -> Result<usize, SinkError>
        // What the trait promises.
        ensures count { IfOk result (λ n. n ≤ length piece.now) }
        ensures some { IfOk result (λ n. 0 < length piece.now → 0 < n) }
        ensures took { IfOk result
            (λ n. Some (written_to self.new)
            ≡ appended (take n piece.now) (Some (written_to self.old))) }
        ensures refused { OnErr result (Some (written_to self.new) ≡ Some (written_to self.old)) }
        ensures later { faults_of self.old ≤ faults_of self.new }
        ensures cause { IsErrOf result SinkError.WriteFault
            → Rose (faults_of self.old) (faults_of self.new) }

        // The exact answer, to which want of memory is the one exception, and the exact counts.
        ensures fails { IsErrOf result SinkError.WriteFault ↔ IsTrue (fails_next self.old) }
        ensures takes { IfOk result (λ n. n ≡ min (length piece.now) (piece_of self.old)) }
        ensures counts { faults_of self.new
            ≡ (if fails_next self.old then raised (faults_of self.old) else faults_of self.old) }
        ensures calls { calls_of self.new ≡ raised (calls_of self.old) }
        ensures failing { failing_of self.new ≡ failing_of self.old }
        ensures piece { piece_of self.new ≡ piece_of self.old }
    {
        self.calls = self.calls.saturating_add(1);
        if self.failing.contains(&self.calls) {
            self.faults = self.faults.saturating_add(1);
            return Err(SinkError::WriteFault);
        }
        let taken = piece.len().min(self.piece as usize);
        if self.bytes.extend_from_slice(&piece[..taken]).is_err() {
            return Err(SinkError::NoMemory);
        }
        Ok(taken)
    }
}
