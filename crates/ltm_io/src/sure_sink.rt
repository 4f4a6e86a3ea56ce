//! A sink in memory that never fails.
ghost use Rattle.std.specs.Prelude.{◌≡◌, ℕ, ◌<◌, ◌≤◌, [], length, min, take, Some, IfOk, IfErr, OnErr, IsErrOf};
ghost use Rattle.ltm_io.specs.Faults.{Rose};
ghost use Rattle.ltm_io.specs.Sink.{appended};

use crate::{Sink, SinkError};
use ltm_units::NoMemory;
use std::alloc::Global;

/// A sink in memory with no fault ever, which takes at most a piece of some size at a time.
#[derive(Drop)]
pub struct SureSink {
    bytes: Vec<u8>,
    piece: u32,
    ghost takes: { 0 < piece },
}

impl SureSink {
    ghost use Rattle.ltm_io.specs.SureSink.{written_to, piece_of};

    /// A sink with nothing written, which takes at most `piece` bytes at a time.
    pub fn create(alloc: Global, piece: u32) -> Result<SureSink, NoMemory>
        requires { 0 < piece }
        ensures written { IfOk result (λ sink. written_to sink ≡ []) }
        ensures piece { IfOk result (λ sink. piece_of sink ≡ piece) }
    {
        Ok(SureSink {
            bytes: Vec::new(alloc),
            piece,
        })
    }

    /// The bytes written.
    pub fn written(&self) -> &[u8]
        ensures { result.now ≡ written_to self.now }
    {
        self.bytes.as_slice()
    }
}

impl Sink for SureSink {
    ghost use Rattle.ltm_io.specs.SureSink.{written_to, piece_of};

    ghost written = { λ sink. Some (written_to sink) };

    ghost faults = { λ _. 0 };

    /// As the trait says. The only error is want of memory.
    fn write(&mut self, piece: &[u8]) -> Result<usize, SinkError>
        // What the trait promises.
        ensures count { IfOk result (λ n. n ≤ length piece.now) }
        ensures some { IfOk result (λ n. 0 < length piece.now → 0 < n) }
        ensures took { IfOk result
            (λ n. Some (written_to self.new)
            ≡ appended (take n piece.now) (Some (written_to self.old))) }
        ensures refused { OnErr result (Some (written_to self.new) ≡ Some (written_to self.old)) }
        ensures later { 0 ≤ 0 }
        ensures cause { IsErrOf result SinkError.WriteFault → Rose 0 0 }

        // The exact answer, to which want of memory is the one exception.
        ensures sure { IfErr result (λ e. e ≡ SinkError.NoMemory) }
        ensures takes { IfOk result (λ n. n ≡ min (length piece.now) (piece_of self.old)) }
        ensures piece { piece_of self.new ≡ piece_of self.old }
    {
        let taken = piece.len().min(self.piece as usize);
        match self.bytes.extend_from_slice(&piece[..taken]) {
            Ok(()) => Ok(taken),
            Err(_) => Err(SinkError::NoMemory),
        }
    }
}
