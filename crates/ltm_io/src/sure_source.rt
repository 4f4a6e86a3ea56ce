//! A source in memory that never fails.
ghost use Rattle.std.specs.Prelude.{◌≡◌, ℕ, ◌<◌, ◌≤◌, [], length, min, take, vec_len, Some, IfOk, IsOk, OnErr};
ghost use Rattle.ltm_io.specs.Faults.{Rose};
ghost use Rattle.ltm_io.specs.Source.{prepended};

use crate::{ReadFault, Source};
use ltm_units::NoMemory;
use std::alloc::Global;

/// A source in memory with no fault ever, which gives at most a piece of some size at a time.
#[derive(Drop)]
pub struct SureSource {
    bytes: Vec<u8>,
    at: usize,
    piece: u32,
    ghost within: { at ≤ vec_len bytes },
    ghost gives: { 0 < piece },
}

impl SureSource {
    ghost use Rattle.ltm_io.specs.SureSource.{left_of, piece_of};

    /// A source of these bytes, which gives at most `piece` bytes at a time.
    pub fn create(alloc: Global, bytes: &[u8], piece: u32) -> Result<SureSource, NoMemory>
        requires { 0 < piece }
        ensures left { IfOk result (λ source. left_of source ≡ bytes.now) }
        ensures piece { IfOk result (λ source. piece_of source ≡ piece) }
    {
        let bytes = Vec::from_slice(alloc, bytes)?;
        Ok(SureSource {
            bytes,
            at: 0,
            piece,
        })
    }
}

impl Source for SureSource {
    ghost use Rattle.ltm_io.specs.SureSource.{left_of, piece_of};

    ghost left = { λ source. Some (left_of source) };

    ghost faults = { λ _. 0 };

    /// As the trait says. It always succeeds.
    fn read(&mut self, into: &mut [u8]) -> Result<usize, ReadFault>
        // What the trait promises.
        ensures count { IfOk result (λ n. n ≤ length into.new) }
        ensures took { IfOk result
            (λ n. Some (left_of self.old) ≡ prepended (take n into.new) (Some (left_of self.new))) }
        ensures end { IfOk result (λ n. n ≡ 0 → 0 < length into.new → left_of self.old ≡ []) }
        ensures refused { OnErr result (Some (left_of self.new) ≡ Some (left_of self.old)) }
        ensures later { 0 ≤ 0 }
        ensures cause { OnErr result (Rose 0 0) }

        // The exact answer.
        ensures sure { IsOk result }
        ensures takes { IfOk result
            (λ n. n ≡ min (min (length (left_of self.old)) (length into.old)) (piece_of self.old)) }
        ensures piece { piece_of self.new ≡ piece_of self.old }
    {
        let left = &self.bytes[self.at..];
        let taken = left.len().min(into.len()).min(self.piece as usize);
        into[..taken].copy_from_slice(&left[..taken]);
        self.at += taken;
        Ok(taken)
    }
}
