//! A source in memory that can be made to fail.
ghost use Rattle.std.specs.Prelude.{◌≡◌, ◌↔◌, ℕ, ◌<◌, ◌≤◌, [], length, min, take, Some, IfOk, IsErr, OnErr, IsTrue, if◌then◌else◌};
ghost use Rattle.ltm_io.specs.Faults.{Rose, raised};
ghost use Rattle.ltm_io.specs.Source.{prepended};

use crate::{ReadFault, Source, SureSource};
use ltm_units::NoMemory;
use std::alloc::Global;

/// A source in memory, whose reads of a chosen list fail, and which gives at most a piece of some size at a time.
#[derive(Drop)]
pub struct MemSource {
    sure: SureSource,
    faults: u64,
    calls: u64,
    failing: Vec<u64>,
}

impl MemSource {
    ghost use Rattle.ltm_io.specs.MemSource.{left_of, piece_of, faults_of, calls_of, failing_of};

    /// A source of these bytes with no fault, which gives at most `piece` bytes at a time. The reads whose numbers,
    /// counted from 1, are in `failing` are to fail.
    pub fn create(
        alloc: Global,
        bytes: &[u8],
        piece: u32,
        failing: &[u64],
    ) -> Result<MemSource, NoMemory>
        requires { 0 < piece }
        ensures left { IfOk result (λ source. left_of source ≡ bytes.now) }
        ensures piece { IfOk result (λ source. piece_of source ≡ piece) }
        ensures faults { IfOk result (λ source. faults_of source ≡ 0) }
        ensures calls { IfOk result (λ source. calls_of source ≡ 0) }
        ensures failing { IfOk result (λ source. failing_of source ≡ failing.now) }
    {
        let sure = SureSource::create(alloc, bytes, piece)?;
        let failing = Vec::from_slice(alloc, failing)?;
        Ok(MemSource {
            sure,
            faults: 0,
            calls: 0,
            failing,
        })
    }
}

impl Source for MemSource {
    ghost use Rattle.ltm_io.specs.MemSource.{left_of, piece_of, faults_of, calls_of, failing_of, fails_next};

    ghost left = { λ source. Some (left_of source) };

    ghost faults = { faults_of };

    /// As the trait says. The read fails, and the count rises by one, exactly where its number is one of the list.
    fn read(&mut self, into: &mut [u8]) -> Result<usize, ReadFault>
        // What the trait promises.
        ensures count { IfOk result (λ n. n ≤ length into.new) }
        ensures took { IfOk result
            (λ n. Some (left_of self.old) ≡ prepended (take n into.new) (Some (left_of self.new))) }
        ensures end { IfOk result (λ n. n ≡ 0 → 0 < length into.new → left_of self.old ≡ []) }
        ensures refused { OnErr result (Some (left_of self.new) ≡ Some (left_of self.old)) }
        ensures later { faults_of self.old ≤ faults_of self.new }
        ensures cause { OnErr result (Rose (faults_of self.old) (faults_of self.new)) }

        // The exact answer, and the exact counts.
        ensures fails { IsErr result ↔ IsTrue (fails_next self.old) }
        ensures takes { IfOk result
            (λ n. n ≡ min (min (length (left_of self.old)) (length into.old)) (piece_of self.old)) }
        ensures counts { faults_of self.new
            ≡ (if fails_next self.old then raised (faults_of self.old) else faults_of self.old) }
        ensures calls { calls_of self.new ≡ raised (calls_of self.old) }
        ensures failing { failing_of self.new ≡ failing_of self.old }
        ensures piece { piece_of self.new ≡ piece_of self.old }
    {
        self.calls = self.calls.saturating_add(1);
        if self.failing.contains(&self.calls) {
            self.faults = self.faults.saturating_add(1);
            return Err(ReadFault);
        }
        self.sure.read(into)
    }
}
