//! Bytes that were read ahead.
ghost use Rattle.std.specs.Prelude.{◌≡◌, ◌≢◌, ◌<◌, ◌≤◌, [], ◌∷◌, length, IfOk, IfSome, OnOk, OnErr, IsTrue, ◌↔◌, ◌==◌};
ghost use Rattle.std.specs.List.{list_any};
ghost use Rattle.ltm_io.specs.Faults.{Rose};
ghost use Rattle.ltm_io.specs.Source.{prepended};
ghost use Rattle.ltm_io.specs.Bytes.{TakesOne};

use crate::{ReadFault, Source};
use ltm_units::NoMemory;
use std::alloc::Global;
use std::marker::Model;

/// Bytes that were taken from a source and not given yet. Contracts see their list.
#[derive(Drop)]
pub(crate) struct ReadAhead {
    bytes: Vec<u8>,
    at: usize,
    end: usize,
}

impl Model for ReadAhead {
    ghost use Rattle.std.specs.Prelude.{ℕ, ◌-◌, ◌<◌, ◌≤◌, List, take, drop, vec_len};

    ghost Value = { List ℕ };

    ghost view = { λ a. take (a.end - a.at) (drop a.at a.bytes.items) };

    ghost invariant = { λ a. (a.at ≤ a.end) × (a.end ≤ vec_len a.bytes) × (0 < vec_len a.bytes) };
}

impl ReadAhead {
    // No bytes, and room for so many.
    pub(crate) fn create(alloc: Global, room: usize) -> Result<ReadAhead, NoMemory>
        requires { 0 < room }
        ensures { IfOk result (λ ahead. ahead ≡ []) }
    {
        let bytes = vec![in alloc; 0u8; room]?;
        Ok(ReadAhead {
            bytes,
            at: 0,
            end: 0,
        })
    }

    fn is_empty(&self) -> bool
        ensures { IsTrue result ↔ (self.now ≡ []) }
    {
        self.at == self.end
    }

    // Takes bytes from the source, as many as a read gives. It gives none where none is left.
    fn refill<S: Source>(&mut self, source: &mut S) -> Result<(), ReadFault>
        requires { self.old ≡ [] }
        ensures took { OnOk result (S.left source.old ≡ prepended self.new (S.left source.new)) }
        ensures end { OnOk result
            (self.new ≡ [] → IfSome (S.left source.old) (λ bytes. bytes ≡ [])) }
        ensures rest { OnOk result
            (self.new ≡ [] → IfSome (S.left source.new) (λ bytes. bytes ≡ [])) }
        ensures refused { OnErr result (self.new ≡ []) }
        ensures left { OnErr result (S.left source.new ≡ S.left source.old) }
        ensures later { S.faults source.old ≤ S.faults source.new }
        ensures cause { OnErr result (Rose (S.faults source.old) (S.faults source.new)) }
    {
        let count = source.read(&mut self.bytes)?;
        self.at = 0;
        self.end = count;
        Ok(())
    }

    // Whether a newline is among the bytes.
    pub(crate) fn has_newline(&self) -> bool
        ensures { result ≡ list_any (λ byte. byte == 10) self.now }
    {
        self.bytes[self.at..self.end].contains(&b'\n')
    }

    // Gives the first byte.
    fn give(&mut self) -> u8
        requires { self.old ≢ [] }
        ensures { self.old ≡ result ∷ self.new }
    {
        let byte = self.bytes[self.at];
        self.at += 1;
        byte
    }

    // The next byte: the first of those that were read ahead, and where there are none, of those that a read gives.
    pub(crate) fn next_byte<S: Source>(&mut self, source: &mut S) -> Result<Option<u8>, ReadFault>
        ensures took { IfOk result (λ byte. TakesOne (prepended self.old (S.left source.old))
            byte (prepended self.new (S.left source.new))) }
        ensures all { IfOk result (λ byte. byte ≡ None → self.new ≡ []) }
        ensures rest { IfOk result
            (λ byte. byte ≡ None → IfSome (S.left source.new) (λ bytes. bytes ≡ [])) }
        ensures refused { OnErr result
            (prepended self.old (S.left source.old) ≡ S.left source.new) }
        ensures later { S.faults source.old ≤ S.faults source.new }
        ensures cause { OnErr result (Rose (S.faults source.old) (S.faults source.new)) }
    {
        if self.is_empty() {
            self.refill(source)?;
            if self.is_empty() {
                return Ok(None);
            }
        }
        Ok(Some(self.give()))
    }
}
