//! The log of a core, as it is kept.
ghost use Rattle.std.specs.Prelude.{◌≡◌, ◌+◌, ◌<◌, ◌^◌, [], OnOk};
ghost use Rattle.ltm_core.specs.Log.{batches_of, version_now, with_batch, with_mark};

use ltm_scenario::{Batch, Scenario};
use ltm_units::NoMemory;
use std::alloc::Global;
use std::marker::Model;

/// The scenario with which a core began, and the batches that it accepted, each with a mark where a settle was counted after
/// it. Contracts see also for how many batches more there is room.
#[derive(Drop)]
pub(crate) struct Log {
    opening: Scenario,
    batches: Vec<Batch>,
    marks: Vec<bool>,
}

impl Model for Log {
    ghost use Rattle.std.specs.Prelude.{◌≡◌, ◌-◌, length, min, vec_len, vec_capacity};
    ghost use Rattle.ltm_core.specs.Log.{KeptLog, log_of};

    ghost Value = { KeptLog };

    ghost view = { λ l. record {
      log = log_of l.opening l.batches.items l.marks.items;
      room = min (vec_capacity l.batches - vec_len l.batches) (vec_capacity l.marks - vec_len l.marks);
    } };

    ghost invariant = { λ l. length l.marks.items ≡ length l.batches.items };
}

impl Log {
    /// No batch is accepted yet.
    pub(crate) fn begin(alloc: Global, opening: Scenario) -> Log
        ensures { result.log ≡ record { opening = opening; batches = [] } }
    {
        Log {
            opening,
            batches: Vec::new(alloc),
            marks: Vec::new(alloc),
        }
    }

    /// Where the memory of a core comes from.
    pub(crate) fn alloc(&self) -> Global {
        *self.batches.allocator()
    }

    /// How many batches are accepted.
    pub(crate) fn version(&self) -> u64
        ensures version { result ≡ version_now self.now.log }
        ensures few { result < 2 ^ 63 }
    {
        self.batches.len() as u64
    }

    /// The scenario with which the core began.
    pub(crate) fn opening(&self) -> &Scenario
        ensures { result.now ≡ self.now.log.opening }
    {
        &self.opening
    }

    /// The accepted batches, in order.
    pub(crate) fn batches(&self) -> &[Batch]
        ensures { result.now ≡ batches_of self.now.log }
    {
        &self.batches
    }

    /// Takes the memory for one more batch and its mark.
    pub(crate) fn reserve(&mut self) -> Result<(), NoMemory>
        ensures log { self.new.log ≡ self.old.log }
        ensures room { OnOk result (0 < self.new.room) }
    {
        self.batches.reserve(1)?;
        self.marks.reserve(1)?;
        Ok(())
    }

    /// Puts a batch last, without a mark.
    pub(crate) fn push(&mut self, batch: Batch)
        requires { 0 < self.old.room }
        ensures log { self.new.log ≡ with_batch self.old.log batch }
        ensures few { version_now self.old.log + 1 < 2 ^ 63 }
    {
        match self.batches.push(batch) {
            Ok(()) => {}
            Err(_) => unreachable!(),
        }
        match self.marks.push(false) {
            Ok(()) => {}
            Err(_) => unreachable!(),
        }
    }

    /// Puts a mark after the last batch, where there is one.
    pub(crate) fn mark_last(&mut self)
        ensures { self.new.log ≡ with_mark self.old.log }
    {
        let count = self.marks.len();
        if count > 0 {
            self.marks[count - 1] = true;
        }
    }
}
