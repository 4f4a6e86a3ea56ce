//! Batches of edits.
ghost use Rattle.std.specs.Prelude.{◌≡◌, ◌≤◌, ◌+◌, length, List, IfOk, Ok, Err, ◌&&◌, nat_le, OnOk, true, false, ◌≢◌, IfErr, ◌↔◌, IsTrue};
ghost use Rattle.std.specs.List.{list_all};
ghost use Rattle.ltm_scenario.specs.Edits.{amount_of, horizon_after};
ghost use Rattle.ltm_units.specs.Bounds.{most_amount};

use crate::edit::Edit;
use ltm_units::NoMemory;
use std::alloc::Global;
use std::marker::Model;

/// The most edits of a batch.
const MOST_EDITS: usize = 32;

/// 1 to 32 edits, in order. Contracts see their list.
#[derive(Drop)]
pub struct Batch {
    edits: Vec<Edit>,
}

impl Model for Batch {
    ghost use Rattle.std.specs.Prelude.{◌≤◌, List, vec_len};
    ghost use Rattle.ltm_scenario.specs.declared.edit.Edit.{Edit};

    ghost Value = { List Edit };

    ghost view = { λ b. b.edits.items };

    ghost invariant = { λ b. (1 ≤ vec_len b.edits) × (vec_len b.edits ≤ 32) };
}

/// Why edits are no batch.
#[derive(Clone, Copy, Debug, PartialEq, Eq)]
pub enum BatchFault {
    /// They are none, or more than 32.
    Count,
    /// Memory was not found.
    NoMemory,
}

impl Batch {
    ghost use Rattle.ltm_scenario.specs.Batch.{is_count};
    ghost use Rattle.ltm_scenario.specs.Edits.{HaveAmounts};

    /// The batch of the edits, where they are 1 to 32.
    pub fn of(alloc: Global, edits: &[Edit]) -> Result<Batch, BatchFault>
        ensures ok { IfOk result (λ batch. batch ≡ edits.now) }
        ensures fits { OnOk result (is_count (length edits.now) ≡ true) }
        ensures cause { IfErr result (λ e. e ≢ BatchFault.NoMemory
            → (e ≡ BatchFault.Count) × (is_count (length edits.now) ≡ false)) }
    {
        if edits.is_empty() || edits.len() > MOST_EDITS {
            return Err(BatchFault::Count);
        }
        match copied(alloc, edits) {
            Ok(edits) => return Ok(Batch { edits }),
            Err(_) => return Err(BatchFault::NoMemory),
        }
    }

    /// The edits in order.
    pub fn edits(&self) -> &[Edit]
        ensures edits { result.now ≡ self.now }
        ensures some { 1 ≤ length self.now }
        ensures few { length self.now ≤ 32 }
    {
        &self.edits
    }

    /// Whether each amount is at most 1,000,000,000 units, which `accept` asks of a batch.
    #[tactic(auto, using(crate::proofs::Amounts::have_amounts))]
    pub fn has_amounts(&self) -> bool
        ensures { IsTrue result ↔ HaveAmounts self.now }
    {
        are_amounts(&self.edits)
    }

    /// The horizon once the batch is accepted, where it was that many slots.
    pub fn horizon(&self, slots: u32) -> u32
        ensures { result ≡ horizon_after slots self.now }
    {
        horizon_after(&self.edits, slots)
    }

    /// An equal batch, on the same allocator.
    pub fn try_copy(&self) -> Result<Batch, NoMemory>
        ensures { IfOk result (λ copy. copy ≡ self.now) }
    {
        let alloc = *self.edits.allocator();
        let edits = copied(alloc, &self.edits)?;
        Ok(Batch { edits })
    }
}

/// Equal edits.
fn copied(alloc: Global, edits: &[Edit]) -> Result<Vec<Edit>, NoMemory>
    ensures { IfOk result (λ copy. copy.items ≡ edits.now) }
{
    let mut copies = Vec::with_capacity(alloc, edits.len())?;
    for edit in edits {
        copies.push(edit.try_copy()?)?;
    }
    Ok(copies)
}

/// The horizon once the edits are made one after another.
fn horizon_after(edits: &[Edit], slots: u32) -> u32
    ensures { result ≡ horizon_after slots edits.now }
{
    match edits.split_first() {
        Some((edit, rest)) => horizon_after(rest, edit.slots_after(slots)),
        None => slots,
    }
}

fn are_amounts(edits: &[Edit]) -> bool
    ensures { result ≡ list_all (λ edit. nat_le (amount_of edit) most_amount) edits.now }
{
    edits.iter().all(|edit| edit.amount().0 <= 1_000_000_000)
}
