//! A node at which nothing moves in a slot.
ghost use Rattle.std.specs.Prelude.{◌≡◌, ℕ, ◌+◌, ◌<◌, length, slice_index, slice_index_or, IsTrue};
ghost use Rattle.ltm_curve.specs.Counts.{Counts};
ghost use Rattle.ltm_loading.specs.Setting.{Setting, IsSetting};
ghost use Rattle.ltm_lean.specs.declared.incoming.Incoming.{Incoming};
ghost use Rattle.ltm_lean.specs.declared.outgoing.Outgoing.{Outgoing};
ghost use Rattle.ltm_lean.specs.declared.tables.Tables.{Tables};
ghost use Rattle.ltm_lean.specs.Nodes.{AreIncoming, AreOutgoing};

use crate::incoming::Incoming;
use crate::node::LeanNode;
use crate::outgoing::Outgoing;

/// Whether all numbers are 0.
pub(crate) fn are_zero(numbers: &[u64]) -> bool
    ensures { IsTrue result → (k : ℕ) → k < length numbers.now → slice_index numbers.now k ≡ 0 }
{
    for k in 0..numbers.len() {
        if numbers[k] != 0 {
            return false;
        }
    }
    true
}

/// Says that nothing left the links into a node in a slot.
fn rest_ins(ins: &mut [Incoming])
    ensures links { (s : Setting) (x : Tables) (u : ℕ) → AreIncoming s x u ins.old → AreIncoming s x u ins.new }
    ensures gone { (i : ℕ) (d : Incoming) → i < length ins.old → (slice_index_or ins.new i d).gone ≡ 0 }
    ensures stands { (i : ℕ) (d : Incoming) → i < length ins.old → (slice_index_or ins.new i d).standing ≡ (slice_index_or ins.old i d).standing }
{
    for i in 0..ins.len() {
        ins[i].rest();
    }
}

/// Says that nothing entered the links out of a node in a slot.
fn rest_outs(outs: &mut [Outgoing])
    ensures links { (s : Setting) (x : Tables) (u : ℕ) → AreOutgoing s x u outs.old → AreOutgoing s x u outs.new }
    ensures came { (j : ℕ) (d : Outgoing) → j < length outs.old → (slice_index_or outs.new j d).mail.came ≡ 0 }
{
    for j in 0..outs.len() {
        outs[j].rest();
    }
}

impl LeanNode {
    ghost use Rattle.ltm_lean.specs.Nodes.{AreTables, IsNodeAt, MovedAtNode, StandsAtNode};
    ghost use Rattle.ltm_lean.specs.Still.{IsStill};

    /// Says that nothing moved at a node in a slot.
    pub(crate) fn rest(&mut self)
        ensures same_node { self.new.node ≡ self.old.node }
        ensures same_own { self.new.own ≡ self.old.own }
        ensures node { (s : Setting) (x : Tables) → IsNodeAt s x self.old → IsNodeAt s x self.new }
        ensures stands { (s : Setting) (x : Tables) (c : Counts) (k t : ℕ) → IsSetting s → AreTables s x → IsNodeAt s x self.old → IsStill s c self.old.node.0 t
            → StandsAtNode s c x k t self.old → StandsAtNode s c x k (t + 1) self.new }
        ensures moved { (s : Setting) (x : Tables) (c : Counts) (t : ℕ) → IsNodeAt s x self.old → IsStill s c self.old.node.0 t → MovedAtNode s c x t self.new }
    {
        rest_ins(&mut self.ins);
        rest_outs(&mut self.outs);
    }
}
