//! What leaves the links into a node, and what enters those out of it.
ghost use Rattle.std.specs.Prelude.{◌≡◌, ℕ, ◌+◌, ◌<◌, ◌≤◌, List, length, slice_index_or};
ghost use Rattle.ltm_curve.specs.Counts.{Counts, total};
ghost use Rattle.ltm_loading.specs.Groups.{down_of};
ghost use Rattle.ltm_loading.specs.Setting.{Setting};
ghost use Rattle.ltm_standing.specs.Listed.{HasEntered};
ghost use Rattle.ltm_used.specs.Lists.{list_of};
ghost use Rattle.ltm_lean.specs.declared.incoming.Incoming.{Incoming};
ghost use Rattle.ltm_lean.specs.declared.outgoing.Outgoing.{Outgoing};
ghost use Rattle.ltm_lean.specs.declared.tables.Tables.{Tables};
ghost use Rattle.ltm_lean.specs.Nodes.{AreIncoming, AreOutgoing, IsMoving, StandAt};

use crate::incoming::Incoming;
use crate::outgoing::Outgoing;
use ltm_node::NodeOutputs;

/// Takes away what left each link into a node in a slot, from what moved there.
pub(crate) fn leave_links(ins: &mut [Incoming], outputs: &NodeOutputs)
    requires arms { length ins.old ≤ outputs.now.shape.arms }
    requires few { length ins.old ≤ 4 }
    ensures links { (s : Setting) (x : Tables) (u : ℕ) → AreIncoming s x u ins.old → AreIncoming s x u ins.new }
    ensures stands { (s : Setting) (x : Tables) (c : Counts) (u k t : ℕ) → AreIncoming s x u ins.old → IsMoving s c x u t outputs.now
        → StandAt s c x u k t ins.old → StandAt s c x u k (t + 1) ins.new }
    ensures gone { (s : Setting) (x : Tables) (c : Counts) (u t : ℕ) → AreIncoming s x u ins.old → IsMoving s c x u t outputs.now
        → (i : ℕ) (d : Incoming) → i < s.ins u → total s.destinations (c (down_of (s.in_link u i))) (t + 1)
        ≡ total s.destinations (c (down_of (s.in_link u i))) t + (slice_index_or ins.new i d).gone }
{
    for i in 0..ins.len() {
        ins[i].leave(outputs.left_row(i as u32));
    }
}

/// Writes what entered each link out of a node in a slot, from what moved there.
pub(crate) fn enter_links(outs: &mut [Outgoing], outputs: &NodeOutputs)
    requires outs { length outs.old ≤ outputs.now.shape.outs }
    requires few { length outs.old ≤ 4 }
    ensures links { (s : Setting) (x : Tables) (u : ℕ) → AreOutgoing s x u outs.old → AreOutgoing s x u outs.new }
    ensures came { (s : Setting) (x : Tables) (c : Counts) (u t : ℕ) → AreOutgoing s x u outs.old → IsMoving s c x u t outputs.now
        → (j : ℕ) (d : Outgoing) → j < s.outs u
        → HasEntered s c (s.out_link u j) (list_of x.links (s.out_link u j)) t (slice_index_or outs.new j d).mail.came (slice_index_or outs.new j d).mail.numbers.items }
{
    for j in 0..outs.len() {
        outs[j].enter(outputs.entered_row(j as u32));
    }
}
