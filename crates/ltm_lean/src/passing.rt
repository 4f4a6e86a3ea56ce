//! What passes a node in a slot.
ghost use Rattle.std.specs.Prelude.{◌≡◌, ℕ, ◌+◌, ◌<◌, ◌≤◌, min, length};
ghost use Rattle.ltm_curve.specs.Counts.{Counts};
ghost use Rattle.ltm_loading.specs.Setting.{Setting};
ghost use Rattle.ltm_used.specs.Lists.{list_of};
ghost use Rattle.ltm_origin.specs.Waiting.{HasLeft};
ghost use Rattle.ltm_lean.specs.declared.tables.Tables.{Tables};
ghost use Rattle.ltm_lean.specs.Nodes.{IsMoving};

use crate::leaving::{enter_links, leave_links};
use crate::node::LeanNode;
use crate::origin::add_gone;
use ltm_node::NodeOutputs;

/// Adds to what has left an origin what left it in a slot, as an arm of its node.
fn leave_origin(left: &mut u64, gone: &mut [u32], arm: u32, outputs: &NodeOutputs)
    requires arm { arm < outputs.now.shape.arms }
    requires wide { length gone.old ≡ outputs.now.shape.destinations }
    ensures { (s : Setting) (x : Tables) (c : Counts) (u t : ℕ) → arm ≡ s.ins u → 0 < s.outs u → IsMoving s c x u t outputs.now
        → HasLeft s c u t (list_of x.nodes u) left.old gone.old → HasLeft s c u (t + 1) (list_of x.nodes u) left.new gone.new }
{
    let all = add_gone(gone, outputs.left_row(arm));
    *left = left.saturating_add(all);
}

impl LeanNode {
    ghost use Rattle.ltm_lean.specs.Nodes.{IsNodeAt, MovedAtNode, StandsAtNode};

    /// Adds to what has left the origin of a node with out-links what left it in a slot.
    fn leave_own(&mut self, outputs: &NodeOutputs)
        requires few { length self.old.ins.items ≤ 4 }
        requires arms { outputs.now.shape.arms ≡ length self.old.ins.items + min 1 (length self.old.outs.items) }
        requires wide { outputs.now.shape.destinations ≡ length self.old.gone.items }
        ensures same_node { self.new.node ≡ self.old.node }
        ensures same_own { self.new.own ≡ self.old.own }
        ensures ins { self.new.ins.items ≡ self.old.ins.items }
        ensures outs { self.new.outs.items ≡ self.old.outs.items }
        ensures same_kept { self.new.kept ≡ self.old.kept }
        ensures wide { length self.new.gone.items ≡ length self.old.gone.items }
        ensures left { (s : Setting) (x : Tables) (c : Counts) (u t : ℕ) → length self.old.ins.items ≡ s.ins u → length self.old.outs.items ≡ s.outs u
            → 0 < s.outs u → IsMoving s c x u t outputs.now → HasLeft s c u t (list_of x.nodes u) self.old.left self.old.gone.items
            → HasLeft s c u (t + 1) (list_of x.nodes u) self.new.left self.new.gone.items }
    {
        if self.outs.is_empty() {
            return;
        }
        let arm = self.ins.len() as u32;
        leave_origin(&mut self.left, &mut self.gone, arm, outputs);
    }

    /// Takes away what left the links into a node and its origin in a slot, and writes what entered the links out of it.
    pub(crate) fn pass(&mut self, outputs: &NodeOutputs)
        requires few_ins { length self.old.ins.items ≤ 4 }
        requires few_outs { length self.old.outs.items ≤ 4 }
        requires arms { outputs.now.shape.arms ≡ length self.old.ins.items + min 1 (length self.old.outs.items) }
        requires outs { outputs.now.shape.outs ≡ length self.old.outs.items }
        requires wide { outputs.now.shape.destinations ≡ length self.old.gone.items }
        ensures same_node { self.new.node ≡ self.old.node }
        ensures same_own { self.new.own ≡ self.old.own }
        ensures node { (s : Setting) (x : Tables) → IsNodeAt s x self.old → IsNodeAt s x self.new }
        ensures stands { (s : Setting) (x : Tables) (c : Counts) (k t : ℕ) → IsNodeAt s x self.old → IsMoving s c x self.old.node.0 t outputs.now
            → StandsAtNode s c x k t self.old → StandsAtNode s c x k (t + 1) self.new }
        ensures moved { (s : Setting) (x : Tables) (c : Counts) (t : ℕ) → IsNodeAt s x self.old → IsMoving s c x self.old.node.0 t outputs.now
            → MovedAtNode s c x t self.new }
    {
        leave_links(&mut self.ins, outputs);
        self.leave_own(outputs);
        enter_links(&mut self.outs, outputs);
    }
}
