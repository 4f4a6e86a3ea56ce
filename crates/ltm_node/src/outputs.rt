//! The counts that a node step gives.
ghost use Rattle.std.specs.Prelude.{◌≡◌, ℕ, ◌<◌, ◌≤◌, ◌*◌, ◌+◌, max, take, drop, length, IfOk, IsTrue, slice_index};
ghost use Rattle.ltm_node.specs.Shape.{counts_width, no_shape};
ghost use Rattle.ltm_node.specs.Outputs.{
  cleared_outputs,
  left_after_place,
  entered_after_place,
  arrived_after_place,
  left_after,
  entered_after,
  arrived_after,
};
ghost use Rattle.ltm_node.specs.Solvable.{IsSolvable};
ghost use Rattle.ltm_node.specs.Step.{IsNodeStep};
ghost use Rattle.ltm_node.specs.Narrow.{laid};
ghost use Rattle.ltm_node.specs.Portion.{AreFractions};
ghost use Rattle.ltm_node.specs.Moving.{HaveMovedTo, HaveMovedAll};

use crate::moves::Mover;
use crate::narrow::Narrow;
use crate::portion::Portion;
use crate::reading::Reading;
use crate::shape::NodeShape;
use crate::tally::Tally;
use ltm_units::NoMemory;
use std::alloc::Global;
use std::marker::Model;

/// The counts of a node at the end of a slot: what has left each arm for each destination, what has entered each
/// out-link for each destination, and what has arrived at the node, in thousandths of a vehicle.
#[derive(Drop)]
pub struct NodeOutputs {
    shape: NodeShape,
    counts: Vec<u64>,
}

impl Model for NodeOutputs {
    ghost use Rattle.std.specs.Prelude.{◌≤◌, length, take};
    ghost use Rattle.ltm_node.specs.Shape.{counts_width};
    ghost use Rattle.ltm_node.specs.Outputs.{Outputs};

    ghost Value = { Outputs };

    ghost view = { λ o. record {
      shape = o.shape;
      row = take (counts_width o.shape) o.counts.items;
      room = length o.counts.items;
    } };

    ghost invariant = { λ o. counts_width o.shape ≤ length o.counts.items };
}

impl NodeOutputs {
    /// Room for the counts of rows of this width, and at least for those of a node without arms and out-links.
    pub fn create(alloc: Global, room: u32) -> Result<NodeOutputs, NoMemory>
        ensures { IfOk result (λ o. o ≡ cleared_outputs no_shape (max 1 room)) }
    {
        let counts = vec![in alloc; 0u64; room.max(1) as usize]?;
        Ok(NodeOutputs {
            shape: NodeShape::empty(),
            counts,
        })
    }

    /// The shape of the node.
    #[inline]
    pub fn shape(&self) -> NodeShape
        ensures shape { result ≡ self.now.shape }
        ensures width { length self.now.row ≡ counts_width self.now.shape }
    {
        self.shape
    }

    /// What has left an arm for a destination by the end of the slot.
    #[inline]
    pub fn left(&self, arm: u32, destination: u32) -> u64
        requires arm { arm < self.now.shape.arms }
        requires destination { destination < self.now.shape.destinations }
        ensures { result ≡ left_after self.now arm destination }
    {
        self.counts[self.shape.left_after_place(arm, destination)]
    }

    /// What has entered an out-link for a destination by the end of the slot.
    #[inline]
    pub fn entered(&self, out: u32, destination: u32) -> u64
        requires out { out < self.now.shape.outs }
        requires destination { destination < self.now.shape.destinations }
        ensures { result ≡ entered_after self.now out destination }
    {
        self.counts[self.shape.entered_after_place(out, destination)]
    }

    /// What has left an arm by the end of the slot, for each destination.
    #[inline]
    pub fn left_row(&self, arm: u32) -> &[u64]
        requires { arm < self.now.shape.arms }
        ensures count { length result.now ≡ self.now.shape.destinations }
        ensures counts { (d : ℕ) → d < self.now.shape.destinations
            → slice_index result.now d ≡ left_after self.now arm d }
    {
        let from = self.shape.left_after_place(arm, 0);
        &self.counts[from..from + self.shape.destinations as usize]
    }

    /// What has entered an out-link by the end of the slot, for each destination.
    #[inline]
    pub fn entered_row(&self, out: u32) -> &[u64]
        requires { out < self.now.shape.outs }
        ensures count { length result.now ≡ self.now.shape.destinations }
        ensures counts { (d : ℕ) → d < self.now.shape.destinations
            → slice_index result.now d ≡ entered_after self.now out d }
    {
        let from = self.shape.entered_after_place(out, 0);
        &self.counts[from..from + self.shape.destinations as usize]
    }

    /// The counts of one of the groups of the node by the end of the slot, for each destination, by its place in the row:
    /// what has left an arm, or behind all arms what has entered an out-link.
    #[inline]
    pub fn group_row(&self, place: u32) -> &[u64]
        requires { place < self.now.shape.arms + self.now.shape.outs }
        ensures count { length result.now ≡ self.now.shape.destinations }
        ensures counts { (d : ℕ) → d < self.now.shape.destinations
            → slice_index result.now d
            ≡ slice_index self.now.row (place * self.now.shape.destinations + d) }
    {
        let from = self.shape.group_after_place(place);
        &self.counts[from..from + self.shape.destinations as usize]
    }

    /// What has arrived at the node by the end of the slot.
    #[inline]
    pub fn arrived(&self) -> u64
        ensures { result ≡ arrived_after self.now }
    {
        self.counts[self.shape.arrived_after_place()]
    }

    /// Takes the counts as they were at the beginning of the slot.
    fn begin(&mut self, inputs: &Reading<'_>)
        requires { counts_width inputs.now.shape ≤ self.old.room }
        ensures counts { self.new ≡ record {
          shape = inputs.now.shape;
          row = take (counts_width inputs.now.shape)
              (drop (inputs.now.shape.arms * inputs.now.shape.destinations) inputs.now.row);
          room = self.old.room;
        } }
        ensures width { length self.new.row ≡ counts_width inputs.now.shape }
    {
        let _room = self.counts.len();
        let shape = inputs.shape();
        let width = shape.counts_width();
        inputs.write_counts(&mut self.counts[0..width]);
        self.shape = shape;
    }

    /// Adds what the arms move to the counts that they are.
    #[inline]
    fn add_moves<T: Tally>(&mut self, mover: &Mover<'_>, tally: &mut T)
        requires shape { self.old.shape ≡ mover.now.inputs.now.shape }
        requires before { HaveMovedTo mover.now (T.stands tally.old) 0 self.old.row }
        ensures shape { self.new.shape ≡ mover.now.inputs.now.shape }
        ensures room { self.new.room ≡ self.old.room }
        ensures after { HaveMovedTo mover.now (T.stands tally.new)
            mover.now.inputs.now.shape.destinations self.new.row }
    {
        let width = self.shape.counts_width();
        mover.move_all(&mut self.counts[0..width], tally);
    }

    /// Takes the counts at the end of the slot where each arm moves this portion of what it sends; the tally is kept of what
    /// each moves by each out-link.
    pub(crate) fn advance<T: Tally>(
        &mut self,
        inputs: &Reading<'_>,
        portion: Portion<'_>,
        tally: &mut T,
    )
        requires solvable { IsSolvable inputs.now }
        requires fractions { AreFractions inputs.now portion }
        requires room { counts_width inputs.now.shape ≤ self.old.room }
        requires begun { (arm out : ℕ) → arm < inputs.now.shape.arms → out < inputs.now.shape.outs
            → T.stands tally.old inputs.now portion arm out 0 }
        ensures shape { self.new.shape ≡ inputs.now.shape }
        ensures room { self.new.room ≡ self.old.room }
        ensures after { HaveMovedAll inputs.now portion.entry (T.stands tally.new) self.new.row }
    {
        self.begin(inputs);
        self.add_moves(&Mover::of(inputs, portion), tally);
    }

    /// Takes a shape, for a caller that then writes every count: what counts the row holds is not told.
    #[inline]
    fn reshape(&mut self, shape: NodeShape)
        requires { counts_width shape ≤ self.old.room }
        ensures shape { self.new.shape ≡ shape }
        ensures room { self.new.room ≡ self.old.room }
        ensures width { length self.new.row ≡ counts_width shape }
    {
        self.shape = shape;
    }

    /// Writes the counts of a narrow node in place of those that they are; whether it did.
    #[inline]
    fn write_over(&mut self, narrow: &Narrow<'_>) -> bool
        requires shape { self.old.shape ≡ narrow.now.inputs.now.shape }
        requires width { length self.old.row ≡ counts_width narrow.now.inputs.now.shape }
        ensures shape { self.new.shape ≡ narrow.now.inputs.now.shape }
        ensures room { self.new.room ≡ self.old.room }
        ensures step { IsTrue result
            → IsNodeStep narrow.now.inputs.now (laid narrow.now.inputs.now.shape self.new.row) }
    {
        let width = self.shape.counts_width();
        narrow.write(&mut self.counts[0..width])
    }

    /// Takes the counts at the end of the slot of a narrow node; whether it did.
    #[inline]
    pub(crate) fn write_narrow(&mut self, narrow: &Narrow<'_>) -> bool
        requires { counts_width narrow.now.inputs.now.shape ≤ self.old.room }
        ensures step { IsTrue result → IsNodeStep narrow.now.inputs.now self.new }
        ensures room { self.new.room ≡ self.old.room }
    {
        self.reshape(narrow.inputs.shape());
        self.write_over(narrow)
    }
}
