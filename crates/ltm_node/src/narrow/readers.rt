//! What a narrow node reads of its row.
ghost use Rattle.std.specs.Prelude.{◌≡◌, ◌<◌};
ghost use Rattle.ltm_node.specs.Shape.{is_own};
ghost use Rattle.ltm_node.specs.Inputs.{sending, left, entered, arrived, supply, weight};

use super::Narrow;

impl Narrow<'_> {
    /// What an arm sends.
    #[inline]
    pub(super) fn sending(&self, arm: u32) -> u64
        requires { arm < self.now.inputs.now.shape.arms }
        ensures { result ≡ sending self.now.inputs.now arm 0 }
    {
        self.numbers.row[self.shape.sending_place(arm, 0)]
    }

    /// What has left an arm by the beginning of the slot.
    #[inline]
    pub(super) fn left(&self, arm: u32) -> u64
        requires { arm < self.now.inputs.now.shape.arms }
        ensures { result ≡ left self.now.inputs.now arm 0 }
    {
        self.numbers.count_at(self.shape.left_place(arm, 0))
    }

    /// What has entered the out-link by the beginning of the slot.
    #[inline]
    pub(super) fn entered(&self) -> u64
        requires { 0 < self.now.inputs.now.shape.outs }
        ensures { result ≡ entered self.now.inputs.now 0 0 }
    {
        self.numbers.count_at(self.shape.entered_place(0, 0))
    }

    /// What has arrived by the beginning of the slot.
    #[inline]
    pub(super) fn arrived(&self) -> u64
        ensures { result ≡ arrived self.now.inputs.now }
    {
        self.numbers.count_at(self.shape.arrived_place())
    }

    /// What the out-link can take.
    #[inline]
    pub(super) fn can_take(&self) -> u64
        requires { 0 < self.now.inputs.now.shape.outs }
        ensures { result ≡ supply self.now.inputs.now 0 }
    {
        self.numbers.row[self.shape.supply_place(0)]
    }

    /// The weight of the out-link.
    #[inline]
    pub(super) fn weight(&self) -> u64
        requires { 0 < self.now.inputs.now.shape.outs }
        ensures { result ≡ weight self.now.inputs.now 0 0 }
    {
        self.numbers.row[self.shape.weights_place(0)]
    }

    /// Whether the node is the destination.
    #[inline]
    pub(super) fn is_own(&self) -> bool
        ensures { result ≡ is_own self.now.inputs.now.shape 0 }
    {
        self.shape.is_own(0)
    }
}
