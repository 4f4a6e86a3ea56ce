//! How many arms, out-links and destinations a node has, and where its numbers stand in a row.
ghost use Rattle.std.specs.Prelude.{◌≡◌, ◌+◌, ◌*◌, ◌<◌, ◌≤◌, ◌^◌};

/// The shape of a node.
#[derive(Clone, Copy, Debug, PartialEq, Eq)]
pub struct NodeShape {
    /// How many arms the node has: its in-links in order of link number, then its origin where it has an out-link.
    pub arms: u32,
    /// How many out-links the node has, in order of link number.
    pub outs: u32,
    /// How many destinations the case has.
    pub destinations: u32,
    /// The destination that is the node itself.
    pub own: Option<u32>,
    /// Whether what an arm moves by an out-link is rounded down once for all destinations, and not for each.
    pub by_turn: bool,
}

impl NodeShape {
    ghost use Rattle.ltm_node.specs.Shape.{
      width,
      counts_width,
      no_shape,
      is_own,
      counts_begin,
      supplies_begin,
      capacities_begin,
      weights_begin,
      sending_place,
      left_place,
      entered_place,
      arrived_place,
      supply_place,
      capacity_place,
      weights_place,
    };
    ghost use Rattle.ltm_node.specs.Outputs.{left_after_place, entered_after_place, arrived_after_place};

    /// A node without arms, out-links and destinations.
    pub(crate) fn empty() -> NodeShape
        ensures { result ≡ no_shape }
    {
        NodeShape {
            arms: 0,
            outs: 0,
            destinations: 0,
            own: None,
            by_turn: false,
        }
    }

    /// How many numbers the row of inputs has.
    #[inline]
    pub fn width(self) -> usize
        requires { width self < 2 ^ 63 }
        ensures { result ≡ width self }
    {
        let arms = self.arms as usize;
        let outs = self.outs as usize;
        let destinations = self.destinations as usize;
        2 * (arms * destinations) + 2 * (outs * destinations) + 1 + outs + arms
    }

    /// How many counts the row of outputs has.
    #[inline]
    pub fn counts_width(self) -> usize
        requires { counts_width self < 2 ^ 63 }
        ensures { result ≡ counts_width self }
    {
        let arms = self.arms as usize;
        let outs = self.outs as usize;
        let destinations = self.destinations as usize;
        arms * destinations + outs * destinations + 1
    }

    /// Whether a destination is the node itself.
    #[inline]
    pub(crate) fn is_own(self, destination: u32) -> bool
        ensures { result ≡ is_own self destination }
    {
        match self.own {
            Some(own) => own == destination,
            None => false,
        }
    }

    /// Where the counts begin in the row of the inputs, which is how many numbers tell what the arms send: first what has left
    /// the arms, then what has entered the out-links, last what has arrived.
    #[inline]
    pub fn counts_begin(self) -> usize
        requires { width self < 2 ^ 63 }
        ensures place { result ≡ counts_begin self }
        ensures within { result + counts_width self ≤ width self }
    {
        self.arms as usize * self.destinations as usize
    }

    /// Where the supplies begin in the row of the inputs, behind the counts.
    #[inline]
    pub fn supplies_begin(self) -> usize
        requires { width self < 2 ^ 63 }
        ensures place { result ≡ supplies_begin self }
        ensures within { result + self.outs ≤ width self }
    {
        self.arrived_place() + 1
    }

    /// Where the capacities begin in the row of the inputs, behind the supplies.
    #[inline]
    pub fn capacities_begin(self) -> usize
        requires { width self < 2 ^ 63 }
        ensures place { result ≡ capacities_begin self }
        ensures within { result + self.arms ≤ width self }
    {
        self.arrived_place() + 1 + self.outs as usize
    }

    /// Where the weights begin in the row of the inputs, behind the capacities and up to its end.
    #[inline]
    pub fn weights_begin(self) -> usize
        requires { width self < 2 ^ 63 }
        ensures place { result ≡ weights_begin self }
        ensures within { result + self.destinations * self.outs ≡ width self }
    {
        self.arrived_place() + 1 + self.outs as usize + self.arms as usize
    }

    /// Where what an arm sends to a destination stands in the row of the inputs.
    #[inline]
    pub fn sending_place(self, arm: u32, destination: u32) -> usize
        requires fits { width self < 2 ^ 63 }
        requires arm { arm < self.arms }
        requires destination { destination < self.destinations }
        ensures place { result ≡ sending_place self arm destination }
        ensures within { result < width self }
    {
        arm as usize * self.destinations as usize + destination as usize
    }

    /// Where the count that has left an arm for a destination stands in the row of the inputs.
    #[inline]
    pub fn left_place(self, arm: u32, destination: u32) -> usize
        requires fits { width self < 2 ^ 63 }
        requires arm { arm < self.arms }
        requires destination { destination < self.destinations }
        ensures place { result ≡ left_place self arm destination }
        ensures within { result < width self }
    {
        let destinations = self.destinations as usize;
        self.arms as usize * destinations + (arm as usize * destinations + destination as usize)
    }

    /// Where the count that has entered an out-link for a destination stands in the row of the inputs.
    #[inline]
    pub fn entered_place(self, out: u32, destination: u32) -> usize
        requires fits { width self < 2 ^ 63 }
        requires out { out < self.outs }
        requires destination { destination < self.destinations }
        ensures place { result ≡ entered_place self out destination }
        ensures within { result < width self }
    {
        let destinations = self.destinations as usize;
        2 * (self.arms as usize * destinations)
            + (out as usize * destinations + destination as usize)
    }

    /// Where the count that has arrived stands in the row of the inputs.
    #[inline]
    pub fn arrived_place(self) -> usize
        requires { width self < 2 ^ 63 }
        ensures place { result ≡ arrived_place self }
        ensures within { result + self.outs + self.arms < width self }
    {
        let destinations = self.destinations as usize;
        2 * (self.arms as usize * destinations) + self.outs as usize * destinations
    }

    /// Where the supply of an out-link stands in the row of the inputs.
    #[inline]
    pub fn supply_place(self, out: u32) -> usize
        requires fits { width self < 2 ^ 63 }
        requires out { out < self.outs }
        ensures place { result ≡ supply_place self out }
        ensures within { result < width self }
    {
        self.supplies_begin() + out as usize
    }

    /// Where the capacity of an arm stands in the row of the inputs.
    #[inline]
    pub fn capacity_place(self, arm: u32) -> usize
        requires fits { width self < 2 ^ 63 }
        requires arm { arm < self.arms }
        ensures place { result ≡ capacity_place self arm }
        ensures within { result < width self }
    {
        self.capacities_begin() + arm as usize
    }

    /// Where the weights of a destination begin in the row of the inputs.
    #[inline]
    pub fn weights_place(self, destination: u32) -> usize
        requires fits { width self < 2 ^ 63 }
        requires destination { destination < self.destinations }
        ensures place { result ≡ weights_place self destination }
        ensures within { result + self.outs ≤ width self }
    {
        self.weights_begin() + destination as usize * self.outs as usize
    }

    /// Where the counts of an arm, or behind all arms of an out-link, begin in the row of the outputs.
    #[inline]
    #[tactic(auto, using(crate::proofs::Groups::group_within))]
    pub(crate) fn group_after_place(self, place: u32) -> usize
        requires fits { counts_width self < 2 ^ 63 }
        requires place { place < self.arms + self.outs }
        ensures place { result ≡ place * self.destinations }
        ensures within { result + self.destinations < counts_width self }
    {
        place as usize * self.destinations as usize
    }

    /// Where the count that has left an arm for a destination stands in the row of the outputs. The place behind an arm's last
    /// destination, where its counts end, may be asked for too.
    #[inline]
    pub fn left_after_place(self, arm: u32, destination: u32) -> usize
        requires fits { counts_width self < 2 ^ 63 }
        requires arm { arm < self.arms }
        requires destination { destination ≤ self.destinations }
        ensures place { result ≡ left_after_place self arm destination }
        ensures within { result < counts_width self }
    {
        arm as usize * self.destinations as usize + destination as usize
    }

    /// Where the count that has entered an out-link for a destination stands in the row of the outputs. The place behind an
    /// out-link's last destination, where its counts end, may be asked for too.
    #[inline]
    pub fn entered_after_place(self, out: u32, destination: u32) -> usize
        requires fits { counts_width self < 2 ^ 63 }
        requires out { out < self.outs }
        requires destination { destination ≤ self.destinations }
        ensures place { result ≡ entered_after_place self out destination }
        ensures within { result < counts_width self }
    {
        let destinations = self.destinations as usize;
        self.arms as usize * destinations + (out as usize * destinations + destination as usize)
    }

    /// Where the count that has arrived stands in the row of the outputs: it is the last.
    #[inline]
    pub fn arrived_after_place(self) -> usize
        requires { counts_width self < 2 ^ 63 }
        ensures place { result ≡ arrived_after_place self }
        ensures within { result < counts_width self }
    {
        let destinations = self.destinations as usize;
        self.arms as usize * destinations + self.outs as usize * destinations
    }
}
