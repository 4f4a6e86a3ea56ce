//! Where something is in a network and in time.

/// A node, by its number in order of first being named.
#[derive(Clone, Copy, Debug, PartialEq, Eq, PartialOrd, Ord)]
pub struct NodeId(pub u32);

/// A link, by its number in order of adding.
#[derive(Clone, Copy, Debug, PartialEq, Eq, PartialOrd, Ord)]
pub struct LinkId(pub u32);

/// A node in a slot: the smallest piece of a loading that is computed at once.
#[derive(Clone, Copy, Debug, PartialEq, Eq, PartialOrd, Ord)]
pub struct Pair {
    pub node: NodeId,
    pub slot: u32,
}

/// The slots of a node from `from` up to, and without, `to`. It is empty where `from` is not below `to`.
#[derive(Clone, Copy, Debug, PartialEq, Eq)]
pub struct Reach {
    pub node: NodeId,
    pub from: u32,
    pub to: u32,
}
