//! Where a link leads.

/// The numbers of the nodes at the two ends of a link: it leads from `tail` to `head`.
#[derive(Clone, Copy)]
pub struct Ends {
    pub tail: u32,
    pub head: u32,
}
