//! What all nodes read in a slot.
use crate::mail::Mail;
use ltm_totals::Totals;
use ltm_used::Used;

/// What all nodes read in a slot and none of them writes: the destinations that can be on each link and at each node, what had
/// entered and left each link by each boundary up to the slot, and what entered each link in the slot before.
#[derive(Drop)]
pub struct Tables {
    pub links: Used,
    pub nodes: Used,
    pub entered: Totals,
    pub left: Totals,
    pub mails: Vec<Mail>,
}
