//! What follows from the definitions of lists alone. A law is the contract of a function that does nothing.
ghost use Rattle.ltm_board.specs.Leads.{ListsLead};

/// Where lists lead: an opening scenario alone to itself, one more batch further, and each list to one scenario.
pub fn lists_lead()
    ensures { ListsLead }
{}
