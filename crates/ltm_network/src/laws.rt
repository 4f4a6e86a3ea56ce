//! What follows from the data of a network alone. Each law is the contract of a function that does nothing.
ghost use Rattle.ltm_network.specs.IsNetwork.{NetworksStay, NamesAreFound};
ghost use Rattle.ltm_network.specs.Places.{LinksAtTheirPlaces};

/// Each link stands at one place among the links that leave its tail, in order of number, and at one among those that
/// enter its head.
pub fn links_at_their_places()
    ensures { LinksAtTheirPlaces }
{}

/// Links and nodes are found by their own names, and by no other.
pub fn names_are_found()
    ensures { NamesAreFound }
{}

/// What holds of the data of every network holds of an empty one and after each link that is added.
pub fn networks_stay_networks()
    ensures { NetworksStay }
{}
