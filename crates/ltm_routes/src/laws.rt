//! What follows from the definition of routes alone.
ghost use Rattle.std.specs.Prelude.{◌≡◌, ℕ, ◌<◌, [], List, Ok, filter, length, true, false};
ghost use Rattle.ltm_splits.specs.Rows.{is_of};
ghost use Rattle.ltm_scenario.specs.Data.{ScenarioData};
ghost use Rattle.ltm_scenario.specs.IsScenario.{IsScenario};
ghost use Rattle.ltm_scenario.specs.Reads.{has_split};
ghost use Rattle.ltm_routes.specs.Split.{RoutesData, AreAllRoutes, KeepsRest, rows_from, route_splits, with_splits};
ghost use Rattle.ltm_routes.specs.Least.{routes_of};
ghost use Rattle.ltm_routes.specs.Missing.{all_routes_of, with_routes};

use ltm_diagram::limits_in_range;

/// There is one answer: two lists of routes for the same scenario are equal. The function does nothing.
#[tactic(auto, using(crate::proofs::One::all_one))]
pub fn routes_are_one()
    ensures { (s : ScenarioData) (a b : List RoutesData) → AreAllRoutes s a → AreAllRoutes s b
        → a ≡ b }
{}

/// And it is the one that is reckoned. The function does nothing.
#[tactic(auto, using(crate::proofs::There::all_there))]
pub fn routes_are_there()
    ensures { (s : ScenarioData) (all : List RoutesData) → IsScenario s → AreAllRoutes s all
        → all ≡ all_routes_of s }
{
    limits_in_range();
}

/// A node that has a row for a destination keeps its rows word for word; one that has none has its route split, and no other
/// row, where it has a route. The function does nothing.
#[tactic(auto, using(crate::proofs::Pairs::pair_stands, crate::proofs::Pairs::pair_routed))]
pub fn routes_stand()
    ensures stand { (s next : ScenarioData) (node destination : ℕ) → with_routes s ≡ Ok next
        → has_split s.splits node destination ≡ true
        → filter (is_of node destination) next.splits
        ≡ filter (is_of node destination) s.splits }
    ensures routed { (s next : ScenarioData) (node destination : ℕ) → with_routes s ≡ Ok next
        → node < length s.network.nodes → destination < length s.destinations
        → has_split s.splits node destination ≡ false
        → filter (is_of node destination) next.splits
        ≡ rows_from s destination (routes_of s destination) node }
{}

/// Where no row stands, all that are given are the route splits to all destinations. The function does nothing.
#[tactic(auto, using(crate::proofs::Pairs::all_are_missing))]
pub fn all_are_missing()
    ensures { (s : ScenarioData) (all : List RoutesData) → IsScenario s → AreAllRoutes s all
        → s.splits ≡ [] → with_routes s ≡ with_splits s (route_splits s all) }
{
    limits_in_range();
}

/// What has been given its routes lacks none. The function does nothing.
#[tactic(auto, using(crate::proofs::Settled::routes_settle, crate::proofs::Settled::routes_rest))]
pub fn routes_settle()
    ensures settled { (s next : ScenarioData) → with_routes s ≡ Ok next → with_routes next
        ≡ Ok next }
    ensures rest { (s next : ScenarioData) → with_routes s ≡ Ok next → KeepsRest s next }
{}
