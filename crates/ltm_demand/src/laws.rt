//! Laws of the production of demand, for whoever loads it.
ghost use Rattle.std.specs.Prelude.{◌≡◌, ◌≤◌, ◌<◌, ℕ, List, All};
ghost use Rattle.ltm_units.specs.Sums.{sum_below};
ghost use Rattle.ltm_demand.specs.declared.row.DemandRow.{DemandRow};
ghost use Rattle.ltm_demand.specs.Produced.{by_end, origin_by_end, total, IsSilent};
ghost use Rattle.ltm_demand.specs.Rows.{edited_rows};
ghost use Rattle.ltm_demand.specs.Kept.{AreDemandRows};
ghost use Rattle.ltm_units.specs.Bounds.{most_produced};

/// What rows have produced never falls from slot to slot, and is at most their units, which are few.
pub fn production_never_falls()
    ensures rises { (rows : List DemandRow) (o d s t : ℕ) → s ≤ t
        → by_end rows o d s ≤ by_end rows o d t }
    ensures within { (rows : List DemandRow) (o d t : ℕ) → by_end rows o d t ≤ total rows }
    ensures small { (slots most : ℕ) (rows : List DemandRow) → AreDemandRows slots most rows
        → total rows ≤ most_produced }
{}

/// What the rows of an origin have produced for each destination adds up to what they have produced, which is at most
/// the units of all rows.
#[tactic(auto, using(crate::proofs::Destinations::destinations_add_up, crate::proofs::Destinations::origin_by_end_le))]
pub fn destinations_add_up()
    ensures sum { (count : ℕ) (rows : List DemandRow) (o t : ℕ)
        → All (λ row. row.destination < count) rows
        → sum_below count (λ d. by_end rows o d t) ≡ origin_by_end rows o t }
    ensures within { (rows : List DemandRow) (o t : ℕ) → origin_by_end rows o t ≤ total rows }
{}

/// A set leaves what other origins have produced, and what its own origin has by the end of a slot before the row's first.
#[tactic(auto, using(crate::proofs::Stays::by_end_stays))]
pub fn production_stays()
    ensures { (rows : List DemandRow) (row : DemandRow) (o d t : ℕ) → IsSilent o t row
        → by_end (edited_rows rows row) o d t ≡ by_end rows o d t }
{}
