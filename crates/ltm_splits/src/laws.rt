//! What the definitions of split rows mean, for whoever builds on them.
ghost use Rattle.std.specs.Prelude.{◌≡◌, ◌≢◌, ◌⊎◌, ◌↔◌, ℕ, ◌<◌, ◌≤◌, List, Some, None, IsSome, IsNone, IfSome, MatchOption, ⊤};
ghost use Rattle.ltm_splits.specs.declared.keys.SplitKey.{SplitKey};
ghost use Rattle.ltm_splits.specs.Rows.{SplitRow, IsOrdered, IsSilent, key_of, row_of, put_in, row_in_force, begins};
ghost use Rattle.ltm_splits.specs.Latest.{IsLatest};
ghost use Rattle.ltm_splits.specs.Table.{Entry};
ghost use Rattle.ltm_splits.specs.Entries.{entry_in_force};
ghost use Rattle.ltm_splits.specs.Replaced.{replaced};

/// In rows that are in the order of their keys:
///
/// - the least first slot of a node and a destination is 0 exactly where a row begins at slot 0;
/// - no row is in force at a slot exactly where none begins at or before it;
/// - the row in force at a slot is the one with the greatest first slot that is at most the slot.
///
/// The function does nothing: its contract holds the rules.
pub fn rules_of_rows()
    ensures start { (rows : List SplitRow) → IsOrdered rows → (node : ℕ) → (destination : ℕ) →
        (begins rows node destination ≡ Some 0) ↔ IsSome (row_of rows (key_of node destination 0)) }
    ensures none { (rows : List SplitRow) → IsOrdered rows → (node : ℕ) → (destination : ℕ)
        → (slot : ℕ) →
        IsNone (row_in_force rows node destination slot)
        ↔ MatchOption (begins rows node destination) ⊤ (λ from. slot < from) }
    ensures greatest { (rows : List SplitRow) → IsOrdered rows → (node : ℕ) → (destination : ℕ)
        → (slot : ℕ) →
        IfSome (row_in_force rows node destination slot) (IsLatest rows node destination slot) }
{}

/// A set leaves the row in force at other nodes, and at its own node in slots before the row's first.
#[tactic(auto, using(crate::proofs::Stays::in_force_stays))]
pub fn rows_stay()
    ensures { (rows : List SplitRow) (key : SplitKey) (weights : List ℕ) (node destination slot : ℕ)
        → IsSilent node slot key →
        row_in_force (put_in rows key weights) node destination slot
        ≡ row_in_force rows node destination slot }
{}

/// Other rows of a pair leave the rows in force of every other pair, and those of the pair itself are the new ones: the
/// last that begins at or before the slot.
#[tactic(auto, using(crate::proofs::Stays::others_in_force, crate::proofs::Stays::own_in_force))]
pub fn pair_stays()
    ensures others { (rows : List SplitRow) (n d : ℕ) (entries : List Entry)
        (node destination slot : ℕ) → ((node ≢ n) ⊎ (destination ≢ d)) →
        row_in_force (replaced rows n d entries) node destination slot
        ≡ row_in_force rows node destination slot }
    ensures own { (rows : List SplitRow) (n d : ℕ) (entries : List Entry) (slot : ℕ) →
        row_in_force (replaced rows n d entries) n d slot ≡ entry_in_force entries slot }
{}
