//! All rows of a node and a destination at once.
ghost use Rattle.std.specs.Prelude.{◌≡◌, ◌≢◌, ◌≤◌, All, length, true, Ok, Err, OnOk, OnErr, IfOk, IfErr};
ghost use Rattle.std.specs.List.{list_any};
ghost use Rattle.ltm_splits.specs.Weights.{AreWeights};
ghost use Rattle.ltm_splits.specs.Rows.{HaveWeights, is_of, with_rows};
ghost use Rattle.ltm_splits.specs.Replaced.{entries_of_pair, replaced, with_pair};

use crate::keys::SplitFault;
use crate::pair_rows::PairRows;
use crate::splits::Splits;
use ltm_units::NodeId;

impl Splits {
    /// How many rows the node and the destination have.
    fn count_of(&self, node: NodeId, destination: u32) -> usize
        ensures { result ≡ length (entries_of_pair self.now.rows node.0 destination) }
    {
        match self.table.pair(node, destination) {
            Some(pair) => pair.rows().len(),
            None => 0,
        }
    }

    /// Puts rows in place of all that a node and a destination have, and gives these. `put_back_pair` of them undoes it.
    ///
    /// It costs no look at any row, and memory only for the first rows of a node and a destination.
    pub fn exchange(
        &mut self,
        node: NodeId,
        destination: u32,
        rows: PairRows,
    ) -> Result<PairRows, SplitFault>
        requires { All (λ row. AreWeights row.1) rows }
        ensures ok { OnOk result (with_pair self.old node.0 destination rows ≡ Ok self.new) }
        ensures was { IfOk result (λ was. was ≡ entries_of_pair self.old.rows node.0 destination) }
        ensures err { OnErr result (self.new ≡ self.old) }
        ensures cause { IfErr result (λ e. e ≢ SplitFault.NoMemory
            → with_pair self.old node.0 destination rows ≡ Err e) }
        ensures have_weights { HaveWeights self.new.rows }

        // What was there is rows that can be put back, and that gives back the very rows.
        ensures back { IfOk result
            (λ was. replaced self.new.rows node.0 destination was ≡ self.old.rows) }
        ensures was_weights { IfOk result (λ was. All (λ row. AreWeights row.1) was) }
        ensures few { length self.old.rows ≤ self.old.most_rows }
    {
        let others = self.count - self.count_of(node, destination);
        let count = others + rows.rows().len();
        if count > self.most_rows as usize {
            return Err(SplitFault::TooManyRows);
        }
        match self.table.make_room(node, destination) {
            Ok(()) => {}
            Err(_) => return Err(SplitFault::NoMemory),
        }
        self.count = count;
        Ok(self.table.exchange(node, destination, rows))
    }

    /// Puts rows in place of all that a node and a destination have, which are some, as to undo an `exchange`. No memory is
    /// taken.
    pub fn put_back_pair(&mut self, node: NodeId, destination: u32, rows: PairRows)
        requires stands { list_any (is_of node.0 destination) self.old.rows ≡ true }
        requires weights { All (λ row. AreWeights row.1) rows }
        requires few { length (replaced self.old.rows node.0 destination rows)
            ≤ self.old.most_rows }
        ensures rows { self.new
            ≡ with_rows self.old (replaced self.old.rows node.0 destination rows) }
        ensures have_weights { HaveWeights self.new.rows }
    {
        let others = self.count - self.count_of(node, destination);
        self.count = others + rows.rows().len();
        let _was = self.table.exchange(node, destination, rows);
    }
}
