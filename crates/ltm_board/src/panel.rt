//! What is on a board, and what a post puts there.
ghost use Rattle.std.specs.Prelude.{◌≡◌, [], ◌∷◌, ◌++◌, take, IfOk, OnOk, OnErr};
ghost use Rattle.ltm_board.specs.Panels.{batches_in};

use crate::sheet::Sheet;
use left_right::Absorb;
use ltm_scenario::{Batch, Scenario};
use std::alloc::{AllocError, Global};
use std::snapshot::Snapshot;

/// The batches of each post on the opening scenario, of which nothing is kept; how many they are; and the sheet of the loading
/// after them.
pub struct Panel {
    pub opening: Snapshot<Scenario>,
    pub posts: Vec<Vec<Batch>>,
    pub count: u64,
    pub sheet: Sheet,
}

// By hand, so that letting go of a panel is one call.
impl Drop for Panel {
    fn drop(self) {
        let Panel {
            opening: _opening,
            posts: _posts,
            count: _count,
            sheet: _sheet,
        } = self;
    }
}

/// It keeps so many posts, which takes away what a refused post left, and puts one behind them.
#[derive(Drop)]
pub struct Posting {
    pub keeps: usize,
    pub batches: Vec<Batch>,
    pub count: u64,
    pub sheet: Sheet,
}

/// Equal batches.
pub(crate) fn copies(alloc: Global, batches: &[Batch]) -> Result<Vec<Batch>, AllocError>
    ensures { IfOk result (λ v. v.items ≡ batches.now) }
{
    let mut copies = Vec::with_capacity(alloc, batches.len())?;
    for batch in batches {
        match batch.try_copy() {
            Ok(copy) => copies.push(copy)?,
            Err(_) => return Err(AllocError),
        }
    }
    Ok(copies)
}

impl Absorb<Posting> for Panel {
    type State = (Scenario, [[Batch; 0]; 0], u64, Sheet);

    ghost state = { λ p. (p.opening.value, batches_in p.posts.items, p.count, p.sheet) };

    ghost applied = { λ st op. (st.0, take op.keeps st.1 ++ op.batches.items ∷ [], op.count, op.sheet) };

    fn absorb_first(&mut self, operation: &Posting, _other: &Panel) -> Result<(), AllocError> {
        let batches = copies(*self.posts.allocator(), &operation.batches)?;
        let Ok(sheet) = operation.sheet.try_copy() else {
            return Err(AllocError);
        };
        self.posts.reserve(1)?;
        self.posts.truncate(operation.keeps);
        self.posts.push(batches)?;
        self.count = operation.count;
        self.sheet = sheet;
        Ok(())
    }

    fn absorb_second(&mut self, operation: Posting, _other: &Panel) -> Result<(), Posting> {
        if self.posts.reserve(1).is_err() {
            return Err(operation);
        }
        let Posting {
            keeps,
            batches,
            count,
            sheet,
        } = operation;
        self.posts.truncate(keeps);
        self.posts.push_reserved(batches);
        self.count = count;
        self.sheet = sheet;
        Ok(())
    }
}
