//! How a board is opened.
ghost use Rattle.std.specs.Prelude.{◌≡◌, [], drop, IfOk};
ghost use Rattle.left_right.specs.Sides.{view};
ghost use Rattle.ltm_board.specs.Lists.{list_of, opening_posts, IsSheetAfter};
ghost use Rattle.ltm_board.specs.Panels.{posts_of, IsRight};

use crate::looking::BoardReader;
use crate::panel::Panel;
use crate::posting::BoardWriter;
use crate::rule::{Looks, Opens};
use crate::sheet::Sheet;
use left_right::writer::Writer;
use ltm_scenario::Scenario;
use std::alloc::{AllocError, Global};
use std::snapshot::Snapshot;
use std::sync::Wait;

fn panel_of(alloc: Global, opening: &Scenario, sheet: Sheet) -> Panel
    ensures { (result.opening.value ≡ opening.now) × (result.posts.items ≡ []) × (result.count ≡ 0)
        × (result.sheet ≡ sheet) }
{
    Panel {
        opening: Snapshot::of(opening),
        posts: Vec::new(alloc),
        count: 0,
        sheet,
    }
}

/// A writer that shows the opening alone.
pub(crate) fn open<R: Wait>(
    rt: &R,
    alloc: Global,
    opening: &Scenario,
    sheet: Sheet,
    copy: Sheet,
) -> Result<BoardWriter, AllocError>
    requires right { IsSheetAfter (list_of opening.now []) sheet }
    requires copy { copy ≡ sheet }
    ensures right { IfOk result (λ w. IsRight w.desk.shown.value) }
    ensures list { IfOk result (λ w. posts_of w.desk.shown.value ≡ opening_posts opening.now) }
    ensures sheet { IfOk result (λ w. w.desk.shown.value.sheet ≡ sheet) }
    ensures seen { IfOk result (λ w. (view w.desk.place).seen ≡ opening_posts opening.now) }
    ensures waiting { IfOk result (λ w. drop w.behind w.log.items ≡ []) }
{
    let first = panel_of(alloc, opening, sheet);
    let second = panel_of(alloc, opening, copy);
    let writer: BoardWriter = Writer::new(alloc, first, second, 1)?;
    let (writer, done) = writer.publish_as::<Looks, R>(rt);
    match done {
        Ok(()) => return Ok(writer),
        Err(fault) => {
            drop(writer.take(rt));
            return Err(fault);
        }
    }
}

/// The reader of a board that shows the opening alone. It is told of the opening, once and for all.
pub(crate) fn seat(writer: &mut BoardWriter) -> Result<BoardReader, AllocError>
    ensures writer { (writer.new.desk.shown ≡ writer.old.desk.shown)
        × (writer.new.log ≡ writer.old.log) × (writer.new.behind ≡ writer.old.behind) }
    ensures seen { IfOk result (λ r. (view r.place).seen ≡ (view writer.old.desk.place).seen) }
{
    let mut reader = writer.factory().reader()?;
    reader.learn::<Opens>(writer.tell::<Opens>());
    Ok(reader)
}
