//! The end that reads, and learns what was published.
ghost use Rattle.std.specs.Prelude.{◌≡◌, ◌+◌, ◌∷◌, length};
ghost use Rattle.left_right.specs.Sides.{view};
ghost use Rattle.ltm_board.specs.Begins.{BeginsWith};
ghost use Rattle.ltm_board.specs.Sheets.{links_on};
ghost use Rattle.ltm_board.specs.Lists.{entries_of_posts, opening_of, IsSheetAfter};
ghost use Rattle.ltm_board.specs.Known.{newest, lists_of, HasSeen};
ghost use Rattle.ltm_board.specs.Boards.{viewer_opening, viewer_lists, viewer_links, note_opening, note_list};

use crate::looking::{BoardReader, Found, find_in, read_in};
use crate::note::Note;
use crate::sheet::Sheet;
use crate::told::Told;
use std::marker::Model;
use std::snapshot::Snapshot;
use std::sync::Wait;

/// The end that reads, which may be in another thread. Contracts see the lists that it knows: `viewer_lists`.
pub struct Viewer {
    reader: Option<BoardReader>,
    told: Told,
}

// By hand, so that letting go of a viewer is one call.
impl Drop for Viewer {
    fn drop(self) {
        let Viewer {
            reader: _reader,
            told: _told,
        } = self;
    }
}

impl Model for Viewer {
    ghost use Rattle.std.specs.Prelude.{◌≡◌, true, is_some, [], IfSome};
    ghost use Rattle.ltm_board.specs.Lists.{opening_of};
    ghost use Rattle.ltm_board.specs.Known.{lists_of, HasSeen};
    ghost use Rattle.ltm_board.specs.Boards.{ViewerData, of_some};

    ghost Value = { ViewerData };

    ghost view = { λ v. record { opening = opening_of (of_some [] (λ r. r.place.me.0.client.seen) v.reader); known = lists_of v.told } };

    ghost invariant = { λ v. (is_some v.reader ≡ true) × IfSome v.reader (λ r. HasSeen r.place.me.0.client.seen (lists_of v.told)) };
}

impl Viewer {
    /// A viewer that knows these lists.
    pub(crate) fn of(reader: BoardReader, told: Told) -> Viewer
        requires { HasSeen (view reader.place).seen (lists_of told) }
        ensures opening { viewer_opening result ≡ opening_of (view reader.place).seen }
        ensures lists { viewer_lists result ≡ lists_of told }
    {
        Viewer {
            reader: Some(reader),
            told,
        }
    }

    /// Gives a sheet, and answers how many batches are in the list that was read. The sheet is that of the loading of the
    /// opening scenario after the list; the list begins, post by post, with each list that this viewer read before, and with
    /// that of each note that it learnt. It takes no memory, and waits for no post.
    pub fn read<R: Wait>(&mut self, rt: &R, into: &mut Sheet) -> u64
        requires { links_on into.old ≡ viewer_links self.old }
        ensures list { viewer_lists self.new
            ≡ newest (viewer_lists self.new) ∷ viewer_lists self.old }
        ensures begins { BeginsWith (newest (viewer_lists self.new)) (viewer_lists self.old) }
        ensures sheet { IsSheetAfter (entries_of_posts (newest (viewer_lists self.new))) into.new }
        ensures count { result + 1 ≡ length (entries_of_posts (newest (viewer_lists self.new))) }
        ensures viewer { (viewer_opening self.new ≡ viewer_opening self.old)
            × (viewer_links self.new ≡ viewer_links self.old) }
        ensures links { links_on into.new ≡ links_on into.old }
    {
        let Some(reader) = self.reader.take() else {
            unreachable!()
        };
        let (Found { count, panel }, reader) = read_in(rt, reader, into);
        self.reader = Some(reader);
        self.told = Told::Then(panel, Snapshot::of(&self.told));
        count
    }

    /// Takes a note in: each later read begins with its list. It looks until the list that it finds does, as it does at the
    /// first look where the note is of its own board; at a note of another board with an equal opening it may look for ever.
    pub fn learn<R: Wait>(&mut self, rt: &R, note: Note<'_>)
        requires { note_opening note ≡ viewer_opening self.old }
        ensures lists { viewer_lists self.new ≡ note_list note.entry ∷ viewer_lists self.old }
        ensures viewer { (viewer_opening self.new ≡ viewer_opening self.old)
            × (viewer_links self.new ≡ viewer_links self.old) }
    {
        let Some(reader) = self.reader.take() else {
            unreachable!()
        };
        let reader = find_in(rt, reader, note.panel);
        self.reader = Some(reader);
        self.told = Told::Then(Snapshot::of(note.panel), Snapshot::of(&self.told));
    }
}
