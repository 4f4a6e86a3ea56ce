//! Which slots read which boundary of a link.
ghost use Rattle.std.specs.Prelude.{◌≡◌, ◌<◌, ◌≤◌, IfOk};
ghost use Rattle.ltm_index.specs.Lists.{links_listed, slots_listed};

use ltm_index::ReadIndex;
use ltm_units::LinkId;
use std::alloc::Global;

/// Whether these are the slots in the list of a boundary, in order.
fn are_readers(index: &ReadIndex, link: LinkId, boundary: u32, slots: &[u32]) -> bool
    requires link { link.0 < links_listed index.now }
    requires boundary { boundary ≤ slots_listed index.now }
{
    let mut at = index.next_reader(link, boundary, None);
    for want in slots {
        match at {
            Some(slot) if slot == *want => at = index.next_reader(link, boundary, Some(slot)),
            _ => return false,
        }
    }
    at.is_none()
}

/// Places a slot of link 1.
fn move_to(index: &mut ReadIndex, slot: u32, boundary: u32)
    requires links { links_listed index.old ≡ 2 }
    requires slots { slots_listed index.old ≡ 3 }
    ensures links { links_listed index.new ≡ 2 }
    ensures slots { slots_listed index.new ≡ 3 }
{
    if slot >= 3 {
        return;
    }
    index.place(LinkId(1), slot, boundary.min(3));
}

/// Whether the lists of link 1 are these.
fn are_lists(index: &ReadIndex, lists: &[&[u32]; 4]) -> bool
    requires links { links_listed index.now ≡ 2 }
    requires slots { slots_listed index.now ≡ 3 }
{
    let link = LinkId(1);
    are_readers(index, link, 0, lists[0])
        && are_readers(index, link, 1, lists[1])
        && are_readers(index, link, 2, lists[2])
        && are_readers(index, link, 3, lists[3])
}

/// A slot, the boundary to which it is moved, and the lists of link 1 then.
type Row<'a> = (u32, u32, [&'a [u32]; 4]);

/// The place of the first row after which a list is another; none where each is as it should be.
fn first_otherwise(index: &mut ReadIndex, rows: &[Row<'_>]) -> Option<usize>
    requires links { links_listed index.old ≡ 2 }
    requires slots { slots_listed index.old ≡ 3 }
    ensures links { links_listed index.new ≡ 2 }
    ensures slots { slots_listed index.new ≡ 3 }
{
    for (place, (slot, boundary, lists)) in rows.iter().enumerate() {
        move_to(index, *slot, *boundary);
        if !are_lists(index, lists) {
            return Some(place);
        }
    }
    None
}

/// The first row after which a list of link 1 is another, and whether the slot of link 0 stays where it is.
fn moved(alloc: Global, rows: &[Row<'_>]) -> Option<(Option<usize>, bool)> {
    match ReadIndex::create(alloc, 2, 3) {
        Ok(mut index) => {
            index.place(LinkId(0), 2, 1);
            let otherwise = first_otherwise(&mut index, rows);
            Some((otherwise, are_readers(&index, LinkId(0), 1, &[2])))
        }
        Err(_) => None,
    }
}

// Slots of link 1 are placed one after another, and after each call every list of it is compared.
#[test]
fn slots_are_placed(rt: HostRuntime) {
    let rows: [Row<'_>; 7] = [
        (0, 1, [&[], &[0], &[], &[]]),
        (1, 1, [&[], &[1, 0], &[], &[]]),
        (2, 1, [&[], &[2, 1, 0], &[], &[]]),
        (1, 3, [&[], &[2, 0], &[], &[1]]),
        (0, 1, [&[], &[0, 2], &[], &[1]]),
        (2, 0, [&[2], &[0], &[], &[1]]),
        (0, 0, [&[0, 2], &[], &[], &[1]]),
    ];
    assert_eq!(rt; moved(rt.alloc(), &rows), Some((None, true)));
}
