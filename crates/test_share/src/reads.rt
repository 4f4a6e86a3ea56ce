//! What is read of a board of one road.
use ltm_board::Sheet;
use ltm_units::LinkId;

/// A read: how many batches the list has; generated, arrived, on links and waiting; what entered and left `a`.
#[derive(Clone, Copy, Debug, PartialEq, Eq)]
pub struct Read(pub [u64; 7]);

/// The opening loading: all 1000 units arrive.
pub const OPENING: Read = Read([0, 1000, 1000, 0, 0, 1000, 1000]);

/// The entry closed in slot 0: 500 units arrive, and 500 are on the link at the end.
pub const CLOSED: Read = Read([1, 1000, 500, 500, 0, 1000, 500]);

/// What a sheet of one road says.
pub fn read_of(length: u64, sheet: &Sheet) -> Read {
    if sheet.links() == 0 {
        return Read([0; 7]);
    }
    let totals = sheet.totals();
    let link = LinkId(0);
    Read([
        length,
        totals.generated.0,
        totals.arrived.0,
        totals.on_links.0,
        totals.waiting.0,
        sheet.entered(link).0,
        sheet.left(link).0,
    ])
}
