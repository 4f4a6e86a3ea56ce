//! The header of a setup.
ghost use Rattle.std.specs.Prelude.{◌≡◌, ◌≤◌};
ghost use Rattle.csv.specs.Records.{fields_of};
ghost use Rattle.ltm_casefile.specs.Columns.{one_if, limits_field, cells_field, rows_field, links_field, destinations_field, moves_field, carry_field, history_field, routes_field, width_of, columns_of, is_setup_header};

use csv::ByteRecord;
use ltm_records::{has, width};

/// Which columns follow `step_ms,slots,origin_capacity` in the header of a setup.
#[derive(Clone, Copy)]
pub struct Columns {
    /// Whether a file of signals comes with the case.
    pub signals: bool,
    /// Whether a file of entry limits comes with the case.
    pub limits: bool,
    /// The most cells that the case may have.
    pub cells: bool,
    /// The most rows of demand, and the most split rows.
    pub rows: bool,
    /// The most links.
    pub links: bool,
    /// The most destinations.
    pub destinations: bool,
    /// Whether turns are floored whole.
    pub moves: bool,
    /// Whether what is left over of capacities is carried.
    pub carry: bool,
    /// Whether the history of a loading is kept.
    pub history: bool,
    /// Whether nodes without a split row take their routes.
    pub routes: bool,
}

fn one_if(there: bool) -> u32
    ensures count { result ≡ one_if there }
    ensures small { result ≤ 1 }
{
    if there { 1 } else { 0 }
}

impl Columns {
    /// Those of a header.
    #[tactic(auto, unfolding(crate::specs::Columns::columns_of))]
    pub fn of(header: &ByteRecord) -> Columns
        ensures { result ≡ columns_of (fields_of header.now) }
    {
        let signals = has(header, 3, b"signals");
        let limits_at = 3 + one_if(signals) as usize;
        let limits = has(header, limits_at, b"limits");
        let cells_at = limits_at + one_if(limits) as usize;
        let cells = has(header, cells_at, b"cells");
        let rows_at = cells_at + one_if(cells) as usize;
        let rows = has(header, rows_at, b"rows");
        let links_at = rows_at + one_if(rows) as usize;
        let links = has(header, links_at, b"links");
        let destinations_at = links_at + one_if(links) as usize;
        let destinations = has(header, destinations_at, b"destinations");
        let moves_at = destinations_at + one_if(destinations) as usize;
        let moves = has(header, moves_at, b"moves");
        let carry_at = moves_at + one_if(moves) as usize;
        let carry = has(header, carry_at, b"carry");
        let history_at = carry_at + one_if(carry) as usize;
        let history = has(header, history_at, b"history");
        let routes_at = history_at + one_if(history) as usize;
        let routes = has(header, routes_at, b"routes");
        Columns {
            signals,
            limits,
            cells,
            rows,
            links,
            destinations,
            moves,
            carry,
            history,
            routes,
        }
    }

    /// How many fields a record has.
    pub fn width(self) -> usize
        ensures { result ≡ width_of self }
    {
        let sizes = one_if(self.cells) + one_if(self.rows) + one_if(self.links);
        let rules = one_if(self.moves) + one_if(self.carry) + one_if(self.history);
        let others = one_if(self.destinations) + rules + one_if(self.routes);
        (3 + one_if(self.signals) + one_if(self.limits) + sizes + others) as usize
    }

    /// Where the field of the limits stands, counted from 1.
    pub fn limits_field(self) -> u32
        ensures field { result ≡ limits_field self }
        ensures small { result ≤ 5 }
    {
        4 + one_if(self.signals)
    }

    /// Where the field of the cells stands.
    pub fn cells_field(self) -> u32
        ensures field { result ≡ cells_field self }
        ensures small { result ≤ 6 }
    {
        self.limits_field() + one_if(self.limits)
    }

    /// Where the field of the rows stands.
    pub fn rows_field(self) -> u32
        ensures field { result ≡ rows_field self }
        ensures small { result ≤ 7 }
    {
        self.cells_field() + one_if(self.cells)
    }

    /// Where the field of the links stands.
    pub fn links_field(self) -> u32
        ensures field { result ≡ links_field self }
        ensures small { result ≤ 8 }
    {
        self.rows_field() + one_if(self.rows)
    }

    /// Where the field of the destinations stands.
    pub fn destinations_field(self) -> u32
        ensures field { result ≡ destinations_field self }
        ensures small { result ≤ 9 }
    {
        self.links_field() + one_if(self.links)
    }

    /// Where the field of the moves stands.
    pub fn moves_field(self) -> u32
        ensures field { result ≡ moves_field self }
        ensures small { result ≤ 10 }
    {
        self.destinations_field() + one_if(self.destinations)
    }

    /// Where the field of what is carried stands.
    pub fn carry_field(self) -> u32
        ensures field { result ≡ carry_field self }
        ensures small { result ≤ 11 }
    {
        self.moves_field() + one_if(self.moves)
    }

    /// Where the field of the history stands.
    pub fn history_field(self) -> u32
        ensures field { result ≡ history_field self }
        ensures small { result ≤ 12 }
    {
        self.carry_field() + one_if(self.carry)
    }

    /// Where the field of the routes stands.
    pub fn routes_field(self) -> u32
        ensures { result ≡ routes_field self }
    {
        self.history_field() + one_if(self.history)
    }
}

/// Whether the record is `step_ms,slots,origin_capacity`, then any of `signals`, `limits`, `cells`, `rows`, `links`,
/// `destinations`, `moves`, `carry`, `history` and `routes` in this order.
pub fn is_setup_header(row: &ByteRecord) -> bool
    ensures { result ≡ is_setup_header (fields_of row.now) }
{
    has(row, 0, b"step_ms")
        && has(row, 1, b"slots")
        && has(row, 2, b"origin_capacity")
        && width(row) == Columns::of(row).width()
}
