//! Whether batches are equal.
ghost use Rattle.std.specs.Prelude.{◌≡◌, ◌↔◌, IsTrue};

use crate::batch::Batch;
use crate::edit::Edit;
use crate::weights::Weights;
use ltm_diagram::Diagram;
use ltm_units::{Name, Units};

fn same_name(a: &Name, b: &Name) -> bool
    ensures { IsTrue result ↔ (a.now ≡ b.now) }
{
    a == b
}

fn same_pairs(a: &[(Name, u32)], b: &[(Name, u32)]) -> bool
    ensures { IsTrue result ↔ (a.now ≡ b.now) }
{
    if let Some((x, xs)) = a.split_first() {
        if let Some((y, ys)) = b.split_first() {
            return same_name(&x.0, &y.0) && x.1 == y.1 && same_pairs(xs, ys);
        }
        return false;
    }
    b.is_empty()
}

fn same_weights(a: &Weights, b: &Weights) -> bool
    ensures { IsTrue result ↔ (a.now ≡ b.now) }
{
    same_pairs(a.pairs(), b.pairs())
}

fn same_row(a: &(u32, Weights), b: &(u32, Weights)) -> bool
    ensures { IsTrue result ↔ (a.now ≡ b.now) }
{
    a.0 == b.0 && same_weights(&a.1, &b.1)
}

fn same_rows(a: &[(u32, Weights)], b: &[(u32, Weights)]) -> bool
    ensures { IsTrue result ↔ (a.now ≡ b.now) }
{
    let mut left = a;
    let mut right = b;
    'rows: while let Some((x, xs)) = left.split_first() {
        let Some((y, ys)) = right.split_first() else {
            return false;
        };
        if !same_row(x, y) {
            return false;
        }
        left = xs;
        right = ys;
    }
    right.is_empty()
}

fn same_diagram(a: &Diagram, b: &Diagram) -> bool
    ensures { IsTrue result ↔ (a.now ≡ b.now) }
{
    a.length_m == b.length_m
        && a.free_kmh == b.free_kmh
        && a.wave_kmh == b.wave_kmh
        && a.jam_per_km == b.jam_per_km
}

fn same_units(a: Units, b: Units) -> bool
    ensures { IsTrue result ↔ (a ≡ b) }
{
    a.0 == b.0
}

/// Whether two edits are equal.
pub fn same_edit(a: &Edit, b: &Edit) -> bool
    ensures { IsTrue result ↔ (a.now ≡ b.now) }
{
    match (a, b) {
        (
            Edit::Demand {
                origin,
                destination,
                from,
                to,
                amount,
            },
            Edit::Demand {
                origin: o,
                destination: d,
                from: f,
                to: t,
                amount: n,
            },
        ) => same_name(origin, o)
            && same_name(destination, d)
            && *from == *f
            && *to == *t
            && same_units(*amount, *n),
        (
            Edit::Limit {
                link,
                from,
                to,
                amount,
            },
            Edit::Limit {
                link: l,
                from: f,
                to: t,
                amount: n,
            },
        ) => same_name(link, l) && *from == *f && *to == *t && same_units(*amount, *n),
        (
            Edit::Split {
                node,
                destination,
                from,
                weights,
            },
            Edit::Split {
                node: n,
                destination: d,
                from: f,
                weights: w,
            },
        ) => same_name(node, n)
            && same_name(destination, d)
            && *from == *f
            && same_weights(weights, w),
        (
            Edit::Splits {
                node,
                destination,
                rows,
            },
            Edit::Splits {
                node: n,
                destination: d,
                rows: r,
            },
        ) => same_name(node, n) && same_name(destination, d) && same_rows(rows.rows(), r.rows()),
        (
            Edit::Diagram { link, diagram },
            Edit::Diagram {
                link: l,
                diagram: d,
            },
        ) => same_name(link, l) && same_diagram(diagram, d),
        (
            Edit::Exit {
                link,
                from,
                to,
                amount,
            },
            Edit::Exit {
                link: l,
                from: f,
                to: t,
                amount: n,
            },
        ) => same_name(link, l) && *from == *f && *to == *t && same_units(*amount, *n),
        (Edit::Horizon { slots }, Edit::Horizon { slots: s }) => *slots == *s,
        _ => false,
    }
}

fn same_edits(a: &[Edit], b: &[Edit]) -> bool
    ensures { IsTrue result ↔ (a.now ≡ b.now) }
{
    if let Some((x, xs)) = a.split_first() {
        if let Some((y, ys)) = b.split_first() {
            return same_edit(x, y) && same_edits(xs, ys);
        }
        return false;
    }
    b.is_empty()
}

/// Whether two batches have the same edits, in the same order.
pub fn same_batch(a: &Batch, b: &Batch) -> bool
    ensures { IsTrue result ↔ (a.now ≡ b.now) }
{
    same_edits(a.edits(), b.edits())
}
