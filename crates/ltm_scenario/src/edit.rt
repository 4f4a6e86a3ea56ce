//! Edits of a scenario, and why one is refused.
use crate::split_rows::SplitRows;
use crate::weights::Weights;
use ltm_diagram::{Diagram, DiagramFault};
use ltm_units::{Name, NoMemory, Units};

/// A change of a scenario, by names. Slots run from `from` up to, and without, `to`.
#[derive(Drop)]
pub enum Edit {
    /// Sets the demand from an origin to a destination over the slots; an amount of 0 takes the row out.
    Demand {
        origin: Name,
        destination: Name,
        from: u32,
        to: u32,
        amount: Units,
    },
    /// Sets the entry limit of a link in each of the slots, in thousandths of a vehicle.
    Limit {
        link: Name,
        from: u32,
        to: u32,
        amount: Units,
    },
    /// Sets the split row of a node and a destination that begins at the slot `from`; an out-link that is not named has
    /// weight 0.
    Split {
        node: Name,
        destination: Name,
        from: u32,
        weights: Weights,
    },
    /// Puts split rows in place of all that a node has for a destination.
    Splits {
        node: Name,
        destination: Name,
        rows: SplitRows,
    },
    /// Replaces the diagram of a link for the whole horizon.
    Diagram {
        link: Name,
        diagram: Diagram,
    },
    /// Sets the exit limit of a link in each of the slots, in thousandths of a vehicle.
    Exit {
        link: Name,
        from: u32,
        to: u32,
        amount: Units,
    },
    /// Raises the horizon to that many slots. The entry and exit limits of the new slots are those that were never set; rows
    /// of demand and split rows stay.
    Horizon {
        slots: u32,
    },
}

impl Edit {
    ghost use Rattle.std.specs.Prelude.{◌≡◌, IfOk};
    ghost use Rattle.ltm_scenario.specs.Edits.{amount_of, slots_after};

    /// The amount of the edit, 0 where its kind has none.
    pub fn amount(&self) -> Units
        ensures { result.0 ≡ amount_of self.now }
    {
        match *self {
            Edit::Demand { amount, .. } | Edit::Limit { amount, .. } | Edit::Exit { amount, .. } =>
                amount,
            Edit::Split { .. }
            | Edit::Splits { .. }
            | Edit::Diagram { .. }
            | Edit::Horizon { .. } => Units(0),
        }
    }

    /// The horizon once the edit is accepted, where it was that many slots.
    pub fn slots_after(&self, slots: u32) -> u32
        ensures { result ≡ slots_after slots self.now }
    {
        match *self {
            Edit::Horizon { slots: more } => more,
            Edit::Demand { .. }
            | Edit::Limit { .. }
            | Edit::Split { .. }
            | Edit::Splits { .. }
            | Edit::Diagram { .. }
            | Edit::Exit { .. } => slots,
        }
    }

    /// An equal edit, its rows on the same allocator.
    pub fn try_copy(&self) -> Result<Edit, NoMemory>
        ensures { IfOk result (λ copy. copy ≡ self.now) }
    {
        match self {
            Edit::Demand {
                origin,
                destination,
                from,
                to,
                amount,
            } => Ok(Edit::Demand {
                origin: *origin,
                destination: *destination,
                from: *from,
                to: *to,
                amount: *amount,
            }),
            Edit::Limit {
                link,
                from,
                to,
                amount,
            } => Ok(Edit::Limit {
                link: *link,
                from: *from,
                to: *to,
                amount: *amount,
            }),
            Edit::Split {
                node,
                destination,
                from,
                weights,
            } => Ok(Edit::Split {
                node: *node,
                destination: *destination,
                from: *from,
                weights: *weights,
            }),
            Edit::Splits {
                node,
                destination,
                rows,
            } => Ok(Edit::Splits {
                node: *node,
                destination: *destination,
                rows: rows.try_copy()?,
            }),
            Edit::Diagram { link, diagram } => Ok(Edit::Diagram {
                link: *link,
                diagram: *diagram,
            }),
            Edit::Exit {
                link,
                from,
                to,
                amount,
            } => Ok(Edit::Exit {
                link: *link,
                from: *from,
                to: *to,
                amount: *amount,
            }),
            Edit::Horizon { slots } => Ok(Edit::Horizon { slots: *slots }),
        }
    }
}

/// Why an edit is refused.
#[derive(Clone, Copy, Debug, PartialEq, Eq)]
pub enum EditCause {
    /// No node or link has the name, or a weight's link is no out-link of the node.
    UnknownName,
    /// The node is no destination.
    UnknownDestination,
    /// The origin has no out-link.
    NoOrigin,
    /// The origin, or the node of a split row, is the destination.
    SameEnds,
    /// The slots are none, or go past the horizon; or the first row of a pair does not begin at slot 0, or another not behind
    /// the one before it; or a new horizon is no longer than the old one, or above 10,000 slots.
    BadSlots,
    /// The origin and the destination have no split row; or the row would be the first of its node and destination and
    /// begin late; or a weight leads to a node that is not the destination and has no split row for it.
    OpenSplit,
    /// All weights are 0.
    ZeroWeight,
    /// There would be more demand rows, or more split rows, than the case may have.
    TooManyRows,
    /// The diagram sets no limits at the step of the setup.
    Diagram(DiagramFault),
    /// Over the new horizon the cells would be more than the setup allows; this many.
    CellsOver(u128),
    /// Memory was not found.
    NoMemory,
}

impl From<NoMemory> for EditCause {
    ghost use Rattle.std.specs.Prelude.{◌≡◌};
    ghost use Rattle.ltm_scenario.specs.declared.edit.EditCause.TheVariants as cause;

    ghost from_gives = { λ _ e. e ≡ cause.NoMemory };

    fn from(_e: NoMemory) -> EditCause {
        EditCause::NoMemory
    }
}

/// The first edit of a batch that is refused.
#[derive(Clone, Copy, Debug, PartialEq, Eq)]
pub struct EditFault {
    /// Its place, counted from 1. Where memory was not found the place says nothing.
    pub place: u32,
    pub cause: EditCause,
}
