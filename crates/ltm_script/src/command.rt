//! Commands, and why a line is none.
use ltm_scenario::Batch;
use ltm_units::Name;

/// What a line of a script asks for.
#[derive(Drop)]
pub enum Command {
    /// To make these edits, all or none: `{"do":"edit","edits":[..]}`.
    Edit(Batch),
    /// To tell of what is shown.
    Ask(Question),
    /// To show all edits, and to count what was computed anew: `{"do":"settle"}`.
    Settle,
}

/// What is asked of the loading that is shown.
#[derive(Drop)]
pub enum Question {
    /// The totals at the end: `{"do":"totals"}`.
    Totals,
    /// What has entered and left each link, and left each origin, by each boundary that lies a multiple of so many slots from
    /// the start, and by the last: `{"do":"totals","every":3}`.
    Samples { every: u32 },
    /// What has entered and left the link of this name: `{"do":"link","link":"a"}`.
    Link(Name),
    /// How long a vehicle takes to pass the link of this name that enters it at the beginning of the slot:
    /// `{"do":"time","link":"a","slot":3}`.
    Time { link: Name, slot: u32 },
    /// The time that all spend, stand in queues and wait at their origins: `{"do":"delay"}`.
    Delay,
    /// The queue of the link of this name at the boundary with this number: `{"do":"queue","link":"a","slot":3}`.
    Queue { link: Name, slot: u32 },
    /// Who waits at the origin of the node of this name at the boundary with this number:
    /// `{"do":"origin","node":"n1","slot":3}`.
    Origin { node: Name, slot: u32 },
    /// How all links and all origins stand at the boundary with this number: `{"do":"state","slot":3}`.
    State { slot: u32 },
    /// What has entered and left the link of this name by each boundary: `{"do":"curve","link":"a"}`.
    Curve { link: Name },
    /// What the origin of the node of this name has produced and what has left it by each boundary:
    /// `{"do":"departures","node":"n1"}`.
    Departures { node: Name },
    /// The time that all spend, queue and wait, and that of each link and of each origin: `{"do":"delays"}`.
    Delays,
    /// What those who travel spend, against the least that they could have: `{"do":"gap"}`.
    Gap,
}

/// Why a line is no command.
#[derive(Clone, Copy, Debug, PartialEq, Eq)]
pub enum CommandFault {
    /// It is no JSON value.
    NotJson,
    /// The value is no command. The place is 0 where the command itself is at fault, and else that of the first edit
    /// that is none, counted from 1.
    NotCommand(u32),
    /// Memory was not found.
    NoMemory,
}
