//! - **What it is**: travel times: when so many vehicles have left a link, how long a vehicle takes to pass it, and the
//!   time that all vehicles spend between their origins and their destinations. Delays: who stands in the queue of a link
//!   or waits at an origin, for how long, and when most of them do. A vehicle leaves a link as soon as so many have left
//!   it as had entered by the time it came (first in, first out). (Travel times as the horizontal distance of two
//!   cumulative curves: Newell 1993, Yperman 2007. Whole milliseconds and floored counts are this engine's own.) In the
//!   queue of a link stand those who could have left it at free speed and have not: all that the link's entry curve had a
//!   free-flow time ago, less what has left. (The vertical queue of Newell 1993.)
//! - **On what it stands**: `ltm_flows`: all is read off the curves of a finished loading.
//! - **What a call costs**: a moment is found by halving over boundaries and one division, a queue costs two divisions,
//!   and a sum over time is one pass over boundaries. Only `link_delays` takes memory, for its list and, while it runs, for
//!   the links' free-flow times in steps. With these it divides only where a curve is read between two totals that differ.
//! - **When to change it here**: where a time or a queue is read in another way.
#![tactic(auto)]

mod behind;
mod boundaries;
mod delays;
mod delays_by_link;
mod delays_in_all;
mod laws;
mod origins;
mod passing;
mod queues;
mod ready;
mod spending;

pub use boundaries::moment_of;
pub use delays::{DelayTotals, LinkDelay, LinkState, OriginDelay, OriginState, Peak};
pub use delays_by_link::link_delays;
pub use delays_in_all::{delay_totals, waited};
pub use laws::{
    delays_are_summed, left_was_produced, left_was_ready, peaks_are_first_greatest,
    queues_stand_on_links, spent_adds_up,
};
pub use origins::{origin_delay, origin_state, waiting};
pub use passing::{exit_ms, travel};
pub use queues::{link_state, queue};
pub use ready::past;
pub use spending::time_spent;
