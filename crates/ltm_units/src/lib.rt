//! - **What it is**: the words that every crate of the engine shares: amounts of traffic in whole thousandths of a vehicle,
//!   times in whole milliseconds, names, and the places of a loading; numbers read from texts, the pieces of written lines,
//!   and one to four values in order.
//! - **On what it stands**: `itoa`, for the digits of a number.
//! - **What a call costs**: one pass over the text or the parts that it is given; nothing allocates but what appends to a
//!   text.
//! - **When to change it here**: when a unit, the form of a name or the text of a number changes for all crates at once.
//!
//! `write_vehicles` is for callers outside: the crates above write an amount behind words.
#![tactic(auto)]

mod four;
mod names;
mod nested_split;
mod numbers;
mod places;
mod quantities;
mod share;
mod steps;
mod summing;
mod texts;

pub use four::Four;
pub use names::Name;
pub use nested_split::{shares_make_the_amount, shares_rise, whole_splits};
pub use numbers::{NumberFault, read_number, read_vehicles, read_whole};
pub use places::{LinkId, NodeId, Pair, Reach};
pub use quantities::{Millis, NoMemory, Units};
pub use share::share_of;
pub use steps::Steps;
pub use summing::sum_of;
pub use texts::{append, append_number, push_number, push_text, push_vehicles, write_vehicles};
