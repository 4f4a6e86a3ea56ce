//! - **What it is**: what the roads and the demand of a case make of it by least free-flow routes: a whole `splits.csv`, or
//!   the times that the routes take. The file is proved to be read back as exactly the route splits.
//! - **On what it stands**: `ltm_casefile`, which reads the roads and checks the case, `ltm_routes`, which finds the routes,
//!   and `ltm_report`, which writes the lines.
//! - **What a call costs**: the routes to each destination, which is about `(links + nodes) log nodes` steps each, and a line
//!   for each node and destination; the text is made whole before it is given out.
//! - **When to change it here**: when the split rows of routes are written in another way, or others of them.
#![tactic(auto)]

mod lines;
mod names;
mod routing;
mod texts;

pub use lines::RouteLines;
pub use routing::route_text;
