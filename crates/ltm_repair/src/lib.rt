//! - **What it is**: the theory of a repair: what any number of owners may do to a half-repaired loading, in any order,
//!   so that it ends as the loading of the edited scenario. A repair keeps of each pair of node and slot the inputs of
//!   its last node step. A pair that reads other numbers now is active or claimed; claims are of the front slot alone,
//!   where what a pair reads is final. What each call answers, and exactly when, stands in `specs/Answers.antt`; what
//!   holds at any time is `IsRepair`, whatever holds the state. (To repair a loading by the pairs that changed, after
//!   Himpe, Corthout and Tampère 2016; the order, the claims and the count are this engine's own.)
//! - **On what it stands**: `ltm_loading`.
//! - **What a call costs**: nothing: no code here runs, a law is the contract of a function with an empty body.
//! - **When to change it here**: where an event, an answer or a fact of the repair changes; code that makes the events
//!   proves that it does, and nothing here names it.
#![tactic(auto)]

mod laws;

pub use laws::{
    answers_are_events, applied_sets, batches_wake_touched, changed_are_forgotten,
    claims_are_solvable, claims_are_undone, claims_balance, claims_have_changed,
    commits_are_bounded, commits_are_differing, commits_are_useful, commits_differences,
    count_is_bounded, drains_are_exact, idle_is_front, index_stays_current, none_twice,
    one_road_is_repaired, opening_is_repair, others_wake_none, publishing_shows_all,
    rest_is_loading, runs_keep_facts, runs_take_nothing_back, settle_tells, settles_exactly,
    shown_is_loading, work_is_bounded,
};
