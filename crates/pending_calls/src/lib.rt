// The calls that change a pending flow cache in lent areas (pending_flows.rs).
#![tactic(auto)]

mod clearing;
mod counters;
mod removal;

pub use clearing::clear;
pub use counters::raised;
pub use removal::{Removed, label_test, remove, remove_none, remove_whole, stay_all};
