// The pending flow cache in lent areas (pending_flows.rs): its header, opening, and how many bodies a chance is for.
#![tactic(auto)]

mod chance;
mod header;
mod opening;
mod rows;

pub use chance::handed_count;
pub use header::{Header, HeaderFigures};
pub use opening::open;
