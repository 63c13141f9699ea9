// Resizing a pending flow cache (pending_flows.rs).
#![tactic(auto)]

mod resizing;
mod shrinking;

pub use resizing::{ResizeRefusal, resize};
