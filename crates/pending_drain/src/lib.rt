// Draining a pending flow cache (pending_flows.rs).
#![tactic(auto)]

mod draining;

pub use draining::drain;
