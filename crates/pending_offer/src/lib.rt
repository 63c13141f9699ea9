// Offering a body to a pending flow cache (pending_flows.rs).
#![tactic(auto)]

mod offering;

pub use offering::{OfferRefusal, cache};
