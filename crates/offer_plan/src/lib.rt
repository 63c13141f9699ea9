// What an offer to a pending flow cache decides before anything is written (pending_flows.rs).
#![tactic(auto)]

mod evictions;
mod live_tests;
mod plan;

pub use plan::{OfferPlan, plan_offer, skip_planned};
