// The steps of an offer (pending_flows.rs): room for the body and the body in it, the header.
#![tactic(auto)]

mod settling;
mod storing;

pub use settling::{count_drop, held_bodies, settle};
pub use storing::{add_body, choose_label};
