// Limits as numbers, opening a cache with limits, and the queries: each answer a number.
#![tactic(auto)]

mod opening;
mod queries;

pub use opening::{limits_from, open, validate_config};
pub use queries::{figures, place_handed_out, would_accept};
