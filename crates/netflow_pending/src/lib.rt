// The calls of document 01 for programs in C and Rust: numbers and slices only.
#![tactic(auto)]

mod budget;
mod cache;
mod framing;

pub use budget::{
    netflow_budget_is_exceeded, netflow_budget_limits, netflow_budget_materialize_pending,
    netflow_budget_new, netflow_budget_remaining, netflow_budget_reserve, netflow_budget_reset,
    netflow_budget_rollback, netflow_budget_set_limits, netflow_budget_take_exceeded,
    netflow_budget_validate_pending_full_budget, netflow_budget_validate_pending_remaining,
};
pub use cache::{
    netflow_pending_cache, netflow_pending_clear, netflow_pending_drain, netflow_pending_figures,
    netflow_pending_open, netflow_pending_place_handed_out, netflow_pending_resize,
    netflow_pending_restore_replay_suffix, netflow_pending_validate_config,
    netflow_pending_would_accept,
};
pub use framing::{
    netflow_preflight_ipfix_fixed, netflow_preflight_ipfix_variable, netflow_preflight_v9_fixed,
};
