// The steps of a resize: cutting to the new counts and sizes, and fitting what is left into the new total.
#![tactic(auto)]

mod cutting;
mod fitting;

pub use cutting::cut;
pub use fitting::{fit_places, fit_total};
