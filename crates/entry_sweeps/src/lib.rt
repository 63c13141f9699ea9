// The sweeps of the entries of a table by a test on each entry alone, which need no array (docs/LAYOUT.md).
#![tactic(auto)]

mod packing_sweeps;
mod stay_sweeps;

pub use packing_sweeps::sweep_packing;
pub use stay_sweeps::sweep_staying;
